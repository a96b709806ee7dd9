//! Offices over a site, and the events that happen to them.
ghost use Rattle.std.specs.Prelude.{IfOk};
ghost use Rattle.point_list.specs.Sites.{IsSound};

use crate::steps::{Happens, rows, states, take_happening, total};
use mb_mbap::Frame;
use mb_pdu::{Span, Unit};
use office_core::{Event, Office, OfficeError};
use point_list::{Items, ListFault, Site, Text, read_site};
use poll_book::{Caller, Keeper, Key, StoreFault};
use poll_match::Conn;
use read_planner::Read;
use std::alloc::Global;

pub const MEMORY: OfficeError = OfficeError::Store(StoreFault::Memory);

pub const HEADER: &str = "name,device,table,address,type,length,scale,role,roll\n";

/// The header of a list that says the order of registers.
pub const WORDS_HEADER: &str = "name,device,table,address,type,length,scale,role,roll,words\n";

/// Two lines, each with a device of its own, of which the first has a chain of models.
pub const TWO: &str =
    "[[line]]\nname = \"roof\"\naddress = \"127.0.0.1:502\"\n[[line]]\nname = \"cellar\"\naddress = \"127.0.0.1:503\"\n[[device]]\nname = \"m1\"\nline = \"roof\"\nunit = 17\ngap = 8\nmodels = [[1, 40002, 66], [103, 40070, 50]]\n[[device]]\nname = \"m2\"\nline = \"cellar\"\nunit = 17\n";

/// The roof without its device.
pub const BARE: &str =
    "[[line]]\nname = \"roof\"\naddress = \"127.0.0.1:502\"\n[[device]]\nname = \"m2\"\nline = \"roof\"\nunit = 17\n";

pub fn site(alloc: Global, text: &str) -> Result<Site, OfficeError>
    ensures { IfOk result (λ site. IsSound site) }
{
    match read_site(alloc, text.as_bytes()) {
        Ok(site) => Ok(site),
        Err(e) if e.fault == ListFault::Memory => Err(MEMORY),
        Err(_) => Err(OfficeError::NoRead),
    }
}

/// An office of a site over a keeper, or its refusal. Refused memory ends the attempt.
pub fn begun<K: Keeper + Drop>(
    alloc: Global,
    keeper: K,
    text: &str,
) -> Result<Result<Office<K>, (OfficeError, K)>, OfficeError> {
    Ok(Office::new(alloc, keeper, site(alloc, text)?))
}

/// An office of the two lines over a keeper.
pub fn office_over<K: Keeper + Drop>(alloc: Global, keeper: K) -> Result<Office<K>, OfficeError> {
    begun(alloc, keeper, TWO)?.map_err(|(error, _)| error)
}

/// Takes what happens, in its order.
fn take_all<K: Keeper>(
    alloc: Global,
    office: &mut Office<K>,
    all: &[Happens],
) -> Result<(), OfficeError> {
    for happens in all {
        take_happening(alloc, office, happens)?;
    }
    Ok(())
}

/// An office of the two lines over a keeper, to which this has happened.
pub fn office_after<K: Keeper + Drop>(
    alloc: Global,
    keeper: K,
    all: &[Happens],
) -> Result<Office<K>, OfficeError> {
    let mut office = office_over(alloc, keeper)?;
    take_all(alloc, &mut office, all)?;
    Ok(office)
}

/// The caller of all requests, and a key of it.
pub fn named(key: &str) -> Result<(Caller, Key), OfficeError> {
    match (Caller::new("ann"), Key::new(key)) {
        (Some(caller), Some(key)) => Ok((caller, key)),
        _ => Err(OfficeError::NoRead),
    }
}

/// A list of these records, under a key.
pub fn list(alloc: Global, key: &str, records: &str) -> Result<Event, OfficeError> {
    list_under(alloc, key, HEADER, records)
}

/// The same below a header.
pub fn list_under(
    alloc: Global,
    key: &str,
    header: &str,
    records: &str,
) -> Result<Event, OfficeError> {
    let (caller, key) = named(key)?;
    let mut bytes = Vec::from_slice(alloc, header.as_bytes())?;
    bytes.extend_from_slice(records.as_bytes())?;
    Ok(Event::Load(caller, key, Items::from_vec(bytes)))
}

/// An order of a value for a point, under a key.
pub fn order(alloc: Global, key: &str, point: &str, value: i128) -> Result<Event, OfficeError> {
    let (caller, key) = named(key)?;
    Ok(Event::Order(caller, key, text(alloc, point)?, value))
}

/// A slot of a counter that doesn't count, under a key.
pub fn void(alloc: Global, key: &str, point: &str, slot: u32) -> Result<Event, OfficeError> {
    let (caller, key) = named(key)?;
    Ok(Event::Void(caller, key, text(alloc, point)?, slot))
}

pub fn text(alloc: Global, name: &str) -> Result<Text, OfficeError> {
    Ok(Text::from_string(String::from_str(alloc, name)?))
}

pub fn frame(transaction: u16, unit_id: u8, bytes: &[u8]) -> Result<Frame, OfficeError> {
    let unit = Unit::from_bytes(bytes).ok_or(OfficeError::WrongReply)?;
    Ok(Frame {
        transaction,
        unit_id,
        unit,
    })
}

pub fn event_of(alloc: Global, happens: &Happens) -> Result<Event, OfficeError> {
    match *happens {
        Happens::Load(key, records) => list(alloc, key, records),
        Happens::LoadOrdered(key, records) => list_under(alloc, key, WORDS_HEADER, records),
        Happens::Order(key, point, value) => order(alloc, key, point, value),
        Happens::Void(key, point, slot) => void(alloc, key, point, slot),
        Happens::Send(conn, number) => Ok(Event::Send(Conn::new(conn), number)),
        Happens::Open(line) => Ok(Event::Open(text(alloc, line)?)),
        Happens::Ask(conn, device, slot, (function, start, quantity)) => {
            let span = Span { start, quantity };
            let read = Read { function, span };
            Ok(Event::Ask(Conn::new(conn), text(alloc, device)?, slot, read))
        }
        Happens::Arrive(conn, transaction, unit_id, bytes) => {
            let frame = frame(transaction, unit_id, bytes)?;
            Ok(Event::Arrive(Conn::new(conn), frame))
        }
        Happens::Restart => Ok(Event::Restart),
    }
}

/// The events of happenings, in their order.
pub fn events_of(alloc: Global, all: &[Happens]) -> Result<Vec<Event>, OfficeError> {
    let mut events = Vec::with_capacity(alloc, all.len())?;
    for happens in all {
        let _ = events.push(event_of(alloc, happens)?);
    }
    Ok(events)
}

fn add_point<K: Keeper>(
    text: &mut String,
    office: &mut Office<K>,
    point: &str,
) -> Result<(), OfficeError> {
    let rows = rows(office, point, 0, u32::MAX)?;
    let total = total(office, point)?;
    Ok(writeln!(text, "{point} {rows:?} {total:?}")?)
}

/// An office's points, readings, totals and orders as text.
pub fn shown<K: Keeper>(alloc: Global, office: &mut Office<K>) -> Result<String, OfficeError> {
    let mut text = String::new(alloc);
    for point in ["a", "b", "c", "e", "f"] {
        add_point(&mut text, office, point)?;
    }
    let states = states(alloc, office)?;
    writeln!(text, "{states:?}")?;
    write!(text, "{} points", office.points().len())?;
    Ok(text)
}
