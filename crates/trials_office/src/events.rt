//! What happened, as events of an office.
use crate::model::{
    Brought, Happened, Reply, Row, Wanted, has_orders, is_faulty, register, rows_of,
};
use office_core::{Event, OfficeError};
use office_plays::builders::{self, HEADER, WORDS_HEADER, frame, list_under, order, void};
use office_plays::steps::Happens;
use point_list::Role;
use poll_match::Conn;
use std::alloc::{AllocError, Global};

/// The columns of a point up to the ninth.
fn push_columns(text: &mut String, row: &Row) -> Result<(), AllocError> {
    let (name, address) = (row.name, row.address);
    let kind = match row.registers {
        1 => "uint16",
        2 => "uint32",
        _ => "uint64",
    };
    write!(text, "{name},m1,holding,{address},{kind},,,")?;
    match row.role {
        Role::Counter => write!(text, "counter,{}", row.roll)?,
        Role::Gauge => text.push_str("gauge,")?,
        Role::Setting => text.push_str("setting,")?,
    }
    Ok(())
}

fn records(alloc: Global, list: u32) -> Result<String, AllocError> {
    let mut text = String::new(alloc);
    for row in rows_of(list) {
        push_columns(&mut text, &row)?;
        if has_orders(list) {
            text.push_str(if row.is_swapped { ",swapped" } else { "," })?;
        }
        text.push('\n')?;
    }
    if is_faulty(list) {
        text.push_str("z,m9,holding,1,uint16,,,gauge,\n")?;
    }
    Ok(text)
}

fn list_event(alloc: Global, key: &str, list: u32) -> Result<Event, OfficeError> {
    let header = if has_orders(list) {
        WORDS_HEADER
    } else {
        HEADER
    };
    list_under(alloc, key, header, records(alloc, list)?.as_str())
}

fn request_event(alloc: Global, key: u32, wanted: Wanted) -> Result<Event, OfficeError> {
    let key = format!(in alloc; "k{key}")?;
    match wanted {
        Wanted::List(number) => list_event(alloc, key.as_str(), number),
        Wanted::Value(point, value) => order(alloc, key.as_str(), point, value as i128),
        Wanted::Void(point, slot) => void(alloc, key.as_str(), point, slot),
    }
}

fn line_name(line: u32) -> &'static str {
    match line {
        0 => "roof",
        1 => "cellar",
        _ => "attic",
    }
}

fn words_of(alloc: Global, number: u16, count: u16) -> Result<Vec<u8>, OfficeError> {
    let mut bytes = Vec::new(alloc);
    bytes.extend_from_slice(&[3, (count.wrapping_mul(2) % 256) as u8])?;
    for offset in 0..count {
        bytes.extend_from_slice(&register(number, offset).to_be_bytes())?;
    }
    Ok(bytes)
}

fn unit_of(alloc: Global, brought: Brought) -> Result<Vec<u8>, OfficeError> {
    match brought {
        Brought::Words(number, count) => words_of(alloc, number, count),
        Brought::Echo(function, address, number) => {
            let [high, low] = address.to_be_bytes();
            let [above, below] = number.to_be_bytes();
            Ok(Vec::from_slice(alloc, &[function, high, low, above, below])?)
        }
        Brought::Exception(function, code) => {
            Ok(Vec::from_slice(alloc, &[function | 0x80, code])?)
        }
        Brought::Other => Ok(Vec::from_slice(alloc, &[4, 2])?),
    }
}

fn arrival(alloc: Global, reply: Reply) -> Result<Event, OfficeError> {
    let unit = unit_of(alloc, reply.brought)?;
    let frame = frame(reply.transaction, reply.unit_id, &unit)?;
    Ok(Event::Arrive(Conn::new(reply.conn), frame))
}

pub(crate) fn event_of(alloc: Global, happened: Happened) -> Result<Event, OfficeError> {
    let happens = match happened {
        Happened::Request { key, wanted } => return request_event(alloc, key, wanted),
        Happened::Arrive(reply) => return arrival(alloc, reply),
        Happened::Open(line) => Happens::Open(line_name(line)),
        Happened::Ask { conn, read } => {
            Happens::Ask(conn, "m1", read.slot, (3, read.start, read.quantity))
        }
        Happened::Send { conn, order } => Happens::Send(conn, order),
        Happened::Restart => Happens::Restart,
    };
    builders::event_of(alloc, &happens)
}
