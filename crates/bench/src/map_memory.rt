//! A list at an office that was opened over 300 points, of which some stand in its map of names: what became of it, and
//! what becomes of it under another key. `.ci/refused` runs this and refuses each of the first list's requests for memory
//! in turn, which stand between the first and the second line that is printed.
use crate::pace::granted;
use office_core::{Office, OfficeError, RequestAnswer};
use office_plays::builders::{HEADER, MEMORY, begun, named};
use poll_book::{Keeper, MemKeeper, Outcome};
use std::alloc::{AllocError, Global};
use std::io;

const SITE: &str =
    "[[line]]\nname = \"roof\"\naddress = \"127.0.0.1:502\"\n[[device]]\nname = \"m1\"\nline = \"roof\"\nunit = 17\n";

/// A list of the settings of these numbers.
fn list(alloc: Global, from: u32, to: u32) -> Result<String, AllocError> {
    let mut text = String::from_str(alloc, HEADER)?;
    for number in from..to {
        writeln!(text, "p{number},m1,holding,{number},uint16,,,setting,")?;
    }
    Ok(text)
}

// The calls of an office stand in functions that promise nothing of them: a search needs nothing.

fn load<K: Keeper>(
    office: &mut Office<K>,
    key: &str,
    list: &str,
) -> Result<RequestAnswer, OfficeError> {
    let (caller, key) = named(key)?;
    office.load(&caller, &key, list.as_bytes())
}

/// An order, behind which one name more stands in the office's map.
fn order(alloc: Global, office: &mut Office<MemKeeper>, number: u32) -> Option<()> {
    let key = format!(in alloc; "order-{number}").ok()?;
    let (caller, key) = named(key.as_str()).ok()?;
    office.order(&caller, &key, "p7", 80).ok()?;
    Some(())
}

fn over(alloc: Global, keeper: MemKeeper) -> Option<Office<MemKeeper>> {
    begun(alloc, keeper, SITE).ok()?.ok()
}

/// An office that is opened over 300 points, and has so many orders.
fn opened(alloc: Global, orders: u32) -> Option<Office<MemKeeper>> {
    let mut first = over(alloc, MemKeeper::new(alloc))?;
    load(&mut first, "first", list(alloc, 0, 300).ok()?.as_str()).ok()?;
    let mut office = over(alloc, first.into_keeper())?;
    for number in 0..orders {
        order(alloc, &mut office, number)?;
    }
    Some(office)
}

/// What becomes of a list, so that all of its rows are loaded or not.
fn told(answer: Result<RequestAnswer, OfficeError>, rows: u32) -> &'static str {
    match answer {
        Ok(
            RequestAnswer::Kept {
                outcome: Outcome::Loaded(count),
                ..
            },
        ) if count == rows => "loaded",
        Err(error) if error == MEMORY => "memory",
        _ => "otherwise",
    }
}

fn print_lists<K: Keeper>(
    rt: &HostRuntime,
    office: &mut Office<K>,
    list: &str,
    rows: u32,
) -> io::Result<()> {
    println!(rt; "opened over {}", office.points().len())?;
    let first = told(load(office, "second", list), rows);
    println!(rt; "{first}")?;
    let again = told(load(office, "third", list), rows);
    println!(rt; "{again}, {} known", office.points().len())
}

/// Forty rows, of which twenty are known: all names are put into a map for them.
pub fn long(rt: &HostRuntime, orders: u32) -> io::Result<()> {
    let mut office = granted(opened(rt.alloc(), orders))?;
    print_lists(rt, &mut office, list(rt.alloc(), 280, 320)?.as_str(), 40)
}

/// Twelve rows, of which six are known: they are looked for by what there is.
pub fn short(rt: &HostRuntime, orders: u32) -> io::Result<()> {
    let mut office = granted(opened(rt.alloc(), orders))?;
    print_lists(rt, &mut office, list(rt.alloc(), 294, 306)?.as_str(), 12)
}
