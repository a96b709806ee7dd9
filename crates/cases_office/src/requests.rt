//! What bytes of HTTP ask for.
use crate::cut::Cut;
use crate::shell::text_of;
use case_pages::{Trouble, bytes_of};
use office_http::{Exchange, Heard, Methods, Page, Refusal, Routes};
use poll_book::{Caller, Key};
use std::alloc::{AllocError, Global};

/// A list of more bytes is told by their number.
const MOST_SHOWN: usize = 100;

fn methods(methods: Methods) -> &'static str {
    match methods {
        Methods::Get => "405 GET",
        Methods::Put => "405 PUT",
        Methods::GetPut => "405 GET, PUT",
    }
}

fn refusal(refusal: Refusal) -> &'static str {
    match refusal {
        Refusal::BadRequest => "400",
        Refusal::NotFound => "404",
        Refusal::NotAllowed(allowed) => methods(allowed),
        Refusal::LengthRequired => "411",
        Refusal::TooLarge => "413",
    }
}

/// A caller and a key, in words.
fn named(alloc: Global, caller: &Caller, key: &Key) -> Result<String, AllocError> {
    let (caller, key) = (text_of(caller.as_bytes()), text_of(key.as_bytes()));
    format!(in alloc; "{caller} {key}")
}

/// A list that is asked for, in words.
fn loading(alloc: Global, who: &str, list: &[u8]) -> Result<String, AllocError> {
    if list.len() > MOST_SHOWN {
        format!(in alloc; "load {who} of {} bytes", list.len())
    } else {
        format!(in alloc; "load {who} {}", text_of(list))
    }
}

/// A page that is asked for, in words.
fn shown(alloc: Global, page: Page) -> Result<String, AllocError> {
    match page {
        Page::Points => String::from_str(alloc, "page of points"),
        Page::Metrics => String::from_str(alloc, "page of metrics"),
        Page::Office => String::from_str(alloc, "page of the office"),
        Page::Device(place) => format!(in alloc; "page of device {place}"),
    }
}

/// What is asked for, in words.
fn told(alloc: Global, asked: &Heard) -> Result<String, AllocError> {
    match asked {
        Heard::Nothing => String::from_str(alloc, "nothing"),
        Heard::Refused(why) => String::from_str(alloc, refusal(*why)),
        Heard::Load { caller, key, list } => {
            loading(alloc, named(alloc, caller, key)?.as_str(), list)
        }
        Heard::Order {
            caller,
            key,
            point,
            value,
        } => {
            let who = named(alloc, caller, key)?;
            format!(in alloc; "order {who} {point} {value}")
        }
        Heard::Void {
            caller,
            key,
            point,
            slot,
        } => {
            let who = named(alloc, caller, key)?;
            format!(in alloc; "void {who} {point} {slot}")
        }
        Heard::OrderUnder { caller, key } => {
            format!(in alloc; "under {}", named(alloc, caller, key)?)
        }
        Heard::Readings { point, from, to } => { format!(in alloc; "readings {point} {from} {to}") }
        Heard::Total { point } => format!(in alloc; "total {point}"),
        Heard::Report { point, from, to } => { format!(in alloc; "report {point} {from} {to}") }
        Heard::Page(page) => shown(alloc, *page),
    }
}

/// More bytes than these don't come one by one, since a head is judged anew with each piece.
const MOST_ONE_BY_ONE: usize = 1000;

/// What bytes ask for of these routes that come cut in some way, and then end.
fn taken(alloc: Global, routes: Routes, bytes: &[u8], cut: Cut) -> Result<Heard, AllocError> {
    let least = if bytes.len() > MOST_ONE_BY_ONE {
        MOST_ONE_BY_ONE
    } else {
        1
    };
    let mut exchange = Exchange::new(alloc, routes);
    let mut rest = bytes;
    for _ in 0..bytes.len() {
        let (part, behind) = rest.split_at(cut.next(rest.len()).max(least).min(rest.len()));
        if let Some(asked) = exchange.take(part)? {
            return Ok(asked);
        }
        rest = behind;
        if rest.is_empty() {
            break;
        }
    }
    Ok(exchange.end())
}

/// What is asked for of these routes, in words, by bytes that are whole, and cut.
pub(crate) fn request(alloc: Global, routes: Routes, input: &str) -> Result<String, Trouble> {
    let bytes = bytes_of(alloc, input)?;
    let whole = told(alloc, &taken(alloc, routes, &bytes, Cut::Whole)?)?;
    for cut in [Cut::Halves, Cut::Bytes] {
        let asked = told(alloc, &taken(alloc, routes, &bytes, cut)?)?;
        if asked.as_str() != whole.as_str() {
            return Ok(format!(in alloc; "{whole}, but cut {asked}")?);
        }
    }
    Ok(whole)
}

/// What is asked for by the beginnings of a request that are shorter than it: from which length on, and what.
pub(crate) fn beginnings(alloc: Global, input: &str) -> Result<String, Trouble> {
    let bytes = bytes_of(alloc, input)?;
    let mut all = String::new(alloc);
    let mut last = String::new(alloc);
    for length in 0..bytes.len() {
        let beginning = bytes.get(..length).unwrap_or(&[]);
        let now = told(alloc, &taken(alloc, Routes::Basic, beginning, Cut::Whole)?)?;
        if now.as_str() != last.as_str() {
            write!(all, "; from {length} {now}")?;
            last = now;
        }
    }
    Ok(String::from_str(alloc, all.as_str().trim_start_matches("; "))?)
}
