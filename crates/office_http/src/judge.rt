//! What the parts of a request ask for.
ghost use Rattle.std.specs.Prelude.{◌≡◌, ◌≤◌, ◌&&◌, ℕ, List, All, Some, None, IfOk, length, map, if◌then◌else◌};
ghost use Rattle.httparse.specs.Spans.{header_bytes, IsHeaderWithin};
ghost use Rattle.poll_book.specs.Callers.{is_caller, is_key};
ghost use Rattle.office_http.specs.Awaiting.{asked_with, made_for};
ghost use Rattle.office_http.specs.Fields.{count_in, length_of};
ghost use Rattle.office_http.specs.Heard.{meaning_of};
ghost use Rattle.office_http.specs.Found.{place_of};
ghost use Rattle.office_http.specs.declared.heard.Methods.TheVariants.{Put};
ghost use Rattle.office_http.specs.declared.heard.Refusal.TheVariants.{BadRequest, NotAllowed};
ghost use Rattle.office_http.specs.Meanings.{are_words, asked_at, asked_of, device_page, in_range, is_get, is_put, order_under, readings_of, refused, report_of, total_of, with_body};
ghost use Rattle.office_http.specs.Numbers.{range_of, slot_of};
ghost use Rattle.office_http.specs.Places as place;

use crate::asked::{Asked, Awaited, Purpose};
use crate::fields::{Length, body_length};
use crate::heard::{Heard, Methods, Page, Refusal};
use crate::place::Place;
use httparse::spans::HeaderSpan;
use poll_book::{Caller, Key, MOST_APART};
use std::alloc::{AllocError, Global};
use sunspec::digits;

/// A request's method, and its fields as parts of its bytes.
#[derive(Clone, Copy)]
pub(crate) struct Head<'b> {
    pub method: &'b [u8],
    pub bytes: &'b [u8],
    pub fields: &'b [HeaderSpan],
}

fn is_get(method: &[u8]) -> bool
    ensures { result ≡ is_get method.now }
{
    method == b"GET".as_slice()
}

fn is_put(method: &[u8]) -> bool
    ensures { result ≡ is_put method.now }
{
    method == b"PUT".as_slice()
}

/// A caller and a key, where both are in form.
fn words(caller: &str, key: &str) -> Option<(Caller, Key)>
    ensures { result ≡ (if are_words caller.now key.now then Some (caller.now, key.now) else None) }
{
    match (Caller::new(caller), Key::new(key)) {
        (Some(caller), Some(key)) => Some((caller, key)),
        _ => None,
    }
}

fn slot_of(text: &str) -> Option<u32>
    ensures { result ≡ slot_of text.now }
{
    match digits::number(text.as_bytes(), 10, 4_294_967_295) {
        Some(slot) => Some(slot as u32),
        None => None,
    }
}

/// The slots of a range.
fn range_of(from: &str, to: &str) -> Option<(u32, u32)>
    ensures { result ≡ range_of (slot_of from.now) (slot_of to.now) }
{
    let from = slot_of(from)?;
    let to = slot_of(to)?;
    if from <= to && to - from <= MOST_APART {
        Some((from, to))
    } else {
        None
    }
}

/// What a body of this length asks for under a caller and a key.
fn put(purpose: Purpose, caller: &str, key: &str, length: Length) -> Asked
    requires { count_in length ≤ 262144 }
    ensures { (rest : List ℕ) → asked_with result rest
        ≡ (if are_words caller.now key.now then with_body (made_for purpose caller.now key.now) rest length else Some (refused BadRequest)) }
{
    let Some((caller, key)) = words(caller, key) else {
        return Asked::Known(Heard::Refused(Refusal::BadRequest));
    };
    match length {
        Length::Missing => Asked::Known(Heard::Refused(Refusal::LengthRequired)),
        Length::Bad => Asked::Known(Heard::Refused(Refusal::BadRequest)),
        Length::TooLarge => Asked::Known(Heard::Refused(Refusal::TooLarge)),
        Length::Of(count) => Asked::Awaits(Awaited {
            purpose,
            caller,
            key,
            count,
        }),
    }
}

fn get_order(caller: &str, key: &str) -> Heard
    ensures { meaning_of result ≡ (if are_words caller.now key.now then order_under caller.now key.now else refused BadRequest) }
{
    match words(caller, key) {
        Some((caller, key)) => Heard::OrderUnder { caller, key },
        None => Heard::Refused(Refusal::BadRequest),
    }
}

fn get_readings(alloc: Global, point: &str, from: &str, to: &str) -> Result<Heard, AllocError>
    ensures { IfOk result (λ asked. meaning_of asked ≡ in_range (readings_of point.now) (range_of (slot_of from.now) (slot_of to.now))) }
{
    match range_of(from, to) {
        Some((from, to)) => {
            let point = String::from_str(alloc, point)?;
            Ok(Heard::Readings { point, from, to })
        }
        None => Ok(Heard::Refused(Refusal::BadRequest)),
    }
}

fn get_report(alloc: Global, point: &str, from: &str, to: &str) -> Result<Heard, AllocError>
    ensures { IfOk result (λ asked. meaning_of asked ≡ in_range (report_of point.now) (range_of (slot_of from.now) (slot_of to.now))) }
{
    match range_of(from, to) {
        Some((from, to)) => {
            let point = String::from_str(alloc, point)?;
            Ok(Heard::Report { point, from, to })
        }
        None => Ok(Heard::Refused(Refusal::BadRequest)),
    }
}

fn get_total(alloc: Global, point: &str) -> Result<Heard, AllocError>
    ensures { IfOk result (λ asked. meaning_of asked ≡ total_of point.now) }
{
    let point = String::from_str(alloc, point)?;
    Ok(Heard::Total { point })
}

fn get_device(place: &str) -> Heard
    ensures { meaning_of result ≡ device_page (slot_of place.now) }
{
    match slot_of(place) {
        Some(place) => Heard::Page(Page::Device(place)),
        None => Heard::Refused(Refusal::BadRequest),
    }
}

/// What a head asks for at an order.
fn at_order(caller: &str, key: &str, head: Head<'_>) -> Asked
    requires { All (IsHeaderWithin (length head.bytes.now)) head.fields.now }
    ensures { (rest : List ℕ) → asked_with result rest
        ≡ asked_at (place.orders caller.now key.now) head.entry.method.now (map (header_bytes head.entry.bytes.now) head.entry.fields.now) rest }
{
    if is_get(head.method) {
        return Asked::Known(get_order(caller, key));
    }
    if !is_put(head.method) {
        return Asked::Known(Heard::Refused(Refusal::NotAllowed(Methods::GetPut)));
    }
    let length = body_length(head.bytes, head.fields);
    put(Purpose::Order, caller, key, length)
}

/// What a head asks for where there is `PUT` alone.
fn at_put(purpose: Purpose, caller: &str, key: &str, head: Head<'_>) -> Asked
    requires { All (IsHeaderWithin (length head.bytes.now)) head.fields.now }
    ensures { (rest : List ℕ) → asked_with result rest
        ≡ (if is_put head.entry.method.now
        then (if are_words caller.now key.now then with_body (made_for purpose caller.now key.now) rest (length_of (map (header_bytes head.entry.bytes.now) head.entry.fields.now)) else Some (refused BadRequest))
        else Some (refused (NotAllowed Put))) }
{
    if !is_put(head.method) {
        return Asked::Known(Heard::Refused(Refusal::NotAllowed(Methods::Put)));
    }
    let length = body_length(head.bytes, head.fields);
    put(purpose, caller, key, length)
}

/// What a head asks for at a place.
pub(crate) fn asked_at(
    alloc: Global,
    place: Option<Place<'_>>,
    head: Head<'_>,
) -> Result<Asked, AllocError>
    requires { All (IsHeaderWithin (length head.bytes.now)) head.fields.now }
    ensures { IfOk result (λ asked. (rest : List ℕ) → asked_with asked rest
        ≡ asked_of (place_of place.entry) head.entry.method.now (map (header_bytes head.entry.bytes.now) head.entry.fields.now) rest) }
{
    let Some(place) = place else {
        return Ok(Asked::Known(Heard::Refused(Refusal::NotFound)));
    };
    match place {
        Place::Orders { caller, key } => Ok(at_order(caller, key, head)),
        Place::Lists { caller, key } => Ok(at_put(Purpose::List, caller, key, head)),
        Place::Voids { caller, key } => Ok(at_put(Purpose::Void, caller, key, head)),
        _ if !is_get(head.method) => {
            Ok(Asked::Known(Heard::Refused(Refusal::NotAllowed(Methods::Get))))
        }
        Place::Readings { point, from, to } => {
            Ok(Asked::Known(get_readings(alloc, point, from, to)?))
        }
        Place::Total { point } => Ok(Asked::Known(get_total(alloc, point)?)),
        Place::Report { point, from, to } => {
            Ok(Asked::Known(get_report(alloc, point, from, to)?))
        }
        Place::Page(page) => Ok(Asked::Known(Heard::Page(page))),
        Place::Device { place } => Ok(Asked::Known(get_device(place))),
    }
}
