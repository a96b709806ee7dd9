//! What an office answers to a request.
ghost use Rattle.std.specs.Prelude.{◌≡◌, IfOk, MatchResult, string_bytes};
ghost use Rattle.poll_book.specs.Requests.{request_at};
ghost use Rattle.office_core.specs.History.{History, points, requests};
ghost use Rattle.office_core.specs.Loads.{known_named};
ghost use Rattle.office_core.specs.Offices.{AccountsFor, AsItIs, OnlyAsked, keeper_of, order_state_of};
ghost use Rattle.office_http.specs.Heard.{meaning_of};
ghost use Rattle.office_http.specs.Meanings as meanings;
ghost use Rattle.office_core.specs.Following.{Follows, MayLeave};
ghost use Rattle.office_report.specs.Reports.{report_text};
ghost use Rattle.office_net.specs.Replies.{has_page, order_reply, page_reply, readings_reply, report_reply, state_reply, total_reply, under_reply};
ghost use Rattle.office_net.specs.Serving.{Answers, Unanswered};

use crate::fault::{fault_of, report_fault};
use crate::replies::{list_reply, not_found, order_refused, point_reply, readings_reply};
use office_core::Office;
use office_core::laws::fitting_tables;
use office_http::{Heard, Page, answer};
use office_report::{report_of, total_text};
use point_list::Site;
use poll_book::{Body, Caller, Keeper, Key, Outcome, StoreFault};
use std::alloc::{AllocError, Global};

/// Whether the site has what a page is of.
pub fn has_page(site: &Site, page: Page) -> bool
    ensures { result ≡ has_page site.now page }
{
    match page {
        Page::Device(place) => (place as usize) < site.devices.as_slice().len(),
        Page::Points | Page::Metrics | Page::Office => true,
    }
}

fn put_list<K: Keeper>(
    alloc: Global,
    office: &mut Office<K>,
    caller: &Caller,
    key: &Key,
    list: &[u8],
) -> Result<String, StoreFault>
    ensures goes { K.is_clean (keeper_of office.new) → MatchResult result
        (λ text. Answers (Follows office.old) (Follows office.new) (MayLeave office.old) (MayLeave office.new) (meanings.load caller.now key.now list.now) (string_bytes text))
        (λ _. Unanswered (Follows office.old) (Follows office.new) (MayLeave office.old) (MayLeave office.new) (meanings.load caller.now key.now list.now)) }
    ensures accounts { AccountsFor AsItIs office.old office.new result }
{
    let told = match office.load(caller, key, list) {
        Ok(told) => told,
        Err(error) => return Err(fault_of(error)),
    };
    let text = list_reply(alloc, &told)?;
    Ok(text)
}

fn put_order<K: Keeper>(
    alloc: Global,
    office: &mut Office<K>,
    caller: &Caller,
    key: &Key,
    point: &str,
    value: i128,
) -> Result<String, StoreFault>
    ensures goes { K.is_clean (keeper_of office.new) → MatchResult result
        (λ text. Answers (Follows office.old) (Follows office.new) (MayLeave office.old) (MayLeave office.new) (meanings.order caller.now key.now point.now value) (string_bytes text))
        (λ _. Unanswered (Follows office.old) (Follows office.new) (MayLeave office.old) (MayLeave office.new) (meanings.order caller.now key.now point.now value)) }
    ensures accounts { AccountsFor AsItIs office.old office.new result }
{
    let told = match office.order(caller, key, point, value) {
        Ok(told) => told,
        Err(error) => return Err(fault_of(error)),
    };
    let text = point_reply(alloc, point, &told)?;
    Ok(text)
}

fn put_void<K: Keeper>(
    alloc: Global,
    office: &mut Office<K>,
    caller: &Caller,
    key: &Key,
    point: &str,
    slot: u32,
) -> Result<String, StoreFault>
    ensures goes { K.is_clean (keeper_of office.new) → MatchResult result
        (λ text. Answers (Follows office.old) (Follows office.new) (MayLeave office.old) (MayLeave office.new) (meanings.void caller.now key.now point.now slot) (string_bytes text))
        (λ _. Unanswered (Follows office.old) (Follows office.new) (MayLeave office.old) (MayLeave office.new) (meanings.void caller.now key.now point.now slot)) }
    ensures accounts { AccountsFor AsItIs office.old office.new result }
{
    let told = match office.void(caller, key, point, slot) {
        Ok(told) => told,
        Err(error) => return Err(fault_of(error)),
    };
    let text = point_reply(alloc, point, &told)?;
    Ok(text)
}

/// How the order of a number stands.
fn get_state<K: Keeper>(
    alloc: Global,
    office: &mut Office<K>,
    number: u32,
) -> Result<String, StoreFault>
    ensures value { K.is_clean (keeper_of office.new) → (now : History) → Follows office.old now
        → IfOk result (λ text. string_bytes text ≡ state_reply number (order_state_of now number)) }
    ensures asked { OnlyAsked office.old office.new }
    ensures accounts { AccountsFor AsItIs office.old office.new result }
{
    let found = match office.order_state(number) {
        Ok(found) => found,
        Err(error) => return Err(fault_of(error)),
    };
    let text = match found {
        Some(state) => answer::order_stands(alloc, number, state)?,
        None => not_found(alloc)?,
    };
    Ok(text)
}

/// What became of an order.
fn get_outcome<K: Keeper>(
    alloc: Global,
    office: &mut Office<K>,
    outcome: &Outcome,
) -> Result<String, StoreFault>
    ensures value { K.is_clean (keeper_of office.new) → (now : History) → Follows office.old now
        → IfOk result (λ text. string_bytes text ≡ order_reply now outcome.now) }
    ensures asked { OnlyAsked office.old office.new }
    ensures accounts { AccountsFor AsItIs office.old office.new result }
{
    match outcome {
        Outcome::Loaded(_) | Outcome::Voided(_) => Ok(not_found(alloc)?),
        Outcome::Ordered(number) => get_state(alloc, office, *number),
        Outcome::RefusedFor(reason) => Ok(order_refused(alloc, reason)?),
    }
}

fn get_order<K: Keeper>(
    alloc: Global,
    office: &mut Office<K>,
    caller: &Caller,
    key: &Key,
) -> Result<String, StoreFault>
    ensures value { K.is_clean (keeper_of office.new) → (now : History) → Follows office.old now
        → IfOk result (λ text. string_bytes text ≡ under_reply now (request_at (requests now) (caller.now, key.now))) }
    ensures asked { OnlyAsked office.old office.new }
    ensures accounts { AccountsFor AsItIs office.old office.new result }
{
    let found = match office.request_of(caller, key) {
        Ok(found) => found,
        Err(error) => return Err(fault_of(error)),
    };
    let Some(request) = found else {
        return Ok(not_found(alloc)?);
    };
    match &request.body {
        Body::List(_) | Body::Void { .. } => Ok(not_found(alloc)?),
        Body::Order { .. } => get_outcome(alloc, office, &request.outcome),
    }
}

fn get_readings<K: Keeper>(
    alloc: Global,
    office: &mut Office<K>,
    point: &str,
    from: u32,
    to: u32,
) -> Result<String, StoreFault>
    ensures value { K.is_clean (keeper_of office.new) → (now : History) → Follows office.old now
        → IfOk result (λ text. string_bytes text ≡ readings_reply now point.now from to (known_named (points now) point.now)) }
    ensures asked { OnlyAsked office.old office.new }
    ensures accounts { AccountsFor AsItIs office.old office.new result }
{
    fitting_tables();
    let Some(known) = office.point(point) else {
        return Ok(not_found(alloc)?);
    };
    let found = match office.readings(point, from, to) {
        Ok(found) => found,
        Err(error) => return Err(fault_of(error)),
    };
    let Some(rows) = found else {
        return Ok(not_found(alloc)?);
    };
    let text = readings_reply(alloc, point, &known.point, &rows)?;
    Ok(text)
}

fn get_total<K: Keeper>(
    alloc: Global,
    office: &mut Office<K>,
    point: &str,
) -> Result<String, StoreFault>
    ensures value { K.is_clean (keeper_of office.new) → (now : History) → Follows office.old now
        → IfOk result (λ text. string_bytes text ≡ total_reply now point.now (known_named (points now) point.now)) }
    ensures asked { OnlyAsked office.old office.new }
    ensures accounts { AccountsFor AsItIs office.old office.new result }
{
    let Some(known) = office.point(point) else {
        return Ok(not_found(alloc)?);
    };
    let found = match office.total(point) {
        Ok(found) => found,
        Err(error) => return Err(fault_of(error)),
    };
    let Some(sum) = found else {
        return Ok(not_found(alloc)?);
    };
    let shown = total_text(alloc, &known.point, sum)?;
    let text = answer::total(alloc, point, shown.as_str())?;
    Ok(text)
}

fn get_report<K: Keeper>(
    alloc: Global,
    office: &mut Office<K>,
    point: &str,
    from: u32,
    to: u32,
) -> Result<String, StoreFault>
    ensures value { K.is_clean (keeper_of office.new) → (now : History) → Follows office.old now
        → IfOk result (λ text. string_bytes text ≡ report_reply (report_text now point.now from to)) }
    ensures asked { OnlyAsked office.old office.new }
    ensures accounts { AccountsFor AsItIs office.old office.new result }
{
    let found = match report_of(alloc, office, point, from, to) {
        Ok(found) => found,
        Err(fault) => return Err(report_fault(fault)),
    };
    let Some(report) = found else {
        return Ok(not_found(alloc)?);
    };
    let text = answer::plain(alloc, report.as_str())?;
    Ok(text)
}

/// The head of a page.
fn get_page(alloc: Global, site: &Site, page: Page) -> Result<String, AllocError>
    ensures { IfOk result (λ text. string_bytes text ≡ page_reply site.now page) }
{
    if has_page(site, page) {
        answer::page(alloc, page)
    } else {
        not_found(alloc)
    }
}

/// Does what a request asks for, and gives the bytes of the answer, none where nothing was asked. The
/// fault is the store's or memory's: `office_http::answer::unavailable` is what the caller gets then.
/// Where memory was refused for the answer, what was asked for is done all the same, and the same
/// request again tells so.
pub fn respond<K: Keeper>(
    alloc: Global,
    office: &mut Office<K>,
    asked: &Heard,
) -> Result<String, StoreFault>
    ensures goes { K.is_clean (keeper_of office.new) → MatchResult result
        (λ text. Answers (Follows office.old) (Follows office.new) (MayLeave office.old) (MayLeave office.new) (meaning_of asked.now) (string_bytes text))
        (λ _. Unanswered (Follows office.old) (Follows office.new) (MayLeave office.old) (MayLeave office.new) (meaning_of asked.now)) }
    ensures accounts { AccountsFor AsItIs office.old office.new result }
{
    match asked {
        Heard::Nothing => Ok(String::new(alloc)),
        Heard::Refused(refusal) => Ok(answer::refusal(alloc, *refusal)?),
        Heard::Load { caller, key, list } => put_list(alloc, office, caller, key, list),
        Heard::Order {
            caller,
            key,
            point,
            value,
        } => put_order(alloc, office, caller, key, point.as_str(), *value),
        Heard::Void {
            caller,
            key,
            point,
            slot,
        } => put_void(alloc, office, caller, key, point.as_str(), *slot),
        Heard::OrderUnder { caller, key } => get_order(alloc, office, caller, key),
        Heard::Readings { point, from, to } => get_readings(
            alloc,
            office,
            point.as_str(),
            *from,
            *to,
        ),
        Heard::Total { point } => get_total(alloc, office, point.as_str()),
        Heard::Report { point, from, to } => get_report(alloc, office, point.as_str(), *from, *to),
        Heard::Page(page) => Ok(get_page(alloc, office.site(), *page)?),
    }
}
