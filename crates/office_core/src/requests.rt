//! Requests that come again, and what is kept of one that is new.
ghost use Rattle.std.specs.Prelude.{◌≡◌, IfOk, Some, false, if◌then◌else◌};
ghost use Rattle.poll_book.specs.declared.requests.Outcome.{Outcome as AnOutcome};
ghost use Rattle.poll_book.specs.declared.requests.Body.TheVariants as body;
ghost use Rattle.office_core.specs.Answers as answers;

use crate::event::RequestAnswer;
use point_list::{Items, Text};
use poll_book::{Body, Caller, KeptRequest, Key, Outcome, RequestRow};
use std::alloc::{AllocError, Global};

/// Whether a caller asked for a list of these bytes.
fn is_list(asked: &Body, list: &[u8]) -> bool
    ensures { result ≡ answers.same_body asked.now (body.List list.now) }
{
    match asked {
        Body::List(bytes) => bytes.as_slice() == list,
        Body::Order { .. } => false,
        Body::Void { .. } => false,
    }
}

/// Whether a caller ordered this value for this point.
fn is_order(asked: &Body, point: &str, value: i128) -> bool
    ensures { result ≡ answers.same_body asked.now (body.Order point.now value) }
{
    match asked {
        Body::List(_) => false,
        Body::Order {
            point: name,
            value: number,
        } => name.as_str() == point && *number == value,
        Body::Void { .. } => false,
    }
}

/// Whether a caller voided this slot of this point.
fn is_void(asked: &Body, point: &str, slot: u32) -> bool
    ensures { result ≡ answers.same_body asked.now (body.Void point.now slot) }
{
    match asked {
        Body::List(_) => false,
        Body::Order { .. } => false,
        Body::Void {
            point: name,
            slot: number,
        } => name.as_str() == point && *number == slot,
    }
}

/// The answer to a request whose key was used: by the same request, or by another.
fn told_again(first: &KeptRequest, same: bool) -> RequestAnswer
    ensures { result ≡ (if same then RequestAnswer.Kept false first.now.outcome else RequestAnswer.KeyReused) }
{
    if same {
        RequestAnswer::Kept {
            first: false,
            outcome: first.outcome,
        }
    } else {
        RequestAnswer::KeyReused
    }
}

/// The answer to a list whose key was used before.
pub(crate) fn list_again(first: &KeptRequest, list: &[u8]) -> RequestAnswer
    ensures { (outcome : AnOutcome) → result ≡ answers.answer_again (Some first.now) (body.List list.now) outcome }
{
    told_again(first, is_list(&first.body, list))
}

/// The answer to an order whose key was used before.
pub(crate) fn order_again(first: &KeptRequest, point: &str, value: i128) -> RequestAnswer
    ensures { (outcome : AnOutcome) → result ≡ answers.answer_again (Some first.now) (body.Order point.now value) outcome }
{
    told_again(first, is_order(&first.body, point, value))
}

/// The answer to a void whose key was used before.
pub(crate) fn void_again(first: &KeptRequest, point: &str, slot: u32) -> RequestAnswer
    ensures { (outcome : AnOutcome) → result ≡ answers.answer_again (Some first.now) (body.Void point.now slot) outcome }
{
    told_again(first, is_void(&first.body, point, slot))
}

/// What is kept of a list.
pub(crate) fn list_row(
    alloc: Global,
    caller: &Caller,
    key: &Key,
    list: &[u8],
    outcome: Outcome,
) -> Result<RequestRow, AllocError>
    ensures { IfOk result (λ row. row ≡ record { caller = caller.now; key = key.now; body = body.List list.now; outcome = outcome }) }
{
    Ok(RequestRow {
        caller: *caller,
        key: *key,
        body: Body::List(Items::from_vec(Vec::from_slice(alloc, list)?)),
        outcome,
    })
}

/// What is kept of an order.
pub(crate) fn order_row(
    alloc: Global,
    caller: &Caller,
    key: &Key,
    point: &str,
    value: i128,
    outcome: Outcome,
) -> Result<RequestRow, AllocError>
    ensures { IfOk result (λ row. row ≡ record { caller = caller.now; key = key.now; body = body.Order point.now value; outcome = outcome }) }
{
    let point = Text::from_string(String::from_str(alloc, point)?);
    Ok(RequestRow {
        caller: *caller,
        key: *key,
        body: Body::Order { point, value },
        outcome,
    })
}

/// What is kept of a void.
pub(crate) fn void_row(
    alloc: Global,
    caller: &Caller,
    key: &Key,
    point: &str,
    slot: u32,
    outcome: Outcome,
) -> Result<RequestRow, AllocError>
    ensures { IfOk result (λ row. row ≡ record { caller = caller.now; key = key.now; body = body.Void point.now slot; outcome = outcome }) }
{
    let point = Text::from_string(String::from_str(alloc, point)?);
    Ok(RequestRow {
        caller: *caller,
        key: *key,
        body: Body::Void { point, slot },
        outcome,
    })
}
