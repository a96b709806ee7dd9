//! The table of requests.

ghost use Rattle.std.specs.Prelude.{◌≡◌, false, IfOk, Some, option_map};
ghost use Rattle.std.specs.Str.{is_utf8};
ghost use Rattle.sqlite.specs.Held.{state};
ghost use Rattle.sqlite.specs.State.{HasCleanDisk};
ghost use Rattle.sqlite_value.specs.Order.{column};
ghost use Rattle.sqlite_value.specs.Value.{owned};
ghost use Rattle.poll_book.specs.Callers.{is_caller, is_key};
ghost use Rattle.poll_book.specs.Requests.{as_request, request_at};
ghost use Rattle.poll_book.specs.Tables.{Tables};
ghost use Rattle.office_store.specs.Kept.{Holds, Keeps};
ghost use Rattle.office_store.specs.Rows.{body_coded, body_of, outcome_coded, outcome_of, reason_coded, shown_request, text_that};

use crate::ask::ask;
use crate::error::fault_of;
use crate::values::{byte_of, number_of, value_at};
use point_list::ListFault::{
    BadAddress, BadCsv, BadHeader, BadLength, BadName, BadRole, BadRoll, BadScale, BadTable,
    BadType, BadWords, LeftOutType, NoModel, PastModel, TooManyPoints, Twice, UnknownDevice,
};
use point_list::{Items, Text};
use poll_book::RequestFault::{
    List, NotACounter, NotASetting, OutOfRange, PointDiffers, TooManyOrders, TooManyVoids,
    UnknownPoint,
};
use poll_book::{
    Body, Caller, KeptRequest, Key, Outcome, Reason, RequestFault, RequestRow, StoreFault,
};
use sqlite::types::ValueRef;
use sqlite::{Alter, Connection, Row};
use std::alloc::Global;

fn str_of(value: ValueRef<'_>) -> Option<&str>
    ensures { option_map (λ text. text.now) result ≡ text_that is_utf8 (owned value.entry) }
{
    let ValueRef::Text(bytes) = value else {
        return None;
    };
    match str::from_utf8(bytes) {
        Ok(text) => Some(text),
        Err(_) => None,
    }
}

fn caller_of(value: ValueRef<'_>) -> Option<Caller>
    ensures { result ≡ text_that is_caller (owned value.entry) }
{
    match str_of(value) {
        Some(text) => Caller::new(text),
        None => None,
    }
}

fn key_of(value: ValueRef<'_>) -> Option<Key>
    ensures { result ≡ text_that is_key (owned value.entry) }
{
    match str_of(value) {
        Some(text) => Key::new(text),
        None => None,
    }
}

/// Why a request was refused, by the code of the text that is told.
fn reason_of(code: u32) -> Option<RequestFault>
    ensures { result ≡ reason_coded code }
{
    match code {
        1 => Some(List(BadCsv)),
        2 => Some(List(BadHeader)),
        3 => Some(List(BadName)),
        4 => Some(List(UnknownDevice)),
        5 => Some(List(BadTable)),
        6 => Some(List(BadAddress)),
        7 => Some(List(BadType)),
        8 => Some(List(LeftOutType)),
        9 => Some(List(BadLength)),
        10 => Some(List(BadScale)),
        11 => Some(List(BadRole)),
        12 => Some(List(BadRoll)),
        13 => Some(List(Twice)),
        14 => Some(List(TooManyPoints)),
        16 => Some(List(NoModel)),
        18 => Some(List(PastModel)),
        19 => Some(List(BadWords)),
        20 => Some(PointDiffers),
        21 => Some(UnknownPoint),
        22 => Some(NotASetting),
        23 => Some(OutOfRange),
        24 => Some(TooManyOrders),
        25 => Some(NotACounter),
        26 => Some(TooManyVoids),
        _ => None,
    }
}

fn outcome_of(answer: u8, a: u32, b: u32, c: u8) -> Option<Outcome>
    ensures { result ≡ outcome_coded answer a b c }
{
    match (answer, b, c) {
        (3, row, column) => Some(Outcome::RefusedFor(Reason {
            fault: reason_of(a)?,
            row,
            column,
        })),
        (1, 0, 0) => Some(Outcome::Loaded(a)),
        (2, 0, 0) => Some(Outcome::Ordered(a)),
        (4, 0, 0) => Some(Outcome::Voided(a)),
        _ => None,
    }
}

/// The value of an order in sixteen bytes, and the point's name behind them.
fn order_of(alloc: Global, bytes: &[u8]) -> Result<Body, StoreFault>
    ensures { IfOk result (λ body. body_coded 2 bytes.now ≡ Some body) }
{
    let Some((value, name)) = bytes.split_first_chunk::<16>() else {
        return Err(StoreFault::Other);
    };
    let Ok(name) = str::from_utf8(name) else {
        return Err(StoreFault::Other);
    };
    Ok(Body::Order {
        point: Text::from_string(String::from_str(alloc, name)?),
        value: i128::from_be_bytes(*value),
    })
}

/// A slot in four bytes, and the point's name behind them.
fn void_of(alloc: Global, bytes: &[u8]) -> Result<Body, StoreFault>
    ensures { IfOk result (λ body. body_coded 3 bytes.now ≡ Some body) }
{
    let Some((slot, name)) = bytes.split_first_chunk::<4>() else {
        return Err(StoreFault::Other);
    };
    let Ok(name) = str::from_utf8(name) else {
        return Err(StoreFault::Other);
    };
    Ok(Body::Void {
        point: Text::from_string(String::from_str(alloc, name)?),
        slot: u32::from_be_bytes(*slot),
    })
}

fn body_of(alloc: Global, kind: u8, bytes: &[u8]) -> Result<Body, StoreFault>
    ensures { IfOk result (λ body. body_coded kind bytes.now ≡ Some body) }
{
    match kind {
        1 => Ok(Body::List(Items::from_vec(Vec::from_slice(alloc, bytes)?))),
        2 => order_of(alloc, bytes),
        3 => void_of(alloc, bytes),
        _ => Err(StoreFault::Other),
    }
}

fn outcome_in(row: &Row) -> Option<Outcome>
    ensures { result ≡ outcome_of (column row.now 4) (column row.now 5) (column row.now 6) (column row.now 7) }
{
    let answer = byte_of(value_at(row, 4))?;
    let a = number_of(value_at(row, 5))?;
    let b = number_of(value_at(row, 6))?;
    let c = byte_of(value_at(row, 7))?;
    outcome_of(answer, a, b, c)
}

fn body_in(alloc: Global, row: &Row) -> Result<Body, StoreFault>
    ensures { IfOk result (λ body. body_of (column row.now 2) (column row.now 3) ≡ Some body) }
{
    let ValueRef::Blob(bytes) = value_at(row, 3) else {
        return Err(StoreFault::Other);
    };
    let kind = byte_of(value_at(row, 2)).ok_or(StoreFault::Other)?;
    body_of(alloc, kind, bytes)
}

/// The request that a row of an answer stands for.
fn request_in(alloc: Global, row: &Row) -> Result<RequestRow, StoreFault>
    ensures { IfOk result (λ request. shown_request row.now ≡ Some (as_request request)) }
{
    let caller = caller_of(value_at(row, 0)).ok_or(StoreFault::Other)?;
    let key = key_of(value_at(row, 1)).ok_or(StoreFault::Other)?;
    let body = body_in(alloc, row)?;
    let outcome = outcome_in(row).ok_or(StoreFault::Other)?;
    Ok(RequestRow {
        caller,
        key,
        body,
        outcome,
    })
}

/// The request of a caller under a key, if there is one.
pub(crate) fn request_at<S: Alter>(
    alloc: Global,
    connection: &mut Connection<S>,
    caller: &Caller,
    key: &Key,
) -> Result<Option<KeptRequest>, StoreFault>
    requires { connection.old.in_transaction ≡ false }
    ensures value { HasCleanDisk (state S.Store connection.new) → (kept : Tables) → Holds (state S.Store connection.old) kept
        → IfOk result (λ found. found ≡ request_at kept.requests (caller.now, key.now)) }
    ensures keeps { Keeps (state S.Store connection.old) (state S.Store connection.new) }
    ensures idle { connection.new.in_transaction ≡ false }
{
    let rows = match ask(
        connection,
        "SELECT caller, rkey, kind, body, answer, a, b, c FROM request WHERE caller = ?1 AND rkey = ?2",
        &[
            ValueRef::Text(caller.as_bytes()),
            ValueRef::Text(key.as_bytes()),
        ],
    ) {
        Ok(rows) => rows,
        Err(error) => return Err(fault_of(error)),
    };
    match rows.as_slice() {
        [] => Ok(None),
        [row] => {
            let found = request_in(alloc, row)?;
            Ok(Some(KeptRequest {
                body: found.body,
                outcome: found.outcome,
            }))
        }
        _ => Err(StoreFault::Other),
    }
}
