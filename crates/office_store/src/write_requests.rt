//! Rows of requests are written.

ghost use Rattle.std.specs.Prelude.{◌≡◌, ◌⊎◌, IfOk, IfSome, IsTrue, None, OnOk, Some, pos};
ghost use Rattle.sqlite.specs.Effect.{Database};
ghost use Rattle.sqlite.specs.Held.{state};
ghost use Rattle.sqlite.specs.State.{HasCleanDisk, KeepsCommit, Survives};
ghost use Rattle.sqlite_value.specs.declared.value.Value.TheVariants.{Blob, Int};
ghost use Rattle.poll_book.specs.Changes.{IsUnused, with_asked};
ghost use Rattle.poll_book.specs.Requests.{as_request, request_at, with_request};
ghost use Rattle.poll_book.specs.Tables.{Tables};
ghost use Rattle.office_store.specs.Rows.{body_coded, body_of, outcome_of, reason_coded};
ghost use Rattle.office_store.specs.Writing.{Within};

use crate::run::run;
use point_list::ListFault::{
    self, BadAddress, BadCsv, BadHeader, BadLength, BadName, BadRole, BadRoll, BadScale, BadSite,
    BadTable, BadType, BadWords, LeftOutType, Memory, NoModel, PastModel, TooManyPoints, Twice,
    UnknownDevice,
};
use poll_book::RequestFault::{
    List, NotACounter, NotASetting, OutOfRange, PointDiffers, TooManyOrders, TooManyVoids,
    UnknownPoint,
};
use poll_book::{Body, Outcome, RequestFault, RequestRow, StoreFault};
use sqlite::types::{ToSql, ValueRef};
use sqlite::{Alter, Transaction};
use std::alloc::{AllocError, Global};

/// The numbers that an outcome is kept as.
#[derive(Clone, Copy)]
struct OutcomeNumbers {
    answer: u32,
    a: u32,
    b: u32,
    c: u32,
}

/// The code of a reason's text. No request is refused for the two faults that have none.
fn reason_number(fault: RequestFault) -> Option<u32>
    ensures coded { IfSome result (λ number. reason_coded number ≡ Some fault) }
    ensures uncoded { result ≡ None → (fault ≡ RequestFault.List ListFault.Memory) ⊎ (fault ≡ RequestFault.List ListFault.BadSite) }
{
    match fault {
        List(BadCsv) => Some(1),
        List(BadHeader) => Some(2),
        List(BadName) => Some(3),
        List(UnknownDevice) => Some(4),
        List(BadTable) => Some(5),
        List(BadAddress) => Some(6),
        List(BadType) => Some(7),
        List(LeftOutType) => Some(8),
        List(BadLength) => Some(9),
        List(BadScale) => Some(10),
        List(BadRole) => Some(11),
        List(BadRoll) => Some(12),
        List(Twice) => Some(13),
        List(TooManyPoints) => Some(14),
        List(NoModel) => Some(16),
        List(PastModel) => Some(18),
        List(BadWords) => Some(19),
        List(Memory | BadSite) => None,
        PointDiffers => Some(20),
        UnknownPoint => Some(21),
        NotASetting => Some(22),
        OutOfRange => Some(23),
        TooManyOrders => Some(24),
        NotACounter => Some(25),
        TooManyVoids => Some(26),
    }
}

fn outcome_numbers(outcome: Outcome) -> Option<OutcomeNumbers>
    ensures { IfSome result (λ it. outcome_of (Int (pos it.answer)) (Int (pos it.a)) (Int (pos it.b)) (Int (pos it.c)) ≡ Some outcome) }
{
    Some(match outcome {
        Outcome::Loaded(rows) => OutcomeNumbers {
            answer: 1,
            a: rows,
            b: 0,
            c: 0,
        },
        Outcome::Ordered(number) => OutcomeNumbers {
            answer: 2,
            a: number,
            b: 0,
            c: 0,
        },
        Outcome::Voided(slot) => OutcomeNumbers {
            answer: 4,
            a: slot,
            b: 0,
            c: 0,
        },
        Outcome::RefusedFor(reason) => OutcomeNumbers {
            answer: 3,
            a: reason_number(reason.fault)?,
            b: reason.row,
            c: u32::from(reason.column),
        },
    })
}

/// The value of an order in sixteen bytes, and the point's name behind them.
fn order_bytes(alloc: Global, point: &str, value: i128) -> Result<Vec<u8>, AllocError>
    ensures { IfOk result (λ bytes. body_coded 2 bytes.items ≡ Some (Body.Order point.now value)) }
{
    let mut bytes = Vec::from_slice(alloc, &value.to_be_bytes())?;
    bytes.extend_from_slice(point.as_bytes())?;
    Ok(bytes)
}

/// A slot in four bytes, and the point's name behind them.
fn void_bytes(alloc: Global, point: &str, slot: u32) -> Result<Vec<u8>, AllocError>
    ensures { IfOk result (λ bytes. body_coded 3 bytes.items ≡ Some (Body.Void point.now slot)) }
{
    let mut bytes = Vec::from_slice(alloc, &slot.to_be_bytes())?;
    bytes.extend_from_slice(point.as_bytes())?;
    Ok(bytes)
}

/// Adds the row of a request whose body and outcome are in the form of the table.
fn put_coded<S: Alter>(
    tx: &mut Transaction<'_, S>,
    row: &RequestRow,
    kind: u32,
    body: &[u8],
    outcome: OutcomeNumbers,
) -> Result<usize, StoreFault>
    requires body { body_of (Int (pos kind)) (Blob body.now) ≡ Some row.now.body }
    requires outcome { outcome_of (Int (pos outcome.answer)) (Int (pos outcome.a)) (Int (pos outcome.b)) (Int (pos outcome.c)) ≡ Some row.now.outcome }
    ensures same_reference { tx.new.conn.ghost_name ≡ tx.old.conn.ghost_name }
    ensures put { HasCleanDisk (state S.Store tx.new.conn.now) → (base : Database) → (kept : Tables) → Within (state S.Store tx.old.conn.now) base kept
        → request_at kept.requests (row.now.caller, row.now.key) ≡ None
        → OnOk result (Within (state S.Store tx.new.conn.now) base (record kept { requests = with_request (row.now.caller, row.now.key) (as_request row.now).1 kept.requests })) }
    ensures inside { HasCleanDisk (state S.Store tx.new.conn.now) → IsTrue (state S.Store tx.old.conn.now).in_transaction → OnOk result (IsTrue (state S.Store tx.new.conn.now).in_transaction) }
    ensures opened { HasCleanDisk (state S.Store tx.new.conn.now) → IsTrue (state S.Store tx.old.conn.now).in_transaction → OnOk result (IsTrue (state S.Store tx.old.conn.now).is_open) }
    ensures kept { HasCleanDisk (state S.Store tx.new.conn.now) → KeepsCommit (state S.Store tx.old.conn.now) (state S.Store tx.new.conn.now) }
    ensures survives { Survives (state S.Store tx.old.conn.now) (state S.Store tx.new.conn.now) (λ _. ⊥) }
{
    run(
        tx,
        "INSERT INTO request(caller, rkey, kind, body, answer, a, b, c) VALUES (?1, ?2, ?3, ?4, ?5, ?6, ?7, ?8)",
        &[
            ValueRef::Text(row.caller.as_bytes()),
            ValueRef::Text(row.key.as_bytes()),
            kind.to_sql(),
            body.to_sql(),
            outcome.answer.to_sql(),
            outcome.a.to_sql(),
            outcome.b.to_sql(),
            outcome.c.to_sql(),
        ],
    )
}

/// Adds a request under a key that its caller hasn't used.
pub(crate) fn put_request<S: Alter>(
    alloc: Global,
    tx: &mut Transaction<'_, S>,
    row: &RequestRow,
) -> Result<usize, StoreFault>
    ensures same_reference { tx.new.conn.ghost_name ≡ tx.old.conn.ghost_name }
    ensures put { HasCleanDisk (state S.Store tx.new.conn.now) → (base : Database) → (kept : Tables) → Within (state S.Store tx.old.conn.now) base kept
        → request_at kept.requests (row.now.caller, row.now.key) ≡ None
        → OnOk result (Within (state S.Store tx.new.conn.now) base (record kept { requests = with_request (row.now.caller, row.now.key) (as_request row.now).1 kept.requests })) }
    ensures inside { HasCleanDisk (state S.Store tx.new.conn.now) → IsTrue (state S.Store tx.old.conn.now).in_transaction → OnOk result (IsTrue (state S.Store tx.new.conn.now).in_transaction) }
    ensures opened { HasCleanDisk (state S.Store tx.new.conn.now) → IsTrue (state S.Store tx.old.conn.now).in_transaction → OnOk result (IsTrue (state S.Store tx.old.conn.now).is_open) }
    ensures kept { HasCleanDisk (state S.Store tx.new.conn.now) → KeepsCommit (state S.Store tx.old.conn.now) (state S.Store tx.new.conn.now) }
    ensures survives { Survives (state S.Store tx.old.conn.now) (state S.Store tx.new.conn.now) (λ _. ⊥) }
{
    let Some(outcome) = outcome_numbers(row.outcome) else {
        return Err(StoreFault::Other);
    };
    match &row.body {
        Body::List(bytes) => put_coded(tx, row, 1, bytes.as_slice(), outcome),
        Body::Order { point, value } => {
            let bytes = order_bytes(alloc, point.as_str(), *value)?;
            put_coded(tx, row, 2, bytes.as_slice(), outcome)
        }
        Body::Void { point, slot } => {
            let bytes = void_bytes(alloc, point.as_str(), *slot)?;
            put_coded(tx, row, 3, bytes.as_slice(), outcome)
        }
    }
}

/// Adds the request of a change, if it has one.
pub(crate) fn put_asked<S: Alter>(
    alloc: Global,
    tx: &mut Transaction<'_, S>,
    request: &Option<RequestRow>,
) -> Result<usize, StoreFault>
    ensures same_reference { tx.new.conn.ghost_name ≡ tx.old.conn.ghost_name }
    ensures put { HasCleanDisk (state S.Store tx.new.conn.now) → (base : Database) → (kept : Tables) → Within (state S.Store tx.old.conn.now) base kept
        → IsUnused kept.requests request.now
        → OnOk result (Within (state S.Store tx.new.conn.now) base (record kept { requests = with_asked request.now kept.requests })) }
    ensures inside { HasCleanDisk (state S.Store tx.new.conn.now) → IsTrue (state S.Store tx.old.conn.now).in_transaction → OnOk result (IsTrue (state S.Store tx.new.conn.now).in_transaction) }
    ensures opened { HasCleanDisk (state S.Store tx.new.conn.now) → IsTrue (state S.Store tx.old.conn.now).in_transaction → OnOk result ((request.now ≡ None) ⊎ IsTrue (state S.Store tx.old.conn.now).is_open) }
    ensures kept { HasCleanDisk (state S.Store tx.new.conn.now) → KeepsCommit (state S.Store tx.old.conn.now) (state S.Store tx.new.conn.now) }
    ensures survives { Survives (state S.Store tx.old.conn.now) (state S.Store tx.new.conn.now) (λ _. ⊥) }
{
    match request {
        Some(row) => put_request(alloc, tx, row),
        None => Ok(0),
    }
}
