//! The answers to requests, of what the office told.
ghost use Rattle.std.specs.Prelude.{◌≡◌, [], IfOk, map, string_bytes};
ghost use Rattle.sunspec.specs.Value.{AreRegistersOf};
ghost use Rattle.poll_book.specs.Changes.{as_row};
ghost use Rattle.office_core.specs.Fitting.{AreOf, HasForm};
ghost use Rattle.poll_book.specs.Showing.{as_shown};
ghost use Rattle.office_http.specs.Shown as entries;
ghost use Rattle.office_report.specs.Reports.{rows_of};
ghost use Rattle.office_net.specs.Replies.{list_refusal, not_found, order_refusal, request_reply, rows_reply, shown_row};

use office_core::RequestAnswer;
use office_http::{Refusal, Shown, answer};
use office_report::reading_text;
use point_list::Point;
use poll_book::{Outcome, ReadingRow, Reason, ShownReading};
use std::alloc::{AllocError, Global};

/// To a query of what isn't there.
pub(crate) fn not_found(alloc: Global) -> Result<String, AllocError>
    ensures { IfOk result (λ text. string_bytes text ≡ not_found) }
{
    answer::refusal(alloc, Refusal::NotFound)
}

fn list_refused(alloc: Global, reason: &Reason) -> Result<String, AllocError>
    ensures { IfOk result (λ text. string_bytes text ≡ list_refusal reason.now) }
{
    let fault = reason.fault.to_string(alloc)?;
    answer::list_refused(alloc, reason.row, reason.column, fault.as_str())
}

pub(crate) fn order_refused(alloc: Global, reason: &Reason) -> Result<String, AllocError>
    ensures { IfOk result (λ text. string_bytes text ≡ order_refusal reason.now) }
{
    let fault = reason.fault.to_string(alloc)?;
    answer::request_refused(alloc, fault.as_str())
}

/// To a list.
pub(crate) fn list_reply(alloc: Global, told: &RequestAnswer) -> Result<String, AllocError>
    ensures { IfOk result (λ text. string_bytes text ≡ request_reply list_refusal [] told.now) }
{
    match told {
        RequestAnswer::KeyReused => answer::key_reused(alloc),
        RequestAnswer::Kept { first, outcome } => match outcome {
            Outcome::Loaded(count) => answer::loaded(alloc, *first, *count),
            Outcome::Ordered(order) => answer::ordered(alloc, *first, *order),
            Outcome::Voided(slot) => answer::voided(alloc, *first, "", *slot),
            Outcome::RefusedFor(reason) => list_refused(alloc, reason),
        },
    }
}

/// To an order or a void of a point.
pub(crate) fn point_reply(
    alloc: Global,
    point: &str,
    told: &RequestAnswer,
) -> Result<String, AllocError>
    ensures { IfOk result (λ text. string_bytes text ≡ request_reply order_refusal point.now told.now) }
{
    match told {
        RequestAnswer::KeyReused => answer::key_reused(alloc),
        RequestAnswer::Kept { first, outcome } => match outcome {
            Outcome::Loaded(count) => answer::loaded(alloc, *first, *count),
            Outcome::Ordered(number) => answer::ordered(alloc, *first, *number),
            Outcome::Voided(slot) => answer::voided(alloc, *first, point, *slot),
            Outcome::RefusedFor(reason) => order_refused(alloc, reason),
        },
    }
}

/// What a point shows in a slot.
fn shown_of(alloc: Global, point: &Point, row: &ReadingRow) -> Result<Shown, AllocError>
    ensures { HasForm point.now → AreRegistersOf point.now.kind row.now.words
        → IfOk result (λ shown. entries.shown shown ≡ shown_row point.now (as_row row.now)) }
{
    let text = reading_text(alloc, point, row.words.as_slice())?;
    Ok(Shown {
        slot: row.slot,
        text,
    })
}

fn shown_rows(alloc: Global, point: &Point, rows: &[ShownReading]) -> Result<Vec<Shown>, AllocError>
    ensures { HasForm point.now → AreOf point.now (rows_of (map as_shown rows.now))
        → IfOk result (λ shown. map entries.shown shown.items ≡ map (shown_row point.now) (rows_of (map as_shown rows.now))) }
{
    let mut shown = Vec::with_capacity(alloc, rows.len())?;
    for row in rows {
        shown.push(shown_of(alloc, point, &row.reading)?)?;
    }
    Ok(shown)
}

/// To a query for readings. The name is that of the point.
pub(crate) fn readings_reply(
    alloc: Global,
    name: &str,
    point: &Point,
    rows: &[ShownReading],
) -> Result<String, AllocError>
    ensures { HasForm point.now → AreOf point.now (rows_of (map as_shown rows.now))
        → IfOk result (λ text. string_bytes text ≡ rows_reply name.now point.now (rows_of (map as_shown rows.now))) }
{
    let shown = shown_rows(alloc, point, rows)?;
    answer::readings(alloc, name, &shown)
}
