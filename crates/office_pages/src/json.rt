//! The points of an office as JSON: `{"points":[ROW,ROW]}`, made row by row.
ghost use Rattle.std.specs.Prelude.{◌≡◌, ◌++◌, IfOk, OnOk, codes, false, option_map, string_bytes};
ghost use Rattle.serde_json.specs.View.{view};
ghost use Rattle.serde_json.specs.Written.{compact_text, has_float};
ghost use Rattle.office_pages.specs.PointRows.{AddsRow, IsFitting, IsFittingIfAny, IsLast, IsReading, members_of, row_data, text_data, total_data};

use crate::moment::{beginning, time_text};
use crate::seen::Seen;
use crate::words::role_word;
use office_report::{reading_text, total_text};
use point_list::Point;
use poll_book::ShownReading;
use run_beat::Slots;
use serde_json::{Value, json};
use std::alloc::{AllocError, Global};

/// What stands before the rows.
pub fn begin() -> &'static str
    ensures { result.now ≡ codes "{\"points\":[" }
{
    "{\"points\":["
}

/// What stands between two rows.
pub fn between() -> &'static str
    ensures { result.now ≡ codes "," }
{
    ","
}

/// What stands behind the rows.
pub fn end() -> &'static str
    ensures { result.now ≡ codes "]}\n" }
{
    "]}\n"
}

/// A text, or null where there is none.
fn text_value(alloc: Global, text: &Option<String>) -> Result<Value, AllocError>
    ensures { IfOk result (λ value. view value ≡ text_data (option_map string_bytes text.now)) }
{
    match text {
        Some(text) => json!(in alloc; text.as_str()),
        None => Ok(Value::Null),
    }
}

/// A reading, with its time and what its registers show as values.
fn reading_of(
    alloc: Global,
    shown: &ShownReading,
    time: Value,
    value: Value,
) -> Result<Value, AllocError>
    ensures { IfOk result (λ reading. view reading ≡ members_of shown.now (view time) (view value)) }
{
    let (slot, voided) = (shown.reading.slot, shown.voided);
    json!(in alloc; {"slot": slot, "time": time, "value": value, "void": voided})
}

fn reading_value(
    alloc: Global,
    point: &Point,
    shown: &ShownReading,
    slots: Slots,
) -> Result<Value, AllocError>
    ensures { IsFitting point.now shown.now → IfOk result (λ value. IsReading slots point.now shown.now (view value)) }
{
    let time = time_text(alloc, beginning(shown.reading.slot, slots))?;
    let text = reading_text(alloc, point, shown.reading.words.as_slice())?;
    let time = text_value(alloc, &time)?;
    let value = text_value(alloc, &text)?;
    reading_of(alloc, shown, time, value)
}

fn last_value(
    alloc: Global,
    point: &Point,
    last: &Option<ShownReading>,
    slots: Slots,
) -> Result<Value, AllocError>
    ensures { IsFittingIfAny point.now last.now → IfOk result (λ value. IsLast slots point.now last.now (view value)) }
{
    match last {
        Some(shown) => reading_value(alloc, point, shown, slots),
        None => Ok(Value::Null),
    }
}

fn total_value(alloc: Global, point: &Point, total: Option<u128>) -> Result<Value, AllocError>
    ensures { IfOk result (λ value. view value ≡ total_data point.now total) }
{
    let Some(total) = total else {
        return Ok(Value::Null);
    };
    let text = total_text(alloc, point, total)?;
    json!(in alloc; text.as_str())
}

/// A point, with its last reading as a value.
fn row_value(alloc: Global, seen: &Seen, last: Value) -> Result<Value, AllocError>
    ensures { IfOk result (λ row. view row ≡ row_data seen.now (view last)) }
{
    let total = total_value(alloc, &seen.point, seen.total)?;
    let device = seen.point.device.as_str();
    let name = seen.point.name.as_str();
    let role = role_word(seen.point.role);
    json!(in alloc; {"device": device, "last": last, "name": name, "role": role, "total": total})
}

/// Adds a value without floats.
fn push_value(alloc: Global, out: &mut String, value: &Value) -> Result<(), AllocError>
    ensures { has_float (view value.now) ≡ false
        → OnOk result (string_bytes out.new ≡ string_bytes out.old ++ compact_text (view value.now)) }
{
    let text = value.to_string(alloc)?;
    out.push_str(&text)
}

/// Adds the row of a point: its device, its last reading, its name, its role, and the total of a counter. A reading
/// has its slot, when that began (RFC 3339, in UTC), what its registers show, and whether the slot is voided. What
/// there is none of is null: the last reading, the total, a value that isn't implemented, a time past the year 9999.
pub fn push_point(
    alloc: Global,
    out: &mut String,
    seen: &Seen,
    slots: Slots,
) -> Result<(), AllocError>
    ensures { IsFittingIfAny seen.now.point seen.now.last
        → OnOk result (AddsRow slots seen.now (string_bytes out.old) (string_bytes out.new)) }
{
    let last = last_value(alloc, &seen.point, &seen.last, slots)?;
    let row = row_value(alloc, seen, last)?;
    push_value(alloc, out, &row)
}
