//! The text of a report.
ghost use Rattle.std.specs.Prelude.{◌≡◌, ◌++◌, IfOk, OnOk, flat_map, map, string_bytes};
ghost use Rattle.sunspec.specs.Value.{AreRegistersOf};
ghost use Rattle.office_core.specs.Fitting.{AreOf, HasForm};
ghost use Rattle.poll_book.specs.Showing.{as_shown};
ghost use Rattle.office_report.specs.Reports.{mark_text, reading_line, report_lines, rows_of, total_line};

use crate::texts::{reading_text, total_text};
use point_list::Point;
use poll_book::ShownReading;
use std::alloc::{AllocError, Global};

/// What follows the reading of a voided slot.
fn mark(voided: bool) -> &'static str
    ensures { result.now ≡ mark_text voided }
{
    if voided { "  void" } else { "" }
}

/// Adds the line of a reading: its slot, what its registers show, and whether it is voided.
fn push_reading(
    alloc: Global,
    report: &mut String,
    point: &Point,
    shown: &ShownReading,
) -> Result<(), AllocError>
    ensures { HasForm point.now → AreRegistersOf point.now.kind shown.now.reading.words
        → OnOk result (string_bytes report.new ≡ string_bytes report.old ++ reading_line point.now (as_shown shown.now)) }
{
    let slot = shown.reading.slot;
    let mark = mark(shown.voided);
    match reading_text(alloc, point, shown.reading.words.as_slice())? {
        Some(text) => writeln!(report, "{slot:>10}  {text}{mark}"),
        None => writeln!(report, "{slot:>10}  -{mark}"),
    }
}

/// Adds the lines of readings.
fn push_readings(
    alloc: Global,
    report: &mut String,
    point: &Point,
    rows: &[ShownReading],
) -> Result<(), AllocError>
    ensures { HasForm point.now → AreOf point.now (rows_of (map as_shown rows.now))
        → OnOk result (string_bytes report.new ≡ string_bytes report.old ++ flat_map (reading_line point.now) (map as_shown rows.now)) }
{
    for row in rows {
        push_reading(alloc, report, point, row)?;
    }
    Ok(())
}

/// Adds the line of a total, where there is one.
fn push_total(
    alloc: Global,
    report: &mut String,
    point: &Point,
    total: Option<u128>,
) -> Result<(), AllocError>
    ensures { OnOk result (string_bytes report.new ≡ string_bytes report.old ++ total_line point.now total) }
{
    let Some(total) = total else {
        return Ok(());
    };
    let text = total_text(alloc, point, total)?;
    writeln!(report, "total {text}")
}

/// The report of a point with these readings, and with a total where it is a counter.
pub(crate) fn report_text(
    alloc: Global,
    point: &Point,
    rows: &[ShownReading],
    total: Option<u128>,
) -> Result<String, AllocError>
    ensures { HasForm point.now → AreOf point.now (rows_of (map as_shown rows.now))
        → IfOk result (λ text. string_bytes text ≡ report_lines point.now (map as_shown rows.now) total) }
{
    let name = point.name;
    let mut report = format!(in alloc; "point {name}\n")?;
    push_readings(alloc, &mut report, point, rows)?;
    push_total(alloc, &mut report, point, total)?;
    Ok(report)
}
