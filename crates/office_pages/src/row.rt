//! The row of a point in HTML.
ghost use Rattle.std.specs.Prelude.{OnOk, string_bytes};
ghost use Rattle.office_pages.specs.Pieces.{Grows};

use crate::escape::escape;
use crate::moment::beginning;
use crate::page::{push_cell, push_moment, push_name};
use crate::seen::Seen;
use crate::words::role_word;
use office_report::{reading_text, total_text};
use point_list::Point;
use poll_book::ShownReading;
use run_beat::Slots;
use std::alloc::{AllocError, Global};

/// Adds what the registers of a reading show.
fn push_shown(
    alloc: Global,
    out: &mut String,
    point: &Point,
    shown: &ShownReading,
) -> Result<(), AllocError>
    ensures { OnOk result (Grows (string_bytes out.old) (string_bytes out.new)) }
{
    match reading_text(alloc, point, shown.reading.words.as_slice())? {
        Some(text) => escape(out, &text),
        None => out.push_str("<span class=\"soft\">not implemented</span>"),
    }
}

/// The end of the cell of a reading, with a mark where its slot is voided.
fn mark(voided: bool) -> &'static str {
    if voided {
        "<span class=\"mark\">void</span></td>"
    } else {
        "</td>"
    }
}

/// Adds the cell of the last reading.
fn push_last(
    alloc: Global,
    out: &mut String,
    point: &Point,
    last: &Option<ShownReading>,
) -> Result<(), AllocError>
    ensures { OnOk result (Grows (string_bytes out.old) (string_bytes out.new)) }
{
    let Some(shown) = last else {
        return out.push_str("<td class=\"number soft\">no reading</td>");
    };
    out.push_str("<td class=\"number\">")?;
    push_shown(alloc, out, point, shown)?;
    out.push_str(mark(shown.voided))
}

/// Adds the cells of when the last reading's slot began, and of the slot.
fn push_when(out: &mut String, last: &Option<ShownReading>, slots: Slots) -> Result<(), AllocError>
    ensures { OnOk result (Grows (string_bytes out.old) (string_bytes out.new)) }
{
    let Some(shown) = last else {
        return out.push_str("<td></td><td></td>");
    };
    let slot = shown.reading.slot;
    out.push_str("<td>")?;
    push_moment(out, beginning(slot, slots))?;
    write!(out, "</td><td class=\"number\">{slot}</td>")
}

/// Adds the cell of a total, empty where there is none.
fn push_total(
    alloc: Global,
    out: &mut String,
    point: &Point,
    total: Option<u128>,
) -> Result<(), AllocError>
    ensures { OnOk result (Grows (string_bytes out.old) (string_bytes out.new)) }
{
    let Some(total) = total else {
        return out.push_str("<td></td>");
    };
    let text = total_text(alloc, point, total)?;
    write!(out, "<td class=\"number\">{text}</td>")
}

/// Adds the row of a point: its name, its last reading, a counter's total, the time and the slot of the reading, and
/// what the point is for.
pub fn push_point(
    alloc: Global,
    out: &mut String,
    seen: &Seen,
    slots: Slots,
) -> Result<(), AllocError>
    ensures { OnOk result (Grows (string_bytes out.old) (string_bytes out.new)) }
{
    push_name(out, seen.point.name.as_str())?;
    push_last(alloc, out, &seen.point, &seen.last)?;
    push_total(alloc, out, &seen.point, seen.total)?;
    push_when(out, &seen.last, slots)?;
    push_cell(out, role_word(seen.point.role))?;
    out.push_str("</tr>\n")
}
