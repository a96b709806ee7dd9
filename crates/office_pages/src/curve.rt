//! The curve of a point's readings as a picture in HTML.
ghost use Rattle.std.specs.Prelude.{OnOk, string_bytes};
ghost use Rattle.office_pages.specs.Pieces.{Grows};

use crate::escape::escape;
use crate::words::number_of;
use point_list::Point;
use poll_book::ShownReading;
use std::alloc::{AllocError, Global};
use sunspec::scaled_text;

const WIDTH: u64 = 960;

const HEIGHT: u64 = 120;

/// So much of the picture stays free at each side.
const MARGIN: u64 = 8;

/// What a picture spans: slots from left to right, numbers from below to above.
#[derive(Clone, Copy)]
struct Span {
    from: u32,
    to: u32,
    least: i128,
    greatest: i128,
}

/// A reading in a picture.
#[derive(Clone, Copy)]
struct Dot {
    across: u64,
    down: u128,
}

impl Span {
    fn across(&self, slot: u32) -> u64 {
        let slots = u64::from(self.to.saturating_sub(self.from)).max(1);
        let passed = u64::from(slot.saturating_sub(self.from));
        MARGIN + passed * (WIDTH - 2 * MARGIN) / slots
    }

    fn down(&self, number: i128) -> u128 {
        let height = self.greatest.abs_diff(self.least);
        if height == 0 {
            return u128::from(HEIGHT / 2);
        }
        let below = self.greatest.abs_diff(number);
        let down = below.saturating_mul(u128::from(HEIGHT - 2 * MARGIN)) / height;
        down.saturating_add(u128::from(MARGIN))
    }

    /// Where a reading is drawn; nowhere where it shows no number or its slot is outside.
    fn dot(&self, point: &Point, row: &ShownReading) -> Option<Dot> {
        let slot = row.reading.slot;
        if slot < self.from || slot > self.to {
            return None;
        }
        let number = number_of(point, row.reading.words.as_slice())?;
        Some(Dot {
            across: self.across(slot),
            down: self.down(number),
        })
    }
}

/// The least and the greatest number of the readings in slots; none where they show no number.
fn span_of(point: &Point, rows: &[ShownReading], from: u32, to: u32) -> Option<Span> {
    let mut ends: Option<(i128, i128)> = None;
    for row in rows {
        let slot = row.reading.slot;
        if slot < from || slot > to {
            continue;
        }
        let Some(number) = number_of(point, row.reading.words.as_slice()) else {
            continue;
        };
        let (least, greatest) = ends.unwrap_or((number, number));
        ends = Some((least.min(number), greatest.max(number)));
    }
    let (least, greatest) = ends?;
    Some(Span {
        from,
        to,
        least,
        greatest,
    })
}

/// Adds the step of a curve to a reading: a line from the slot before, or a dot behind a gap.
fn push_step(out: &mut String, dot: Dot, follows: bool) -> Result<(), AllocError>
    ensures { OnOk result (Grows (string_bytes out.old) (string_bytes out.new)) }
{
    let Dot { across, down } = dot;
    if follows {
        write!(out, "L{across} {down}")
    } else {
        write!(out, "M{across} {down}h0")
    }
}

/// Adds the curve. A slot without a number is a gap.
fn push_trace(
    out: &mut String,
    point: &Point,
    rows: &[ShownReading],
    span: &Span,
) -> Result<(), AllocError>
    ensures { OnOk result (Grows (string_bytes out.old) (string_bytes out.new)) }
{
    out.push_str("<path class=\"trace\" d=\"")?;
    let mut next = None;
    for row in rows {
        if let Some(dot) = span.dot(point, row) {
            push_step(out, dot, next == Some(row.reading.slot))?;
            next = row.reading.slot.checked_add(1);
        }
    }
    out.push_str("\"/>")
}

/// Adds a circle at each reading whose slot is voided.
fn push_voids(
    out: &mut String,
    point: &Point,
    rows: &[ShownReading],
    span: &Span,
) -> Result<(), AllocError>
    ensures { OnOk result (Grows (string_bytes out.old) (string_bytes out.new)) }
{
    for row in rows {
        if !row.voided {
            continue;
        }
        if let Some(Dot { across, down }) = span.dot(point, row) {
            write!(
                out,
                "<circle class=\"void\" cx=\"{across}\" cy=\"{down}\" r=\"4\"/>"
            )?;
        }
    }
    Ok(())
}

/// Adds what the picture spans, in words.
fn push_range(alloc: Global, out: &mut String, point: &Point, span: &Span) -> Result<(), AllocError>
    ensures { OnOk result (Grows (string_bytes out.old) (string_bytes out.new)) }
{
    let scale = i32::from(point.scale);
    let Ok(least) = scaled_text(alloc, span.least, scale) else {
        return Err(AllocError);
    };
    let Ok(greatest) = scaled_text(alloc, span.greatest, scale) else {
        return Err(AllocError);
    };
    let Span { from, to, .. } = *span;
    write!(
        out,
        "<p class=\"range\">{least} to {greatest}, slots {from} to {to}</p>"
    )
}

/// Adds a row with the curve of a point's readings in the slots `from` to `to`, both included, behind the point's own
/// row. The readings come by slot. Nothing is added where none of them shows a number.
pub fn push_curve(
    alloc: Global,
    out: &mut String,
    point: &Point,
    rows: &[ShownReading],
    from: u32,
    to: u32,
) -> Result<(), AllocError>
    ensures { OnOk result (Grows (string_bytes out.old) (string_bytes out.new)) }
{
    let Some(span) = span_of(point, rows, from, to) else {
        return Ok(());
    };
    out.push_str(
        "<tr class=\"curve\"><td colspan=\"6\"><svg viewBox=\"0 0 960 120\" role=\"img\" aria-label=\"",
    )?;
    escape(out, point.name.as_str())?;
    out.push_str("\"><path class=\"axis\" d=\"M0 119.5h960\"/>")?;
    push_trace(out, point, rows, &span)?;
    push_voids(out, point, rows, &span)?;
    out.push_str("</svg>")?;
    push_range(alloc, out, point, &span)?;
    out.push_str("</td></tr>\n")
}
