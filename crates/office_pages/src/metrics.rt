//! The counts and the points of an office in OpenMetrics 1.0. A family's samples stand together, so each of the three
//! families of points is a walk over all points: its front, then a sample of each that has one.
ghost use Rattle.std.specs.Prelude.{◌≡◌, ◌++◌, OnOk, string_bytes};
ghost use Rattle.office_pages.specs.Samples.{labels, sample, time_sample, total_sample, value_sample};

use crate::label_value::escape_label;
pub use crate::line_metrics::push_office;
use crate::moment::beginning;
use crate::seen::Seen;
use crate::words::number_of;
use office_report::total_text;
use point_list::Point;
use run_beat::Slots;
use std::alloc::{AllocError, Global};
use sunspec::scaled_text;

/// Adds the labels of a point.
fn push_labels(out: &mut String, point: &Point) -> Result<(), AllocError>
    ensures { OnOk result (string_bytes out.new ≡ string_bytes out.old ++ labels point.now) }
{
    out.push_str("{device=\"")?;
    escape_label(out, point.device.as_str())?;
    out.push_str("\",point=\"")?;
    escape_label(out, point.name.as_str())?;
    out.push_str("\"}")
}

/// Adds a sample of a point.
fn push_sample(out: &mut String, name: &str, point: &Point, value: &str) -> Result<(), AllocError>
    ensures { OnOk result (string_bytes out.new ≡ string_bytes out.old ++ sample name.now point.now value.now) }
{
    out.push_str(name)?;
    push_labels(out, point)?;
    out.push_str(" ")?;
    out.push_str(value)?;
    out.push_str("\n")
}

/// The front of the family of values.
pub fn values() -> &'static str {
    "# TYPE kimjolde_point_value gauge\n# HELP kimjolde_point_value The number of the last reading, with its scale.\n"
}

/// Adds the number of a point's last reading, where that is a number.
pub fn push_value(alloc: Global, out: &mut String, seen: &Seen) -> Result<(), AllocError>
    ensures { OnOk result (string_bytes out.new ≡ string_bytes out.old ++ value_sample seen.now) }
{
    let Some(shown) = &seen.last else {
        return Ok(());
    };
    let Some(number) = number_of(&seen.point, shown.reading.words.as_slice()) else {
        return Ok(());
    };
    let Ok(text) = scaled_text(alloc, number, i32::from(seen.point.scale)) else {
        return Err(AllocError);
    };
    push_sample(out, "kimjolde_point_value", &seen.point, &text)
}

/// The front of the family of times.
pub fn times() -> &'static str {
    "# TYPE kimjolde_point_time_seconds gauge\n# UNIT kimjolde_point_time_seconds seconds\n\
     # HELP kimjolde_point_time_seconds When the slot of the last reading began, since 1970.\n"
}

/// Adds when the slot of a point's last reading began, where it has one.
pub fn push_time(out: &mut String, seen: &Seen, slots: Slots) -> Result<(), AllocError>
    ensures { OnOk result (string_bytes out.new ≡ string_bytes out.old ++ time_sample slots seen.now) }
{
    let Some(shown) = &seen.last else {
        return Ok(());
    };
    let seconds = beginning(shown.reading.slot, slots);
    out.push_str("kimjolde_point_time_seconds")?;
    push_labels(out, &seen.point)?;
    writeln!(out, " {seconds}")
}

/// The front of the family of totals, which are gauges, since a void lowers one.
pub fn totals() -> &'static str {
    "# TYPE kimjolde_point_accumulated gauge\n\
     # HELP kimjolde_point_accumulated How far a counter went by its readings, with its scale.\n"
}

/// Adds how far a counter went; nothing of another point.
pub fn push_total(alloc: Global, out: &mut String, seen: &Seen) -> Result<(), AllocError>
    ensures { OnOk result (string_bytes out.new ≡ string_bytes out.old ++ total_sample seen.now) }
{
    let Some(total) = seen.total else {
        return Ok(());
    };
    let text = total_text(alloc, &seen.point, total)?;
    push_sample(out, "kimjolde_point_accumulated", &seen.point, &text)
}

/// The end of the text.
pub fn end() -> &'static str {
    "# EOF\n"
}
