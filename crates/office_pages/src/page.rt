//! The pages of an office in HTML, piece by piece: what stands before the parts, the lines, the orders that wait, and
//! the points by device with their curves. Names and addresses pass through `escape`.
ghost use Rattle.std.specs.Prelude.{OnOk, string_bytes};
ghost use Rattle.office_pages.specs.Pieces.{Grows};

pub use crate::curve::push_curve;
use crate::escape::escape;
use crate::moment::moment_of;
pub use crate::row::push_point;
use crate::seen::{LineSeen, OrderSeen, Tally};
use crate::style::STYLE;
use std::alloc::AllocError;

/// Adds a moment, to the second.
pub(crate) fn push_moment(out: &mut String, seconds: u64) -> Result<(), AllocError>
    ensures { OnOk result (Grows (string_bytes out.old) (string_bytes out.new)) }
{
    let Some(moment) = moment_of(seconds) else {
        return out.push_str("past the year 9999");
    };
    let (date, time) = (moment.date(), moment.time());
    write!(
        out,
        "<time datetime=\"{date}T{time}Z\">{date} {time} UTC</time>"
    )
}

/// Adds whether the store refused, and how often.
fn push_faults(out: &mut String, store_faults: u64) -> Result<(), AllocError>
    ensures { OnOk result (Grows (string_bytes out.old) (string_bytes out.new)) }
{
    if store_faults == 0 {
        return out.push_str(" · the store refused nothing");
    }
    write!(
        out,
        " · <span class=\"state down\">the store refused {store_faults} calls</span>"
    )
}

/// Adds the head of a page.
fn push_head(out: &mut String, title: &str) -> Result<(), AllocError>
    ensures { OnOk result (Grows (string_bytes out.old) (string_bytes out.new)) }
{
    out.push_str("<!doctype html>\n<html lang=\"en\">\n<head>\n<meta charset=\"utf-8\">\n")?;
    out.push_str(
        "<meta name=\"viewport\" content=\"width=device-width, initial-scale=1\">\n<title>",
    )?;
    escape(out, title)?;
    out.push_str("</title>\n")?;
    out.push_str(STYLE)?;
    out.push_str("\n</head>\n")
}

/// Adds the front of a page: its title, the time that it is of, and how often the store refused.
pub fn push_begin(
    out: &mut String,
    title: &str,
    now_seconds: u64,
    store_faults: u64,
) -> Result<(), AllocError>
    ensures { OnOk result (Grows (string_bytes out.old) (string_bytes out.new)) }
{
    push_head(out, title)?;
    out.push_str("<body>\n<h1>")?;
    escape(out, title)?;
    out.push_str("</h1>\n<p class=\"when\">")?;
    push_moment(out, now_seconds)?;
    push_faults(out, store_faults)?;
    out.push_str("</p>\n")
}

/// Adds a cell with a text that may be anybody's.
pub(crate) fn push_cell(out: &mut String, text: &str) -> Result<(), AllocError>
    ensures { OnOk result (Grows (string_bytes out.old) (string_bytes out.new)) }
{
    out.push_str("<td>")?;
    escape(out, text)?;
    out.push_str("</td>")
}

/// Adds the cell that names its row.
pub(crate) fn push_name(out: &mut String, name: &str) -> Result<(), AllocError>
    ensures { OnOk result (Grows (string_bytes out.old) (string_bytes out.new)) }
{
    out.push_str("<tr><th scope=\"row\">")?;
    escape(out, name)?;
    out.push_str("</th>")
}

/// Adds the cell of a number.
fn push_number(out: &mut String, number: u64) -> Result<(), AllocError>
    ensures { OnOk result (Grows (string_bytes out.old) (string_bytes out.new)) }
{
    write!(out, "<td class=\"number\">{number}</td>")
}

/// Adds how long a line's last round that ended uncut took.
fn push_last_round(out: &mut String, millis: Option<u64>) -> Result<(), AllocError>
    ensures { OnOk result (Grows (string_bytes out.old) (string_bytes out.new)) }
{
    let Some(millis) = millis else {
        return out.push_str("<td class=\"number soft\">none</td>");
    };
    let (seconds, rest) = (millis / 1_000, millis % 1_000);
    write!(out, "<td class=\"number\">{seconds}.{rest:03} s</td>")
}

/// The cell that says whether a line is up.
fn state(is_up: bool) -> &'static str {
    if is_up {
        "<td><span class=\"state up\">up</span></td>"
    } else {
        "<td><span class=\"state down\">down</span></td>"
    }
}

/// Adds the cells of what a line's rounds came to.
fn push_tally(out: &mut String, tally: &Tally) -> Result<(), AllocError>
    ensures { OnOk result (Grows (string_bytes out.old) (string_bytes out.new)) }
{
    let Tally {
        rounds,
        cut,
        queries,
        readings,
        exceptions,
        refused,
        ..
    } = *tally;
    for number in [rounds, cut, queries, readings, exceptions, refused] {
        push_number(out, number)?;
    }
    Ok(())
}

fn push_line(out: &mut String, line: &LineSeen<'_>) -> Result<(), AllocError>
    ensures { OnOk result (Grows (string_bytes out.old) (string_bytes out.new)) }
{
    push_name(out, line.name)?;
    out.push_str(state(line.is_up))?;
    push_cell(out, line.address)?;
    push_last_round(out, line.tally.last_round)?;
    push_tally(out, &line.tally)?;
    out.push_str("</tr>\n")
}

/// Adds the table of the lines.
pub fn push_lines(out: &mut String, lines: &[LineSeen<'_>]) -> Result<(), AllocError>
    ensures { OnOk result (Grows (string_bytes out.old) (string_bytes out.new)) }
{
    out.push_str(
        "<h2>Lines</h2>\n<div class=\"box\">\n<table>\n<thead><tr><th scope=\"col\">line</th>",
    )?;
    out.push_str("<th scope=\"col\">state</th><th scope=\"col\">address</th>")?;
    out.push_str(
        "<th scope=\"col\" class=\"number\">last round</th><th scope=\"col\" class=\"number\">rounds</th>",
    )?;
    out.push_str(
        "<th scope=\"col\" class=\"number\">cut</th><th scope=\"col\" class=\"number\">queries</th>",
    )?;
    out.push_str(
        "<th scope=\"col\" class=\"number\">readings</th><th scope=\"col\" class=\"number\">exceptions</th>",
    )?;
    out.push_str("<th scope=\"col\" class=\"number\">refused frames</th></tr></thead>\n<tbody>\n")?;
    for line in lines {
        push_line(out, line)?;
    }
    out.push_str("</tbody>\n</table>\n</div>\n")
}

/// Adds the front of the table of the orders that wait.
pub fn push_orders_begin(out: &mut String) -> Result<(), AllocError>
    ensures { OnOk result (Grows (string_bytes out.old) (string_bytes out.new)) }
{
    out.push_str(
        "<h2>Orders that wait</h2>\n<div class=\"box\">\n<table>\n<thead><tr><th scope=\"col\">device</th>",
    )?;
    out.push_str("<th scope=\"col\" class=\"number\">order</th><th scope=\"col\">point</th>")?;
    out.push_str("<th scope=\"col\" class=\"number\">value</th></tr></thead>\n<tbody>\n")
}

/// Adds the row of a device's oldest order that waits.
pub fn push_order(out: &mut String, order: &OrderSeen<'_>) -> Result<(), AllocError>
    ensures { OnOk result (Grows (string_bytes out.old) (string_bytes out.new)) }
{
    push_name(out, order.device)?;
    push_number(out, u64::from(order.number))?;
    push_cell(out, order.point)?;
    out.push_str("<td class=\"number\">")?;
    escape(out, order.value)?;
    out.push_str("</td></tr>\n")
}

/// The end of the table of the orders that wait.
pub fn orders_end() -> &'static str {
    "</tbody>\n</table>\n</div>\n"
}

/// The front of the table of the points.
pub fn points_begin() -> &'static str {
    "<h2>Points</h2>\n<div class=\"box\">\n<table>\n<thead><tr><th scope=\"col\">point</th>\
     <th scope=\"col\" class=\"number\">last reading</th><th scope=\"col\" class=\"number\">total</th>\
     <th scope=\"col\">time</th><th scope=\"col\" class=\"number\">slot</th><th scope=\"col\">role</th></tr></thead>\n<tbody>\n"
}

/// Adds the heading of a device's points. Where it has a place in the site, it leads to the device's own page.
pub fn push_device(out: &mut String, device: &str, place: Option<u16>) -> Result<(), AllocError>
    ensures { OnOk result (Grows (string_bytes out.old) (string_bytes out.new)) }
{
    out.push_str("<tr class=\"device\"><th colspan=\"6\" scope=\"colgroup\">")?;
    let Some(place) = place else {
        escape(out, device)?;
        return out.push_str("</th></tr>\n");
    };
    write!(out, "<a href=\"/devices/{place}\">")?;
    escape(out, device)?;
    out.push_str("</a></th></tr>\n")
}

/// The end of the table of the points.
pub fn points_end() -> &'static str {
    "</tbody>\n</table>\n</div>\n"
}

/// The end of a page.
pub fn end() -> &'static str {
    "</body>\n</html>\n"
}
