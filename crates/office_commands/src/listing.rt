//! Point lists: loading them, and planning their reads.
ghost use Rattle.point_list.specs.Sites.{IsSound};

use crate::Failure;
use office_core::{Office, RequestAnswer};
use office_net::reads_of;
use office_report::request_text;
use point_list::{Device, Point, Site, read_points};
use poll_book::{Caller, Keeper, Key, Outcome, PointRow};
use read_planner::Read;
use std::alloc::{AllocError, Global};

/// What a list is answered, and where it was refused.
fn list_text(alloc: Global, told: &RequestAnswer) -> Result<String, AllocError> {
    let text = request_text(alloc, told)?;
    match told {
        RequestAnswer::Kept {
            outcome: Outcome::RefusedFor(reason),
            ..
        } => format!(in alloc; "{text} row {} column {}\n", reason.row, reason.column),
        _ => format!(in alloc; "{text}\n"),
    }
}

/// Loads a point list under a caller's key, and gives what is printed: `loaded N` where all its N
/// rows are known now, `refused TEXT row R column C` where the list was refused, and `key reused`
/// where another request had the key. A request that was made before is answered as it was then.
pub fn load<K: Keeper>(
    alloc: Global,
    office: &mut Office<K>,
    caller: &Caller,
    key: &Key,
    list: &[u8],
) -> Result<String, Failure> {
    let told = office.load(caller, key, list)?;
    Ok(list_text(alloc, &told)?)
}

/// The points of a list as rows, whose numbers count for nothing here.
fn rows_of(alloc: Global, points: &[Point]) -> Result<Vec<PointRow>, AllocError> {
    points
        .iter()
        .map(|point| PointRow {
            number: 0,
            point: *point,
        })
        .collect(alloc)
}

fn push_read(text: &mut String, read: &Read) -> Result<(), AllocError> {
    let Read { function, span } = *read;
    writeln!(text, "{function:02} {} {}", span.start, span.quantity)
}

fn push_device(
    alloc: Global,
    text: &mut String,
    known: &[PointRow],
    device: &Device,
) -> Result<(), AllocError> {
    let reads = reads_of(alloc, known, device)?;
    if reads.is_empty() {
        return Ok(());
    }
    let name = &device.name;
    writeln!(text, "device {name}")?;
    for read in &reads {
        push_read(text, read)?;
    }
    Ok(())
}

/// The fewest reads that give the points of a list, as they are printed: for each device of the site
/// that has points a line `device NAME`, and then a line for each of its reads, with the function
/// code, the start and the quantity, as `03 0 125`. A list that isn't one is `BadList`.
pub fn plan(alloc: Global, site: &Site, list: &[u8]) -> Result<String, Failure>
    requires { IsSound site.now }
{
    let points = read_points(alloc, list, site)?;
    let known = rows_of(alloc, &points)?;
    let mut text = String::new(alloc);
    for device in site.devices.as_slice() {
        push_device(alloc, &mut text, &known, device)?;
    }
    Ok(text)
}
