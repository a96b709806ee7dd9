//! The fewest reads of points.
use crate::names::{table_of, type_of};
use crate::texts::shown;
use case_pages::Trouble;
use point_list::{Label, Name, Point, Role};
use read_planner::{Read, can_be_read, plan};
use std::alloc::{AllocError, Global};
use sunspec::WordOrder;

/// `TABLE ADDRESS TYPE` at an address past that by so many.
fn point_of(text: &str, step: u16) -> Option<Point> {
    let mut words = text.split(' ');
    let table = table_of(words.next()?)?;
    let address = words.next()?.parse::<u16>().ok()?;
    Some(Point {
        name: Name::new(b"p")?,
        device: Label::new(b"d")?,
        table,
        address: address.saturating_add(step),
        kind: type_of(words.next()?)?,
        scale: 0,
        role: Role::Gauge,
        roll: 0,
        order: WordOrder::Big,
    })
}

/// Points side by side: `coil 0 bit*3` is a point at 0, at 1 and at 2.
fn push_points(points: &mut Vec<Point>, text: &str) -> Result<(), Trouble> {
    let (text, times) = text.split_once('*').unwrap_or((text, "1"));
    for step in 0..times.parse::<u16>().unwrap_or(1) {
        let Some(point) = point_of(text, step) else {
            return Err(Trouble::Page("no point"));
        };
        points.push(point)?;
    }
    Ok(())
}

fn points_of(alloc: Global, text: &str) -> Result<Vec<Point>, Trouble> {
    let mut points = Vec::new(alloc);
    if text == "no point" {
        return Ok(points);
    }
    for text in text.split("; ") {
        push_points(&mut points, text)?;
    }
    Ok(points)
}

fn planned(alloc: Global, points: &[Point], gap: u16) -> Result<Option<Vec<Read>>, AllocError> {
    if !points.iter().all(|point| can_be_read(point)) {
        return Ok(None);
    }
    Ok(Some(plan(alloc, points, gap)?))
}

fn gap_of(input: &str) -> Option<(u16, &str)> {
    let (gap, points) = input.strip_prefix("gap ")?.split_once(": ")?;
    Some((gap.parse::<u16>().ok()?, points))
}

/// `gap GAP: TABLE ADDRESS TYPE; ..`, and the reads, if all of the points can be read.
pub(crate) fn plan_of(alloc: Global, input: &str) -> Result<String, Trouble> {
    let (gap, points) = gap_of(input).ok_or(Trouble::Page("no gap and points"))?;
    let reads = planned(alloc, &points_of(alloc, points)?, gap)?;
    Ok(shown(alloc, &reads)?)
}
