//! `read_planner`: the fewest reads that bring points.
use crate::lists::points;
use anyhow::Result;
use point_list::Point;
use read_planner::{can_be_read, plan};

fn show_plan(rt: &HostRuntime, points: &[Point], gap: u16) -> Result<()> {
    if !points.iter().all(|point| can_be_read(point)) {
        return Ok(());
    }
    for read in &plan(rt.alloc(), points, gap)? {
        println!(rt;
            "gap {gap}: function {} from {} on, {} addresses",
            read.function, read.span.start, read.span.quantity
        )?;
    }
    Ok(())
}

pub(crate) fn show(rt: &HostRuntime) -> Result<()> {
    let points = points(rt.alloc())?;
    show_plan(rt, &points, 2)?;
    show_plan(rt, &points, 1)
}
