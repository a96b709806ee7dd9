//! `poll_book`: a keeper in memory, as any keeper is used. That of `office_store` over a database of SQLite has the same
//! trait, and the program `office` opens one.
use crate::lists::points;
use anyhow::Result;
use point_list::Items;
use poll_book::{Change, Keeper, MemKeeper, PointRow, StoreFault};
use std::alloc::Global;

/// Writes points, numbered from 1 on, and the number of the last connection, all or nothing.
fn write<K: Keeper>(alloc: Global, keeper: &mut K, rows: Vec<PointRow>) -> Result<(), StoreFault> {
    let mut change = Change::none(alloc);
    change.points = Items::from_vec(rows);
    change.connections = Some(1);
    keeper.apply(&change)
}

fn rows(alloc: Global) -> Result<Vec<PointRow>> {
    let mut rows = Vec::new(alloc);
    for (number, point) in (1u32..).zip(&points(alloc)?) {
        rows.push(PointRow {
            number,
            point: *point,
        })?;
    }
    Ok(rows)
}

pub(crate) fn show(rt: &HostRuntime) -> Result<()> {
    let alloc = rt.alloc();
    let mut keeper = MemKeeper::new(alloc);
    write(alloc, &mut keeper, rows(alloc)?)?;
    for row in &keeper.points(alloc)? {
        println!(rt; "point {} is {}", row.number, row.point.name)?;
    }
    let connection = keeper.connections()?;
    println!(rt; "last connection {connection}")?;
    Ok(())
}
