//! What a keeper in memory gives back, and that a refusal leaves it as it was.
ghost use Rattle.std.specs.Prelude.{◌<◌, ◌≤◌, length};

use crate::storing::{apply, point, readings, shows, store, words};
use point_list::{Items, Role};
use poll_book::{Change, Keeper, MemKeeper, PointRow, StoreFault, Words};
use std::alloc::AllocError;
use std::test::Fail;
use sunspec::PointType;
use telling::{Trial, twice};

/// A point of five registers, and that there were seven connections.
fn begin(trial: &Trial<'_>, keeper: &mut MemKeeper, point: &PointRow) -> Result<(), StoreFault> {
    let mut change = Change::none(trial.alloc());
    change.points = Items::from_vec(vec![in trial.alloc(); *point]?);
    change.connections = Some(7);
    apply(keeper, &change)?;
    let points = keeper.points(trial.alloc())?;
    trial.told(&"kept", &points.as_slice(), &[*point].as_slice());
    trial.told(&"connections", &keeper.connections(), &Ok(7));
    Ok(())
}

/// Stores four readings, of which the last is of a slot that has one.
fn store_all(
    trial: &Trial<'_>,
    keeper: &mut MemKeeper,
    point: &PointRow,
) -> Result<(), StoreFault> {
    for (slot, words, count) in [
        (30, [1, 2, 3, 4, 30], 1),
        (10, [1, 2, 3, 4, 10], 1),
        (20, [1, 2, 3, 4, 20], 1),
        (20, [9, 9, 9, 9, 9], 0),
    ] {
        let told = store(trial.alloc(), keeper, point, slot, &words)?;
        trial.told(&slot, &told, &count);
    }
    Ok(())
}

/// The rows of slots 10 and 20.
const ROWS: &str =
    "[ShownReading { reading: ReadingRow { point: 2, slot: 10, words: [1, 2, 3, 4, 10], counted: false }, voided: false }, \
    ShownReading { reading: ReadingRow { point: 2, slot: 20, words: [1, 2, 3, 4, 20], counted: false }, voided: false }]";

fn rows(trial: &Trial<'_>) -> Result<(), StoreFault> {
    let text = point(2, "m1", PointType::Str(5), (Role::Counter, 0))?;
    let mut keeper = MemKeeper::new(trial.alloc());
    begin(trial, &mut keeper, &text)?;
    store_all(trial, &mut keeper, &text)?;
    shows(
        trial,
        &readings(trial.alloc(), &mut keeper, &text, 10, 20)?,
        ROWS,
    )?;
    shows(
        trial,
        &words(&mut keeper, &text, 30)?,
        "Some([1, 2, 3, 4, 30])",
    )?;
    shows(trial, &words(&mut keeper, &text, 31)?, "None")?;
    let other = PointRow { number: 1, ..text };
    shows(
        trial,
        &readings(trial.alloc(), &mut keeper, &other, 0, 100)?,
        "[]",
    )?;
    Ok(())
}

#[test]
fn rows_come_back_by_slot(rt: HostRuntime) -> Result<(), Fail> {
    Ok(twice!(rt, rows)?)
}

fn are_held(trial: &Trial<'_>, words: &[u16]) -> Result<(), AllocError>
    requires not_empty { 0 < length words.now }
    requires short { length words.now ≤ 125 }
{
    let held = Words::new(trial.alloc(), words)?;
    let copied = held.clone()?;
    trial.told(&"held", &held.as_slice(), &words);
    trial.told(&"copied", &copied.as_slice(), &words);
    Ok(())
}

/// Four registers lie in place, and five don't.
fn registers(trial: &Trial<'_>) -> Result<(), AllocError> {
    are_held(trial, &[5, 6, 7, 8])?;
    are_held(trial, &[5, 6, 7, 8, 9])
}

#[test]
fn registers_in_place_and_not(rt: HostRuntime) -> Result<(), Fail> {
    Ok(twice!(rt, registers)?)
}

/// Stores readings of nine slots, until one is refused. Then the keeper is as before.
fn refusals(trial: &Trial<'_>) -> Result<(), StoreFault> {
    let point = point(1, "m1", PointType::Uint16, (Role::Counter, 65535))?;
    let mut keeper = MemKeeper::new(trial.alloc());
    for slot in 0..9 {
        match store(trial.alloc(), &mut keeper, &point, slot, &[slot as u16]) {
            Ok(count) => trial.told(&slot, &count, &1),
            Err(fault) => {
                trial.told(&slot, &fault, &StoreFault::Memory);
                shows(trial, &words(&mut keeper, &point, slot)?, "None")?;
                let kept = readings(trial.alloc(), &mut keeper, &point, 0, 100)?;
                trial.told(&slot, &kept.len(), &(slot as usize));
                return Ok(());
            }
        }
    }
    Ok(())
}

/// Run under `rt try --test --fail-alloc N`, this one sees each growth refused in turn.
#[test]
fn a_refusal_changes_nothing(rt: HostRuntime) -> Result<(), Fail> {
    Ok(twice!(rt, refusals)?)
}
