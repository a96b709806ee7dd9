//! Slots of counters that are voided in a keeper: what is kept of them, and the totals then.
use crate::storing::{point, readings, shows, store, void};
use point_list::Role;
use poll_book::{Keeper, MemKeeper, Neighbours, PointRow, StoreFault, removed};
use std::alloc::AllocError;
use std::test::Fail;
use sunspec::PointType;
use telling::{Trial, twice};

/// Whether the slot is voided, how many are, and the total.
fn seen(
    keeper: &mut MemKeeper,
    point: &PointRow,
    slot: u32,
) -> Result<(bool, u64, u128), StoreFault> {
    let is_voided = keeper.voided(point, slot)?;
    let voids = keeper.voids()?;
    Ok((is_voided, voids, keeper.total(point)?))
}

fn store_all(
    trial: &Trial<'_>,
    keeper: &mut MemKeeper,
    point: &PointRow,
) -> Result<(), StoreFault> {
    for (slot, word) in [(1, 65000), (3, 500), (2, 64000), (5, 65535)] {
        let told = store(trial.alloc(), keeper, point, slot, &[word])?;
        trial.told(&slot, &told, &1);
    }
    Ok(())
}

/// Voids slots one behind the other: one between two, one without a reading, one again, one whose reading doesn't
/// count, the first, and the last.
fn void_all(trial: &Trial<'_>, keeper: &mut MemKeeper, point: &PointRow) -> Result<(), StoreFault> {
    trial.told(&"before", &seen(keeper, point, 2)?, &(false, 0, 66572));
    for (slot, struck, voids, total) in [
        (2, 1, 1, 1036),
        (9, 0, 2, 1036),
        (2, 0, 2, 1036),
        (5, 0, 3, 1036),
        (1, 1, 4, 0),
        (3, 1, 5, 0),
    ] {
        let told = void(trial.alloc(), keeper, point, slot)?;
        trial.told(&slot, &told, &struck);
        trial.told(&slot, &seen(keeper, point, slot)?, &(true, voids, total));
    }
    Ok(())
}

/// The rows of slots 1 to 3.
const ROWS: &str =
    "[ShownReading { reading: ReadingRow { point: 1, slot: 1, words: [65000], counted: false }, voided: true }, \
    ShownReading { reading: ReadingRow { point: 1, slot: 2, words: [64000], counted: false }, voided: true }, \
    ShownReading { reading: ReadingRow { point: 1, slot: 3, words: [500], counted: false }, voided: true }]";

/// Readings of voided slots stay, and those that come count no more.
fn voids(trial: &Trial<'_>) -> Result<(), StoreFault> {
    let counter = point(1, "m1", PointType::Uint16, (Role::Counter, 65535))?;
    let mut keeper = MemKeeper::new(trial.alloc());
    store_all(trial, &mut keeper, &counter)?;
    void_all(trial, &mut keeper, &counter)?;
    let rows = readings(trial.alloc(), &mut keeper, &counter, 1, 3)?;
    shows(trial, &rows, ROWS)?;
    store(trial.alloc(), &mut keeper, &counter, 9, &[700])?;
    store(trial.alloc(), &mut keeper, &counter, 8, &[600])?;
    store(trial.alloc(), &mut keeper, &counter, 10, &[650])?;
    trial.told(&"later", &seen(&mut keeper, &counter, 8)?, &(false, 5, 50));
    let other = PointRow {
        number: 2,
        ..counter
    };
    trial.told(&"other", &seen(&mut keeper, &other, 2)?, &(false, 5, 0));
    Ok(())
}

#[test]
fn voided_slots_count_no_more(rt: HostRuntime) -> Result<(), Fail> {
    Ok(twice!(rt, voids)?)
}

/// Voids five slots, until one is refused. Then the keeper is as before.
fn refusals(trial: &Trial<'_>) -> Result<(), StoreFault> {
    let counter = point(1, "m1", PointType::Uint16, (Role::Counter, 65535))?;
    let mut keeper = MemKeeper::new(trial.alloc());
    for slot in 0..5 {
        store(
            trial.alloc(),
            &mut keeper,
            &counter,
            slot,
            &[slot as u16 * 10],
        )?;
    }
    let mut total = 40;
    for slot in 0..5 {
        let before = (false, slot as u64, total);
        trial.told(&slot, &seen(&mut keeper, &counter, slot)?, &before);
        if let Err(fault) = void(trial.alloc(), &mut keeper, &counter, slot) {
            trial.told(&slot, &fault, &StoreFault::Memory);
            trial.told(&slot, &seen(&mut keeper, &counter, slot)?, &before);
            return Ok(());
        }
        total = total.saturating_sub(10);
    }
    Ok(())
}

/// Run under `rt try --test --fail-alloc N`, this one sees each growth refused in turn.
#[test]
fn a_refused_void_changes_nothing(rt: HostRuntime) -> Result<(), Fail> {
    Ok(twice!(rt, refusals)?)
}

/// The counter of a late reading that goes out of its total again, and what is left where it is the first, the last
/// or the only one.
fn removals(trial: &Trial<'_>) -> Result<(), AllocError> {
    let between = removed(66572, Some(65000), 64000, Some(500), 65535);
    trial.told(&"between", &between, &1036);
    let first = removed(1572, None, 64000, Some(65000), 65535);
    trial.told(&"first", &first, &572);
    let last = removed(576, Some(36), 40, None, 65535);
    trial.told(&"last", &last, &572);
    let alone = removed(0, None, 7, None, 65535);
    trial.told(&"alone", &alone, &0);
    Ok(())
}

#[test]
fn a_reading_goes_out_of_its_total(rt: HostRuntime) -> Result<(), Fail> {
    Ok(twice!(rt, removals)?)
}
