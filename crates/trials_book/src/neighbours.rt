//! The values on either side of a slot, the look-ups that find them, and the total that they repair.
use crate::storing::{point, store};
use point_list::Role;
use poll_book::{MemKeeper, Neighbours, PointRow, StoreFault, repaired, step_between};
use std::alloc::AllocError;
use std::test::Fail;
use sunspec::PointType;
use telling::{Trial, twice};

/// The nearest values before the slot and after it.
fn sides(
    keeper: &mut MemKeeper,
    point: &PointRow,
    slot: u32,
) -> Result<(Option<u64>, Option<u64>), StoreFault> {
    let before = keeper.before(point, slot)?;
    let after = keeper.after(point, slot)?;
    Ok((before, after))
}

/// Three readings, of which the one in the middle is unimplemented.
fn nearest(trial: &Trial<'_>) -> Result<(), StoreFault> {
    let counter = point(1, "m1", PointType::Uint16, (Role::Counter, 65534))?;
    let mut keeper = MemKeeper::new(trial.alloc());
    for (slot, word) in [(30, 300), (10, 100), (20, 65535)] {
        store(trial.alloc(), &mut keeper, &counter, slot, &[word])?;
    }
    for (slot, before, after) in [
        (9, None, Some(100)),
        (10, None, Some(300)),
        (20, Some(100), Some(300)),
        (25, Some(100), Some(300)),
        (30, Some(100), None),
        (31, Some(300), None),
    ] {
        let found = sides(&mut keeper, &counter, slot)?;
        trial.told(&slot, &found, &(before, after));
    }
    trial.told(&"lookups", &keeper.lookups(), &23);
    Ok(())
}

#[test]
fn the_nearest_values_that_count(rt: HostRuntime) -> Result<(), Fail> {
    Ok(twice!(rt, nearest)?)
}

/// A counter that went from 65000 over its roll to 36.
fn repairs(trial: &Trial<'_>) -> Result<(), AllocError> {
    let across = step_between(65000, 36, 65535);
    trial.told(&"across", &across, &572);
    let between = repaired(572, Some(65000), 65500, Some(36), 65535);
    trial.told(&"between", &between, &572);
    let beside = repaired(572, Some(65000), 64000, Some(36), 65535);
    trial.told(&"beside", &beside, &(572 + 65536));
    let first = repaired(572, None, 64000, Some(65000), 65535);
    trial.told(&"first", &first, &1572);
    let last = repaired(572, Some(36), 40, None, 65535);
    trial.told(&"last", &last, &576);
    let alone = repaired(0, None, 7, None, 65535);
    trial.told(&"alone", &alone, &0);
    let greatest = i128::MAX as u128;
    let full = repaired(greatest, None, 0, Some(9), 65535);
    trial.told(&"full", &full, &greatest);
    Ok(())
}

#[test]
fn a_total_is_repaired(rt: HostRuntime) -> Result<(), Fail> {
    Ok(twice!(rt, repairs)?)
}
