//! Orders in a keeper: their numbers, how they stand, and the oldest that waits on a device.
use crate::storing::{apply, point, shows};
use point_list::{Items, Role};
use poll_book::{Change, Keeper, MemKeeper, OrderState, SettingRow, StoreFault, Words};
use std::alloc::Global;
use std::test::Fail;
use sunspec::PointType;
use telling::{Trial, twice};

/// Puts an order that sets its point to 7, as it stands.
fn put(
    alloc: Global,
    keeper: &mut MemKeeper,
    number: u32,
    point: u32,
    state: OrderState,
) -> Result<(), StoreFault> {
    let mut change = Change::none(alloc);
    change.setting = Some(SettingRow {
        number,
        point,
        words: Words::new(alloc, &[7])?,
        state,
    });
    apply(keeper, &change)
}

/// Puts two settings, of devices d1 and d2.
fn put_points(alloc: Global, keeper: &mut MemKeeper) -> Result<(), StoreFault> {
    let first = point(1, "d1", PointType::Uint16, (Role::Setting, 0))?;
    let second = point(2, "d2", PointType::Uint16, (Role::Setting, 0))?;
    let mut change = Change::none(alloc);
    change.points = Items::from_vec(vec![in alloc; first, second]?);
    apply(keeper, &change)
}

/// The number of the oldest order that waits on a device.
fn oldest(keeper: &mut MemKeeper, device: &str) -> Result<Option<u32>, StoreFault> {
    Ok(keeper.oldest_waiting(device)?.map(|row| row.number))
}

/// How many orders there are, and which wait longest on d1, d2 and d3.
fn seen(keeper: &mut MemKeeper) -> Result<(u32, [Option<u32>; 3]), StoreFault> {
    let orders = keeper.orders()?;
    let devices = [
        oldest(keeper, "d1")?,
        oldest(keeper, "d2")?,
        oldest(keeper, "d3")?,
    ];
    Ok((orders, devices))
}

/// Orders as they stand in the end.
const ORDERS: &[(u32, &str)] = &[
    (1, "Some(Setting { point: 1, words: [7], state: Done })"),
    (
        2,
        "Some(Setting { point: 2, words: [7], state: Refused(2) })",
    ),
    (4, "Some(Setting { point: 2, words: [7], state: Waiting })"),
    (5, "None"),
];

/// Puts orders, each as it then stands, and expects how many there are and which wait.
fn put_all(trial: &Trial<'_>, keeper: &mut MemKeeper) -> Result<(), StoreFault> {
    use OrderState::*;
    trial.told(&"none", &seen(keeper)?, &(0, [None, None, None]));
    for (number, point, state, count, devices) in [
        (1, 1, Waiting, 1, [Some(1), None, None]),
        (2, 2, Waiting, 2, [Some(1), Some(2), None]),
        (3, 1, Waiting, 3, [Some(1), Some(2), None]),
        (1, 1, Done, 3, [Some(3), Some(2), None]),
        (2, 2, Refused(2), 3, [Some(3), None, None]),
        (4, 2, Waiting, 4, [Some(3), Some(4), None]),
        (3, 1, Done, 4, [None, Some(4), None]),
    ] {
        put(trial.alloc(), keeper, number, point, state)?;
        trial.told(&(number, state), &seen(keeper)?, &(count, devices));
    }
    for (number, expected) in ORDERS {
        shows(trial, &keeper.setting(*number)?, expected)?;
    }
    Ok(())
}

fn orders(trial: &Trial<'_>) -> Result<(), StoreFault> {
    let mut keeper = MemKeeper::new(trial.alloc());
    put_points(trial.alloc(), &mut keeper)?;
    put_all(trial, &mut keeper)
}

#[test]
fn orders_wait_and_are_settled(rt: HostRuntime) -> Result<(), Fail> {
    Ok(twice!(rt, orders)?)
}
