//! A clock that somebody sets, while the devices go on by one that nobody does.
use crate::gateways;
use crate::guest::Speech;
use crate::orders::{ASKED, ORDER, OrderDone};
use crate::scenes::{
    AllTold, Behind, IMAGE, Left, Look, assert_readings, assert_told, assert_total, look_behind,
    look_behind_new, office_over, world, world_of,
};
use crate::wire::{Spell, Trouble};
use crate::world::Setting;
use office_core::OfficeError;
use poll_book::MemKeeper;
use std::test::Fail;
use telling::{Trial, twice};

/// How a clock is set in a run of so many milliseconds, what the device on the roof counted in each slot, and its
/// total, which is what it counted in all.
struct Run {
    settings: &'static [Setting],
    ends: u64,
    told: &'static str,
    readings: &'static [(u32, u16)],
    total: u128,
}

impl Look<MemKeeper> for Run {
    fn look(&self, trial: &Trial<'_>, left: &mut Left<MemKeeper>) -> Result<(), OfficeError> {
        assert_told(trial, &left.world, self.told)?;
        assert_readings(trial, &mut left.office, "e", self.readings)?;
        assert_total(trial, &mut left.office, self.total)
    }
}

fn assert_run(trial: &Trial<'_>, run: &Run) -> Result<(), OfficeError> {
    let world = world(trial.alloc(), run.ends, &[], &[])?.with_settings(run.settings);
    look_behind_new(trial, &[], world, run)
}

/// In slot 102 it is set back by 16 seconds, and stands behind the slots that were begun until slot 103.
const BACK: Run = Run {
    settings: &[Setting {
        at: 9_000,
        ahead: 0,
        back: 16_000,
    }],
    ends: 30_000,
    told: "1970-01-01T00:08:22Z office: line roof is up\n1970-01-01T00:08:22Z office: line cellar is up\n1970-01-01T00:08:19Z office: the clock stands behind slot 102: no slot before it is begun\n1970-01-01T00:08:30Z office: the clock has caught up\n",
    readings: &[(100, 0), (101, 3), (102, 8), (103, 29)],
    total: 29,
};

fn back(trial: &Trial<'_>) -> Result<(), OfficeError> {
    assert_run(trial, &BACK)
}

#[test]
fn a_clock_that_is_set_back_fills_no_slot_before_one_that_was_begun(
    rt: HostRuntime,
) -> Result<(), Fail> {
    Ok(twice!(rt, back)?)
}

/// It is an hour ahead for half a minute, and no slot is begun for a minute.
const AHEAD_AND_RIGHT_AGAIN: Run = Run {
    settings: &[
        Setting {
            at: 9_000,
            ahead: 3_600_000,
            back: 0,
        },
        Setting {
            at: 40_000,
            ahead: 0,
            back: 3_600_000,
        },
    ],
    ends: 75_000,
    told: "1970-01-01T00:08:22Z office: line roof is up\n1970-01-01T00:08:22Z office: line cellar is up\n1970-01-01T01:08:35Z office: the clock jumped ahead: no slot is begun before it stood for a minute\n1970-01-01T00:09:35Z office: the clock is followed again\n",
    readings: &[(100, 0), (101, 3), (102, 8), (115, 73)],
    total: 73,
};

fn ahead_and_right_again(trial: &Trial<'_>) -> Result<(), OfficeError> {
    assert_run(trial, &AHEAD_AND_RIGHT_AGAIN)
}

#[test]
fn a_clock_that_jumps_ahead_and_comes_right_again_fills_no_slot_to_come(
    rt: HostRuntime,
) -> Result<(), Fail> {
    Ok(twice!(rt, ahead_and_right_again)?)
}

/// It is set ahead by an hour for good, and followed a minute later.
const AHEAD: Run = Run {
    settings: &[Setting {
        at: 9_000,
        ahead: 3_600_000,
        back: 0,
    }],
    ends: 75_000,
    told: "1970-01-01T00:08:22Z office: line roof is up\n1970-01-01T00:08:22Z office: line cellar is up\n1970-01-01T01:08:35Z office: the clock jumped ahead: no slot is begun before it stood for a minute\n1970-01-01T01:09:35Z office: the clock is followed again\n",
    readings: &[(100, 0), (101, 3), (102, 8), (835, 73)],
    total: 73,
};

fn ahead(trial: &Trial<'_>) -> Result<(), OfficeError> {
    assert_run(trial, &AHEAD)
}

#[test]
fn a_clock_that_is_set_ahead_is_followed_once_it_stood_for_a_minute(
    rt: HostRuntime,
) -> Result<(), Fail> {
    Ok(twice!(rt, ahead)?)
}

const BACK_BEFORE_AN_ORDER: &[Setting] = &[Setting {
    at: 4_000,
    ahead: 0,
    back: 16_000,
}];

/// While the clock stands behind the slots that were begun, an order is sent all the same.
fn ordered(trial: &Trial<'_>) -> Result<(), OfficeError> {
    let speeches = [Speech::at_once(5_000, ORDER), Speech::at_once(5_001, ASKED)];
    let world = world(trial.alloc(), 7_000, &[], &speeches)?;
    let world = world.with_settings(BACK_BEFORE_AN_ORDER);
    look_behind_new(trial, &[], world, &OrderDone)
}

#[test]
fn an_order_is_sent_while_the_clock_stands_behind(rt: HostRuntime) -> Result<(), Fail> {
    Ok(twice!(rt, ordered)?)
}

/// The roof answers nothing for a while, in which an order is sent and given up.
const ROOF_SILENT: [Behind; 2] = [
    Behind {
        image: IMAGE,
        spells: &[Spell {
            trouble: Trouble::Silent,
            unit: None,
            from: 4_500,
            to: 8_000,
        }],
    },
    Behind {
        image: IMAGE,
        spells: &[],
    },
];

/// While the clock stands behind, an order that was given up is sent again as the clock's next slot begins.
fn ordered_again(trial: &Trial<'_>) -> Result<(), OfficeError> {
    let speeches = [Speech::at_once(5_000, ORDER), Speech::at_once(9_500, ASKED)];
    let world = world_of(trial.alloc(), 10_000, &ROOF_SILENT, &speeches)?;
    let world = world.with_settings(BACK_BEFORE_AN_ORDER);
    look_behind_new(trial, &[], world, &OrderDone)
}

#[test]
fn an_order_is_sent_again_while_the_clock_stands_behind(rt: HostRuntime) -> Result<(), Fail> {
    Ok(twice!(rt, ordered_again)?)
}

/// A gateway of which the near device, that is asked more than the far one, answers nothing.
const NEAR_SILENT: Behind = Behind {
    image: gateways::IMAGE,
    spells: gateways::NEAR_IS_SILENT,
};

/// The clock's next slot begins nine seconds into the run, when that round has lasted for more than a slot.
const ROUND_ENDS: AllTold = AllTold(
    "1970-01-01T00:08:22Z office: line roof is up\n1970-01-01T00:08:25Z office: line roof polled slot 100: asked 17 recorded 1 excepted 0 refused 0 in 3000 ms\n1970-01-01T00:08:25Z office: device near of line roof is silent\n1970-01-01T00:08:11Z office: the clock stands behind slot 101: no slot before it is begun\n1970-01-01T00:08:15Z office: line roof polled slot 101: asked 2 recorded 1 excepted 0 refused 0 in 6000 ms\n",
);

/// The clock is set back while a round waits for a device that may answer yet.
fn round_ends(trial: &Trial<'_>) -> Result<(), OfficeError> {
    let alloc = trial.alloc();
    let office = office_over(
        alloc,
        MemKeeper::new(alloc),
        gateways::SITE,
        gateways::POINTS,
    )?;
    let world = world_of(alloc, 10_000, &[NEAR_SILENT], &[])?;
    let world = world.with_settings(BACK_BEFORE_AN_ORDER);
    look_behind(trial, office, world, &ROUND_ENDS)
}

#[test]
fn a_round_ends_though_the_clock_was_set_back(rt: HostRuntime) -> Result<(), Fail> {
    Ok(twice!(rt, round_ends)?)
}
