//! A store in which a counter is counted in a slot to come.
use crate::guest::Speech;
use crate::orders::{ASKED, ORDER, OrderDone, ROOF_LATE};
use crate::scenes::{
    Left, Look, assert_readings, assert_told, assert_total, look_behind_new, world, world_of,
};
use office_core::OfficeError;
use office_plays::steps::Happens::{self, Arrive, Ask, Open};
use office_run::RunFault;
use poll_book::MemKeeper;
use std::test::Fail;
use telling::{Trial, twice};

/// The counter had 2 in slot 103, in which the clock was five seconds ahead.
pub(crate) const SOON: &[Happens] = &[
    Open("roof"),
    Ask(1, "m1", 103, (3, 41, 1)),
    Arrive(1, 0, 17, &[3, 2, 0, 2]),
];

/// The same in a slot that begins a day from now: 86,400 seconds behind slot 100.
const FAR: &[Happens] = &[
    Open("roof"),
    Ask(1, "m1", 17_381, (3, 41, 1)),
    Arrive(1, 0, 17, &[3, 2, 0, 2]),
];

const VOID: &str =
    "PUT /callers/ann/voids/v1 HTTP/1.1\r\nContent-Length: 24\r\n\r\n{\"point\":\"e\",\"slot\":103}";

/// A run over a store to which something had happened, while callers come, and what is told and counted.
struct Run {
    happened: &'static [Happens],
    ends: u64,
    told: &'static str,
    readings: &'static [(u32, u16)],
    total: u128,
}

impl Look<MemKeeper> for Run {
    fn look(&self, trial: &Trial<'_>, left: &mut Left<MemKeeper>) -> Result<(), OfficeError> {
        trial.told(&"ended", &left.ended, &Ok(()));
        assert_told(trial, &left.world, self.told)?;
        assert_readings(trial, &mut left.office, "e", self.readings)?;
        assert_total(trial, &mut left.office, self.total)
    }
}

fn assert_run(trial: &Trial<'_>, run: &Run, speeches: &[Speech]) -> Result<(), OfficeError> {
    let world = world(trial.alloc(), run.ends, &[], speeches)?;
    look_behind_new(trial, run.happened, world, run)
}

/// No slot before 103 is begun, and that isn't asked for what it has.
const WAITS: Run = Run {
    happened: SOON,
    ends: 24_000,
    told: "1970-01-01T00:08:22Z office: line roof is up\n1970-01-01T00:08:22Z office: line cellar is up\n1970-01-01T00:08:22Z office: line roof waits for slot 103, in which e is counted already\n1970-01-01T00:08:35Z office: line roof waits no more\n",
    readings: &[(103, 2), (104, 18), (105, 23)],
    total: 21,
};

fn waits(trial: &Trial<'_>) -> Result<(), OfficeError> {
    assert_run(trial, &WAITS, &[])
}

#[test]
fn no_slot_is_begun_before_one_in_which_a_counter_is_counted(rt: HostRuntime) -> Result<(), Fail> {
    Ok(twice!(rt, waits)?)
}

/// The slot is voided in slot 101.
const VOIDED: Run = Run {
    happened: SOON,
    ends: 12_000,
    told: "1970-01-01T00:08:22Z office: line roof is up\n1970-01-01T00:08:22Z office: line cellar is up\n1970-01-01T00:08:22Z office: line roof waits for slot 103, in which e is counted already\n1970-01-01T00:08:26Z office: line roof waits no more\n",
    readings: &[(101, 4), (102, 8), (103, 2)],
    total: 4,
};

fn voided(trial: &Trial<'_>) -> Result<(), OfficeError> {
    assert_run(trial, &VOIDED, &[Speech::at_once(4_000, VOID)])
}

#[test]
fn a_line_goes_on_once_the_slot_is_voided(rt: HostRuntime) -> Result<(), Fail> {
    Ok(twice!(rt, voided)?)
}

/// Orders are sent while a line waits.
fn ordered(trial: &Trial<'_>) -> Result<(), OfficeError> {
    let speeches = [Speech::at_once(5_000, ORDER), Speech::at_once(5_001, ASKED)];
    let world = world(trial.alloc(), 7_000, &[], &speeches)?;
    look_behind_new(trial, SOON, world, &OrderDone)
}

#[test]
fn an_order_is_sent_while_a_line_waits(rt: HostRuntime) -> Result<(), Fail> {
    Ok(twice!(rt, ordered)?)
}

/// The same where the device takes a second for its answer.
fn ordered_late(trial: &Trial<'_>) -> Result<(), OfficeError> {
    let speeches = [Speech::at_once(5_000, ORDER), Speech::at_once(6_001, ASKED)];
    let world = world_of(trial.alloc(), 7_000, &ROOF_LATE, &speeches)?;
    look_behind_new(trial, SOON, world, &OrderDone)
}

#[test]
fn an_order_is_waited_for_while_a_line_waits(rt: HostRuntime) -> Result<(), Fail> {
    Ok(twice!(rt, ordered_late)?)
}

/// The run has ended for it.
struct Ended;

impl Look<MemKeeper> for Ended {
    fn look(&self, trial: &Trial<'_>, left: &mut Left<MemKeeper>) -> Result<(), OfficeError> {
        let fault = RunFault::Ahead {
            point: 1,
            slot: 17_381,
        };
        trial.told(&"ended", &left.ended, &Err(fault));
        assert_readings(trial, &mut left.office, "e", &[(17_381, 2)])
    }
}

fn far(trial: &Trial<'_>) -> Result<(), OfficeError> {
    let world = world(trial.alloc(), 7_000, &[], &[])?;
    look_behind_new(trial, FAR, world, &Ended)
}

#[test]
fn a_run_ends_where_that_slot_is_a_day_ahead(rt: HostRuntime) -> Result<(), Fail> {
    Ok(twice!(rt, far)?)
}
