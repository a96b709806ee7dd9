//! Lines that are polled slot by slot, and one whose device is silent or away.
use crate::busy;
use crate::scenes::{
    AllTold, Behind, IMAGE, Left, Look, assert_readings, assert_told, look_behind, look_behind_new,
    office_over, world, world_of,
};
use crate::wire::{Spell, Trouble, Wire};
use office_core::OfficeError;
use office_plays::builders::TWO;
use office_plays::steps::Happens::{self, Load};
use poll_book::MemKeeper;
use std::test::Fail;
use telling::{Trial, twice};

/// A run for so many milliseconds, what may be wrong with the device in the cellar, when its line is connected to, and
/// the readings of both devices.
struct Run {
    ends: u64,
    cellar: &'static [Spell],
    begun: &'static [u64],
    told: &'static str,
    roof: &'static [(u32, u16)],
    readings: &'static [(u32, u16)],
}

impl Look<MemKeeper> for Run {
    fn look(&self, trial: &Trial<'_>, left: &mut Left<MemKeeper>) -> Result<(), OfficeError> {
        let begun = left.world.wires.get(1).map(|wire| wire.begun.as_slice());
        trial.told(&"begun", &begun, &Some(self.begun));
        assert_told(trial, &left.world, self.told)?;
        assert_readings(trial, &mut left.office, "e", self.roof)?;
        assert_readings(trial, &mut left.office, "f", self.readings)
    }
}

fn assert_run(trial: &Trial<'_>, run: &Run) -> Result<(), OfficeError> {
    let world = world(trial.alloc(), run.ends, run.cellar, &[])?;
    look_behind_new(trial, &[], world, run)
}

/// Nothing is wrong for three slots.
const WELL: Run = Run {
    ends: 13_000,
    cellar: &[],
    begun: &[0],
    told: "1970-01-01T00:08:22Z office: line roof is up\n1970-01-01T00:08:22Z office: line cellar is up\n",
    roof: &[(100, 0), (101, 3), (102, 8)],
    readings: &[(100, 0), (101, 3), (102, 8)],
};

fn well(trial: &Trial<'_>) -> Result<(), OfficeError> {
    assert_run(trial, &WELL)
}

#[test]
fn each_point_has_a_reading_in_each_slot(rt: HostRuntime) -> Result<(), Fail> {
    Ok(twice!(rt, well)?)
}

/// What is told in two slots of which nothing is wrong.
const TWO_SLOTS: AllTold = AllTold(
    "1970-01-01T00:08:22Z office: line roof is up\n1970-01-01T00:08:22Z office: line cellar is up\n1970-01-01T00:08:22Z office: line roof polled slot 100: asked 1 recorded 2 excepted 0 refused 0 in 0 ms\n1970-01-01T00:08:22Z office: line cellar polled slot 100: asked 1 recorded 1 excepted 0 refused 0 in 0 ms\n1970-01-01T00:08:25Z office: line cellar polled slot 101: asked 1 recorded 1 excepted 0 refused 0 in 0 ms\n1970-01-01T00:08:26Z office: line roof polled slot 101: asked 1 recorded 2 excepted 0 refused 0 in 1000 ms\n",
);

/// The roof takes a second from slot 101 on.
const ROOF_IS_SLOW: [Behind; 2] = [
    Behind {
        image: IMAGE,
        spells: &[Spell {
            trouble: Trouble::Late(1_000),
            unit: None,
            from: 3_000,
            to: u64::MAX,
        }],
    },
    Behind {
        image: IMAGE,
        spells: &[],
    },
];

fn told_well(trial: &Trial<'_>) -> Result<(), OfficeError> {
    let world = world_of(trial.alloc(), 7_500, &ROOF_IS_SLOW, &[])?;
    look_behind_new(trial, &[], world, &TWO_SLOTS)
}

#[test]
fn each_round_is_told_with_its_numbers(rt: HostRuntime) -> Result<(), Fail> {
    Ok(twice!(rt, told_well)?)
}

/// What is silent has three time-outs, or until its slot ends, and is then left alone for 1, 2, 4 and 8 seconds.
const SILENT: Run = Run {
    ends: 24_000,
    cellar: &[Spell {
        trouble: Trouble::Silent,
        unit: None,
        from: 0,
        to: u64::MAX,
    }],
    begun: &[0, 4000, 10000, 17000],
    told: "1970-01-01T00:08:22Z office: line roof is up\n1970-01-01T00:08:22Z office: line cellar is up\n1970-01-01T00:08:25Z office: line cellar is down: nothing was answered in time\n",
    roof: &[
        (100, 0),
        (101, 3),
        (102, 8),
        (103, 13),
        (104, 18),
        (105, 23),
    ],
    readings: &[],
};

fn silent(trial: &Trial<'_>) -> Result<(), OfficeError> {
    assert_run(trial, &SILENT)
}

#[test]
fn a_silent_device_holds_up_no_other_line(rt: HostRuntime) -> Result<(), Fail> {
    Ok(twice!(rt, silent)?)
}

/// What refuses connections for eight seconds is tried after 1, 2, 4 and 8 seconds.
const REFUSING: Run = Run {
    ends: 18_000,
    cellar: &[Spell {
        trouble: Trouble::Away,
        unit: None,
        from: 0,
        to: 8_000,
    }],
    begun: &[0, 1_000, 3_000, 7_000, 15_000],
    told: "1970-01-01T00:08:22Z office: line roof is up\n1970-01-01T00:08:22Z office: line cellar is down: it can't be reached\n1970-01-01T00:08:22Z office: it took 30 ms to look up where line cellar is\n1970-01-01T00:08:37Z office: line cellar is up\n",
    roof: &[(100, 0), (101, 3), (102, 8), (103, 13)],
    readings: &[(103, 15)],
};

fn refusing(trial: &Trial<'_>) -> Result<(), OfficeError> {
    assert_run(trial, &REFUSING)
}

#[test]
fn a_refused_connection_is_tried_again(rt: HostRuntime) -> Result<(), Fail> {
    Ok(twice!(rt, refusing)?)
}

/// For eight seconds a connection that is begun doesn't come to stand: it is given up after two, and tried again later.
const UNREADY: Run = Run {
    ends: 13_000,
    cellar: &[Spell {
        trouble: Trouble::Unready,
        unit: None,
        from: 0,
        to: 8_000,
    }],
    begun: &[0, 3_000, 7_000],
    told: "1970-01-01T00:08:22Z office: line roof is up\n1970-01-01T00:08:24Z office: line cellar is down: it can't be reached\n1970-01-01T00:08:24Z office: it took 30 ms to look up where line cellar is\n1970-01-01T00:08:30Z office: line cellar is up\n",
    roof: &[(100, 0), (101, 3), (102, 8)],
    readings: &[(102, 8)],
};

fn unready(trial: &Trial<'_>) -> Result<(), OfficeError> {
    assert_run(trial, &UNREADY)
}

#[test]
fn a_connection_that_does_not_come_to_stand_is_given_up(rt: HostRuntime) -> Result<(), Fail> {
    Ok(twice!(rt, unready)?)
}

/// No connection can be begun to it for eight seconds.
const NOWHERE: Run = Run {
    ends: 18_000,
    cellar: &[Spell {
        trouble: Trouble::Nowhere,
        unit: None,
        from: 0,
        to: 8_000,
    }],
    begun: &[15_000],
    told: "1970-01-01T00:08:22Z office: line cellar is down: it can't be reached\n1970-01-01T00:08:22Z office: line roof is up\n1970-01-01T00:08:22Z office: it took 30 ms to look up where line cellar is\n1970-01-01T00:08:37Z office: line cellar is up\n",
    roof: &[(100, 0), (101, 3), (102, 8), (103, 13)],
    readings: &[(103, 15)],
};

fn nowhere(trial: &Trial<'_>) -> Result<(), OfficeError> {
    assert_run(trial, &NOWHERE)
}

#[test]
fn a_line_to_which_no_connection_can_be_begun_is_told(rt: HostRuntime) -> Result<(), Fail> {
    Ok(twice!(rt, nowhere)?)
}

/// It is elsewhere now, and is looked up once. Its name is asked for no more often than once a minute.
const MOVED: Run = Run {
    ends: 8_000,
    cellar: &[Spell {
        trouble: Trouble::Moved,
        unit: None,
        from: 0,
        to: u64::MAX,
    }],
    begun: &[0, 1_000],
    told: "1970-01-01T00:08:22Z office: line roof is up\n1970-01-01T00:08:22Z office: line cellar is down: it can't be reached\n1970-01-01T00:08:22Z office: it took 30 ms to look up where line cellar is\n1970-01-01T00:08:23Z office: line cellar is up\n",
    roof: &[(100, 0), (101, 3)],
    readings: &[(100, 1), (101, 3)],
};

fn moved(trial: &Trial<'_>) -> Result<(), OfficeError> {
    assert_run(trial, &MOVED)
}

#[test]
fn a_line_that_moved_is_looked_up(rt: HostRuntime) -> Result<(), Fail> {
    Ok(twice!(rt, moved)?)
}

/// When the one and the other are.
const LOOK_UPS: &[&[u64]] = &[&[0, 127_000], &[63_000, 188_000]];

/// Both refuse connections all the time, so that each is to be looked up behind each try.
const LOOKED_UP: &[Spell] = &[Spell {
    trouble: Trouble::Away,
    unit: None,
    from: 0,
    to: 200_000,
}];

/// Expects when it was looked up where a line is.
fn assert_looked_up(trial: &Trial<'_>, wire: &Wire, expected: &[u64]) {
    trial.told(&"looked up", &wire.looked_up.as_slice(), &expected);
}

/// When both were looked up.
struct LookedUp;

impl Look<MemKeeper> for LookedUp {
    fn look(&self, trial: &Trial<'_>, left: &mut Left<MemKeeper>) -> Result<(), OfficeError> {
        for (wire, expected) in left.world.wires.iter().zip(LOOK_UPS.iter()) {
            assert_looked_up(trial, wire, expected);
        }
        Ok(())
    }
}

/// The two are looked up in turn, a minute apart.
fn in_turn(trial: &Trial<'_>) -> Result<(), OfficeError> {
    let lines = [Behind {
        image: IMAGE,
        spells: LOOKED_UP,
    }; 2];
    let world = world_of(trial.alloc(), 200_000, &lines, &[])?;
    look_behind_new(trial, &[], world, &LookedUp)
}

#[test]
fn lines_are_looked_up_in_turn_once_a_minute(rt: HostRuntime) -> Result<(), Fail> {
    Ok(twice!(rt, in_turn)?)
}

/// It ends its connection as slot 101 begins, and is there again as that ends.
const AWAY: Run = Run {
    ends: 18_000,
    cellar: &[Spell {
        trouble: Trouble::Away,
        unit: None,
        from: 3_000,
        to: 8_000,
    }],
    begun: &[0, 4_000, 6_000, 10_000],
    told: "1970-01-01T00:08:22Z office: line roof is up\n1970-01-01T00:08:22Z office: line cellar is up\n1970-01-01T00:08:25Z office: line cellar is down: the connection ended\n1970-01-01T00:08:26Z office: it took 30 ms to look up where line cellar is\n1970-01-01T00:08:32Z office: line cellar is up\n",
    roof: &[(100, 0), (101, 3), (102, 8), (103, 13)],
    readings: &[(100, 0), (102, 10), (103, 13)],
};

fn away(trial: &Trial<'_>) -> Result<(), OfficeError> {
    assert_run(trial, &AWAY)
}

#[test]
fn a_slot_lacks_what_was_away(rt: HostRuntime) -> Result<(), Fail> {
    Ok(twice!(rt, away)?)
}

/// It answers three seconds after the question, and two are waited for.
const LATE: Run = Run {
    ends: 18_000,
    cellar: &[Spell {
        trouble: Trouble::Late(3_000),
        unit: None,
        from: 3_000,
        to: u64::MAX,
    }],
    begun: &[0],
    told: "1970-01-01T00:08:22Z office: line roof is up\n1970-01-01T00:08:22Z office: line cellar is up\n",
    roof: &[(100, 0), (101, 3), (102, 8), (103, 13)],
    readings: &[(100, 0), (101, 3), (102, 8), (103, 13)],
};

fn late(trial: &Trial<'_>) -> Result<(), OfficeError> {
    assert_run(trial, &LATE)
}

#[test]
fn a_device_that_answers_after_the_time_out_is_heard(rt: HostRuntime) -> Result<(), Fail> {
    Ok(twice!(rt, late)?)
}

/// It answers nothing, then refuses connections, then takes one and answers nothing: all the while it was told that it
/// is down. It is told as up once it answers.
const SILENT_AND_AWAY: Run = Run {
    ends: 17_500,
    cellar: &[
        Spell {
            trouble: Trouble::Silent,
            unit: None,
            from: 3_000,
            to: 15_000,
        },
        Spell {
            trouble: Trouble::Away,
            unit: None,
            from: 8_500,
            to: 9_500,
        },
    ],
    begun: &[0, 9000, 11000, 17000],
    told: "1970-01-01T00:08:22Z office: line roof is up\n1970-01-01T00:08:22Z office: line cellar is up\n1970-01-01T00:08:30Z office: line cellar is down: nothing was answered in time\n1970-01-01T00:08:31Z office: it took 30 ms to look up where line cellar is\n1970-01-01T00:08:39Z office: line cellar is up\n",
    roof: &[(100, 0), (101, 3), (102, 8), (103, 13)],
    readings: &[(100, 0), (103, 17)],
};

fn silent_and_away(trial: &Trial<'_>) -> Result<(), OfficeError> {
    assert_run(trial, &SILENT_AND_AWAY)
}

#[test]
fn a_line_that_answered_nothing_is_up_once_it_answers(rt: HostRuntime) -> Result<(), Fail> {
    Ok(twice!(rt, silent_and_away)?)
}

/// The device on the roof alone has a point.
const ROOF_ALONE: &[Happens] = &[Load("l1", "e,m1,holding,41,uint16,,,counter,\n")];

/// What is told where the cellar is away for half a second.
const STANDS: AllTold = AllTold(
    "1970-01-01T00:08:22Z office: line roof is up\n1970-01-01T00:08:22Z office: line cellar is up\n1970-01-01T00:08:22Z office: line roof polled slot 100: asked 1 recorded 1 excepted 0 refused 0 in 0 ms\n1970-01-01T00:08:25Z office: line roof polled slot 101: asked 1 recorded 1 excepted 0 refused 0 in 0 ms\n1970-01-01T00:08:26Z office: line cellar is down: the connection ended\n1970-01-01T00:08:27Z office: line cellar is up\n",
);

/// A line is lost that is asked nothing that it could answer.
fn asked_nothing(trial: &Trial<'_>) -> Result<(), OfficeError> {
    let alloc = trial.alloc();
    let office = office_over(alloc, MemKeeper::new(alloc), TWO, ROOF_ALONE)?;
    let away = &[Spell {
        trouble: Trouble::Away,
        unit: None,
        from: 4_000,
        to: 4_500,
    }];
    let world = world(alloc, 7_500, away, &[])?;
    look_behind(trial, office, world, &STANDS)
}

#[test]
fn a_line_that_is_asked_nothing_is_up_once_it_stands(rt: HostRuntime) -> Result<(), Fail> {
    Ok(twice!(rt, asked_nothing)?)
}

/// The device answers nothing.
const MUTE: Behind = Behind {
    image: IMAGE,
    spells: &[Spell {
        trouble: Trouble::Silent,
        unit: None,
        from: 0,
        to: 40_000,
    }],
};

const DOWN_WITHIN_ITS_SLOT: AllTold = AllTold(
    "1970-01-01T00:08:22Z office: line roof is up\n1970-01-01T00:08:28Z office: line roof is down: nothing was answered in time\n",
);

/// A slot has a minute, and an answer two seconds: nothing is waited for beyond three times these.
fn mute_in_a_long_slot(trial: &Trial<'_>) -> Result<(), OfficeError> {
    let alloc = trial.alloc();
    let office = office_over(alloc, MemKeeper::new(alloc), busy::SITE, busy::POINTS)?;
    let world = world_of(alloc, 6_500, &[MUTE], &[])?.with_slot(60);
    look_behind(trial, office, world, &DOWN_WITHIN_ITS_SLOT)
}

#[test]
fn a_silent_line_is_waited_for_three_time_outs(rt: HostRuntime) -> Result<(), Fail> {
    Ok(twice!(rt, mute_in_a_long_slot)?)
}
