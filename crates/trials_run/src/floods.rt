//! Lines that send what nobody asked for, repeat what they answered, or take no bytes.
use crate::scenes::{Left, Look, assert_readings, assert_told, look_behind_new, world};
use crate::wire::{Spell, Trouble};
use crate::world::World;
use office_core::OfficeError;
use poll_book::MemKeeper;
use std::test::Fail;
use telling::{Trial, twice};

/// What is wrong with the cellar for a minute of slots, what is told, when its line is connected to, and how many
/// bytes are read of it.
struct Run {
    cellar: &'static [Spell],
    told: &'static str,
    begun: &'static [u64],
    read: usize,
}

/// Expects when the cellar is connected to, and how much is read of it.
fn assert_cellar(trial: &Trial<'_>, world: &World, run: &Run) {
    let begun = world.wires.get(1).map(|wire| wire.begun.as_slice());
    trial.told(&"begun", &begun, &Some(run.begun));
    let read = world.wires.get(1).map(|wire| wire.read);
    trial.told(&"read", &read, &Some(run.read));
}

impl Look<MemKeeper> for Run {
    fn look(&self, trial: &Trial<'_>, left: &mut Left<MemKeeper>) -> Result<(), OfficeError> {
        assert_told(trial, &left.world, self.told)?;
        assert_cellar(trial, &left.world, self);
        assert_readings(
            trial,
            &mut left.office,
            "e",
            &[(100, 0), (101, 3), (102, 8), (103, 13)],
        )
    }
}

fn assert_run(trial: &Trial<'_>, run: &Run) -> Result<(), OfficeError> {
    let world = world(trial.alloc(), 18_000, run.cellar, &[])?;
    look_behind_new(trial, &[], world, run)
}

/// It floods from a moment on at which it rests.
const FLOODING: Run = Run {
    cellar: &[Spell {
        trouble: Trouble::Flooding,
        unit: None,
        from: 4_000,
        to: u64::MAX,
    }],
    told: "1970-01-01T00:08:22Z office: line roof is up\n1970-01-01T00:08:22Z office: line cellar is up\n1970-01-01T00:08:26Z office: line cellar is down: it sends what nobody asked for\n1970-01-01T00:08:33Z office: line cellar is up\n1970-01-01T00:08:33Z office: line cellar is down: it sends what nobody asked for\n",
    begun: &[0, 5000, 7000, 11000],
    read: 262_273,
};

fn flooding(trial: &Trial<'_>) -> Result<(), OfficeError> {
    assert_run(trial, &FLOODING)
}

#[test]
fn a_line_that_floods_while_it_rests_is_cut(rt: HostRuntime) -> Result<(), Fail> {
    Ok(twice!(rt, flooding)?)
}

/// Each of its answers comes 8,000 times: these 88,000 bytes were asked for once, so it isn't cut.
const REPEATING: Run = Run {
    cellar: &[Spell {
        trouble: Trouble::Repeating(8_000),
        unit: None,
        from: 0,
        to: u64::MAX,
    }],
    told: "1970-01-01T00:08:22Z office: line roof is up\n1970-01-01T00:08:22Z office: line cellar is up\n",
    begun: &[0],
    read: 352_000,
};

fn repeating(trial: &Trial<'_>) -> Result<(), OfficeError> {
    assert_run(trial, &REPEATING)
}

#[test]
fn a_line_that_repeats_what_it_answered_is_not_cut(rt: HostRuntime) -> Result<(), Fail> {
    Ok(twice!(rt, repeating)?)
}

/// Behind each of its answers come 4,000 frames that nobody asked for: 44,000 bytes of them are borne in a slot.
const NOISY: Run = Run {
    cellar: &[Spell {
        trouble: Trouble::Noisy(4_000),
        unit: None,
        from: 0,
        to: u64::MAX,
    }],
    told: "1970-01-01T00:08:22Z office: line roof is up\n1970-01-01T00:08:22Z office: line cellar is up\n",
    begun: &[0],
    read: 176_044,
};

fn noisy(trial: &Trial<'_>) -> Result<(), OfficeError> {
    assert_run(trial, &NOISY)
}

#[test]
fn what_nobody_asked_for_is_counted_anew_in_each_slot(rt: HostRuntime) -> Result<(), Fail> {
    Ok(twice!(rt, noisy)?)
}

/// From slot 101 on it takes no bytes.
const STUCK: Run = Run {
    cellar: &[Spell {
        trouble: Trouble::Stuck,
        unit: None,
        from: 2_000,
        to: 10_000,
    }],
    told: "1970-01-01T00:08:22Z office: line roof is up\n1970-01-01T00:08:22Z office: line cellar is up\n1970-01-01T00:08:27Z office: line cellar is down: it takes no bytes\n1970-01-01T00:08:32Z office: line cellar is up\n",
    begun: &[0, 6000, 10000],
    read: 33,
};

fn stuck(trial: &Trial<'_>) -> Result<(), OfficeError> {
    assert_run(trial, &STUCK)
}

#[test]
fn a_line_that_takes_no_bytes_is_cut(rt: HostRuntime) -> Result<(), Fail> {
    Ok(twice!(rt, stuck)?)
}

/// Twice it takes no bytes until a second and a half of a slot are over.
const BRIEFLY_STUCK: Run = Run {
    cellar: &[
        Spell {
            trouble: Trouble::Stuck,
            unit: None,
            from: 2_000,
            to: 4_500,
        },
        Spell {
            trouble: Trouble::Stuck,
            unit: None,
            from: 7_000,
            to: 9_500,
        },
    ],
    told: "1970-01-01T00:08:22Z office: line roof is up\n1970-01-01T00:08:22Z office: line cellar is up\n",
    begun: &[0],
    read: 44,
};

fn briefly_stuck(trial: &Trial<'_>) -> Result<(), OfficeError> {
    assert_run(trial, &BRIEFLY_STUCK)
}

#[test]
fn a_line_that_takes_no_bytes_for_a_while_is_not_cut(rt: HostRuntime) -> Result<(), Fail> {
    Ok(twice!(rt, briefly_stuck)?)
}
