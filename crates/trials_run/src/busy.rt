//! A device that is busy as it is to be set, on a line of which one query may wait, and one whose first answer is refused.
use crate::guest::Speech;
use crate::orders::{AskedAt, ORDER};
use crate::scenes::{Behind, IMAGE, look_behind, office_over, world_of};
use crate::wire::{Spell, Trouble};
use office_core::OfficeError;
use office_plays::steps::Happens::{self, Load};
use poll_book::MemKeeper;
use std::test::Fail;
use telling::{Trial, twice};

/// The roof, of which one query may wait.
pub(crate) const SITE: &str =
    "[[line]]\nname = \"roof\"\naddress = \"127.0.0.1:502\"\noutstanding = 1\n[[device]]\nname = \"m1\"\nline = \"roof\"\nunit = 17\n";

/// The seconds of its device, and a setting.
pub(crate) const POINTS: &[Happens] = &[Load(
    "l1",
    "e,m1,holding,41,uint16,,,counter,\nlim,m1,holding,40,uint16,,,setting,\n",
)];

const BUSY: Spell = Spell {
    trouble: Trouble::Busy,
    unit: None,
    from: 0,
    to: 9_000,
};

/// An order that comes at a moment, and what the device is asked until another.
fn asked(
    trial: &Trial<'_>,
    spells: &'static [Spell],
    comes: u64,
    ends: u64,
    expected: &AskedAt,
) -> Result<(), OfficeError> {
    let alloc = trial.alloc();
    let office = office_over(alloc, MemKeeper::new(alloc), SITE, POINTS)?;
    let lines = [Behind {
        image: IMAGE,
        spells,
    }];
    let world = world_of(alloc, ends, &lines, &[Speech::at_once(comes, ORDER)])?;
    look_behind(trial, office, world, expected)
}

/// It is sent as it comes, and with the rounds of slots 102 and 103, before what these read.
const SENT_EACH_ROUND: AskedAt = AskedAt(&[
    (0, 17),
    (3_000, 17),
    (5_000, 17),
    (8_000, 17),
    (8_000, 17),
    (13_000, 17),
    (13_000, 17),
]);

fn busy(trial: &Trial<'_>) -> Result<(), OfficeError> {
    asked(trial, &[BUSY], 5_000, 13_500, &SENT_EACH_ROUND)
}

#[test]
fn a_busy_device_is_ordered_again_in_each_round(rt: HostRuntime) -> Result<(), Fail> {
    Ok(twice!(rt, busy)?)
}

const BUSY_AND_LATE: &[Spell] = &[
    BUSY,
    Spell {
        trouble: Trouble::Late(1_000),
        unit: None,
        from: 0,
        to: u64::MAX,
    },
];

/// What it answers in slot 102 was sent in slot 101: in that round it isn't sent again.
const SENT_ONCE_A_ROUND: AskedAt = AskedAt(&[
    (0, 17),
    (3_000, 17),
    (7_500, 17),
    (8_500, 17),
    (13_000, 17),
    (14_000, 17),
]);

fn busy_and_late(trial: &Trial<'_>) -> Result<(), OfficeError> {
    asked(trial, BUSY_AND_LATE, 7_500, 14_500, &SENT_ONCE_A_ROUND)
}

#[test]
fn a_device_that_is_found_busy_in_the_next_slot_has_its_time(rt: HostRuntime) -> Result<(), Fail> {
    Ok(twice!(rt, busy_and_late)?)
}
