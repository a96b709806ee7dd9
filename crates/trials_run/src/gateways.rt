//! Gateways: a line with several devices, of which one doesn't answer, or answers late.
use crate::guest::Speech;
use crate::orders::ORDER;
use crate::scenes::{
    AllTold, Behind, Left, Look, assert_readings, assert_told, look_behind, office_over, world_of,
};
use crate::wire::{Spell, Trouble};
use crate::world::World;
use office_core::OfficeError;
use office_plays::steps::Happens::{self, Load};
use office_plays::steps::push;
use poll_book::MemKeeper;
use std::alloc::Global;
use std::test::Fail;
use telling::{Trial, twice};

/// A gateway with two devices behind it.
pub(crate) const SITE: &str =
    "[[line]]\nname = \"roof\"\naddress = \"127.0.0.1:502\"\n[[device]]\nname = \"near\"\nline = \"roof\"\nunit = 1\n[[device]]\nname = \"far\"\nline = \"roof\"\nunit = 2\n";

/// The same, of which two queries may wait.
const SITE_OF_TWO: &str =
    "[[line]]\nname = \"roof\"\naddress = \"127.0.0.1:502\"\noutstanding = 2\n[[device]]\nname = \"near\"\nline = \"roof\"\nunit = 1\n[[device]]\nname = \"far\"\nline = \"roof\"\nunit = 2\n";

pub(crate) const IMAGE: &str =
    "[[unit]]\nid = 1\nholding_start = 41\nholding = [0]\n[[unit]]\nid = 2\nholding_start = 41\nholding = [0]\n";

/// The seconds of both devices; of the near one twenty times, so that it has twenty reads more than the far one.
const LIST: &str =
    "near,near,holding,41,uint16,,,gauge,\nfar,far,holding,41,uint16,,,gauge,\na0,near,holding,100,uint16,,,gauge,\na1,near,holding,102,uint16,,,gauge,\na2,near,holding,104,uint16,,,gauge,\na3,near,holding,106,uint16,,,gauge,\na4,near,holding,108,uint16,,,gauge,\na5,near,holding,110,uint16,,,gauge,\na6,near,holding,112,uint16,,,gauge,\na7,near,holding,114,uint16,,,gauge,\na8,near,holding,116,uint16,,,gauge,\na9,near,holding,118,uint16,,,gauge,\nb0,near,holding,120,uint16,,,gauge,\nb1,near,holding,122,uint16,,,gauge,\nb2,near,holding,124,uint16,,,gauge,\nb3,near,holding,126,uint16,,,gauge,\nb4,near,holding,128,uint16,,,gauge,\nb5,near,holding,130,uint16,,,gauge,\nb6,near,holding,132,uint16,,,gauge,\nb7,near,holding,134,uint16,,,gauge,\nb8,near,holding,136,uint16,,,gauge,\nb9,near,holding,138,uint16,,,gauge,\n";

pub(crate) const POINTS: &[Happens] = &[Load("l1", LIST)];

/// The same devices, of which the far one has a register to set.
const IMAGE_WITH_LIMIT: &str =
    "[[unit]]\nid = 1\nholding_start = 41\nholding = [0]\n[[unit]]\nid = 2\nholding_start = 40\nholding = [0, 0]\n";

const POINTS_WITH_LIMIT: &[Happens] = &[
    Load("l1", LIST),
    Load("l2", "lim,far,holding,40,uint16,,,setting,\n"),
];

/// A run for so many milliseconds, what is wrong with the near device, and what comes of it.
struct Run {
    ends: u64,
    spells: &'static [Spell],
    told: &'static str,
    // How many queries came at each moment, and to which unit identifier.
    asked: &'static [(u64, u8, usize)],
    near: &'static [(u32, u16)],
    far: &'static [(u32, u16)],
}

/// How many queries one behind the other came at one moment to one unit identifier.
fn counted(alloc: Global, asked: &[(u64, u8)]) -> Result<Vec<(u64, u8, usize)>, OfficeError> {
    let mut all: Vec<(u64, u8, usize)> = Vec::new(alloc);
    for (at, unit) in asked {
        match all.last_mut() {
            Some(last) if last.0 == *at && last.1 == *unit => last.2 = last.2.saturating_add(1),
            _ => push(&mut all, (*at, *unit, 1))?,
        }
    }
    Ok(all)
}

impl Look<MemKeeper> for Run {
    fn look(&self, trial: &Trial<'_>, left: &mut Left<MemKeeper>) -> Result<(), OfficeError> {
        assert_told(trial, &left.world, self.told)?;
        for wire in &left.world.wires {
            let asked = counted(trial.alloc(), &wire.asked)?;
            trial.told(&"asked", &asked.as_slice(), &self.asked);
        }
        assert_readings(trial, &mut left.office, "near", self.near)?;
        assert_readings(trial, &mut left.office, "far", self.far)
    }
}

/// A world of the gateway, and of callers, that ends after so many milliseconds.
fn gateway(
    alloc: Global,
    image: &'static str,
    run: &Run,
    speeches: &[Speech],
) -> Result<World, OfficeError> {
    let lines = [Behind {
        image,
        spells: run.spells,
    }];
    world_of(alloc, run.ends, &lines, speeches)
}

/// Expects what comes of a run over a gateway of a site and its points.
fn assert_in(
    trial: &Trial<'_>,
    site: &str,
    points: &[Happens],
    world: World,
    run: &Run,
) -> Result<(), OfficeError> {
    let alloc = trial.alloc();
    let office = office_over(alloc, MemKeeper::new(alloc), site, points)?;
    look_behind(trial, office, world, run)
}

fn assert_run(trial: &Trial<'_>, site: &str, run: &Run) -> Result<(), OfficeError> {
    let world = gateway(trial.alloc(), IMAGE, run, &[])?;
    assert_in(trial, site, POINTS, world, run)
}

/// The near device answers nothing.
pub(crate) const NEAR_IS_SILENT: &[Spell] = &[Spell {
    trouble: Trouble::Silent,
    unit: Some(1),
    from: 0,
    to: u64::MAX,
}];

const SAID_SILENT: &str =
    "1970-01-01T00:08:22Z office: line roof is up\n1970-01-01T00:08:25Z office: device near of line roof is silent\n";

const FAR_ALONE: &[(u32, u16)] = &[(100, 2), (101, 3), (102, 8)];

const DEAD: Run = Run {
    ends: 13_000,
    spells: NEAR_IS_SILENT,
    told: SAID_SILENT,
    asked: &[
        (0, 1, 16),
        (2000, 2, 1),
        (3000, 2, 1),
        (3000, 1, 1),
        (8000, 2, 1),
        (8000, 1, 1),
    ],
    near: &[],
    far: FAR_ALONE,
};

fn dead(trial: &Trial<'_>) -> Result<(), OfficeError> {
    assert_run(trial, SITE, &DEAD)
}

#[test]
fn a_dead_device_costs_those_behind_its_gateway_one_time_out(rt: HostRuntime) -> Result<(), Fail> {
    Ok(twice!(rt, dead)?)
}

/// A round whose device is dead is told at its slot's end, with what the others gave.
const DEAD_TOLD: AllTold = AllTold(
    "1970-01-01T00:08:22Z office: line roof is up\n1970-01-01T00:08:25Z office: line roof polled slot 100: asked 17 recorded 1 excepted 0 refused 0 in 3000 ms\n1970-01-01T00:08:25Z office: device near of line roof is silent\n1970-01-01T00:08:30Z office: line roof polled slot 101: asked 2 recorded 1 excepted 0 refused 0 in 5000 ms\n",
);

fn dead_told(trial: &Trial<'_>) -> Result<(), OfficeError> {
    let alloc = trial.alloc();
    let office = office_over(alloc, MemKeeper::new(alloc), SITE, POINTS)?;
    let world = gateway(alloc, IMAGE, &DEAD, &[])?;
    look_behind(trial, office, world, &DEAD_TOLD)
}

#[test]
fn a_round_of_a_dead_device_is_told_at_its_slots_end(rt: HostRuntime) -> Result<(), Fail> {
    Ok(twice!(rt, dead_told)?)
}

/// The same, of whose queries two may wait.
const DEAD_OF_TWO: Run = Run {
    ends: 13_000,
    spells: NEAR_IS_SILENT,
    told: SAID_SILENT,
    asked: &[
        (0, 1, 2),
        (2000, 2, 1),
        (3000, 2, 1),
        (3000, 1, 1),
        (8000, 2, 1),
        (8000, 1, 1),
    ],
    near: &[],
    far: FAR_ALONE,
};

fn dead_of_two(trial: &Trial<'_>) -> Result<(), OfficeError> {
    assert_run(trial, SITE_OF_TWO, &DEAD_OF_TWO)
}

#[test]
fn as_many_queries_wait_as_the_site_says(rt: HostRuntime) -> Result<(), Fail> {
    Ok(twice!(rt, dead_of_two)?)
}

/// The near device answers three seconds after the question, and two are waited for.
const LATE: Run = Run {
    ends: 23_000,
    spells: &[Spell {
        trouble: Trouble::Late(3_000),
        unit: Some(1),
        from: 3_000,
        to: u64::MAX,
    }],
    told: "1970-01-01T00:08:22Z office: line roof is up\n1970-01-01T00:08:30Z office: device near of line roof is silent\n1970-01-01T00:08:31Z office: device near of line roof answers again\n1970-01-01T00:08:35Z office: the round of line roof in slot 102 was cut\n1970-01-01T00:08:40Z office: the round of line roof in slot 103 was cut\n",
    asked: &[
        (0, 1, 21),
        (0, 2, 1),
        (3000, 1, 16),
        (5000, 2, 1),
        (6000, 1, 5),
        (8000, 2, 1),
        (8000, 1, 1),
        (9000, 1, 15),
        (11000, 1, 1),
        (12000, 1, 4),
        (13000, 1, 11),
        (14000, 1, 1),
        (15000, 1, 4),
        (16000, 1, 5),
        (16000, 2, 1),
        (18000, 1, 11),
        (19000, 1, 5),
        (21000, 1, 5),
        (21000, 2, 1),
    ],
    near: &[(100, 0), (101, 3), (102, 8), (103, 13), (104, 18)],
    far: &[(100, 0), (101, 5), (102, 8), (103, 16), (104, 21)],
};

fn late(trial: &Trial<'_>) -> Result<(), OfficeError> {
    assert_run(trial, SITE, &LATE)
}

#[test]
fn a_late_device_is_taken_up_again(rt: HostRuntime) -> Result<(), Fail> {
    Ok(twice!(rt, late)?)
}

/// What the near device is asked in slot 101 it answers in slot 102.
const BEHIND: Run = Run {
    ends: 13_000,
    spells: &[Spell {
        trouble: Trouble::Late(6_000),
        unit: Some(1),
        from: 3_000,
        to: 8_000,
    }],
    told: "1970-01-01T00:08:22Z office: line roof is up\n1970-01-01T00:08:30Z office: device near of line roof is silent\n1970-01-01T00:08:30Z office: device near of line roof answers again\n",
    asked: &[
        (0, 1, 21),
        (0, 2, 1),
        (3000, 1, 16),
        (5000, 2, 1),
        (8000, 2, 1),
        (8000, 1, 21),
    ],
    near: &[(100, 0), (101, 3), (102, 8)],
    far: &[(100, 0), (101, 5), (102, 8)],
};

fn behind(trial: &Trial<'_>) -> Result<(), OfficeError> {
    assert_run(trial, SITE, &BEHIND)
}

#[test]
fn an_answer_to_the_slot_before_is_recorded_in_it(rt: HostRuntime) -> Result<(), Fail> {
    Ok(twice!(rt, behind)?)
}

const ANOTHER: &str =
    "PUT /callers/ann/orders/k2 HTTP/1.1\r\nContent-Length: 26\r\n\r\n{\"point\":\"lim\",\"value\":81}";

/// The near device answers nothing, so that the round lasts as long as the slot; the far one takes a second.
const ORDERED: Run = Run {
    ends: 7_000,
    spells: &[
        Spell {
            trouble: Trouble::Silent,
            unit: Some(1),
            from: 0,
            to: u64::MAX,
        },
        Spell {
            trouble: Trouble::Late(1_000),
            unit: Some(2),
            from: 0,
            to: u64::MAX,
        },
    ],
    told: "1970-01-01T00:08:22Z office: line roof is up\n1970-01-01T00:08:25Z office: device near of line roof is silent\n1970-01-01T00:08:27Z office: device far of line roof did what was ordered\n1970-01-01T00:08:28Z office: device far of line roof did what was ordered\n",
    asked: &[
        (0, 1, 16),
        (2000, 2, 1),
        (3000, 2, 1),
        (3000, 1, 1),
        (4500, 2, 1),
        (5500, 2, 1),
    ],
    near: &[],
    far: &[(100, 2), (101, 3)],
};

/// Two orders come in the midst of a round, the second before the first is answered.
fn ordered(trial: &Trial<'_>) -> Result<(), OfficeError> {
    let speeches = [
        Speech::at_once(4_500, ORDER),
        Speech::at_once(4_600, ANOTHER),
    ];
    let world = gateway(trial.alloc(), IMAGE_WITH_LIMIT, &ORDERED, &speeches)?;
    assert_in(trial, SITE, POINTS_WITH_LIMIT, world, &ORDERED)
}

#[test]
fn an_order_is_sent_once_the_one_before_is_answered(rt: HostRuntime) -> Result<(), Fail> {
    Ok(twice!(rt, ordered)?)
}

/// A gateway with four devices behind it, of which one query may wait.
const SITE_OF_FOUR: &str =
    "[[line]]\nname = \"roof\"\naddress = \"127.0.0.1:502\"\noutstanding = 1\n[[device]]\nname = \"near\"\nline = \"roof\"\nunit = 1\n[[device]]\nname = \"two\"\nline = \"roof\"\nunit = 2\n[[device]]\nname = \"three\"\nline = \"roof\"\nunit = 3\n[[device]]\nname = \"far\"\nline = \"roof\"\nunit = 4\n";

const IMAGE_OF_FOUR: &str =
    "[[unit]]\nid = 1\nholding_start = 41\nholding = [0]\n[[unit]]\nid = 2\nholding_start = 41\nholding = [0]\n[[unit]]\nid = 3\nholding_start = 41\nholding = [0]\n[[unit]]\nid = 4\nholding_start = 41\nholding = [0]\n";

/// The seconds of each.
const POINTS_OF_FOUR: &[Happens] = &[Load(
    "l1",
    "near,near,holding,41,uint16,,,gauge,\ntwo,two,holding,41,uint16,,,gauge,\nthree,three,holding,41,uint16,,,gauge,\nfar,far,holding,41,uint16,,,gauge,\n",
)];

/// All but the last one answer nothing.
const ALL_BUT_FAR: &[Spell] = &[
    Spell {
        trouble: Trouble::Silent,
        unit: Some(1),
        from: 0,
        to: u64::MAX,
    },
    Spell {
        trouble: Trouble::Silent,
        unit: Some(2),
        from: 0,
        to: u64::MAX,
    },
    Spell {
        trouble: Trouble::Silent,
        unit: Some(3),
        from: 0,
        to: u64::MAX,
    },
];

/// Each dead device costs a time-out, so that the last one has no turn in two slots. Then it has the first, since the
/// others were silent, and of these the third is next in slot 103, behind the second, which fell silent last.
const THREE_DEAD: Run = Run {
    ends: 16_500,
    spells: ALL_BUT_FAR,
    told: "1970-01-01T00:08:22Z office: line roof is up\n1970-01-01T00:08:25Z office: line roof is down: nothing was answered in time\n1970-01-01T00:08:32Z office: line roof is up\n1970-01-01T00:08:35Z office: the round of line roof in slot 102 was cut\n1970-01-01T00:08:35Z office: device near of line roof is silent\n1970-01-01T00:08:35Z office: device two of line roof is silent\n1970-01-01T00:08:35Z office: device three of line roof is silent\n",
    asked: &[
        (0, 1, 1),
        (2000, 2, 1),
        (4000, 2, 1),
        (6000, 3, 1),
        (10000, 4, 1),
        (10000, 1, 1),
        (12000, 2, 1),
        (14000, 4, 1),
        (14000, 3, 1),
        (16000, 1, 1),
    ],
    near: &[],
    far: &[(102, 10), (103, 14)],
};

fn three_dead(trial: &Trial<'_>) -> Result<(), OfficeError> {
    let world = gateway(trial.alloc(), IMAGE_OF_FOUR, &THREE_DEAD, &[])?;
    assert_in(trial, SITE_OF_FOUR, POINTS_OF_FOUR, world, &THREE_DEAD)
}

#[test]
fn dead_devices_are_asked_behind_the_others(rt: HostRuntime) -> Result<(), Fail> {
    Ok(twice!(rt, three_dead)?)
}
