//! The look-ups that a keeper over a database counts, of a counter with many voided slots: for a void of it, for its
//! readings with their marks, and for each other question of a point.
use crate::opening::run;
use office_core::OfficeError;
use office_plays::builders::{office_after, office_over};
use office_plays::steps::Happens::{self, Arrive, Ask, Load, Open, Void};
use office_plays::steps::{push, take_happening};
use office_store::SqlKeeper;
use poll_book::{Keeper, PointRow};
use sqlite::MemStore;
use std::alloc::Global;
use std::test::Fail;
use store_plays::{opened, stored};
use telling::{Trial, twice};

/// A counter with readings in four slots, of which one is voided.
const HAPPENED: &[Happens] = &[
    Load("l1", "e,m1,holding,107,uint16,,,counter,\n"),
    Open("roof"),
    Ask(1, "m1", 1, (3, 107, 1)),
    Ask(1, "m1", 2, (3, 107, 1)),
    Ask(1, "m1", 3, (3, 107, 1)),
    Ask(1, "m1", 5, (3, 107, 1)),
    Arrive(1, 0, 17, &[3, 2, 0, 7]),
    Arrive(1, 1, 17, &[3, 2, 0, 9]),
    Arrive(1, 2, 17, &[3, 2, 0, 12]),
    Arrive(1, 3, 17, &[3, 2, 0, 20]),
    Void("v1", "e", 2),
];

/// 1,024 slots behind them are voided, twice as many a statement.
const CROWD: &str =
    "INSERT INTO void(point, slot) VALUES (1, 64); INSERT INTO void(point, slot) SELECT point, slot + 1 FROM void WHERE slot > 63; INSERT INTO void(point, slot) SELECT point, slot + 2 FROM void WHERE slot > 63; INSERT INTO void(point, slot) SELECT point, slot + 4 FROM void WHERE slot > 63; INSERT INTO void(point, slot) SELECT point, slot + 8 FROM void WHERE slot > 63; INSERT INTO void(point, slot) SELECT point, slot + 16 FROM void WHERE slot > 63; INSERT INTO void(point, slot) SELECT point, slot + 32 FROM void WHERE slot > 63; INSERT INTO void(point, slot) SELECT point, slot + 64 FROM void WHERE slot > 63; INSERT INTO void(point, slot) SELECT point, slot + 128 FROM void WHERE slot > 63; INSERT INTO void(point, slot) SELECT point, slot + 256 FROM void WHERE slot > 63; INSERT INTO void(point, slot) SELECT point, slot + 512 FROM void WHERE slot > 63";

/// So many steps at most each statement of a question takes: a step is a query, a row that it visits, and one that it
/// answers.
const FEW: u64 = 16;

/// Slots from the one to the other, those of them that have a reading, each with whether it is voided, and how many
/// look-ups these are.
const WINDOWS: &[(u32, u32, &[(u32, bool)], u64)] = &[
    (0, 0, &[], 0),
    (4, 4, &[], 0),
    (64, 1_087, &[], 0),
    (6, u32::MAX, &[], 0),
    (2, 2, &[(2, true)], 2),
    (3, 500, &[(3, false), (5, false)], 3),
    (1, 3, &[(1, false), (2, true), (3, false)], 4),
    (
        0,
        u32::MAX,
        &[(1, false), (2, true), (3, false), (5, false)],
        5,
    ),
];

/// Slots that are voided: one that counts, one that has no reading, and one that is voided already.
const VOIDS: &[Happens] = &[Void("v2", "e", 3), Void("v3", "e", 4), Void("v4", "e", 2)];

/// A void is so many look-ups at most.
const MOST: u64 = 6;

/// A keeper of the counter with its voids.
fn crowded(alloc: Global) -> Result<SqlKeeper<MemStore>, OfficeError> {
    let office = office_after(alloc, stored(alloc)?, HAPPENED)?;
    let mut connection = office.into_keeper().into_connection();
    run(&mut connection, CROWD)?;
    opened(connection).map_err(|(error, _)| error)
}

/// The same, each statement of which takes few steps.
fn limited(alloc: Global) -> Result<SqlKeeper<MemStore>, OfficeError> {
    let mut connection = crowded(alloc)?.into_connection();
    connection.set_step_limit(Some(FEW));
    opened(connection).map_err(|(error, _)| error)
}

fn lookups<K: Keeper>(keeper: &K) -> u64 {
    keeper.lookups()
}

/// The point of a keeper.
fn point_of<K: Keeper>(alloc: Global, keeper: &mut K) -> Result<PointRow, OfficeError> {
    let points = keeper.points(alloc)?;
    Ok(*points.first().ok_or(OfficeError::NoRead)?)
}

/// The slots of the readings that a keeper gives, each with whether it is voided.
fn slots<K: Keeper>(
    alloc: Global,
    keeper: &mut K,
    point: &PointRow,
    (from, to): (u32, u32),
) -> Result<Vec<(u32, bool)>, OfficeError> {
    let mut slots = Vec::new(alloc);
    for shown in &keeper.readings(alloc, point, from, to)? {
        push(&mut slots, (shown.reading.slot, shown.voided))?;
    }
    Ok(slots)
}

fn are_counted<K: Keeper>(
    trial: &Trial<'_>,
    keeper: &mut K,
    point: &PointRow,
) -> Result<(), OfficeError> {
    for (from, to, expected, count) in WINDOWS {
        let before = lookups(keeper);
        let told = slots(trial.alloc(), keeper, point, (*from, *to))?;
        let counted = lookups(keeper).saturating_sub(before);
        let seen = (told.as_slice(), counted);
        trial.told(&(*from, *to), &seen, &(*expected, *count));
    }
    Ok(())
}

/// How many look-ups a keeper has counted behind each question of a point.
fn counts<K: Keeper>(keeper: &mut K, point: &PointRow, slot: u32) -> Result<[u64; 7], OfficeError> {
    let mut counts = [0u64; 7];
    keeper.reading(point, slot)?;
    counts[0] = keeper.lookups();
    keeper.has_reading(point, slot)?;
    counts[1] = keeper.lookups();
    keeper.end(point)?;
    counts[2] = keeper.lookups();
    keeper.voided(point, slot)?;
    counts[3] = keeper.lookups();
    keeper.before(point, slot)?;
    counts[4] = keeper.lookups();
    keeper.after(point, slot)?;
    counts[5] = keeper.lookups();
    keeper.total(point)?;
    counts[6] = keeper.lookups();
    Ok(counts)
}

/// Readings are counted with the look at their marks, and each other question once.
fn questions(trial: &Trial<'_>) -> Result<(), OfficeError> {
    for slot in [2, 3, 4, 64, u32::MAX] {
        let mut keeper = limited(trial.alloc())?;
        let point = point_of(trial.alloc(), &mut keeper)?;
        let counts = counts(&mut keeper, &point, slot)?;
        trial.told(&slot, &counts, &[1, 2, 3, 4, 5, 6, 7]);
    }
    let mut keeper = limited(trial.alloc())?;
    let point = point_of(trial.alloc(), &mut keeper)?;
    are_counted(trial, &mut keeper, &point)
}

/// How many look-ups more there are where this happens to an office over the keeper.
fn counted_for<K: Keeper + Drop>(
    alloc: Global,
    keeper: K,
    happens: &Happens,
) -> Result<u64, OfficeError> {
    let before = lookups(&keeper);
    let mut office = office_over(alloc, keeper)?;
    take_happening(alloc, &mut office, happens)?;
    let keeper = office.into_keeper();
    Ok(lookups(&keeper).saturating_sub(before))
}

fn voids(trial: &Trial<'_>) -> Result<(), OfficeError> {
    for void in VOIDS {
        let counted = counted_for(trial.alloc(), crowded(trial.alloc())?, void)?;
        let is_within = 0 < counted && counted <= MOST;
        trial.told(&counted, &is_within, &true);
    }
    Ok(())
}

#[test]
fn questions_of_a_point_are_counted(rt: HostRuntime) -> Result<(), Fail> {
    Ok(twice!(rt, questions)?)
}

#[test]
fn a_void_is_six_look_ups_at_most(rt: HostRuntime) -> Result<(), Fail> {
    Ok(twice!(rt, voids)?)
}
