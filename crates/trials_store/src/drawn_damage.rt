//! An office's database, of whose file places are damaged that are drawn: all that is asked of it is told, or it is
//! refused as a disk's fault or as rows that no office writes.
use crate::plays::{POINTS, Playing, done_on, empty_files, file_of, options};
use crate::void_questions::{Asking, Over};
use office_core::OfficeError::{self, Store};
use office_plays::builders::{MEMORY, named};
use office_plays::steps::Happens::{self, Arrive, Ask, Load, LoadOrdered, Open, Order, Send, Void};
use poll_book::{Keeper, PointRow, StoreFault};
use sqlite::Files;
use std::alloc::{AllocError, Global};
use std::test::Fail;
use telling::{Trial, twice};
use workload_plant::Dice;

/// So many files are drawn.
const FILES: u32 = 2_000;

/// So many of them at least tell all, and so many at least are refused.
const LEAST: u32 = 500;

const SEED: u32 = 20_261_126;

/// The log is copied before a commit, so that what the last one changes doesn't stand in the file.
const HAPPENINGS: &[Happens] = &[
    Load("l1", POINTS),
    Order("k1", "lim", 80),
    Order("k2", "lim", 90),
    Open("roof"),
    Ask(1, "m1", 5, (3, 107, 2)),
    Arrive(1, 0, 17, &[3, 4, 0x02, 0x2B, 0, 7]),
    Ask(1, "m1", 6, (3, 107, 2)),
    Arrive(1, 1, 17, &[3, 4, 0x03, 0x2B, 0, 10]),
    Void("v1", "a", 6),
    LoadOrdered("l2", "w,m1,holding,120,uint32,,,counter,,swapped\n"),
    Send(1, 1),
    Arrive(1, 2, 17, &[6, 0, 40, 0, 80]),
    Open("cellar"),
];

const PLAYING: Playing = Playing {
    is_new: true,
    happenings: HAPPENINGS,
    fault: StoreFault::Disk,
};

/// Asks for what is kept of a point.
fn ask_of<K: Keeper>(alloc: Global, keeper: &mut K, point: &PointRow) -> Result<(), OfficeError> {
    keeper.total(point)?;
    keeper.before(point, 6)?;
    keeper.after(point, 5)?;
    keeper.voided(point, 6)?;
    keeper.readings(alloc, point, 0, u32::MAX)?;
    Ok(())
}

fn ask_of_each<K: Keeper>(
    alloc: Global,
    keeper: &mut K,
    points: &[PointRow],
) -> Result<(), OfficeError> {
    for point in points {
        ask_of(alloc, keeper, point)?;
    }
    Ok(())
}

fn ask_of_requests<K: Keeper>(alloc: Global, keeper: &mut K) -> Result<(), OfficeError> {
    let (caller, key) = named("k1")?;
    keeper.request(alloc, &caller, &key)?;
    keeper.setting(1)?;
    keeper.oldest_waiting("m1")?;
    keeper.orders()?;
    Ok(())
}

fn ask_all<K: Keeper>(alloc: Global, keeper: &mut K) -> Result<(), OfficeError> {
    let points = keeper.points(alloc)?;
    ask_of_each(alloc, keeper, &points)?;
    ask_of_requests(alloc, keeper)?;
    keeper.voids()?;
    keeper.connections()?;
    Ok(())
}

/// Asks for all that is kept, until something is refused.
#[derive(Clone, Copy)]
struct Everything;

impl Asking for Everything {
    fn asks<K: Keeper>(&self, trial: &Trial<'_>, keeper: &mut K) -> Result<u32, OfficeError> {
        match ask_all(trial.alloc(), keeper) {
            Ok(()) => Ok(0),
            Err(error) if error == MEMORY => Err(MEMORY),
            Err(error) => {
                let is_fault = matches!(error, Store(StoreFault::Disk | StoreFault::Other));
                trial.told(&error, &is_fault, &true);
                Ok(1)
            }
        }
    }
}

/// Whether a database whose file has these bytes tells all.
fn tells_all(trial: &Trial<'_>, bytes: &[u8]) -> Result<bool, OfficeError> {
    let files = Files {
        log: file_of(trial.alloc(), &[])?,
        db: file_of(trial.alloc(), bytes)?,
    };
    let (reached, _files) = done_on(trial, files, options(64, 1_000), &Over(Everything))?;
    Ok(reached.is_some_and(|reached| reached.refused == 0))
}

/// A place in bytes.
fn place_in(dice: &mut Dice, bytes: &[u8]) -> usize {
    dice.below(u32::try_from(bytes.len()).unwrap_or(u32::MAX)) as usize
}

/// Some part of bytes, smaller than a page.
fn part<'a>(dice: &mut Dice, bytes: &'a [u8]) -> &'a [u8] {
    let rest = bytes.get(place_in(dice, bytes)..).unwrap_or(bytes);
    rest.get(..dice.below(4_096) as usize).unwrap_or(rest)
}

/// Lays bytes over the first ones.
fn lay(bytes: &mut [u8], over: &[u8]) {
    for (there, byte) in bytes.iter_mut().zip(over) {
        *there = *byte;
    }
}

/// Lays some byte over a place, or now and then a part of the file.
fn damage(dice: &mut Dice, bytes: &mut Vec<u8>) -> Result<(), AllocError> {
    let [_, _, _, byte] = dice.below(256).to_be_bytes();
    let over = if dice.once_in(4) {
        Vec::from_slice(*bytes.allocator(), part(dice, bytes))?
    } else {
        Vec::from_slice(*bytes.allocator(), &[byte])?
    };
    let place = place_in(dice, bytes).min(bytes.len());
    lay(&mut bytes[place..], &over);
    Ok(())
}

/// A file's bytes, of which one place to eight are damaged, and now and then the end is gone too.
fn damaged(alloc: Global, dice: &mut Dice, sound: &[u8]) -> Result<Vec<u8>, AllocError> {
    let mut bytes = Vec::from_slice(alloc, sound)?;
    if dice.once_in(8) {
        bytes.truncate(place_in(dice, sound));
    }
    for _ in 0..=dice.below(8) {
        damage(dice, &mut bytes)?;
    }
    Ok(bytes)
}

fn is_told(trial: &Trial<'_>, dice: &mut Dice, sound: &[u8]) -> Result<bool, OfficeError> {
    let bytes = damaged(trial.alloc(), dice, sound)?;
    tells_all(trial, &bytes)
}

/// How many drawn files tell all.
fn told(trial: &Trial<'_>, sound: &[u8]) -> Result<u32, OfficeError> {
    let mut dice = Dice::new(SEED);
    let mut told = 0u32;
    for _ in 0..FILES {
        if is_told(trial, &mut dice, sound)? {
            told = told.saturating_add(1);
        }
    }
    Ok(told)
}

fn draws(trial: &Trial<'_>) -> Result<(), OfficeError> {
    let files = empty_files(trial.alloc());
    let (_played, files) = done_on(trial, files, options(64, 1), &PLAYING)?;
    let sound = files.db.bytes();
    trial.told(&"sound", &tells_all(trial, sound)?, &true);
    let told = told(trial, sound)?;
    let are_both = told >= LEAST && FILES.saturating_sub(told) >= LEAST;
    trial.told(&("told", told), &are_both, &true);
    Ok(())
}

#[test]
fn files_with_drawn_damage_tell_or_refuse(rt: HostRuntime) -> Result<(), Fail> {
    Ok(twice!(rt, draws)?)
}
