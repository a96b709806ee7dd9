//! Offices in a small world.
use crate::guest::Speech;
use crate::wire::{Spell, Wire};
use crate::world::World;
use mb_map::Sim;
use office_core::{Office, OfficeError};
use office_plays::builders::{MEMORY, TWO, begun};
use office_plays::steps::Happens::{self, Load};
use office_plays::steps::{push, rows, take_happening, total};
use office_run::RunFault;
use poll_book::{Keeper, MemKeeper};
use run_beat::Slots;
use std::alloc::{AllocError, Global};
use telling::Trial;

/// The clock shows so many milliseconds as a run begins: three seconds of slot 100 are left.
const BEGAN: u64 = 502_000;

/// For so many milliseconds a device is waited for.
const TIMEOUT: u32 = 2_000;

/// A register that an order sets, and one in which the device counts the seconds of the run.
pub(crate) const IMAGE: &str = "[[unit]]\nid = 17\nholding_start = 40\nholding = [0, 0]\n";

/// The seconds of the device on the roof, a setting of it, and the seconds of the device in the cellar.
const POINTS: &[Happens] = &[Load(
    "l1",
    "e,m1,holding,41,uint16,,,counter,\nlim,m1,holding,40,uint16,,,setting,\nf,m2,holding,41,uint16,,,gauge,\n",
)];

/// A line's devices, and what is wrong with them.
#[derive(Clone, Copy, Debug)]
pub(crate) struct Behind {
    pub image: &'static str,
    pub spells: &'static [Spell],
}

/// Takes what happens, in its order.
fn take_all<K: Keeper>(
    alloc: Global,
    office: &mut Office<K>,
    happened: &[Happens],
) -> Result<(), OfficeError> {
    for happens in happened {
        take_happening(alloc, office, happens)?;
    }
    Ok(())
}

/// An office of a site over a keeper, to which this has happened.
pub(crate) fn office_over<K: Keeper + Drop>(
    alloc: Global,
    keeper: K,
    site: &str,
    happened: &[Happens],
) -> Result<Office<K>, OfficeError> {
    let mut office = begun(alloc, keeper, site)?.map_err(|(error, _)| error)?;
    take_all(alloc, &mut office, happened)?;
    Ok(office)
}

/// An office of the roof and the cellar over a keeper, to which this has happened since its points came.
fn office_in<K: Keeper + Drop>(
    alloc: Global,
    keeper: K,
    happened: &[Happens],
) -> Result<Office<K>, OfficeError> {
    let mut office = office_over(alloc, keeper, TWO, POINTS)?;
    take_all(alloc, &mut office, happened)?;
    Ok(office)
}

fn wire(alloc: Global, behind: &Behind) -> Result<Wire, OfficeError> {
    match Sim::from_toml(alloc, behind.image.as_bytes()) {
        Ok(sim) => Ok(Wire::new(alloc, sim, behind.spells)),
        Err(_) => Err(MEMORY),
    }
}

/// A world of these lines that ends after so many milliseconds, and into which these callers come.
pub(crate) fn world_of(
    alloc: Global,
    ends: u64,
    lines: &[Behind],
    speeches: &[Speech],
) -> Result<World, OfficeError> {
    let mut wires = Vec::new(alloc);
    for behind in lines {
        push(&mut wires, wire(alloc, behind)?)?;
    }
    Ok(World::new(alloc, BEGAN, ends, wires, speeches)?)
}

/// A world of the roof and the cellar, in which something may be wrong with the cellar.
pub(crate) fn world(
    alloc: Global,
    ends: u64,
    cellar: &'static [Spell],
    speeches: &[Speech],
) -> Result<World, OfficeError> {
    let lines = [&[] as &'static [Spell], cellar].map(|spells| Behind {
        image: IMAGE,
        spells,
    });
    world_of(alloc, ends, &lines, speeches)
}

/// A run that has ended: the office and the world as it left them, and how it ended.
#[derive(Drop)]
pub(crate) struct Left<K: Keeper> {
    pub office: Office<K>,
    pub world: World,
    pub ended: Result<(), RunFault>,
}

fn ran<K: Keeper>(
    alloc: Global,
    office: &mut Office<K>,
    world: &mut World,
) -> Result<(), RunFault> {
    match Slots::new(world.slot) {
        Some(slots) => office_run::run(alloc, office, world, slots, TIMEOUT),
        None => Ok(()),
    }
}

/// What is looked at behind a run.
pub(crate) trait Look<K: Keeper> {
    fn look(&self, trial: &Trial<'_>, left: &mut Left<K>) -> Result<(), OfficeError>;
}

/// Keeps an office up to the world's end, or as long as it can be. Refused memory ends the attempt.
fn keep_up<K: Keeper + Drop>(
    alloc: Global,
    mut office: Office<K>,
    mut world: World,
) -> Result<Left<K>, OfficeError> {
    let ended = ran(alloc, &mut office, &mut world);
    if ended == Err(RunFault::Memory) {
        return Err(MEMORY);
    }
    Ok(Left {
        office,
        world,
        ended,
    })
}

/// Keeps an office up in a world, and has what is left of both looked at.
// What owns an office and a world stands here: each function that did would be proved to give back all that they hold.
pub(crate) fn look_behind<K: Keeper + Drop, L: Look<K>>(
    trial: &Trial<'_>,
    office: Office<K>,
    world: World,
    look: &L,
) -> Result<(), OfficeError> {
    let mut left = keep_up(trial.alloc(), office, world)?;
    look.look(trial, &mut left)
}

/// The same of the roof and the cellar over a keeper, to which this has happened since its points came.
pub(crate) fn keep_up_in<K: Keeper + Drop>(
    alloc: Global,
    keeper: K,
    happened: &[Happens],
    world: World,
) -> Result<Left<K>, OfficeError> {
    let office = office_in(alloc, keeper, happened)?;
    keep_up(alloc, office, world)
}

/// The same in memory, looked at.
pub(crate) fn look_behind_new<L: Look<MemKeeper>>(
    trial: &Trial<'_>,
    happened: &[Happens],
    world: World,
    look: &L,
) -> Result<(), OfficeError> {
    let alloc = trial.alloc();
    let mut left = keep_up_in(alloc, MemKeeper::new(alloc), happened, world)?;
    look.look(trial, &mut left)
}

/// The readings of a point of one register, each with its slot.
fn readings<K: Keeper>(
    alloc: Global,
    office: &mut Office<K>,
    point: &str,
) -> Result<Vec<(u32, u16)>, OfficeError> {
    let mut all = Vec::new(alloc);
    if let Some(rows) = rows(office, point, 0, u32::MAX)? {
        for row in &rows {
            let word = row.reading.words.as_slice().first().copied();
            push(&mut all, (row.reading.slot, word.unwrap_or(0)))?;
        }
    }
    Ok(all)
}

/// Expects the readings of a point: slots, and in each the second in which it was read.
pub(crate) fn assert_readings<K: Keeper>(
    trial: &Trial<'_>,
    office: &mut Office<K>,
    point: &str,
    expected: &[(u32, u16)],
) -> Result<(), OfficeError> {
    let told = readings(trial.alloc(), office, point)?;
    trial.told(&point, &told.as_slice(), &expected);
    Ok(())
}

/// Expects the total of the device on the roof.
pub(crate) fn assert_total<K: Keeper>(
    trial: &Trial<'_>,
    office: &mut Office<K>,
    expected: u128,
) -> Result<(), OfficeError> {
    let told = total(office, "e")?;
    trial.told(&"total", &told, &Some(expected));
    Ok(())
}

/// What was told on standard error.
fn told_in(world: &World) -> &str {
    str::from_utf8(&world.told).unwrap_or("no text")
}

/// The same without the lines of whole rounds, of which there is one a line and slot.
fn told_beside_rounds(alloc: Global, world: &World) -> Result<String, AllocError> {
    let mut told = String::new(alloc);
    for line in told_in(world).split_inclusive('\n') {
        if !line.contains(" polled slot ") {
            told.push_str(line)?;
        }
    }
    Ok(told)
}

/// Expects what was told on standard error besides whole rounds.
pub(crate) fn assert_told(
    trial: &Trial<'_>,
    world: &World,
    expected: &str,
) -> Result<(), AllocError> {
    let told = told_beside_rounds(trial.alloc(), world)?;
    trial.told(&"told", &told.as_str(), &expected);
    Ok(())
}

fn assert_all_told(trial: &Trial<'_>, world: &World, expected: &str) {
    trial.told(&"told", &told_in(world), &expected);
}

/// All that was told on standard error.
pub(crate) struct AllTold(pub &'static str);

impl<K: Keeper> Look<K> for AllTold {
    fn look(&self, trial: &Trial<'_>, left: &mut Left<K>) -> Result<(), OfficeError> {
        assert_all_told(trial, &left.world, self.0);
        Ok(())
    }
}
