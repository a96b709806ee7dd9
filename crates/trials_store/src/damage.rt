//! Files without room, files of which one call fails, and files with a damaged byte, under the database
//! of an office: what it still answers is right, and the rest is refused.
use crate::disks::{Failing, Which};
use crate::plays::{POINTS, Playing, Task, copies, done_on, new_tables, options};
use office_core::OfficeError;
use office_plays::steps::Happens::{self, Arrive, Ask, Load, Open, Order, Send};
use poll_book::StoreFault;
use sqlite::Files;
use sqlite_disk::{Memory, Rot};
use std::test::Fail;
use telling::{Trial, twice};

const HAPPENINGS: &[Happens] = &[
    Load("l1", POINTS),
    Order("k1", "lim", 80),
    Open("roof"),
    Ask(1, "m1", 5, (3, 107, 2)),
    Arrive(1, 0, 17, &[3, 4, 0x02, 0x2B, 0, 7]),
    Send(1, 1),
    Arrive(1, 1, 17, &[6, 0, 40, 0, 80]),
    Load("l1", POINTS),
    Order("k1", "lim", 80),
];

/// What is wrong with a file.
#[derive(Clone, Copy, Debug)]
pub(crate) enum Harm {
    /// It has little room.
    Room,
    /// One of its calls fails.
    Call,
    /// One of its bytes is damaged.
    Byte,
}

/// A file's room, the number of its call that fails, and the place of its damaged byte.
type Limits = (usize, u64, usize);

const SOUND: Limits = (usize::MAX, u64::MAX, usize::MAX);

impl Harm {
    /// What is wrong with a file of so many bytes at a step: more and more room, each call, and a byte here
    /// and there.
    fn limits(self, step: usize, len: usize) -> Limits {
        let (room, call, byte) = SOUND;
        match self {
            Harm::Room => (len.saturating_add(step.saturating_mul(4096)), call, byte),
            Harm::Call => (room, step as u64, byte),
            Harm::Byte => (room, call, step.saturating_mul(2401)),
        }
    }

    fn fault(self) -> StoreFault {
        match self {
            Harm::Room => StoreFault::Full,
            Harm::Call | Harm::Byte => StoreFault::Disk,
        }
    }

    /// What happens to an office over such files.
    fn playing(self) -> Playing {
        Playing {
            is_new: false,
            happenings: HAPPENINGS,
            fault: self.fault(),
        }
    }
}

/// Whether a greater step harms nothing: with room for all, or where fewer calls were made.
fn is_past(harm: Harm, files: &Files<Failing<Rot<Memory>>>, refused: Option<u32>) -> bool {
    match harm {
        Harm::Room => refused == Some(0),
        Harm::Call => !files.log.has_failed() && !files.db.has_failed(),
        Harm::Byte => false,
    }
}

/// How often a task over harmed files is refused; `None` where a greater step harms nothing.
fn refused<T: Task>(
    trial: &Trial<'_>,
    tables: &Files<Memory>,
    (harm, which): (Harm, Which),
    task: &T,
    step: usize,
) -> Result<Option<u32>, OfficeError> {
    // A log that is to grow is never copied into the database file, else it is every few frames. Most pages
    // are read from the files.
    let (frames, len) = match (harm, which) {
        (Harm::Room, Which::Log) => (1_000, tables.log.bytes().len()),
        _ => (4, tables.db.bytes().len()),
    };
    let (log, db) = which.both(harm.limits(step, len), SOUND);
    let files = copies(trial.alloc(), &tables.log, &tables.db)?;
    let files = Files {
        log: Failing::new(Rot::new(files.log, log.2), log.0, log.1),
        db: Failing::new(Rot::new(files.db, db.2), db.0, db.1),
    };
    let (reached, files) = done_on(trial, files, options(1, frames), task)?;
    let refused = reached.map(|reached| reached.refused);
    if is_past(harm, &files, refused) {
        trial.told(&"nothing harmed", &refused, &Some(0));
        return Ok(None);
    }
    Ok(Some(refused.unwrap_or(0)))
}

/// Does a task over harmed files of tables step by step, until none harms or for so many; so many times something is
/// refused.
pub(crate) fn are_harmed<T: Task>(
    trial: &Trial<'_>,
    tables: &Files<Memory>,
    case: (Harm, Which),
    task: &T,
    steps: usize,
    least: u32,
) -> Result<(), OfficeError> {
    let mut times = 0u32;
    for step in 0..steps {
        match refused(trial, tables, case, task, step)? {
            None => break,
            Some(0) => {}
            Some(_) => times = times.saturating_add(1),
        }
    }
    trial.told(&(case, times), &(times >= least), &true);
    Ok(())
}

/// So many offices over harmed files refuse something.
fn are_refused(
    trial: &Trial<'_>,
    case: (Harm, Which),
    steps: usize,
    least: u32,
) -> Result<(), OfficeError> {
    let tables = new_tables(trial)?;
    are_harmed(trial, &tables, case, &case.0.playing(), steps, least)
}

fn rooms(trial: &Trial<'_>) -> Result<(), OfficeError> {
    are_refused(trial, (Harm::Room, Which::Log), usize::MAX, 20)?;
    are_refused(trial, (Harm::Room, Which::Db), usize::MAX, 5)
}

#[test]
fn files_without_room_refuse_and_stay(rt: HostRuntime) -> Result<(), Fail> {
    Ok(twice!(rt, rooms)?)
}

fn calls(trial: &Trial<'_>) -> Result<(), OfficeError> {
    are_refused(trial, (Harm::Call, Which::Log), usize::MAX, 50)?;
    are_refused(trial, (Harm::Call, Which::Db), usize::MAX, 20)
}

#[test]
fn files_of_which_one_call_fails_refuse(rt: HostRuntime) -> Result<(), Fail> {
    Ok(twice!(rt, calls)?)
}

fn bytes(trial: &Trial<'_>) -> Result<(), OfficeError> {
    are_refused(trial, (Harm::Byte, Which::Log), 20, 1)?;
    are_refused(trial, (Harm::Byte, Which::Db), 20, 3)
}

#[test]
fn files_with_a_damaged_byte_refuse(rt: HostRuntime) -> Result<(), Fail> {
    Ok(twice!(rt, bytes)?)
}
