//! A stop at each write, as a new office's tables are made and as events happen to an office: files that
//! fail from some call on, and an office that is begun anew on what a crash leaves of them.
use crate::disks::Which;
use crate::plays::{
    MAKING, POINTS, Playing, Reached, Task, copies, done_on, empty_files, new_tables, options,
};
use office_core::{EventAnswer, Office, OfficeError};
use office_plays::builders::{MEMORY, event_of, office_over};
use office_plays::steps::Happens::{
    self, Arrive, Ask, Load, LoadOrdered, Open, Order, Restart, Send, Void,
};
use office_plays::steps::{opened, push, take};
use office_plays::tables::text_of;
use office_store::{SqlKeeper, StoreError};
use poll_book::{Keeper, MemKeeper, StoreFault};
use poll_match::Conn;
use sqlite::{Alter, Connection, Files};
use sqlite_disk::{Crash, Fuse, Memory};
use std::alloc::Global;
use std::test::Fail;
use store_plays::begin;
use telling::{Trial, twice};

pub(crate) const HAPPENINGS: &[Happens] = &[
    Load("l1", POINTS),
    Order("k1", "lim", 80),
    Open("roof"),
    Ask(1, "m1", 5, (3, 107, 2)),
    Arrive(1, 0, 17, &[3, 4, 0x02, 0x2B, 0, 7]),
    Ask(1, "m1", 6, (3, 107, 2)),
    Arrive(1, 1, 17, &[3, 4, 0x02, 0x2D, 0, 10]),
    Send(1, 1),
    Arrive(1, 2, 17, &[6, 0, 40, 0, 80]),
    Restart,
    Order("k2", "lim", 90),
    Open("roof"),
    Void("v1", "a", 5),
    LoadOrdered("l2", "w,m1,holding,120,uint32,,,gauge,,swapped\n"),
];

/// How many of these are of today's tables alone: what came before them could happen over tables of version 1.
pub(crate) const NEW: usize = 2;

const PLAYING: Playing = Playing {
    is_new: false,
    happenings: HAPPENINGS,
    fault: StoreFault::Disk,
};

/// The keys of its requests.
pub(crate) const KEYS: &[&str] = &["l1", "k1", "k2", "v1", "l2"];

pub(crate) fn take_first<K: Keeper>(
    alloc: Global,
    office: &mut Office<K>,
    count: usize,
) -> Result<(), OfficeError> {
    for happens in HAPPENINGS.iter().take(count) {
        take(office, &event_of(alloc, happens)?)?;
    }
    Ok(())
}

/// An office in memory after so many events.
fn twin_after(alloc: Global, count: usize) -> Result<Office<MemKeeper>, OfficeError> {
    let mut twin = office_over(alloc, MemKeeper::new(alloc))?;
    take_first(alloc, &mut twin, count)?;
    Ok(twin)
}

/// Its tables as text.
pub(crate) fn tables_after(alloc: Global, count: usize) -> Result<String, OfficeError> {
    text_of(alloc, &mut twin_after(alloc, count)?.into_keeper(), KEYS)
}

/// The tables are those after so many events, or after so many.
fn are_tables<K: Keeper>(
    trial: &Trial<'_>,
    keeper: &mut K,
    count: usize,
    other: usize,
) -> Result<(), OfficeError> {
    let tables = text_of(trial.alloc(), keeper, KEYS)?;
    let is_known = tables == tables_after(trial.alloc(), count)?
        || tables == tables_after(trial.alloc(), other)?;
    trial.told(&(count, &tables), &is_known, &true);
    Ok(())
}

/// The answers to the requests, made again, and how many orders there are then.
fn asked_again<K: Keeper>(
    alloc: Global,
    office: &mut Office<K>,
) -> Result<(Vec<EventAnswer>, u32), OfficeError> {
    let mut answers = Vec::new(alloc);
    for happens in HAPPENINGS {
        if let Load(..) | Order(..) | Void(..) | LoadOrdered(..) = happens {
            push(&mut answers, take(office, &event_of(alloc, happens)?)?)?;
        }
    }
    Ok((answers, office.orders()?))
}

fn sent<K: Keeper>(office: &mut Office<K>, conn: u32) -> Option<OfficeError> {
    office.send_order(Conn::new(conn), 1).err()
}

/// No connection is open, and the next one takes a number that was never told.
fn is_unconnected<K: Keeper>(
    trial: &Trial<'_>,
    office: &mut Office<K>,
    twin: &mut Office<MemKeeper>,
) -> Result<(), OfficeError> {
    let untold = opened(twin, "roof")?;
    for number in 0..untold {
        trial.told(
            &number,
            &sent(office, number),
            &Some(OfficeError::NoConnection),
        );
    }
    let next = opened(office, "roof")?;
    trial.told(&next, &(next >= untold), &true);
    Ok(())
}

/// What the requests of all events are answered.
fn all_answers(alloc: Global) -> Result<(Vec<EventAnswer>, u32), OfficeError> {
    let mut twin = twin_after(alloc, HAPPENINGS.len())?;
    asked_again(alloc, &mut twin)
}

fn are_answered<K: Keeper>(trial: &Trial<'_>, office: &mut Office<K>) -> Result<(), OfficeError> {
    let told = asked_again(trial.alloc(), office)?;
    trial.told(&"requests", &told, &all_answers(trial.alloc())?);
    Ok(())
}

/// An office that took so many events goes on: the requests, made again, count once.
fn goes_on<K: Keeper>(
    trial: &Trial<'_>,
    office: &mut Office<K>,
    count: usize,
) -> Result<(), OfficeError> {
    is_unconnected(trial, office, &mut twin_after(trial.alloc(), count)?)?;
    asked_again(trial.alloc(), office)?;
    are_answered(trial, office)
}

/// How many rows a table has in the end: of totals two, one for each counter.
const ROWS: &[(&str, usize)] = &[
    ("SELECT point FROM total", 2),
    ("SELECT point FROM void", 1),
    ("SELECT point FROM swapped", 1),
];

fn have_rows<S: Alter>(
    trial: &Trial<'_>,
    connection: &mut Connection<S>,
) -> Result<(), OfficeError> {
    for (query, count) in ROWS {
        let Ok(rows) = connection.query_all(query, &[]) else {
            return Err(MEMORY);
        };
        trial.told(query, &rows.len(), count);
    }
    Ok(())
}

/// What a stop leaves is an office that goes on. Where tables were being made there may be none, and then
/// they are made now.
#[derive(Clone, Copy)]
struct GoingOn {
    is_new: bool,
    reached: Option<Reached>,
}

impl GoingOn {
    fn kept<S: Alter + Drop>(
        &self,
        trial: &Trial<'_>,
        connection: Connection<S>,
    ) -> Result<SqlKeeper<S>, OfficeError> {
        let is_made = !self.is_new || self.reached.is_some();
        match SqlKeeper::open(connection) {
            Ok(keeper) => Ok(keeper),
            Err((StoreError::Store(StoreFault::Memory), _connection)) => Err(MEMORY),
            Err((error, connection)) => {
                trial.told(&is_made, &error, &StoreError::NotOffice);
                trial.told(&"no tables", &is_made, &false);
                begin(connection).map_err(|(error, _connection)| error)
            }
        }
    }

    /// A new office takes all events; another, which took so many, goes on.
    fn used<K: Keeper>(
        &self,
        trial: &Trial<'_>,
        office: &mut Office<K>,
        count: usize,
    ) -> Result<(), OfficeError> {
        if !self.is_new {
            return goes_on(trial, office, count);
        }
        let reached = PLAYING.played(trial, office)?;
        trial.told(&"events", &reached.events, &HAPPENINGS.len());
        Ok(())
    }

    fn begun<K: Keeper + Drop>(&self, trial: &Trial<'_>, mut keeper: K) -> Result<K, OfficeError> {
        let count = self.reached.map_or(0, |reached| reached.events);
        let more = if self.is_new { 0 } else { 1 };
        are_tables(trial, &mut keeper, count, count.saturating_add(more))?;
        let mut office = office_over(trial.alloc(), keeper)?;
        self.used(trial, &mut office, count)?;
        self.is_full(trial, office.into_keeper())
    }

    /// What was a new office has the tables of all events.
    fn is_full<K: Keeper + Drop>(
        &self,
        trial: &Trial<'_>,
        mut keeper: K,
    ) -> Result<K, OfficeError> {
        if self.is_new {
            are_tables(trial, &mut keeper, HAPPENINGS.len(), HAPPENINGS.len())?;
        }
        Ok(keeper)
    }
}

impl Task for GoingOn {
    fn done_in<S: Alter + Drop>(
        &self,
        trial: &Trial<'_>,
        connection: Connection<S>,
    ) -> Result<(Option<Reached>, S), OfficeError> {
        let keeper = self.begun(trial, self.kept(trial, connection)?)?;
        let mut connection = keeper.into_connection();
        have_rows(trial, &mut connection)?;
        Ok((self.reached, connection.into_store()))
    }
}

pub(crate) type Stopped = Files<Fuse<Memory>>;

/// Does a task with the database that a stop left, opened anew.
fn reopened<T: Task>(trial: &Trial<'_>, files: &Stopped, task: &T) -> Result<(), OfficeError> {
    let files = copies(trial.alloc(), files.log.inner(), files.db.inner())?;
    let (_reached, _files) = done_on(trial, files, options(64, 8), task)?;
    Ok(())
}

/// Does a task with what both outcomes of a stop leave: all that was written, and only what was flushed.
pub(crate) fn are_left<T: Task>(
    trial: &Trial<'_>,
    files: &mut Stopped,
    task: &T,
) -> Result<(), OfficeError> {
    reopened(trial, files, task)?;
    files.log.crash();
    files.db.crash();
    reopened(trial, files, task)
}

/// Does a task with copies of files, of which one fails after so many calls. The log is copied into the database
/// file after so many frames.
pub(crate) fn stopped<T: Task>(
    trial: &Trial<'_>,
    files: &Files<Memory>,
    (which, calls): (Which, u64),
    task: &T,
    frames: usize,
) -> Result<(Option<Reached>, Stopped), OfficeError> {
    let (log, db) = which.both(calls, u64::MAX);
    let files = copies(trial.alloc(), &files.log, &files.db)?;
    let files = Files {
        log: Fuse::new(files.log, log),
        db: Fuse::new(files.db, db),
    };
    done_on(trial, files, options(64, frames), task)
}

/// Stops an office after so many calls of a file, and expects what this leaves. Tells whether it was stopped.
fn is_stopped(
    trial: &Trial<'_>,
    files: &Files<Memory>,
    playing: &Playing,
    stop: (Which, u64),
) -> Result<bool, OfficeError> {
    // The log is copied every few commits, so that both files are written.
    let (reached, mut files) = stopped(trial, files, stop, playing, 8)?;
    let going_on = GoingOn {
        is_new: playing.is_new,
        reached,
    };
    are_left(trial, &mut files, &going_on)?;
    Ok(reached.is_none_or(|reached| reached.refused > 0))
}

/// Stops later and later, until it isn't stopped, and at least so often.
fn are_stops(
    trial: &Trial<'_>,
    files: &Files<Memory>,
    playing: &Playing,
    which: Which,
    least: u64,
) -> Result<(), OfficeError> {
    let mut stops = 0u64;
    for calls in 0..u64::MAX {
        if !is_stopped(trial, files, playing, (which, calls))? {
            break;
        }
        stops = stops.saturating_add(1);
    }
    trial.told(&(which, stops), &(stops >= least), &true);
    Ok(())
}

fn log_stops(trial: &Trial<'_>) -> Result<(), OfficeError> {
    are_stops(trial, &new_tables(trial)?, &PLAYING, Which::Log, 21)
}

#[test]
fn a_stop_of_the_log_leaves_whole_events(rt: HostRuntime) -> Result<(), Fail> {
    Ok(twice!(rt, log_stops)?)
}

fn database_stops(trial: &Trial<'_>) -> Result<(), OfficeError> {
    are_stops(trial, &new_tables(trial)?, &PLAYING, Which::Db, 6)
}

#[test]
fn a_stop_of_the_database_file_leaves_whole_events(rt: HostRuntime) -> Result<(), Fail> {
    Ok(twice!(rt, database_stops)?)
}

fn making_stops(trial: &Trial<'_>) -> Result<(), OfficeError> {
    let files = empty_files(trial.alloc());
    are_stops(trial, &files, &MAKING, Which::Log, 5)?;
    are_stops(trial, &files, &MAKING, Which::Db, 5)
}

#[test]
fn a_stop_as_tables_are_made_leaves_none_or_all(rt: HostRuntime) -> Result<(), Fail> {
    Ok(twice!(rt, making_stops)?)
}
