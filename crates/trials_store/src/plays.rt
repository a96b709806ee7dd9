//! What is done with databases in files. Nothing else here names where a database lies: a proof that
//! carries its files is a dear one.
ghost use Rattle.std.specs.Prelude.{IfOk, IsTrue};
ghost use Rattle.sqlite_disk.specs.Memory.{memory_is_usable};

use office_core::{Event, EventAnswer, Office, OfficeError};
use office_plays::builders::{MEMORY, TWO, begun, events_of, office_over, shown};
use office_plays::steps::{Happens, take};
use office_store::SqlKeeper;
use poll_book::{Keeper, MemKeeper, StoreFault};
use sqlite::{Alter, Connection, Error, ErrorCode, FileStore, Files, Options};
use sqlite_disk::{Disk, Memory};
use std::alloc::Global;
use store_plays::{begin, opened};
use telling::Trial;

/// Two counters, and a setting.
pub(crate) const POINTS: &str =
    "a,m1,holding,107,uint16,,,counter,\nb,m1,holding,108,uint16,,,counter,\nlim,m1,holding,40,uint16,,,setting,\n";

/// How many events an office took before its store refused one, and how many were refused.
#[derive(Clone, Copy)]
pub(crate) struct Reached {
    pub(crate) events: usize,
    pub(crate) refused: u32,
}

/// What is done with a database, wherever it lies.
pub(crate) trait Task {
    /// Does it, and gives the store back; `None` where the store refused it all. Refused memory ends the
    /// attempt.
    fn done_in<S: Alter + Drop>(
        &self,
        trial: &Trial<'_>,
        connection: Connection<S>,
    ) -> Result<(Option<Reached>, S), OfficeError>;
}

/// So many pages are kept in memory, and after so many frames the log is copied into the database file.
pub(crate) fn options(pages: usize, frames: usize) -> Options {
    Options {
        cache_pages: pages,
        spill_pages: pages,
        checkpoint_frames: frames,
        seed: 7,
    }
}

/// The database in files; the files where it isn't one. Refused memory ends the attempt.
fn connected<D: Disk + Drop>(
    alloc: Global,
    files: Files<D>,
    options: Options,
) -> Result<Result<Connection<FileStore<D>>, Files<D>>, OfficeError>
    requires log { IsTrue (D.Disk.is_usable files.log) }
    requires db { IsTrue (D.Disk.is_usable files.db) }
{
    match Connection::open_files(alloc, files, options) {
        Ok(connection) => Ok(Ok(connection)),
        Err((Error::SqliteFailure(ErrorCode::OutOfMemory), _left)) => Err(MEMORY),
        Err((_error, left)) => Ok(Err(left.into_files())),
    }
}

fn done_in_store<D: Disk + Drop, T: Task>(
    trial: &Trial<'_>,
    connection: Connection<FileStore<D>>,
    task: &T,
) -> Result<(Option<Reached>, Files<D>), OfficeError> {
    let (reached, store) = task.done_in(trial, connection)?;
    Ok((reached, store.close()))
}

/// Does a task with the database in files, and gives the files back.
pub(crate) fn done_on<D: Disk + Drop, T: Task>(
    trial: &Trial<'_>,
    files: Files<D>,
    options: Options,
    task: &T,
) -> Result<(Option<Reached>, Files<D>), OfficeError>
    requires log { IsTrue (D.Disk.is_usable files.log) }
    requires db { IsTrue (D.Disk.is_usable files.db) }
{
    match connected(trial.alloc(), files, options)? {
        Ok(connection) => done_in_store(trial, connection, task),
        Err(files) => Ok((None, files)),
    }
}

/// A file of these bytes, which a crash leaves.
pub(crate) fn file_of(alloc: Global, bytes: &[u8]) -> Result<Memory, OfficeError>
    ensures { IfOk result (λ file. IsTrue (memory_is_usable file)) }
{
    let mut file = Memory::new(alloc);
    if !bytes.is_empty() && file.write_at(0, bytes).is_err() {
        return Err(MEMORY);
    }
    match file.sync() {
        Ok(()) => Ok(file),
        Err(_) => Err(MEMORY),
    }
}

/// Files of the same bytes.
pub(crate) fn copies(alloc: Global, log: &Memory, db: &Memory) -> Result<Files<Memory>, OfficeError>
    ensures log { IfOk result (λ copies. IsTrue (memory_is_usable copies.log)) }
    ensures db { IfOk result (λ copies. IsTrue (memory_is_usable copies.db)) }
{
    let log = file_of(alloc, log.bytes())?;
    let db = file_of(alloc, db.bytes())?;
    Ok(Files { log, db })
}

pub(crate) fn empty_files(alloc: Global) -> Files<Memory>
    ensures log { IsTrue (memory_is_usable result.log) }
    ensures db { IsTrue (memory_is_usable result.db) }
{
    Files {
        log: Memory::new(alloc),
        db: Memory::new(alloc),
    }
}

/// The files of tables that are made so, which are in the log: it isn't copied.
pub(crate) fn tables_of(trial: &Trial<'_>, making: &Playing) -> Result<Files<Memory>, OfficeError> {
    let files = empty_files(trial.alloc());
    let (made, files) = done_on(trial, files, options(64, 1_000), making)?;
    trial.told(&"tables", &made.is_some(), &true);
    Ok(files)
}

/// The files of new tables.
pub(crate) fn new_tables(trial: &Trial<'_>) -> Result<Files<Memory>, OfficeError> {
    tables_of(trial, &MAKING)
}

/// What happens to an office, whose tables are made first where it is new. What its store refuses it
/// refuses for this fault, or for a damaged disk.
#[derive(Clone, Copy)]
pub(crate) struct Playing {
    pub(crate) is_new: bool,
    pub(crate) happenings: &'static [Happens],
    pub(crate) fault: StoreFault,
}

/// The tables of an office are made, and nothing happens to it.
pub(crate) const MAKING: Playing = Playing {
    is_new: true,
    happenings: &[],
    fault: StoreFault::Disk,
};

/// The tables are the twin's, or can't be read.
fn are_shown<K: Keeper>(
    trial: &Trial<'_>,
    office: &mut Office<K>,
    twin: &mut Office<MemKeeper>,
) -> Result<(), OfficeError> {
    let tables = shown(trial.alloc(), twin)?;
    match shown(trial.alloc(), office) {
        Ok(told) => trial.told(&"tables", &told, &tables),
        Err(error) if error == MEMORY => return Err(MEMORY),
        Err(error) => {
            trial.told(&"tables", &error, &OfficeError::Store(StoreFault::Disk));
        }
    }
    Ok(())
}

/// Takes an event as the twin does. What the store refuses the twin isn't told of, and then the tables
/// are the twin's, or can't be read. Tells whether it was refused.
fn take_as<K: Keeper>(
    trial: &Trial<'_>,
    office: &mut Office<K>,
    twin: &mut Office<MemKeeper>,
    event: &Event,
    expected: StoreFault,
) -> Result<bool, OfficeError> {
    let answer = take(office, event)?;
    let EventAnswer::Refused(OfficeError::Store(fault)) = answer else {
        trial.told(&expected, &answer, &take(twin, event)?);
        return Ok(false);
    };
    are_shown(trial, office, twin)?;
    let is_told = fault == expected || fault == StoreFault::Disk;
    trial.told(&(expected, fault), &is_told, &true);
    Ok(true)
}

fn take_all_as<K: Keeper>(
    trial: &Trial<'_>,
    office: &mut Office<K>,
    twin: &mut Office<MemKeeper>,
    events: &[Event],
    fault: StoreFault,
) -> Result<Reached, OfficeError> {
    let (mut taken, mut refused) = (0usize, 0u32);
    for event in events {
        if take_as(trial, office, twin, event, fault)? {
            refused = refused.saturating_add(1);
        } else if refused == 0 {
            taken = taken.saturating_add(1);
        }
    }
    are_shown(trial, office, twin)?;
    Ok(Reached {
        events: taken,
        refused,
    })
}

/// The keeper of a database's tables, which are made first where it is new.
fn kept_in<S: Alter + Drop>(
    connection: Connection<S>,
    is_new: bool,
) -> Result<SqlKeeper<S>, (OfficeError, Connection<S>)> {
    if is_new {
        begin(connection)
    } else {
        opened(connection)
    }
}

/// The store that was refused. Refused memory ends the attempt.
pub(crate) fn left<S: Alter + Drop>(
    error: OfficeError,
    connection: Connection<S>,
) -> Result<S, OfficeError> {
    if error == MEMORY {
        return Err(MEMORY);
    }
    Ok(connection.into_store())
}

/// An office over a keeper; else the store.
fn office_of<S: Alter + Drop>(
    alloc: Global,
    keeper: SqlKeeper<S>,
) -> Result<Result<Office<SqlKeeper<S>>, S>, OfficeError> {
    match begun(alloc, keeper, TWO)? {
        Ok(office) => Ok(Ok(office)),
        Err((error, keeper)) => Ok(Err(left(error, keeper.into_connection())?)),
    }
}

/// An office over a database's tables; else the store.
fn office_in<S: Alter + Drop>(
    alloc: Global,
    connection: Connection<S>,
    is_new: bool,
) -> Result<Result<Office<SqlKeeper<S>>, S>, OfficeError> {
    match kept_in(connection, is_new) {
        Ok(keeper) => office_of(alloc, keeper),
        Err((error, connection)) => Ok(Err(left(error, connection)?)),
    }
}

impl Playing {
    /// Lets it happen to an office that knows nothing, beside a twin in memory.
    pub(crate) fn played<K: Keeper>(
        &self,
        trial: &Trial<'_>,
        office: &mut Office<K>,
    ) -> Result<Reached, OfficeError> {
        let events = events_of(trial.alloc(), self.happenings)?;
        let mut twin = office_over(trial.alloc(), MemKeeper::new(trial.alloc()))?;
        take_all_as(trial, office, &mut twin, &events, self.fault)
    }
}

fn store_of<S: Alter + Drop>(office: Office<SqlKeeper<S>>) -> S {
    office.into_keeper().into_connection().into_store()
}

impl Task for Playing {
    fn done_in<S: Alter + Drop>(
        &self,
        trial: &Trial<'_>,
        connection: Connection<S>,
    ) -> Result<(Option<Reached>, S), OfficeError> {
        match office_in(trial.alloc(), connection, self.is_new)? {
            Ok(mut office) => {
                let reached = self.played(trial, &mut office)?;
                Ok((Some(reached), store_of(office)))
            }
            Err(store) => Ok((None, store)),
        }
    }
}
