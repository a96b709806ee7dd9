//! Tables of version 1 that are moved to version 2, and what a stop at each write of that leaves: those of one version
//! or of the other, whole.
use crate::disks::Which;
use crate::opening::run;
use crate::plays::{Reached, Task, done_on, empty_files, options};
use crate::stops::{HAPPENINGS, KEYS, NEW, are_left, stopped, tables_after, take_first};
use office_core::OfficeError;
use office_plays::builders::{MEMORY, office_after, office_over};
use office_plays::tables::text_of;
use office_store::{Migrated, SqlKeeper, StoreError, migrate};
use poll_book::{Keeper, StoreFault};
use sqlite::{Alter, Connection, Files};
use sqlite_disk::Memory;
use std::test::Fail;
use store_plays::{begin, opened, stored};
use telling::{Trial, twice};

/// What makes tables of version 1 of an office's.
const EARLIER: &str =
    "DROP TABLE void; DROP TABLE swapped; UPDATE meta SET value = 1 WHERE name = 'version'";

/// How much happened to an office over them.
const EVENTS: usize = HAPPENINGS.len() - NEW;

/// All of that is there, and none was refused.
const ALL: Reached = Reached {
    events: EVENTS,
    refused: 0,
};

/// Moves the tables, or tells why they aren't. Refused memory ends the attempt.
pub(crate) fn moved<S: Alter>(
    connection: &mut Connection<S>,
) -> Result<Result<Migrated, StoreError>, OfficeError> {
    if !connection.is_autocommit() {
        return Err(OfficeError::NoRead);
    }
    match migrate(connection) {
        Err(StoreError::Store(StoreFault::Memory)) => Err(MEMORY),
        told => Ok(told),
    }
}

/// Makes the tables of version 1 of an office to which all happened.
#[derive(Clone, Copy)]
struct Earlier;

impl Task for Earlier {
    fn done_in<S: Alter + Drop>(
        &self,
        trial: &Trial<'_>,
        connection: Connection<S>,
    ) -> Result<(Option<Reached>, S), OfficeError> {
        let keeper = begin(connection).map_err(|(error, _connection)| error)?;
        let mut office = office_over(trial.alloc(), keeper)?;
        take_first(trial.alloc(), &mut office, EVENTS)?;
        let mut connection = office.into_keeper().into_connection();
        run(&mut connection, EARLIER)?;
        Ok((Some(ALL), connection.into_store()))
    }
}

/// Moves tables of version 1, which a file that fails refuses.
#[derive(Clone, Copy)]
struct Moving;

impl Task for Moving {
    fn done_in<S: Alter + Drop>(
        &self,
        trial: &Trial<'_>,
        mut connection: Connection<S>,
    ) -> Result<(Option<Reached>, S), OfficeError> {
        let told = moved(&mut connection)?;
        let reached = told.is_ok().then_some(ALL);
        let is_told = told == Ok(Migrated::Done)
            || told == Err(StoreError::Store(StoreFault::Disk));
        trial.told(&told, &is_told, &true);
        Ok((reached, connection.into_store()))
    }
}

/// Expects the tables of all that happened, and that they aren't moved again.
fn whole<S: Alter + Drop>(
    trial: &Trial<'_>,
    mut keeper: SqlKeeper<S>,
) -> Result<Connection<S>, OfficeError> {
    let tables = text_of(trial.alloc(), &mut keeper, KEYS)?;
    let expected = tables_after(trial.alloc(), EVENTS)?;
    trial.told(&"tables", &tables, &expected);
    let mut connection = keeper.into_connection();
    let again = moved(&mut connection)?;
    trial.told(&"once more", &again, &Ok(Migrated::Already));
    Ok(connection)
}

/// What a stop leaves, where the tables were moved before it or weren't.
#[derive(Clone, Copy)]
struct Left {
    is_moved: bool,
}

impl Left {
    /// The keeper of the tables, which are moved now where they are of version 1.
    fn kept<S: Alter + Drop>(
        &self,
        trial: &Trial<'_>,
        connection: Connection<S>,
    ) -> Result<SqlKeeper<S>, OfficeError> {
        let mut connection = match SqlKeeper::open(connection) {
            Ok(keeper) => return Ok(keeper),
            Err((StoreError::Store(StoreFault::Memory), _connection)) => return Err(MEMORY),
            Err((error, connection)) => {
                trial.told(&self.is_moved, &error, &StoreError::BadVersion);
                connection
            }
        };
        trial.told(&"moved", &self.is_moved, &false);
        trial.told(&"again", &moved(&mut connection)?, &Ok(Migrated::Done));
        opened(connection).map_err(|(error, _connection)| error)
    }
}

impl Task for Left {
    fn done_in<S: Alter + Drop>(
        &self,
        trial: &Trial<'_>,
        connection: Connection<S>,
    ) -> Result<(Option<Reached>, S), OfficeError> {
        let connection = whole(trial, self.kept(trial, connection)?)?;
        Ok((Some(ALL), connection.into_store()))
    }
}

/// Stops a move after so many calls of a file, and expects what this leaves. Its commit is copied into the database
/// file at once. Tells whether it was stopped.
fn is_stopped(
    trial: &Trial<'_>,
    files: &Files<Memory>,
    stop: (Which, u64),
) -> Result<bool, OfficeError> {
    let (reached, mut files) = stopped(trial, files, stop, &Moving, 1)?;
    let is_moved = reached.is_some();
    are_left(trial, &mut files, &Left { is_moved })?;
    Ok(!is_moved)
}

/// Stops later and later, until it isn't stopped, and at least so often.
fn are_stops(
    trial: &Trial<'_>,
    files: &Files<Memory>,
    which: Which,
    least: u64,
) -> Result<(), OfficeError> {
    let mut stops = 0u64;
    for calls in 0..u64::MAX {
        if !is_stopped(trial, files, (which, calls))? {
            break;
        }
        stops = stops.saturating_add(1);
    }
    trial.told(&(which, stops), &(stops >= least), &true);
    Ok(())
}

/// The files of tables of version 1, of which little is in the log.
fn moves(trial: &Trial<'_>) -> Result<(), OfficeError> {
    let files = empty_files(trial.alloc());
    let (made, files) = done_on(trial, files, options(64, 1), &Earlier)?;
    trial.told(&"version 1", &made.is_some(), &true);
    are_stops(trial, &files, Which::Log, 20)?;
    are_stops(trial, &files, Which::Db, 20)
}

#[test]
fn a_stop_as_tables_are_moved_leaves_either_version(rt: HostRuntime) -> Result<(), Fail> {
    Ok(twice!(rt, moves)?)
}

/// Expects the tables of all that happened.
fn are_all<K: Keeper>(trial: &Trial<'_>, keeper: &mut K) -> Result<(), OfficeError> {
    let tables = text_of(trial.alloc(), keeper, KEYS)?;
    let expected = tables_after(trial.alloc(), HAPPENINGS.len())?;
    trial.told(&"tables", &tables, &expected);
    Ok(())
}

/// Tables of today, of which some slot is voided and some point swapped, aren't moved.
fn stay_over<S: Alter + Drop>(trial: &Trial<'_>, keeper: SqlKeeper<S>) -> Result<(), OfficeError> {
    let office = office_after(trial.alloc(), keeper, HAPPENINGS)?;
    let mut connection = office.into_keeper().into_connection();
    trial.told(&"today's", &moved(&mut connection)?, &Ok(Migrated::Already));
    let mut keeper = opened(connection).map_err(|(error, _connection)| error)?;
    are_all(trial, &mut keeper)
}

fn stay(trial: &Trial<'_>) -> Result<(), OfficeError> {
    stay_over(trial, stored(trial.alloc())?)
}

#[test]
fn tables_of_today_stay(rt: HostRuntime) -> Result<(), Fail> {
    Ok(twice!(rt, stay)?)
}
