//! Which databases are an office's, and which sites an office is opened with.
use crate::migrating::moved;
use office_core::OfficeError;
use office_plays::builders::{BARE, MEMORY, begun, event_of, office_over};
use office_plays::steps::Happens::{self, Load};
use office_plays::steps::{opened as opened_line, take};
use office_plays::tables::text_of;
use office_store::{SqlKeeper, StoreError};
use poll_book::{Keeper, StoreFault};
use sqlite::{Alter, Connection, Error, ErrorCode};
use std::alloc::Global;
use std::test::Fail;
use store_plays::{empty, made, opened, stored};
use telling::{Trial, twice};

const OTHER_TABLES: &[&str] = &[
    "CREATE TABLE note(id INTEGER PRIMARY KEY, title TEXT NOT NULL) STRICT",
    "INSERT INTO note(title) VALUES ('milk')",
];

const META: &str =
    "CREATE TABLE meta(name TEXT NOT NULL PRIMARY KEY, value INTEGER NOT NULL) STRICT";

const NO_VERSION: &[&str] = &[
    META,
    "INSERT INTO meta(name, value) VALUES ('connections', 0)",
];

const VERSION_7: &[&str] = &[META, "INSERT INTO meta(name, value) VALUES ('version', 7)"];

const NO_NUMBER: &[&str] = &[
    "CREATE TABLE meta(name TEXT NOT NULL PRIMARY KEY, value TEXT NOT NULL) STRICT",
    "INSERT INTO meta(name, value) VALUES ('version', '1')",
];

const CHANGED: &[&str] = &["UPDATE meta SET value = 7 WHERE name = 'version'"];

/// Whether an office's tables are made, what is done then, and why the database isn't opened.
const OTHERS: &[(bool, &[&str], StoreError)] = &[
    (false, &[], StoreError::NotOffice),
    (false, OTHER_TABLES, StoreError::NotOffice),
    (false, NO_VERSION, StoreError::NotOffice),
    (false, VERSION_7, StoreError::BadVersion),
    (false, NO_NUMBER, StoreError::BadVersion),
    (true, CHANGED, StoreError::BadVersion),
];

/// Runs statements with `;` between them.
pub(crate) fn run<S: Alter>(connection: &mut Connection<S>, sql: &str) -> Result<(), OfficeError> {
    match connection.execute_batch(sql) {
        Ok(()) => Ok(()),
        Err(Error::SqliteFailure(ErrorCode::OutOfMemory)) => Err(MEMORY),
        Err(_) => Err(OfficeError::Store(StoreFault::Other)),
    }
}

/// It isn't opened for this reason, and is given back.
fn refused<S: Alter + Drop>(
    trial: &Trial<'_>,
    connection: Connection<S>,
    expected: StoreError,
) -> Result<Connection<S>, OfficeError> {
    match SqlKeeper::open(connection) {
        Ok(_) => Err(OfficeError::NoRead),
        Err((StoreError::Store(StoreFault::Memory), _)) => Err(MEMORY),
        Err((told, connection)) => {
            trial.told(&"refused", &told, &expected);
            Ok(connection)
        }
    }
}

/// It isn't moved to another version either, for the same reason.
fn is_unmoved<S: Alter>(
    trial: &Trial<'_>,
    connection: &mut Connection<S>,
    expected: StoreError,
) -> Result<(), OfficeError> {
    trial.told(&"unmoved", &moved(connection)?, &Err(expected));
    Ok(())
}

/// Makes the tables of an office in an empty database, or doesn't, and runs these statements behind that.
fn prepare<S: Alter>(
    connection: &mut Connection<S>,
    is_made: bool,
    statements: &[&str],
) -> Result<(), OfficeError> {
    if is_made && made(connection).is_err() {
        return Err(MEMORY);
    }
    for sql in statements {
        run(connection, sql)?;
    }
    Ok(())
}

/// It isn't opened for this reason, as often as it is tried, nor moved.
fn stays_refused<S: Alter + Drop>(
    trial: &Trial<'_>,
    connection: Connection<S>,
    expected: StoreError,
) -> Result<(), OfficeError> {
    let mut connection = refused(trial, connection, expected)?;
    is_unmoved(trial, &mut connection, expected)?;
    refused(trial, connection, expected)?;
    Ok(())
}

fn are_refused<S: Alter + Drop>(
    trial: &Trial<'_>,
    mut connection: Connection<S>,
    (is_made, statements, expected): (bool, &[&str], StoreError),
) -> Result<(), OfficeError> {
    prepare(&mut connection, is_made, statements)?;
    stays_refused(trial, connection, expected)
}

fn others(trial: &Trial<'_>) -> Result<(), OfficeError> {
    for other in OTHERS {
        are_refused(trial, empty(trial.alloc())?, *other)?;
    }
    Ok(())
}

#[test]
fn databases_of_no_office_or_another_version_are_refused(rt: HostRuntime) -> Result<(), Fail> {
    Ok(twice!(rt, others)?)
}

/// The keeper of the same tables, opened anew.
fn again<S: Alter + Drop>(keeper: SqlKeeper<S>) -> Result<SqlKeeper<S>, OfficeError> {
    opened(keeper.into_connection()).map_err(|(error, _)| error)
}

const FIRST: Happens = Load("l1", "a,m1,holding,107,uint16,,,counter,\n");

/// A keeper that knows a point of the first device.
fn used_keeper<K: Keeper + Drop>(alloc: Global, keeper: K) -> Result<K, OfficeError> {
    let mut office = office_over(alloc, keeper)?;
    take(&mut office, &event_of(alloc, &FIRST)?)?;
    opened_line(&mut office, "roof")?;
    Ok(office.into_keeper())
}

/// The keeper that an office of a site without the first device gives back.
fn given_back<K: Keeper + Drop>(alloc: Global, keeper: K) -> Result<K, OfficeError> {
    match begun(alloc, keeper, BARE)? {
        Ok(_) => Err(OfficeError::NoRead),
        Err((OfficeError::SiteDiffers, keeper)) => Ok(keeper),
        Err((error, _)) => Err(error),
    }
}

fn is_given_back<K: Keeper + Drop>(trial: &Trial<'_>, mut keeper: K) -> Result<(), OfficeError> {
    let before = text_of(trial.alloc(), &mut keeper, &["l1"])?;
    let mut keeper = given_back(trial.alloc(), keeper)?;
    let tables = text_of(trial.alloc(), &mut keeper, &["l1"])?;
    trial.told(&"tables", &tables, &before);
    let mut office = office_over(trial.alloc(), keeper)?;
    trial.told(&"number", &opened_line(&mut office, "roof")?, &2);
    Ok(())
}

fn gives_back_over<S: Alter + Drop>(
    trial: &Trial<'_>,
    keeper: SqlKeeper<S>,
) -> Result<(), OfficeError> {
    let keeper = used_keeper(trial.alloc(), keeper)?;
    is_given_back(trial, again(keeper)?)
}

fn gives_back(trial: &Trial<'_>) -> Result<(), OfficeError> {
    gives_back_over(trial, stored(trial.alloc())?)
}

#[test]
fn a_site_without_a_stored_device_gives_the_keeper_back(rt: HostRuntime) -> Result<(), Fail> {
    Ok(twice!(rt, gives_back)?)
}
