//! Work in the tables of a database, and moving them to today's version.
ghost use Rattle.point_list.specs.Sites.{IsSound};

use office_commands::{Failure, Fault, Host, Migration, Task, work_in};
use office_core::Office;
use office_store::{Migrated, SqlKeeper, StoreError, create, is_blank, migrate};
use point_list::Site;
use poll_book::{Keeper, StoreFault};
use sqlite::{Alter, Connection};
use std::alloc::Global;

fn fault_of(error: StoreError) -> Fault {
    match error {
        StoreError::Store(fault) => Fault::Store(fault),
        StoreError::BadVersion => Fault::BadVersion,
        StoreError::NotOffice => Fault::NotOffice,
    }
}

/// Makes an office's tables where the database has no table at all: it is new, or making them was stopped.
fn make_over<S: Alter>(connection: &mut Connection<S>) -> Result<(), Fault> {
    if connection.is_autocommit() && is_blank(connection).map_err(fault_of)? {
        create(connection).map_err(fault_of)?;
    }
    Ok(())
}

fn office_over<K: Keeper + Drop>(
    alloc: Global,
    keeper: K,
    site: Site,
) -> Result<Office<K>, (Fault, K)>
    requires { IsSound site }
{
    Office::new(alloc, keeper, site).map_err(|(error, keeper)| (Fault::from(error), keeper))
}

/// Does a task in the office over a keeper, and gives the keeper back.
pub fn work_with<H: Host, K: Keeper + Drop>(
    host: &mut H,
    keeper: K,
    site: Site,
    task: &Task<'_>,
) -> (Result<(), Failure>, K)
    requires { IsSound site }
{
    match office_over(host.alloc(), keeper, site) {
        Ok(mut office) => {
            let done = work_in(host, &mut office, task);
            (done, office.into_keeper())
        }
        Err((fault, keeper)) => (Err(Failure::from(fault)), keeper),
    }
}

/// Does a task in the office of a connection's tables, which are made first where the database has none, and gives the
/// connection back. A database that has anything in it but an office is never written over.
pub fn work_over<H: Host, S: Alter + Drop>(
    host: &mut H,
    mut connection: Connection<S>,
    site: Site,
    task: &Task<'_>,
) -> (Result<(), Failure>, Connection<S>)
    requires { IsSound site }
{
    if let Err(fault) = make_over(&mut connection) {
        return (Err(Failure::from(fault)), connection);
    }
    match SqlKeeper::open(connection) {
        Ok(keeper) => {
            let (done, keeper) = work_with(host, keeper, site, task);
            (done, keeper.into_connection())
        }
        Err((error, connection)) => (Err(Failure::from(fault_of(error))), connection),
    }
}

/// Moves a connection's tables to today's version, whole or not at all.
pub fn migrate_over<S: Alter>(connection: &mut Connection<S>) -> Result<Migration, Failure> {
    if !connection.is_autocommit() {
        return Err(Failure::from(Fault::Store(StoreFault::Other)));
    }
    match migrate(connection) {
        Ok(Migrated::Done) => Ok(Migration::Done),
        Ok(Migrated::Already) => Ok(Migration::Already),
        Err(error) => Err(Failure::from(fault_of(error))),
    }
}
