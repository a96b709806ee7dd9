//! Keepers over databases, for tests of offices.
#![tactic(auto)]

use office_core::OfficeError;
use office_plays::builders::MEMORY;
use office_store::{SqlKeeper, StoreError, create};
use poll_book::StoreFault;
use sqlite::{Alter, Connection, MemStore};
use std::alloc::Global;

pub fn refusal(error: StoreError) -> OfficeError {
    match error {
        StoreError::Store(fault) => OfficeError::Store(fault),
        StoreError::BadVersion | StoreError::NotOffice => OfficeError::Store(StoreFault::Other),
    }
}

/// A database in memory without any table.
pub fn empty(alloc: Global) -> Result<Connection<MemStore>, OfficeError> {
    Connection::open_in_memory(alloc).map_err(|_| MEMORY)
}

/// Makes the tables of an office.
pub fn made<S: Alter>(connection: &mut Connection<S>) -> Result<(), StoreError> {
    if !connection.is_autocommit() {
        return Err(StoreError::Store(StoreFault::Other));
    }
    create(connection)
}

/// A keeper of new tables; else the connection, and why.
pub fn begin<S: Alter>(
    mut connection: Connection<S>,
) -> Result<SqlKeeper<S>, (OfficeError, Connection<S>)> {
    if let Err(error) = made(&mut connection) {
        return Err((refusal(error), connection));
    }
    opened(connection)
}

/// The keeper of the tables; else the connection, and why.
pub fn opened<S: Alter>(
    connection: Connection<S>,
) -> Result<SqlKeeper<S>, (OfficeError, Connection<S>)> {
    match SqlKeeper::open(connection) {
        Ok(keeper) => Ok(keeper),
        Err((error, connection)) => Err((refusal(error), connection)),
    }
}

/// The keeper of tables, which are made first where they are new.
pub fn kept<S: Alter>(
    connection: Connection<S>,
    is_new: bool,
) -> Result<SqlKeeper<S>, (OfficeError, Connection<S>)> {
    if is_new {
        begin(connection)
    } else {
        opened(connection)
    }
}

/// A keeper of new tables in memory.
pub fn stored(alloc: Global) -> Result<SqlKeeper<MemStore>, OfficeError> {
    begin(empty(alloc)?).map_err(|(error, _)| error)
}
