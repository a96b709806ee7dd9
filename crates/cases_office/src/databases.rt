//! Stores that are databases, in files in memory, which are kept from one command to the next. Only opening one names
//! where it lies: a proof that carries its files is a dear one.
ghost use Rattle.std.specs.Prelude.{IfOk, IsTrue};
ghost use Rattle.point_list.specs.Sites.{IsSound};
ghost use Rattle.sqlite_disk.specs.Memory.{memory_is_usable};

use crate::world::World;
use office_commands::{Failure, Migration, Task};
use office_files::{begins_as_database, file_failure, migrate_over, work_over};
use point_list::Site;
use sqlite::{Alter, Connection, Error, FileStore, Files, Options};
use sqlite_disk::{Disk, Memory};
use std::alloc::{AllocError, Global};

/// So few pages that they stay in memory, and a log that isn't copied into the file.
const OPTIONS: Options = Options {
    cache_pages: 64,
    spill_pages: 64,
    checkpoint_frames: 1_000,
    seed: 7,
};

/// A file of these bytes, which a crash leaves.
pub(crate) fn file_of(alloc: Global, bytes: &[u8]) -> Result<Memory, AllocError>
    ensures { IfOk result (λ file. IsTrue (memory_is_usable file)) }
{
    let mut file = Memory::new(alloc);
    if !bytes.is_empty() && file.write_at(0, bytes).is_err() {
        return Err(AllocError);
    }
    match file.sync() {
        Ok(()) => Ok(file),
        Err(_) => Err(AllocError),
    }
}

/// A store's files aren't opened as a database.
fn failure_of(alloc: Global, error: &Error, store: &str, files: &Files<Memory>) -> Failure {
    file_failure(alloc, error, begins_as_database(files.db.bytes()), store)
}

/// The database in copies of a store's files.
pub(crate) fn connected(
    alloc: Global,
    store: &str,
    files: &Files<Memory>,
) -> Result<Connection<FileStore<Memory>>, Failure> {
    let log = file_of(alloc, files.log.bytes())?;
    let db = file_of(alloc, files.db.bytes())?;
    match Connection::open_files(alloc, Files { log, db }, OPTIONS) {
        Ok(connection) => Ok(connection),
        Err((error, _left)) => Err(failure_of(alloc, &error, store, files)),
    }
}

/// Does a task in the office of a connection's tables, and gives the store back.
pub(crate) fn worked_in<S: Alter + Drop>(
    world: &mut World<'_>,
    connection: Connection<S>,
    site: Site,
    task: &Task<'_>,
) -> (Result<(), Failure>, S)
    requires { IsSound site }
{
    let (done, connection) = work_over(world, connection, site, task);
    (done, connection.into_store())
}

/// Moves a connection's tables to today's version, and gives the store back.
pub(crate) fn moved<S: Alter + Drop>(
    mut connection: Connection<S>,
) -> (Result<Migration, Failure>, S) {
    let done = migrate_over(&mut connection);
    (done, connection.into_store())
}
