//! The store's file of an office: what `office_files` works in is opened and closed here. Only what opens names the
//! file's type: a proof that carries it over a way out is a dear one.
ghost use Rattle.point_list.specs.Sites.{IsSound};

use crate::machine::Machine;
use office_commands::{Failure, Fault, Migration, Task, Why};
use office_files::{
    begins_as_database, busy, file_failure, is_busy, migrate_over, pause, tries, work_over,
};
use point_list::Site;
use sqlite::{Connection, Error, File, FileStore};
use sqlite_disk::Disk;
use std::io::Read;
use std::{fs, thread};

/// Whether a file begins as each database of SQLite does.
fn is_database(rt: &HostRuntime, path: &str) -> bool {
    let mut head = [0u8; 16];
    match fs::File::open(rt, path) {
        Ok(mut file) => file.read_exact(&mut head).is_ok() && begins_as_database(&head),
        Err(_) => false,
    }
}

/// A file wasn't opened as a database, or couldn't be written to its end.
fn failure_of(rt: &HostRuntime, error: &Error, path: &str) -> Failure {
    file_failure(rt.alloc(), error, is_database(rt, path), path)
}

/// Opens a file, for which it waits so many seconds while another process has it open.
fn open(
    rt: &HostRuntime,
    path: &str,
    seconds: u16,
) -> Result<Connection<FileStore<File>>, Failure> {
    for _ in 0..tries(seconds) {
        match Connection::open(rt, path) {
            Err(error) if is_busy(&error) => {
                thread::sleep(rt, pause());
            }
            Err(error) => return Err(failure_of(rt, &error, path)),
            Ok(connection) => return Ok(connection),
        }
    }
    Err(busy())
}

/// Closes a store. What was written stands in its one file then: the log beside it is taken in.
fn close<D: Disk + Drop>(
    rt: &HostRuntime,
    connection: Connection<FileStore<D>>,
    path: &str,
) -> Result<(), Failure> {
    match connection.close() {
        Ok(()) => Ok(()),
        Err(error) => Err(failure_of(rt, &error, path)),
    }
}

/// Does a task in the office of a store's tables, and closes the store where that ended well.
fn work_in<D: Disk + Drop>(
    machine: &mut Machine<'_>,
    connection: Connection<FileStore<D>>,
    site: Site,
    task: &Task<'_>,
    path: &str,
) -> Result<(), Failure>
    requires { IsSound site }
{
    let (done, connection) = work_over(machine, connection, site, task);
    done?;
    close(machine.0, connection, path)
}

/// Does a task in the office of a store's file.
pub(crate) fn work_on(
    machine: &mut Machine<'_>,
    path: &str,
    site: Site,
    task: &Task<'_>,
) -> Result<(), Failure>
    requires { IsSound site }
{
    let connection = open(machine.0, path, task.timeout)?;
    work_in(machine, connection, site, task, path)
}

/// Moves a store's tables to today's version, and closes the store where that ended well.
fn migrate_in<D: Disk + Drop>(
    rt: &HostRuntime,
    mut connection: Connection<FileStore<D>>,
    path: &str,
) -> Result<Migration, Failure> {
    let done = migrate_over(&mut connection)?;
    close(rt, connection, path)?;
    Ok(done)
}

/// Moves the tables of a store's file, which must be there, to today's version.
pub(crate) fn migrate_on(rt: &HostRuntime, path: &str, seconds: u16) -> Result<Migration, Failure> {
    if let Err(error) = fs::File::open(rt, path) {
        return Err(Failure::new(Fault::File, Why::System(error)).of(rt.alloc(), path));
    }
    let connection = open(rt, path, seconds)?;
    migrate_in(rt, connection, path)
}
