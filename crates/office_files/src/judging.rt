//! What is told of a store's file that isn't opened, or isn't written to its end.
use office_commands::{Failure, Fault, Why};
use poll_book::StoreFault;
use sqlite::{Error, ErrorCode};
use std::alloc::Global;

/// How a database of SQLite begins (SQLite's database file format, section 1.2).
const HEADER: &[u8; 16] = b"SQLite format 3\0";

/// Whether these are the first bytes of a database, 16 of them at least.
pub fn begins_as_database(head: &[u8]) -> bool {
    head.starts_with(HEADER)
}

/// Why a file wasn't opened as a database, or couldn't be written to its end.
fn file_fault(error: &Error) -> Fault {
    match error {
        Error::SqliteFailure(ErrorCode::CannotOpen) => Fault::File,
        Error::SqliteFailure(ErrorCode::OutOfMemory) => Fault::Store(StoreFault::Memory),
        Error::SqliteFailure(ErrorCode::DiskFull) => Fault::Store(StoreFault::Full),
        Error::SqliteFailure(ErrorCode::NotADatabase) => Fault::NotOffice,
        Error::SqliteFailure(ErrorCode::SystemIoFailure | ErrorCode::DatabaseCorrupt) => {
            Fault::Store(StoreFault::Disk)
        }
        _ => Fault::Store(StoreFault::Other),
    }
}

/// The same with the file. One that begins as a database, and breaks its own rules, is a damaged store.
pub fn file_failure(alloc: Global, error: &Error, is_database: bool, path: &str) -> Failure {
    match file_fault(error) {
        Fault::File => Failure::unopened(alloc, path),
        Fault::NotOffice if is_database => {
            let why = Why::Words("its rows break the rules of its own tables");
            Failure::new(Fault::Store(StoreFault::Other), why).of(alloc, path)
        }
        fault => Failure::from(fault),
    }
}
