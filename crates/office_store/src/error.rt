//! Why a store isn't made or opened.
ghost use Rattle.std.specs.Prelude.{◌≡◌, Some};
ghost use Rattle.office_store.specs.Faults.{fault_of};

use poll_book::StoreFault;
use sqlite::{Error, ErrorCode};
use std::fmt;

/// Why a store isn't made or opened.
#[derive(Clone, Copy, Debug, PartialEq, Eq)]
pub enum StoreError {
    /// The database refused a call. The tables are as they were.
    Store(StoreFault),
    /// The version of the tables isn't one that is known.
    BadVersion,
    /// The database has no version of an office's tables.
    NotOffice,
}

impl fmt::Display for StoreError {
    ghost use Rattle.office_store.specs.Faults.{error_text};

    ghost output = { λ error. Some (error_text error) };

    fn fmt<W: fmt::Write>(&self, f: &mut fmt::Formatter<W>) -> fmt::Result {
        match self {
            StoreError::Store(fault) => fault.fmt(f),
            StoreError::BadVersion => f.write_str("bad version"),
            StoreError::NotOffice => f.write_str("not an office"),
        }
    }
}

impl std::error::Error for StoreError {}

/// What is told of an error of the database.
pub(crate) fn fault_of(error: Error) -> StoreFault
    ensures { result ≡ fault_of error }
{
    match error {
        Error::SqliteFailure(ErrorCode::OutOfMemory) => StoreFault::Memory,
        Error::SqliteFailure(ErrorCode::DiskFull | ErrorCode::TooBig) => StoreFault::Full,
        Error::SqliteFailure(
            ErrorCode::SystemIoFailure | ErrorCode::DatabaseCorrupt | ErrorCode::Closed,
        ) => StoreFault::Disk,
        _ => StoreFault::Other,
    }
}
