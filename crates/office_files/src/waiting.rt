//! How a store is waited for that another process has.
use office_commands::{Failure, Fault};
use poll_book::StoreFault;
use sqlite::{Error, ErrorCode};
use std::time::Duration;

/// It is asked for again so many times a second.
const TRIES: u32 = 20;

/// How often it is asked for in so many seconds.
pub fn tries(seconds: u16) -> u32 {
    u32::from(seconds) * TRIES
}

/// How long nothing is done between two tries.
pub fn pause() -> Duration {
    Duration::from_millis(1000 / u64::from(TRIES))
}

/// Whether a store isn't opened since another process has it.
pub fn is_busy(error: &Error) -> bool {
    matches!(error, Error::SqliteFailure(ErrorCode::DatabaseBusy))
}

/// All tries found it busy.
pub fn busy() -> Failure {
    Failure::from(Fault::Store(StoreFault::Other))
}
