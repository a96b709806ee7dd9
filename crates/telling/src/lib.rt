//! What a test expects, and what it is told in its place; readers and writers that fail.
#![tactic(auto)]

mod streams;
mod trial;

pub use streams::{Incoming, Outgoing};
pub use trial::{Ended, Trial};

/// Runs a test's function over a new trial, and once more where the first run was refused, as by memory that
/// `rt try --test --fail-alloc` refuses once. What was told otherwise in either run fails the test.
#[macro_export]
macro_rules! twice {
    ($rt:expr, $run:path) => {{
        let trial = $crate::Trial::new(&$rt);
        let done = match $run(&trial) {
            Ok(()) => Ok(()),
            Err(_) => $run(&trial),
        };
        trial.ended(done)
    }};
}
