//! A test under way.
use std::alloc::Global;
use std::cell::Cell;
use std::fmt::Debug;

/// A test under way. It prints each difference on standard error, and goes on. It can't be dropped, so that
/// a test can't forget to ask how it ended.
pub struct Trial<'a> {
    rt: &'a HostRuntime,
    differs: Cell<bool>,
}

/// How a test ended that didn't end well.
#[derive(Debug, Drop)]
pub enum Ended<E> {
    /// Something was told otherwise than expected.
    Differs,
    /// The test was refused both times.
    Refused(E),
}

impl<'a> Trial<'a> {
    pub fn new(rt: &'a HostRuntime) -> Trial<'a> {
        Trial {
            rt,
            differs: Cell::new(false),
        }
    }

    pub fn alloc(&self) -> Global {
        self.rt.alloc()
    }

    /// The runtime, for tests that read a clock or open sockets.
    pub fn runtime(&self) -> &'a HostRuntime {
        self.rt
    }

    /// Expects that a case was told so.
    pub fn told<C: Debug, T: PartialEq + Debug>(&self, case: &C, told: &T, expected: &T) {
        if told != expected {
            self.differs.set(true);
            // Where standard error can't be written, the test fails without a text.
            let _ = eprintln!(self.rt; "{case:?}: {told:?}, not {expected:?}");
        }
    }

    /// Whether the test ended well: it was refused in neither run or only in the first, and was told all as
    /// expected.
    pub fn ended<E: Drop>(self, done: Result<(), E>) -> Result<(), Ended<E>> {
        let Trial { rt: _, differs } = self;
        match done {
            _ if differs.get() => Err(Ended::Differs),
            Ok(()) => Ok(()),
            Err(error) => Err(Ended::Refused(error)),
        }
    }
}
