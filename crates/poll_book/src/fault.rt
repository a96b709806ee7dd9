//! Why a keeper refuses a call.
ghost use Rattle.std.specs.Prelude.{◌≡◌};
ghost use Rattle.poll_book.specs.declared.fault.StoreFault.TheVariants.{Memory};

use std::alloc::{AllocError, AllocFailed};
use std::error::Error;
use std::fmt;

/// Why a keeper refused a call.
#[derive(Clone, Copy, Debug, PartialEq, Eq)]
pub enum StoreFault {
    /// Memory was refused.
    Memory,
    /// The store has no room left, or a row is too big for it.
    Full,
    /// A file couldn't be read or written.
    Disk,
    /// Any other cause, as a row that isn't in its form.
    Other,
}

impl fmt::Display for StoreFault {
    ghost use Rattle.std.specs.Prelude.{Some};
    ghost use Rattle.poll_book.specs.Fault.{fault_text};

    ghost output = { λ fault. Some (fault_text fault) };

    fn fmt<W: fmt::Write>(&self, f: &mut fmt::Formatter<W>) -> fmt::Result {
        f.write_str(match self {
            StoreFault::Memory => "memory",
            StoreFault::Full => "full",
            StoreFault::Disk => "disk",
            StoreFault::Other => "other",
        })
    }
}

impl Error for StoreFault {}

impl From<AllocError> for StoreFault {
    ghost from_gives = { λ _ fault. fault ≡ Memory };

    fn from(_: AllocError) -> StoreFault {
        StoreFault::Memory
    }
}

impl<T: Drop> From<AllocFailed<T>> for StoreFault {
    ghost from_gives = { λ _ fault. fault ≡ Memory };

    fn from(_: AllocFailed<T>) -> StoreFault {
        StoreFault::Memory
    }
}
