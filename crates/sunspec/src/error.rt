//! Why registers, texts and chains are refused.
ghost use Rattle.std.specs.Prelude.{◌≡◌};
ghost use Rattle.sunspec.specs.declared.error.SunError.TheVariants.{Memory, SourceFault as Failed};

use crate::source::SourceFault;
use std::alloc::{AllocError, AllocFailed};
use thiserror::Error;

/// Why there are no registers, no text or no chain of models.
#[derive(Clone, Copy, Debug, PartialEq, Eq, Error)]
pub enum SunError {
    /// No registers of the type have the number as their value.
    #[error("out of range")]
    OutOfRange,
    /// The scale is outside -10 to 10.
    #[error("bad scale")]
    BadScale,
    #[error("out of memory")]
    Memory,
    /// None of the bases 40000, 50000 and 0 has the marker `SunS`.
    #[error("no marker")]
    NoMarker,
    /// The source failed.
    #[error("the source failed")]
    SourceFault,
    /// A register of the chain or of a value isn't there, or a model passes the last address.
    #[error("past the end")]
    PastEnd,
    /// More than 256 models stand before the end.
    #[error("too many models")]
    TooManyModels,
}

impl From<AllocError> for SunError {
    ghost from_gives = { λ _ e. e ≡ Memory };

    fn from(_: AllocError) -> SunError {
        SunError::Memory
    }
}

impl<T: Drop> From<AllocFailed<T>> for SunError {
    ghost from_gives = { λ _ e. e ≡ Memory };

    fn from(_: AllocFailed<T>) -> SunError {
        SunError::Memory
    }
}

impl From<SourceFault> for SunError {
    ghost from_gives = { λ _ e. e ≡ Failed };

    fn from(_: SourceFault) -> SunError {
        SunError::SourceFault
    }
}
