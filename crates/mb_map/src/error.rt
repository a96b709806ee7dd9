//! Why there is no mapping, simulator or answer.
ghost use Rattle.std.specs.Prelude.{◌≡◌};
ghost use Rattle.mb_map.specs.declared.error.MapError.TheVariants.{Memory};

use std::alloc::AllocError;
use thiserror::Error;

/// Why there is no mapping, simulator or answer.
#[derive(Clone, Copy, Debug, PartialEq, Eq, Error)]
pub enum MapError {
    /// A table would pass the address 65,535.
    #[error("a table passes the last address")]
    TooLarge,
    /// A growth was refused.
    #[error("out of memory")]
    Memory,
    /// The text is no simulator file.
    #[error("no simulator file")]
    BadImage,
}

impl From<AllocError> for MapError {
    ghost from_gives = { λ _ e. e ≡ Memory };

    fn from(_error: AllocError) -> MapError {
        MapError::Memory
    }
}
