//! What an office refuses.
use poll_book::StoreFault;
use poll_match::MatchError;
use std::alloc::AllocError;
use thiserror::Error;

/// Why an office refuses.
#[derive(Clone, Copy, Debug, PartialEq, Eq, Error)]
pub enum OfficeError {
    /// The connection isn't open.
    #[error("no such connection")]
    NoConnection,
    /// The line isn't in the site, or the device isn't one of the connection's line.
    #[error("wrong line")]
    WrongLine,
    /// The read isn't valid, passes address 65,535, or holds no known point whole.
    #[error("no such read")]
    NoRead,
    /// No order has this number.
    #[error("no such order")]
    NoOrder,
    /// The order was settled before.
    #[error("the order was settled before")]
    Settled,
    /// An older order waits on the same device.
    #[error("an older order waits")]
    NotNext,
    /// No connection number or no query number is left.
    #[error("no number is left")]
    Exhausted,
    /// The device of a stored point isn't in the site.
    #[error("site differs")]
    SiteDiffers,
    /// No query of the connection has the frame's transaction.
    #[error("no query has this transaction identifier")]
    NoQuery,
    /// The frame's unit identifier isn't the query's.
    #[error("the unit identifier is not the query's")]
    WrongUnit,
    /// The query was answered before.
    #[error("the query was answered before")]
    Repeat,
    /// The unit is no reply to the query.
    #[error("no reply to the query")]
    WrongReply,
    /// The store refused, and nothing has changed.
    #[error("store {0}")]
    Store(StoreFault),
}

impl From<MatchError> for OfficeError {
    ghost use Rattle.std.specs.Prelude.{◌≡◌};
    ghost use Rattle.office_core.specs.Errors.{refused_by};

    ghost from_gives = { λ error refusal. refusal ≡ refused_by error };

    fn from(error: MatchError) -> OfficeError {
        match error {
            MatchError::NoConnection => OfficeError::NoConnection,
            MatchError::NoQuery => OfficeError::NoQuery,
            MatchError::WrongUnit => OfficeError::WrongUnit,
            MatchError::Repeat => OfficeError::Repeat,
            MatchError::WrongReply => OfficeError::WrongReply,
            MatchError::Exhausted => OfficeError::Exhausted,
            MatchError::Memory => OfficeError::Store(StoreFault::Memory),
        }
    }
}

impl From<StoreFault> for OfficeError {
    ghost use Rattle.std.specs.Prelude.{◌≡◌};
    ghost use Rattle.office_core.specs.Errors.{refused_store};

    ghost from_gives = { λ fault refusal. refusal ≡ refused_store fault };

    fn from(fault: StoreFault) -> OfficeError {
        OfficeError::Store(fault)
    }
}

impl From<AllocError> for OfficeError {
    ghost use Rattle.std.specs.Prelude.{◌≡◌};
    ghost use Rattle.office_core.specs.Errors.{no_memory};

    ghost from_gives = { λ _ refusal. refusal ≡ no_memory };

    fn from(_: AllocError) -> OfficeError {
        OfficeError::Store(StoreFault::Memory)
    }
}
