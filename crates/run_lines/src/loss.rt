//! Why a line's connection is lost, and why its round ends.
ghost use Rattle.std.specs.Prelude.{◌≡◌};
ghost use Rattle.run_lines.specs.Losses.{stop_of};
ghost use Rattle.run_lines.specs.declared.loss.Loss.TheVariants.{Memory};
ghost use Rattle.run_lines.specs.declared.loss.Stop.TheVariants.{Lost};

use crate::ahead::Ahead;
use mb_mbap::FrameFault;
use office_core::OfficeError;
use poll_book::StoreFault;
use std::alloc::AllocError;
use thiserror::Error;

/// Why a connection to a line is closed, or doesn't come to stand.
#[derive(Clone, Copy, Debug, PartialEq, Eq, Error)]
pub enum Loss {
    /// It was refused, or didn't stand in time.
    #[error("it can't be reached")]
    Unreached,
    /// The peer ended it, or it failed.
    #[error("the connection ended")]
    Ended,
    /// Nothing was answered in time.
    #[error("nothing was answered in time")]
    Silent,
    /// It took no bytes in time.
    #[error("it takes no bytes")]
    Stuck,
    /// Too much came that answers nothing.
    #[error("it sends what nobody asked for")]
    Noise,
    /// No frame can follow in what it sent.
    #[error("no frame can follow: {0}")]
    Frames(FrameFault),
    /// The office refused what a round asks.
    #[error("{0}")]
    Office(OfficeError),
    /// Memory was refused.
    #[error("memory was refused")]
    Memory,
}

/// Why something about a line doesn't go on.
#[derive(Clone, Copy, Debug, PartialEq, Eq)]
pub(crate) enum Stop {
    /// The connection is lost.
    Lost(Loss),
    /// The store refused. The connection stands.
    Refused(StoreFault),
    /// A counter is counted in a slot a day from now, or later: nothing can be polled before it is known why.
    Ahead(Ahead),
}

impl From<Loss> for Stop {
    ghost from_gives = { λ loss stop. stop ≡ Lost loss };

    fn from(loss: Loss) -> Stop {
        Stop::Lost(loss)
    }
}

impl From<AllocError> for Stop {
    ghost from_gives = { λ _ stop. stop ≡ Lost Memory };

    fn from(_: AllocError) -> Stop {
        Stop::Lost(Loss::Memory)
    }
}

impl From<OfficeError> for Stop {
    ghost from_gives = { λ error stop. stop ≡ stop_of error };

    fn from(error: OfficeError) -> Stop {
        match error {
            OfficeError::Store(fault) => Stop::Refused(fault),
            error => Stop::Lost(Loss::Office(error)),
        }
    }
}
