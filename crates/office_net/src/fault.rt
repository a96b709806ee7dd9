//! Why a round breaks off.
ghost use Rattle.std.specs.Prelude.{◌≡◌, true};
ghost use Rattle.office_core.specs.Errors.{is_of_store};
ghost use Rattle.office_core.specs.Standing as standing;
ghost use Rattle.office_core.specs.declared.event.EventAnswer.TheVariants.{Refused};
ghost use Rattle.office_net.specs.Reported.{store_fault};

use mb_mbap::FrameFault;
use office_core::OfficeError;
use office_report::ReportFault;
use poll_book::StoreFault;
use std::alloc::AllocError;
use thiserror::Error;

/// Why a round broke off. What was recorded before stays.
#[derive(Clone, Copy, Debug, PartialEq, Eq, Error)]
pub enum PollFault {
    /// The reader or the writer failed, or the reader ended.
    #[error("the line failed")]
    Line,
    /// 16,777,216 bytes were read.
    #[error("too much was read")]
    Noise,
    /// No frame can follow in the stream that was read.
    #[error("no frame can follow: {0}")]
    Frames(FrameFault),
    /// The store refused.
    #[error("the store refused: {0}")]
    Store(StoreFault),
    /// Memory was refused.
    #[error("memory was refused")]
    Memory,
    /// The connection isn't open, or has no query number left.
    #[error("the connection is closed")]
    Closed,
}

impl From<AllocError> for PollFault {
    ghost use Rattle.office_net.specs.declared.fault.PollFault.TheVariants.{Memory};

    ghost from_gives = { λ _ fault. fault ≡ Memory };

    fn from(_: AllocError) -> PollFault {
        PollFault::Memory
    }
}

impl From<OfficeError> for PollFault {
    ghost use Rattle.office_net.specs.Faults.{fault_by};

    ghost from_gives = { λ error fault. fault ≡ fault_by error };

    fn from(error: OfficeError) -> PollFault {
        match error {
            OfficeError::Store(fault) => PollFault::Store(fault),
            _ => PollFault::Closed,
        }
    }
}

/// Whether the store refused.
pub(crate) fn is_store(error: &OfficeError) -> bool
    ensures { result ≡ standing.is_store (Refused error.now) }
{
    match error {
        OfficeError::Store(_) => true,
        _ => false,
    }
}

/// Why the store refused.
pub(crate) fn fault_of(error: OfficeError) -> StoreFault
    ensures { is_of_store error ≡ true → error ≡ OfficeError.Store result }
{
    match error {
        OfficeError::Store(fault) => fault,
        _ => StoreFault::Other,
    }
}

/// Why the store or memory refused a report that isn't written to a writer.
pub(crate) fn report_fault(fault: ReportFault) -> StoreFault
    ensures { result ≡ store_fault fault }
{
    match fault {
        ReportFault::Store(fault) => fault,
        ReportFault::Memory => StoreFault::Memory,
        ReportFault::Write => StoreFault::Other,
    }
}
