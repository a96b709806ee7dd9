//! Why a report isn't written.
use office_core::OfficeError;
use poll_book::StoreFault;
use std::alloc::AllocError;
use thiserror::Error;

/// Why a report wasn't written.
#[derive(Clone, Copy, Debug, PartialEq, Eq, Error)]
pub enum ReportFault {
    /// The writer failed. A beginning of the report may have been written.
    #[error("the report couldn't be written")]
    Write,
    /// The store refused. Nothing was written.
    #[error("the store refused: {0}")]
    Store(StoreFault),
    /// Memory was refused to the report. Nothing was written.
    #[error("memory was refused")]
    Memory,
}

impl From<AllocError> for ReportFault {
    ghost use Rattle.std.specs.Prelude.{◌≡◌};
    ghost use Rattle.office_report.specs.declared.fault.ReportFault.TheVariants.{Memory};

    ghost from_gives = { λ _ fault. fault ≡ Memory };

    fn from(_: AllocError) -> ReportFault {
        ReportFault::Memory
    }
}

impl From<OfficeError> for ReportFault {
    ghost use Rattle.std.specs.Prelude.{◌≡◌};
    ghost use Rattle.office_report.specs.Faults.{fault_by};

    ghost from_gives = { λ error fault. fault ≡ fault_by error };

    fn from(error: OfficeError) -> ReportFault {
        match error {
            OfficeError::Store(fault) => ReportFault::Store(fault),
            _ => ReportFault::Store(StoreFault::Other),
        }
    }
}
