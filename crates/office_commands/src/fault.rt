//! What ends a command, as standard error tells it.
ghost use Rattle.std.specs.Prelude.{◌≡◌};
ghost use Rattle.office_commands.specs.Conversions.{of_list, of_map, of_office, of_poll, of_replay, of_report, of_sun};
ghost use Rattle.office_commands.specs.declared.fault.Fault.TheVariants.{Memory};

use crate::Why;
use mb_map::MapError;
use office_core::OfficeError;
use office_net::PollFault;
use office_report::ReportFault;
use office_script::ReplayFault;
use point_list::{ListError, ListFault};
use poll_book::StoreFault;
use std::alloc::AllocError;
use std::error::Error;
use std::fmt;
use sunspec::SunError;

/// A fault that ends a command.
#[derive(Clone, Copy, Debug, PartialEq, Eq)]
pub enum Fault {
    /// The words are no command.
    Command,
    /// The site file isn't one.
    BadSite,
    /// A point list isn't one.
    BadList,
    /// No point, device or line of this name is known.
    Unknown,
    /// A line isn't a frame in hexadecimal digits.
    FrameLine,
    /// A file, or standard input or output, couldn't be read or written.
    File,
    /// A connection couldn't be made, failed, was silent for too long, or ended early.
    Line,
    /// 16,777,216 bytes came.
    Noise,
    /// What came over a connection is no frame.
    Frames,
    /// A device has the SunSpec marker at none of the bases.
    NoMarker,
    /// A register of a device's chain of models isn't there.
    PastEnd,
    /// A device's chain has more than 256 models.
    TooManyModels,
    /// Memory was refused.
    Memory,
    /// The store refused.
    Store(StoreFault),
    /// The version of the store's tables isn't known.
    BadVersion,
    /// The file is no office's store.
    NotOffice,
    /// A point of the store is of a device that isn't in the site.
    SiteDiffers,
}

impl Fault {
    ghost use Rattle.office_commands.specs.Faults.{status_of};

    /// The program's status: 2 for what was written wrong, 1 for what failed.
    pub fn status(&self) -> u8
        ensures { result ≡ status_of self.now }
    {
        match self {
            Fault::Command | Fault::BadSite | Fault::BadList | Fault::Unknown | Fault::FrameLine =>
                { 2 }
            _ => 1,
        }
    }

    /// What a fault of a store comes from, in words.
    pub(crate) fn reason(&self) -> Why {
        match self {
            Fault::Store(StoreFault::Full) => Why::Words("no room is left"),
            Fault::Store(StoreFault::Disk) => Why::Words(
                "it can't be read or written, or is damaged",
            ),
            Fault::Store(StoreFault::Other) => {
                Why::Words("another process has it open, or it holds what no office wrote")
            }
            Fault::BadVersion => Why::Words(
                "its tables are of another version; 'office migrate' moves those of version 1",
            ),
            Fault::NotOffice => Why::Words("it is no office's store"),
            Fault::SiteDiffers => Why::Words("a point of it is of a device that the site lacks"),
            _ => Why::Unsaid,
        }
    }
}

impl fmt::Display for Fault {
    ghost use Rattle.std.specs.Prelude.{Some};
    ghost use Rattle.office_commands.specs.Faults.{told_text};

    ghost output = { λ fault. Some (told_text fault) };

    fn fmt<W: fmt::Write>(&self, f: &mut fmt::Formatter<W>) -> fmt::Result {
        match self {
            Fault::Command => f.write_str("command"),
            Fault::BadSite => f.write_str("bad site"),
            Fault::BadList => f.write_str("bad list"),
            Fault::Unknown => f.write_str("unknown"),
            Fault::FrameLine | Fault::Frames => f.write_str("frames"),
            Fault::File => f.write_str("file"),
            Fault::Line => f.write_str("line"),
            Fault::Noise => f.write_str("noise"),
            Fault::NoMarker => f.write_str("no marker"),
            Fault::PastEnd => f.write_str("past end"),
            Fault::TooManyModels => f.write_str("too many models"),
            Fault::Memory => f.write_str("memory"),
            Fault::Store(fault) => write!(f, "store {fault}"),
            Fault::BadVersion => f.write_str("bad version"),
            Fault::NotOffice => f.write_str("not an office"),
            Fault::SiteDiffers => f.write_str("site differs"),
        }
    }
}

impl Error for Fault {}

impl From<AllocError> for Fault {
    ghost from_gives = { λ _ fault. fault ≡ Memory };

    fn from(_: AllocError) -> Fault {
        Fault::Memory
    }
}

impl From<OfficeError> for Fault {
    ghost from_gives = { λ error told. told ≡ of_office error };

    /// Of a line or a device that the site lacks, of a connection, and of the store.
    fn from(error: OfficeError) -> Fault {
        match error {
            OfficeError::Store(fault) => Fault::Store(fault),
            OfficeError::SiteDiffers => Fault::SiteDiffers,
            OfficeError::WrongLine => Fault::Unknown,
            _ => Fault::Line,
        }
    }
}

impl From<PollFault> for Fault {
    ghost from_gives = { λ fault told. told ≡ of_poll fault };

    fn from(fault: PollFault) -> Fault {
        match fault {
            PollFault::Line | PollFault::Closed => Fault::Line,
            PollFault::Noise => Fault::Noise,
            PollFault::Frames(_) => Fault::Frames,
            PollFault::Store(fault) => Fault::Store(fault),
            PollFault::Memory => Fault::Memory,
        }
    }
}

impl From<ReportFault> for Fault {
    ghost from_gives = { λ fault told. told ≡ of_report fault };

    fn from(fault: ReportFault) -> Fault {
        match fault {
            ReportFault::Write => Fault::File,
            ReportFault::Store(fault) => Fault::Store(fault),
            ReportFault::Memory => Fault::Memory,
        }
    }
}

impl From<ReplayFault> for Fault {
    ghost from_gives = { λ fault told. told ≡ of_replay fault };

    fn from(fault: ReplayFault) -> Fault {
        match fault {
            ReplayFault::Read | ReplayFault::Write => Fault::File,
            ReplayFault::Memory => Fault::Memory,
        }
    }
}

impl From<ListError> for Fault {
    ghost from_gives = { λ error told. told ≡ of_list error.fault };

    /// Of a point list.
    fn from(error: ListError) -> Fault {
        match error.fault {
            ListFault::Memory => Fault::Memory,
            ListFault::BadSite => Fault::BadSite,
            _ => Fault::BadList,
        }
    }
}

impl From<SunError> for Fault {
    ghost from_gives = { λ error told. told ≡ of_sun error };

    /// Of a device's chain of models, which is never out of a range or a scale.
    fn from(error: SunError) -> Fault {
        match error {
            SunError::NoMarker => Fault::NoMarker,
            SunError::PastEnd => Fault::PastEnd,
            SunError::TooManyModels => Fault::TooManyModels,
            SunError::Memory => Fault::Memory,
            SunError::SourceFault | SunError::OutOfRange | SunError::BadScale => Fault::Line,
        }
    }
}

impl From<MapError> for Fault {
    ghost from_gives = { λ error told. told ≡ of_map error };

    /// Of a simulator's file, and of a simulator.
    fn from(error: MapError) -> Fault {
        match error {
            MapError::Memory => Fault::Memory,
            MapError::TooLarge | MapError::BadImage => Fault::File,
        }
    }
}
