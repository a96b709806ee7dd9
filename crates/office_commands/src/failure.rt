//! A fault with what is known of its place.
ghost use Rattle.std.specs.Prelude.{◌≡◌};
ghost use Rattle.office_commands.specs.Conversions.{of_image, of_list, of_map, of_office, of_poll, of_replay, of_report, of_site, of_sun};
ghost use Rattle.office_commands.specs.declared.fault.Fault.TheVariants.{File, Memory};

use crate::Fault;
use mb_map::{ImageError, ImageFault, MapError};
use mb_mbap::FrameFault;
use office_core::OfficeError;
use office_net::PollFault;
use office_report::ReportFault;
use office_script::ReplayFault;
use point_list::{ListError, SiteError, SiteFault};
use std::alloc::{AllocError, Global};
use std::error::Error;
use std::fmt;
use std::io::{self, ErrorKind};
use sunspec::SunError;

/// Why a command failed, beside its fault.
#[derive(Clone, Copy, Debug)]
pub enum Why {
    /// Nothing more is known.
    Unsaid,
    /// What is wrong, in words.
    Words(&'static str),
    /// A record of a point list.
    List(ListError),
    /// A member of a site file.
    Site(SiteError),
    /// A member of a simulator's file.
    Image(ImageError),
    /// A line of a text, from 1 on, that is no frame.
    Line(u64),
    /// What came over a connection.
    Frames(FrameFault),
    /// The system's own words.
    System(io::Error),
}

/// A list's fault behind its place: `row 12 column 7: bad scale`.
fn write_list<W: fmt::Write>(f: &mut fmt::Formatter<W>, error: &ListError) -> fmt::Result {
    let ListError { fault, row, column } = error;
    match (*row, *column) {
        (0, _) => write!(f, "{fault}"),
        (row, 0) => write!(f, "row {row}: {fault}"),
        (row, column) => write!(f, "row {row} column {column}: {fault}"),
    }
}

impl fmt::Display for Why {
    fn fmt<W: fmt::Write>(&self, f: &mut fmt::Formatter<W>) -> fmt::Result {
        match self {
            Why::Unsaid => Ok(()),
            Why::Words(words) => f.write_str(words),
            Why::List(error) => write_list(f, error),
            Why::Site(error) => write!(f, "{error}"),
            Why::Image(error) => write!(f, "{error}"),
            Why::Line(number) => write!(f, "line {number} is no frame in hexadecimal digits"),
            Why::Frames(fault) => write!(f, "{fault}"),
            Why::System(error) => write!(f, "{error}"),
        }
    }
}

impl Why {
    fn is_said(&self) -> bool {
        !matches!(self, Why::Unsaid)
    }
}

/// What ends a command, and what more is known of it: a file, a name or an address, and what is wrong with it. As a
/// text it is the fault and, on a line of its own two spaces in, the rest.
#[derive(Debug, Drop)]
pub struct Failure {
    pub fault: Fault,
    /// The file, the name or the address; none where it isn't known, or where memory was refused to it.
    pub subject: Option<String>,
    pub why: Why,
}

impl Failure {
    /// A failure of nothing that has a name.
    pub fn new(fault: Fault, why: Why) -> Failure
        ensures { result.fault ≡ fault }
    {
        Failure {
            fault,
            subject: None,
            why,
        }
    }

    /// A connection, or a listener, failed by an error of the system. Where that is memory's, so is the fault.
    pub fn of_line(error: io::Error) -> Failure {
        match error.kind() {
            ErrorKind::OutOfMemory => Failure::from(Fault::Memory),
            _ => Failure::new(Fault::Line, Why::System(error)),
        }
    }

    /// A store's file can be neither opened nor made.
    pub fn unopened(alloc: Global, path: &str) -> Failure
        ensures { result.fault ≡ File }
    {
        Failure::new(Fault::File, Why::Words("it can be neither opened nor made")).of(alloc, path)
    }

    /// The same of a file, a name or an address, where it says why and not yet of which. Where memory is refused, that
    /// stays unsaid.
    pub fn of(self, alloc: Global, subject: &str) -> Failure
        ensures { result.fault ≡ self.fault }
    {
        if self.subject.is_some() || !self.why.is_said() {
            return self;
        }
        Failure {
            fault: self.fault,
            subject: String::from_str(alloc, subject).ok(),
            why: self.why,
        }
    }

    /// A fault of the store says why, where nothing more is known.
    pub fn explained(self) -> Failure
        ensures { result.fault ≡ self.fault }
    {
        if self.why.is_said() {
            return self;
        }
        Failure {
            why: self.fault.reason(),
            ..self
        }
    }
}

impl fmt::Display for Failure {
    fn fmt<W: fmt::Write>(&self, f: &mut fmt::Formatter<W>) -> fmt::Result {
        let Failure {
            fault,
            subject,
            why,
        } = self;
        write!(f, "{fault}")?;
        match subject {
            Some(subject) => write!(f, "\n  {subject}: {why}"),
            None if why.is_said() => write!(f, "\n  {why}"),
            None => Ok(()),
        }
    }
}

impl Error for Failure {}

impl From<Fault> for Failure {
    ghost from_gives = { λ fault told. told.fault ≡ fault };

    fn from(fault: Fault) -> Failure {
        Failure::new(fault, Why::Unsaid)
    }
}

impl From<Failure> for Fault {
    ghost from_gives = { λ failure told. told ≡ failure.fault };

    fn from(failure: Failure) -> Fault {
        failure.fault
    }
}

impl From<AllocError> for Failure {
    ghost from_gives = { λ _ told. told.fault ≡ Memory };

    fn from(error: AllocError) -> Failure {
        Failure::from(Fault::from(error))
    }
}

impl From<OfficeError> for Failure {
    ghost from_gives = { λ error told. told.fault ≡ of_office error };

    fn from(error: OfficeError) -> Failure {
        Failure::from(Fault::from(error))
    }
}

impl From<PollFault> for Failure {
    ghost from_gives = { λ fault told. told.fault ≡ of_poll fault };

    fn from(fault: PollFault) -> Failure {
        let why = match fault {
            PollFault::Line => Why::Words(
                "the connection failed or ended, or its answers took too long",
            ),
            PollFault::Noise => Why::Words("16,777,216 bytes came"),
            PollFault::Frames(fault) => Why::Frames(fault),
            PollFault::Closed => Why::Words("the connection has no query number left"),
            PollFault::Store(_) | PollFault::Memory => Why::Unsaid,
        };
        Failure::new(Fault::from(fault), why)
    }
}

impl From<ReportFault> for Failure {
    ghost from_gives = { λ fault told. told.fault ≡ of_report fault };

    fn from(fault: ReportFault) -> Failure {
        let why = match fault {
            ReportFault::Write => Why::Words("standard output can't be written"),
            ReportFault::Store(_) | ReportFault::Memory => Why::Unsaid,
        };
        Failure::new(Fault::from(fault), why)
    }
}

impl From<ReplayFault> for Failure {
    ghost from_gives = { λ fault told. told.fault ≡ of_replay fault };

    fn from(fault: ReplayFault) -> Failure {
        let why = match fault {
            ReplayFault::Read => Why::Words(
                "standard input can't be read, or has over 67,108,864 bytes",
            ),
            ReplayFault::Write => Why::Words("standard output can't be written"),
            ReplayFault::Memory => Why::Unsaid,
        };
        Failure::new(Fault::from(fault), why)
    }
}

impl From<ListError> for Failure {
    ghost from_gives = { λ error told. told.fault ≡ of_list error.fault };

    /// Of a point list.
    fn from(error: ListError) -> Failure {
        match Fault::from(error) {
            Fault::Memory => Failure::from(Fault::Memory),
            fault => Failure::new(fault, Why::List(error)),
        }
    }
}

impl From<SiteError> for Failure {
    ghost from_gives = { λ error told. told.fault ≡ of_site error.fault };

    fn from(error: SiteError) -> Failure {
        match error.fault {
            SiteFault::Memory => Failure::from(Fault::Memory),
            _ => Failure::new(Fault::BadSite, Why::Site(error)),
        }
    }
}

impl From<ImageError> for Failure {
    ghost from_gives = { λ error told. told.fault ≡ of_image error.fault };

    fn from(error: ImageError) -> Failure {
        match error.fault {
            ImageFault::Memory => Failure::from(Fault::Memory),
            _ => Failure::new(Fault::File, Why::Image(error)),
        }
    }
}

impl From<MapError> for Failure {
    ghost from_gives = { λ error told. told.fault ≡ of_map error };

    /// Of a simulator.
    fn from(error: MapError) -> Failure {
        Failure::from(Fault::from(error))
    }
}

impl From<SunError> for Failure {
    ghost from_gives = { λ error told. told.fault ≡ of_sun error };

    /// Of a device's chain of models.
    fn from(error: SunError) -> Failure {
        let why = match error {
            SunError::NoMarker => Why::Words("no SunSpec marker at 40000, 50000 or 0"),
            SunError::PastEnd => Why::Words("a register of its models isn't there"),
            SunError::TooManyModels => Why::Words("more than 256 models"),
            SunError::SourceFault => {
                Why::Words(
                    "the connection failed or ended, its answers took too long, one was an exception other than 2, or what came was no reply",
                )
            }
            SunError::Memory | SunError::OutOfRange | SunError::BadScale => Why::Unsaid,
        };
        Failure::new(Fault::from(error), why)
    }
}
