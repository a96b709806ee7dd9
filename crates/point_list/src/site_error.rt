//! Why a text is no site file, and where.
ghost use Rattle.std.specs.Prelude.{◌≡◌, ◌≢◌, ◌+◌, ◌<◌, ◌^◌, ◌↔◌, IsTrue};
ghost use Rattle.point_list.specs.declared.site_error.SiteFault.TheVariants.{Member, Memory};
ghost use Rattle.point_list.specs.SiteFile.{placed};
ghost use Rattle.point_list.specs.declared.site_error.SitePlace.TheVariants.{Device, Line, Whole};

use crate::site::{MOST_DEVICES, MOST_LINES};
use std::alloc::{AllocError, AllocFailed};
use std::fmt;
use sunspec::printable;
use thiserror::Error;
use toml_members::{MemberError, MemberFault};

const SHOWN: usize = 64;

/// The first 64 bytes of a text that an error tells. It prints in quotation marks, with `?` for each
/// byte that can't be printed, and `..` behind them where the text goes on.
#[derive(Clone, Copy, Debug, PartialEq, Eq)]
pub struct Quoted {
    bytes: [u8; SHOWN],
    len: usize,
}

impl Quoted {
    pub(crate) fn new(text: &[u8]) -> Quoted {
        let shown = text.len().min(SHOWN);
        let mut bytes = [0; SHOWN];
        bytes[..shown].copy_from_slice(&text[..shown]);
        Quoted {
            bytes,
            len: text.len(),
        }
    }
}

impl fmt::Display for Quoted {
    fn fmt<W: fmt::Write>(&self, f: &mut fmt::Formatter<W>) -> fmt::Result {
        f.write_char('"')?;
        for byte in &self.bytes[..self.len.min(SHOWN)] {
            f.write_char(char::from(printable(*byte)))?;
        }
        f.write_str(if self.len > SHOWN { "..\"" } else { "\"" })
    }
}

/// Where something is wrong: lines and devices have their numbers in the file, from 1.
#[derive(Clone, Copy, Debug, PartialEq, Eq)]
pub enum SitePlace {
    Whole,
    Line(usize),
    Device(usize),
}

impl SitePlace {
    /// The line at an index.
    pub(crate) fn line(index: usize) -> SitePlace
        requires { index + 1 < 2 ^ 64 }
        ensures { result ≡ Line (index + 1) }
    {
        SitePlace::Line(index + 1)
    }

    /// The device at an index.
    pub(crate) fn device(index: usize) -> SitePlace
        requires { index + 1 < 2 ^ 64 }
        ensures { result ≡ Device (index + 1) }
    {
        SitePlace::Device(index + 1)
    }
}

/// What is wrong with a site file.
#[derive(Clone, Copy, Debug, PartialEq, Eq, Error)]
pub enum SiteFault {
    /// Memory was refused, which says nothing of the file.
    #[error("out of memory")]
    Memory,
    /// The text stops being TOML at this line.
    #[error("not TOML at line {0}")]
    NotToml(usize),
    #[error("more than {most} lines", most = MOST_LINES)]
    TooManyLines,
    #[error("more than {most} devices", most = MOST_DEVICES)]
    TooManyDevices,
    /// A member is missing, of another kind or out of range.
    #[error("{0}")]
    Member(MemberError),
    /// An entry of `line` or `device` is no table.
    #[error("no table")]
    NoTable,
    #[error("name {0} isn't 1 to 64 of A-Z a-z 0-9 _ - .")]
    NoName(Quoted),
    #[error("name {0} stands twice")]
    NameTwice(Quoted),
    #[error("line {0} is none of the site's")]
    UnknownLine(Quoted),
    #[error("unit {unit} of line {line} stands twice")]
    UnitTwice { unit: u8, line: Quoted },
    /// An entry of `models`, from 1, isn't an identifier, an address and a length.
    #[error("models: entry {0} is no model")]
    NoModel(usize),
    /// The model of this identifier.
    #[error("model {0} passes the last address")]
    PastEnd(u16),
    /// A device's line is no place among those of the site.
    #[error("a device without a line")]
    WithoutLine,
}

impl SiteFault {
    /// What is wrong with a line's `outstanding`.
    pub(crate) fn of_outstanding(fault: MemberFault) -> SiteFault
        ensures { result ≢ Memory }
    {
        SiteFault::Member(MemberError {
            key: "outstanding",
            fault,
        })
    }
}

impl From<AllocError> for SiteFault {
    ghost from_gives = { λ _ fault. fault ≡ Memory };

    fn from(_: AllocError) -> SiteFault {
        SiteFault::Memory
    }
}

impl<T: Drop> From<AllocFailed<T>> for SiteFault {
    ghost from_gives = { λ _ fault. fault ≡ Memory };

    fn from(_: AllocFailed<T>) -> SiteFault {
        SiteFault::Memory
    }
}

impl From<MemberError> for SiteFault {
    ghost from_gives = { λ e fault. fault ≡ Member e };

    fn from(e: MemberError) -> SiteFault {
        SiteFault::Member(e)
    }
}

/// Why there is no site, and where. It takes no memory, and prints as `device 3: unit is missing`.
#[derive(Clone, Copy, Debug, PartialEq, Eq)]
pub struct SiteError {
    pub place: SitePlace,
    pub fault: SiteFault,
}

impl SiteError {
    pub(crate) fn new(place: SitePlace, fault: SiteFault) -> SiteError
        ensures { result ≡ record { place = place; fault = fault } }
    {
        SiteError { place, fault }
    }

    /// Whether memory was refused, which says nothing of the file.
    pub fn is_memory(&self) -> bool
        ensures { IsTrue result ↔ (self.now.fault ≡ Memory) }
    {
        matches!(self.fault, SiteFault::Memory)
    }
}

/// What was read, or its fault with this place.
pub(crate) fn placed<T>(place: SitePlace, read: Result<T, SiteFault>) -> Result<T, SiteError>
    ensures { result ≡ placed place read }
{
    match read {
        Ok(value) => Ok(value),
        Err(fault) => Err(SiteError::new(place, fault)),
    }
}

/// What is wrong with the file as a whole.
impl From<SiteFault> for SiteError {
    ghost from_gives = { λ fault e. e ≡ record { place = Whole; fault = fault } };

    fn from(fault: SiteFault) -> SiteError {
        SiteError::new(SitePlace::Whole, fault)
    }
}

impl<T: Drop> From<AllocFailed<T>> for SiteError {
    ghost from_gives = { λ _ e. e ≡ record { place = Whole; fault = Memory } };

    fn from(_: AllocFailed<T>) -> SiteError {
        SiteError::from(SiteFault::Memory)
    }
}

impl From<MemberError> for SiteError {
    ghost from_gives = { λ member e. e ≡ record { place = Whole; fault = Member member } };

    fn from(member: MemberError) -> SiteError {
        SiteError::from(SiteFault::from(member))
    }
}

impl fmt::Display for SiteError {
    fn fmt<W: fmt::Write>(&self, f: &mut fmt::Formatter<W>) -> fmt::Result {
        match self.place {
            _ if self.is_memory() => {}
            SitePlace::Whole => {}
            SitePlace::Line(number) => write!(f, "line {number}: ")?,
            SitePlace::Device(number) => write!(f, "device {number}: ")?,
        }
        write!(f, "{}", self.fault)
    }
}

impl std::error::Error for SiteError {}
