//! Why a text is no simulator file, and where.
ghost use Rattle.std.specs.Prelude.{◌≡◌, ◌+◌, ◌<◌, ◌^◌, ◌↔◌, IsTrue};
ghost use Rattle.mb_map.specs.Image.{placed};
ghost use Rattle.mb_map.specs.declared.image_error.ImageFault.TheVariants.{Member, Memory};
ghost use Rattle.mb_map.specs.declared.image_error.ImagePlace.TheVariants.{Script, Unit, Whole};

use std::alloc::AllocFailed;
use std::fmt;
use thiserror::Error;
use toml_members::{MemberError, MemberFault};

/// Where something is wrong: units have their numbers in the file, from 1.
#[derive(Clone, Copy, Debug, PartialEq, Eq)]
pub enum ImagePlace {
    Whole,
    Unit(usize),
    Script,
}

impl ImagePlace {
    /// The unit at an index.
    pub(crate) fn unit(index: usize) -> ImagePlace
        requires { index + 1 < 2 ^ 64 }
        ensures { result ≡ Unit (index + 1) }
    {
        ImagePlace::Unit(index + 1)
    }
}

/// What is wrong with a simulator file. Entries of lists have their numbers, from 1.
#[derive(Clone, Copy, Debug, PartialEq, Eq, Error)]
pub enum ImageFault {
    /// Memory was refused, which says nothing of the file.
    #[error("out of memory")]
    Memory,
    /// The text stops being TOML on this line.
    #[error("not TOML at line {0}")]
    NotToml(usize),
    /// A member is missing, of another kind or out of range.
    #[error("{0}")]
    Member(MemberError),
    /// An entry of `unit` is no table.
    #[error("no table")]
    NoTable,
    /// An entry of the list at a key.
    #[error("{key}: entry {entry} {fault}")]
    Entry {
        key: &'static str,
        entry: usize,
        fault: MemberFault,
    },
    /// The list at a key goes on past the address 65,535.
    #[error("{0} passes the last address")]
    PastEnd(&'static str),
    #[error("entry {0} is no step")]
    NoStep(usize),
    #[error("id {0} stands twice")]
    IdTwice(u8),
}

impl<T: Drop> From<AllocFailed<T>> for ImageFault {
    ghost from_gives = { λ _ fault. fault ≡ Memory };

    fn from(_: AllocFailed<T>) -> ImageFault {
        ImageFault::Memory
    }
}

impl From<MemberError> for ImageFault {
    ghost from_gives = { λ e fault. fault ≡ Member e };

    fn from(e: MemberError) -> ImageFault {
        ImageFault::Member(e)
    }
}

/// Why there is no simulator, and where. It takes no memory, and prints as `unit 2: id is missing`.
#[derive(Clone, Copy, Debug, PartialEq, Eq)]
pub struct ImageError {
    pub place: ImagePlace,
    pub fault: ImageFault,
}

impl ImageError {
    pub(crate) fn new(place: ImagePlace, fault: ImageFault) -> ImageError
        ensures { result ≡ record { place = place; fault = fault } }
    {
        ImageError { place, fault }
    }

    /// Whether memory was refused, which says nothing of the file.
    pub fn is_memory(&self) -> bool
        ensures { IsTrue result ↔ (self.now.fault ≡ Memory) }
    {
        matches!(self.fault, ImageFault::Memory)
    }
}

/// What was read, or its fault with this place.
pub(crate) fn placed<T>(place: ImagePlace, read: Result<T, ImageFault>) -> Result<T, ImageError>
    ensures { result ≡ placed place read }
{
    match read {
        Ok(value) => Ok(value),
        Err(fault) => Err(ImageError::new(place, fault)),
    }
}

/// What is wrong with the file as a whole.
impl From<ImageFault> for ImageError {
    ghost from_gives = { λ fault e. e ≡ record { place = Whole; fault = fault } };

    fn from(fault: ImageFault) -> ImageError {
        ImageError::new(ImagePlace::Whole, fault)
    }
}

impl<T: Drop> From<AllocFailed<T>> for ImageError {
    ghost from_gives = { λ _ e. e ≡ record { place = Whole; fault = Memory } };

    fn from(_: AllocFailed<T>) -> ImageError {
        ImageError::from(ImageFault::Memory)
    }
}

impl From<MemberError> for ImageError {
    ghost from_gives = { λ member e. e ≡ record { place = Whole; fault = Member member } };

    fn from(member: MemberError) -> ImageError {
        ImageError::from(ImageFault::from(member))
    }
}

impl fmt::Display for ImageError {
    fn fmt<W: fmt::Write>(&self, f: &mut fmt::Formatter<W>) -> fmt::Result {
        match self.place {
            _ if self.is_memory() => {}
            ImagePlace::Whole => {}
            ImagePlace::Unit(number) => write!(f, "unit {number}: ")?,
            ImagePlace::Script => f.write_str("script: ")?,
        }
        write!(f, "{}", self.fault)
    }
}

impl std::error::Error for ImageError {}
