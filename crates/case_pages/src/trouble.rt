//! Why a page can't be played to its end.
use std::alloc::{AllocError, AllocFailed};
use std::error::Error;
use std::{fmt, io};

#[derive(Clone, Copy, Debug, PartialEq, Eq)]
pub enum Trouble {
    /// Memory was refused twice for one case.
    Memory,
    /// A page or one of its files can't be read, or the output can't be written.
    File,
    /// The page isn't in its form, as this says.
    Page(&'static str),
}

impl fmt::Display for Trouble {
    fn fmt<W: fmt::Write>(&self, f: &mut fmt::Formatter<W>) -> fmt::Result {
        match self {
            Trouble::Memory => f.write_str("memory"),
            Trouble::File => f.write_str("a file"),
            Trouble::Page(why) => f.write_str(why),
        }
    }
}

impl Error for Trouble {}

impl From<AllocError> for Trouble {
    fn from(_: AllocError) -> Trouble {
        Trouble::Memory
    }
}

impl<T: Drop> From<AllocFailed<T>> for Trouble {
    fn from(_: AllocFailed<T>) -> Trouble {
        Trouble::Memory
    }
}

impl From<io::Error> for Trouble {
    fn from(_: io::Error) -> Trouble {
        Trouble::File
    }
}
