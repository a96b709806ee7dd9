//! Faults of point lists and site files, and their places.
ghost use Rattle.std.specs.Prelude.{◌≡◌};
ghost use Rattle.point_list.specs.declared.error.ListFault.TheVariants.{Memory};

use std::error::Error;
use std::fmt;

/// What is wrong with a point list or a site file.
#[derive(Clone, Copy, Debug, PartialEq, Eq)]
pub enum ListFault {
    /// A record has another number of fields than its header.
    BadCsv,
    /// The first record is no header.
    BadHeader,
    /// The name isn't 1 to 64 of `A-Z a-z 0-9 _ - .`.
    BadName,
    /// The site has no such device.
    UnknownDevice,
    /// The table is none of `coil`, `discrete`, `input`, `holding`.
    BadTable,
    /// The address is neither 1 to 5 digits up to 65,535 nor, of holding registers, a place by model
    /// (`m103+24`), or the point passes the last address.
    BadAddress,
    /// The type's name is unknown, or `bit` stands with registers, or another type with bits.
    BadType,
    /// The type is one of SunSpec's that the office leaves out.
    LeftOutType,
    /// The length isn't the type's number of registers, for a string 1 to 125.
    BadLength,
    /// The scale isn't -10 to 10, or the type has none.
    BadScale,
    /// The role is unknown, or the type or the table can't have it.
    BadRole,
    /// The roll isn't 1 to the greatest value of a counter's bits, or the point is no counter.
    BadRoll,
    /// An earlier record has this name.
    Twice,
    /// There are more than 10,000 points.
    TooManyPoints,
    /// Memory was refused.
    Memory,
    /// The site has no model of this identifier for the device.
    NoModel,
    /// The text is no site file.
    BadSite,
    /// The point passes the end of its model.
    PastModel,
    /// The order of the registers is unknown, or the type can't have it.
    BadWords,
}

impl fmt::Display for ListFault {
    ghost use Rattle.std.specs.Prelude.{Some};
    ghost use Rattle.point_list.specs.FaultTexts.{fault_text};

    ghost output = { λ fault. Some (fault_text fault) };

    fn fmt<W: fmt::Write>(&self, f: &mut fmt::Formatter<W>) -> fmt::Result {
        f.write_str(match self {
            ListFault::BadCsv => "bad csv",
            ListFault::BadHeader => "bad header",
            ListFault::BadName => "bad name",
            ListFault::UnknownDevice => "unknown device",
            ListFault::BadTable => "bad table",
            ListFault::BadAddress => "bad address",
            ListFault::BadType => "bad type",
            ListFault::LeftOutType => "left-out type",
            ListFault::BadLength => "bad length",
            ListFault::BadScale => "bad scale",
            ListFault::BadRole => "bad role",
            ListFault::BadRoll => "bad roll",
            ListFault::Twice => "twice",
            ListFault::TooManyPoints => "too many points",
            ListFault::Memory => "memory",
            ListFault::NoModel => "no model",
            ListFault::BadSite => "bad site",
            ListFault::PastModel => "past model",
            ListFault::BadWords => "bad words",
        })
    }
}

impl Error for ListFault {}

/// A fault with its place: the number of the record, of which the header is 1, and the column 1 to
/// 10, or 0 where no column is at fault. A fault of a site file, and `Memory`, have row and column 0.
/// It prints as the fault with its row and column, where it has them: `bad csv row 3`.
#[derive(Clone, Copy, Debug, PartialEq, Eq)]
pub struct ListError {
    pub fault: ListFault,
    pub row: u32,
    pub column: u8,
}

impl fmt::Display for ListError {
    ghost use Rattle.std.specs.Prelude.{Some};
    ghost use Rattle.point_list.specs.FaultTexts.{error_text};

    ghost output = { λ error. Some (error_text error) };

    fn fmt<W: fmt::Write>(&self, f: &mut fmt::Formatter<W>) -> fmt::Result {
        let ListError { fault, row, column } = self;
        if *row == 0 {
            write!(f, "{fault}")
        } else if *column == 0 {
            write!(f, "{fault} row {row}")
        } else {
            write!(f, "{fault} row {row} column {column}")
        }
    }
}

impl Error for ListError {}

impl ListError {
    pub(crate) fn new(fault: ListFault, row: u32, column: u8) -> ListError
        ensures { result ≡ record { fault = fault; row = row; column = column } }
    {
        ListError { fault, row, column }
    }

    /// A fault of no record.
    pub(crate) fn of_whole(fault: ListFault) -> ListError
        ensures { result ≡ record { fault = fault; row = 0; column = 0 } }
    {
        ListError::new(fault, 0, 0)
    }

    pub(crate) fn memory() -> ListError
        ensures { result ≡ record { fault = Memory; row = 0; column = 0 } }
    {
        ListError::of_whole(ListFault::Memory)
    }
}
