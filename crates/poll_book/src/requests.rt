//! What callers ask for, and what becomes of it.
use crate::caller::{Caller, Key};
use point_list::{Items, ListFault, Text};
use std::error::Error;
use std::fmt;

/// How far apart the first and the last slot of a report may be.
pub const MOST_APART: u32 = 9_999;

/// What a caller asks for.
#[derive(Debug, Drop)]
pub enum Body {
    /// That the points of a list are known. The list's bytes.
    List(Items<u8>),
    /// That a point is set to a value, by the point's name. The value isn't scaled.
    Order { point: Text, value: i128 },
    /// That a slot of a counter doesn't count for its total, by the point's name.
    Void { point: Text, slot: u32 },
}

/// What is wrong with a request.
#[derive(Clone, Copy, Debug, PartialEq, Eq)]
pub enum RequestFault {
    /// A fault of a list by itself; `TooManyPoints` at row 0 where more than 10,000 would be known.
    List(ListFault),
    /// A point of this name is known with another definition.
    PointDiffers,
    /// No point of the name is known.
    UnknownPoint,
    /// The ordered point's role isn't setting.
    NotASetting,
    /// No registers of the ordered point's type have the value.
    OutOfRange,
    /// 1,000,000 orders exist.
    TooManyOrders,
    /// The point's role isn't counter.
    NotACounter,
    /// 1,000,000 slots are voided, and this isn't one of them.
    TooManyVoids,
}

impl fmt::Display for RequestFault {
    ghost use Rattle.std.specs.Prelude.{Some};
    ghost use Rattle.poll_book.specs.RequestTexts.{request_fault_text};

    ghost output = { λ fault. Some (request_fault_text fault) };

    fn fmt<W: fmt::Write>(&self, f: &mut fmt::Formatter<W>) -> fmt::Result {
        match self {
            RequestFault::List(fault) => write!(f, "{fault}"),
            RequestFault::PointDiffers => f.write_str("point differs"),
            RequestFault::UnknownPoint => f.write_str("unknown point"),
            RequestFault::NotASetting => f.write_str("not a setting"),
            RequestFault::OutOfRange => f.write_str("out of range"),
            RequestFault::TooManyOrders => f.write_str("too many orders"),
            RequestFault::NotACounter => f.write_str("not a counter"),
            RequestFault::TooManyVoids => f.write_str("too many voids"),
        }
    }
}

impl Error for RequestFault {}

/// Why a request isn't taken, and for a list at which place.
#[derive(Clone, Copy, Debug, PartialEq, Eq)]
pub struct Reason {
    pub fault: RequestFault,
    /// The number of the record, of which the header is 1, or 0 where no record is at fault.
    pub row: u32,
    /// The column, from 1, or 0 where no column is at fault.
    pub column: u8,
}

/// What became of a request.
#[derive(Clone, Copy, Debug, PartialEq, Eq)]
pub enum Outcome {
    /// All points of the list are known now. It counts the rows, also those that were known before.
    Loaded(u32),
    /// The order of this number was accepted.
    Ordered(u32),
    /// This slot was voided, or had been before.
    Voided(u32),
    /// Nothing was taken.
    RefusedFor(Reason),
}

/// A request, and what became of it.
#[derive(Debug, Drop)]
pub struct KeptRequest {
    pub body: Body,
    pub outcome: Outcome,
}

/// A request with its key, its caller and the caller's key for it.
#[derive(Debug, Drop)]
pub struct RequestRow {
    pub caller: Caller,
    pub key: Key,
    pub body: Body,
    pub outcome: Outcome,
}
