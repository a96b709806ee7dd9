//! Where a point lies.
ghost use Rattle.std.specs.Prelude.{◌≡◌, ◌↔◌, ◌+◌, ◌-◌, ◌<◌, ◌≤◌, IsTrue};
ghost use Rattle.read_planner.specs.Place.{CanBeRead, function_of, place_of, size_of};
ghost use Rattle.read_planner.specs.Walk.{bound_of, ends_by};

use crate::{Read, limit_of};
use mb_pdu::{Span, Table};
use point_list::Point;

/// Where a point lies: the function that reads it, its first address and the one after its last.
#[derive(Clone, Copy, Debug, PartialEq, Eq, PartialOrd, Ord)]
pub(crate) struct Place {
    pub(crate) function: u8,
    pub(crate) start: u32,
    pub(crate) end: u32,
}

/// The function that reads a table.
fn function_of(table: Table) -> u8
    ensures { result ≡ function_of table }
{
    match table {
        Table::Coil => 1,
        Table::Discrete => 2,
        Table::Holding => 3,
        Table::Input => 4,
    }
}

/// How many addresses a point holds: one of single bits, and of registers as many as its type has.
fn size_of(point: &Point) -> u16
    ensures { result ≡ size_of point.now }
{
    match point.table {
        Table::Coil | Table::Discrete => 1,
        Table::Holding | Table::Input => point.kind.registers(),
    }
}

/// Whether `plan` takes a point: its type has 1 to 125 registers, and it ends by address 65,535.
pub fn can_be_read(point: &Point) -> bool
    ensures { IsTrue result ↔ CanBeRead point.now }
{
    point.kind.is_sized() && u32::from(point.address) + u32::from(size_of(point)) <= 65536
}

/// Where a point lies.
pub(crate) fn place_of(point: &Point) -> Place
    ensures { result ≡ place_of point.now }
{
    let start = u32::from(point.address);
    Place {
        function: function_of(point.table),
        start,
        end: start + u32::from(size_of(point)),
    }
}

impl Place {
    /// Where the longest read from its start on ends at most.
    pub(crate) fn bound(&self) -> u32
        requires { self.now.start < 65536 }
        ensures { result ≡ bound_of self.now }
    {
        (self.start + u32::from(limit_of(self.function))).min(65536)
    }

    /// Whether a read by this function that starts by then and ends here holds it whole.
    pub(crate) fn ends_by(&self, function: u8, end: u32) -> bool
        ensures { result ≡ ends_by function end self.now }
    {
        self.function == function && self.end <= end
    }

    /// The read from its start up to an end.
    pub(crate) fn read_to(&self, end: u32) -> Read
        requires start { self.now.start < 65536 }
        requires end { end - self.now.start < 65536 }
        requires some { self.now.start < end }
        ensures function { result.function ≡ self.now.function }
        ensures start { result.span.start ≡ self.now.start }
        ensures end { self.now.start + result.span.quantity ≡ end }
    {
        Read {
            function: self.function,
            span: Span {
                start: self.start as u16,
                quantity: (end - self.start) as u16,
            },
        }
    }
}
