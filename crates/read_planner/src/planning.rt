//! The fewest reads.
ghost use Rattle.std.specs.Prelude.{◌≡◌, All, IfOk};
ghost use Rattle.read_planner.specs.Allowed.{AreAllowed, AreFewest, HoldsAll};
ghost use Rattle.read_planner.specs.Chosen.{AreChosen};
ghost use Rattle.read_planner.specs.Place.{CanBeRead, places_of};

use crate::Read;
use crate::place::{Place, place_of};
use crate::walk::reads_of;
use point_list::Point;
use std::alloc::{AllocError, Global};

/// Where points lie.
fn places_of(alloc: Global, points: &[Point]) -> Result<Vec<Place>, AllocError>
    ensures { IfOk result (λ places. places.items ≡ places_of points.now) }
{
    points.iter().map(place_of).collect(alloc)
}

/// The fewest reads that hold each of these points of one device whole, where a read may bridge up
/// to `gap` neighbouring addresses that no point has (Modbus Application Protocol V1.1b3, sections
/// 6.1 to 6.4).
///
/// The points may stand in any order, overlap, lie inside each other and repeat. Each is of a type
/// with 1 to 125 registers and ends by address 65,535. A point of single bits holds one address,
/// and one of registers as many as its type has.
///
/// Coils are read by function 1, discrete inputs by 2, holding registers by 3, input registers by
/// 4. A read asks for 1 to 2,000 bits or 1 to 125 registers and ends by address 65,535. The reads
/// come by function, then by start: each begins with the first point that those before it leave,
/// and ends with the last end of a point in the longest allowed read from there.
///
/// `AllocError` comes where memory is refused, and then there are no reads.
pub fn plan(alloc: Global, points: &[Point], gap: u16) -> Result<Vec<Read>, AllocError>
    requires { All CanBeRead points.now }
    ensures allowed { IfOk result (λ reads. AreAllowed (places_of points.now) gap reads.items) }
    ensures whole { IfOk result (λ reads. HoldsAll reads.items (places_of points.now)) }
    ensures fewest { IfOk result (λ reads. AreFewest (places_of points.now) gap reads.items) }
    ensures chosen { IfOk result (λ reads. AreChosen (places_of points.now) gap reads.items) }
{
    let mut places = places_of(alloc, points)?;
    places.sort_unstable();
    reads_of(alloc, places.as_slice(), gap)
}
