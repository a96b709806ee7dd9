//! The walk over points in order.
ghost use Rattle.std.specs.Prelude.{◌≡◌, ◌≤◌, ◌∷◌, All, IfOk, length};
ghost use Rattle.std.specs.List.{prefix_len};
ghost use Rattle.read_planner.specs.Chosen.{IsUpTo};
ghost use Rattle.read_planner.specs.Walk.{AreInOrder, IsPlace, IsPlan, IsReadEnd, ends_by};

use crate::Read;
use crate::place::Place;
use std::alloc::{AllocError, Global};

/// Where the chosen read from the start of the first of these places ends.
fn read_end(first: &Place, places: &[Place], gap: u16) -> u32
    requires first { IsPlace first.now }
    requires places { All IsPlace places.now }
    requires order { AreInOrder (first.now ∷ places.now) }
    ensures { IsReadEnd first.now places.now gap result }
{
    let bound = first.bound();
    let mut reach = first.end;
    let mut end = first.end;
    for place in places {
        let bridged = reach + u32::from(gap);
        if place.function != first.function || bound <= place.start || bridged < place.start {
            return end;
        }
        reach = reach.max(place.end);
        if place.end <= bound {
            end = end.max(place.end);
        }
    }
    end
}

/// How many of these places, from the first on, a read by this function that ends here holds.
fn held_of(places: &[Place], function: u8, end: u32) -> usize
    ensures count { result ≡ prefix_len (ends_by function end) places.now }
    ensures within { result ≤ length places.now }
{
    places
        .iter()
        .take_while(|place| place.ends_by(function, end))
        .count()
}

/// The chosen reads of places in order.
pub(crate) fn reads_of(alloc: Global, places: &[Place], gap: u16) -> Result<Vec<Read>, AllocError>
    requires places { All IsPlace places.now }
    requires order { AreInOrder places.now }
    ensures { IfOk result (λ reads. IsPlan places.now gap reads.items) }
{
    let mut reads = Vec::new(alloc);
    let mut rest = places;
    while let Some((first, others)) = rest.split_first() {
        let end = read_end(first, others, gap);
        reads.push(first.read_to(end))?;
        rest = &others[held_of(others, first.function, end)..];
    }
    Ok(reads)
}
