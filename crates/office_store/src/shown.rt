//! Readings with their marks.

ghost use Rattle.std.specs.Prelude.{◌≡◌, ◌≤◌, ◌↔◌, ℕ, Bool, false, All, IfOk, IfSome, IsTrue, None, OnOk, [], map};
ghost use Rattle.std.specs.Ordering.{nat_cmp};
ghost use Rattle.std.specs.BTreeSet.{contains};
ghost use Rattle.sqlite.specs.Held.{state};
ghost use Rattle.sqlite.specs.State.{HasCleanDisk};
ghost use Rattle.poll_book.specs.Showing.{as_shown, with_marks};
ghost use Rattle.poll_book.specs.Tables.{Tables, is_void, readings_between};
ghost use Rattle.office_store.specs.Ends.{HasVoidEnds};
ghost use Rattle.office_store.specs.Kept.{Holds, Keeps};
ghost use Rattle.office_store.specs.Counting.{IsShownOf, MayBeOf, StandsBetween, marked_by};

use crate::ends::{Ends, voids_between};
use crate::readings::rows_between;
use point_list::Point;
use poll_book::{PointRow, ReadingRow, ShownReading, StoreFault, counted_number};
use sqlite::{Alter, Connection};
use std::alloc::Global;
use std::collections::BTreeSet;

/// Whether a reading may be one of the point, of which these slots are voided: it has the registers of the point's
/// type, and it is marked as counted just where it has a number from 0 to the roll and its slot isn't voided.
fn may_be_of(point: &Point, voids: &BTreeSet<u32>, reading: &ReadingRow) -> bool
    ensures { IsTrue result ↔ MayBeOf point.now (contains nat_cmp voids.now) reading.now }
{
    let words = reading.words.as_slice();
    let counts = counted_number(point, words).is_some() && !voids.contains(&reading.slot);
    point.kind.has_registers(words) && reading.counted == counts
}

/// Whether each reading may be one of the point. No office keeps another.
fn are_all_of(point: &Point, voids: &BTreeSet<u32>, readings: &[ReadingRow]) -> bool
    ensures { IsTrue result → All (MayBeOf point.now (contains nat_cmp voids.now)) readings.now }
{
    readings
        .iter()
        .all(|reading| may_be_of(point, voids, reading))
}

/// Readings, each with whether its slot is one of those that are voided.
fn marked(
    alloc: Global,
    voids: &BTreeSet<u32>,
    readings: Vec<ReadingRow>,
) -> Result<Vec<ShownReading>, StoreFault>
    ensures { IfOk result (λ shown. shown.items ≡ map (marked_by (contains nat_cmp voids.now)) readings.items) }
{
    let mut shown = Vec::with_capacity(alloc, readings.len())?;
    for reading in readings {
        let voided = voids.contains(&reading.slot);
        shown.push(ShownReading { reading, voided })?;
    }
    Ok(shown)
}

/// The first and the last slot of readings, nothing where there is none.
fn span_of(readings: &[ReadingRow]) -> Option<(u32, u32)>
    ensures none { result ≡ None → readings.now ≡ [] }
    ensures some { IfSome result (λ span. All (StandsBetween span.0 span.1) readings.now) }
{
    let [first, ..] = readings else {
        return None;
    };
    let (mut from, mut to) = (first.slot, first.slot);
    for reading in readings {
        from = from.min(reading.slot);
        to = to.max(reading.slot);
    }
    Some((from, to))
}

/// The readings of a point in the slots from the one to the other, by slot, each with whether its slot is voided. Where
/// there is a reading at all, the voids among their slots are read at once, unless all stand behind the point's voids.
pub(crate) fn shown_between<S: Alter>(
    alloc: Global,
    connection: &mut Connection<S>,
    void_ends: &Ends,
    point: &PointRow,
    from: u32,
    to: u32,
) -> Result<Vec<ShownReading>, StoreFault>
    requires { connection.old.in_transaction ≡ false }
    ensures value { HasCleanDisk (state S.Store connection.new) → (kept : Tables) → Holds (state S.Store connection.old) kept
        → HasVoidEnds (state S.Store connection.old) void_ends.now.known.items kept → IfOk result (λ shown. map as_shown shown.items ≡ with_marks kept.voids (readings_between point.now.number from to kept.readings)) }
    ensures judged { IfOk result (λ shown. (voids : ℕ → Bool) × All (IsShownOf point.now.point voids) shown.items) }
    ensures marked { HasCleanDisk (state S.Store connection.new) → (kept : Tables) → Holds (state S.Store connection.old) kept
        → HasVoidEnds (state S.Store connection.old) void_ends.now.known.items kept → IfOk result (λ shown. All (IsShownOf point.now.point (λ slot. is_void kept.voids (point.now.number, slot))) shown.items) }
    ensures open { HasCleanDisk (state S.Store connection.new) → OnOk result (IsTrue (state S.Store connection.old).is_open) }
    ensures keeps { Keeps (state S.Store connection.old) (state S.Store connection.new) }
    ensures idle { connection.new.in_transaction ≡ false }
{
    let readings = rows_between(alloc, connection, point.number, from, to)?;
    let Some((first, last)) = span_of(&readings) else {
        return Ok(Vec::new(alloc));
    };
    let voids = voids_between(alloc, connection, void_ends, point.number, first, last)?;
    if !are_all_of(&point.point, &voids, &readings) {
        return Err(StoreFault::Other);
    }
    marked(alloc, &voids, readings)
}
