//! Where the readings and the voids of points end. The end of readings is asked for once, that of voids is a slot from
//! which on a question was told that none is left, and both are followed as rows come: so a slot behind the end, as that
//! of a new reading is, needs no statement.

ghost use Rattle.std.specs.Prelude.{◌≡◌, ◌+◌, ◌<◌, ◌≤◌, ◌↔◌, ℕ, false, true, max, All, IfErr, IfOk, IfSome, IsOk, IsTrue, Ok, Some, is_some, vec_len};
ghost use Rattle.sqlite.specs.Held.{state};
ghost use Rattle.sqlite.specs.State.{HasCleanDisk};
ghost use Rattle.poll_book.specs.Changes.{as_rows, with_voided};
ghost use Rattle.poll_book.specs.Tables.{Key, Readings, Tables, Voids, is_void, reading_at, with_rows};
ghost use Rattle.poll_book.specs.Totals.{value_after};
ghost use Rattle.office_store.specs.Ends.{AreEnds, FailsToTell, HasEnds, HasVoidEnds, IsEndOf, IsWithin, end_at};
ghost use Rattle.office_store.specs.Kept.{Holds, Keeps};
ghost use Rattle.office_store.specs.Voids.{AreVoidsOf};

use crate::voids::VoidsFrom;
use crate::{readings, voids};
use poll_book::{PointRow, ReadingRow, StoreFault, VoidRow};
use sqlite::{Alter, Connection};
use std::alloc::Global;
use std::collections::BTreeSet;

/// The greatest number of a point of which the end of voids is remembered: an office has no greater one, and what is
/// remembered takes room up to the greatest number.
const MOST_REMEMBERED: u32 = 10_000;

/// The list of voids' ends gets longer by so many places at most in one question.
const PLACES_A_QUESTION: usize = 16;

/// A slot for each point, by the points' numbers, that all its rows of a table stand before, and nothing where none is
/// known.
#[derive(Drop)]
pub(crate) struct Ends {
    known: Vec<Option<u64>>,
}

impl Ends {
    /// Nothing is known.
    pub(crate) fn new(alloc: Global) -> Ends
        ensures readings { (table : Readings) → AreEnds result.known.items table }
        ensures voids { (table : Voids) → AreEnds result.known.items table }
    {
        Ends {
            known: Vec::new(alloc),
        }
    }

    /// The end of a point, if it is known.
    fn at(&self, point: u32) -> Option<u64>
        ensures { result ≡ end_at self.now.known.items point }
    {
        match self.known.get(point as usize) {
            Some(end) => *end,
            None => None,
        }
    }

    /// Remembers the end of a point, unless memory is refused to it.
    fn note(&mut self, point: u32, end: u64)
        ensures { (key : Key) → IsWithin self.old.known.items key → (key.0 ≡ point → key.1 < end) → IsWithin self.new.known.items key }
    {
        let place = point as usize;
        while self.known.len() <= place {
            if self.known.push(None).is_err() {
                return;
            }
        }
        self.known[place] = Some(end);
    }

    /// Brings the list nearer to the place of a point, by a few places at most. It stops where memory is refused.
    fn approach(&mut self, point: u32)
        ensures same { (number : ℕ) → end_at self.new.known.items number ≡ end_at self.old.known.items number }
        ensures longer { vec_len self.new.known ≤ vec_len self.old.known + 16 }
        ensures toward { vec_len self.new.known ≤ max (vec_len self.old.known) (point + 1) }
    {
        let most = self.known.len().saturating_add(PLACES_A_QUESTION);
        let reached = most.min(point as usize + 1);
        while self.known.len() < reached {
            if self.known.push(None).is_err() {
                return;
            }
        }
    }

    /// Remembers the end of a point if its place is there, or comes with the few places that the list gets longer by.
    fn note_if_near(&mut self, point: u32, end: u64)
        ensures within { (key : Key) → IsWithin self.old.known.items key → (key.0 ≡ point → key.1 < end) → IsWithin self.new.known.items key }
        ensures known { point < vec_len self.new.known → end_at self.new.known.items point ≡ Some end }
        ensures longer { vec_len self.new.known ≤ vec_len self.old.known + 16 }
        ensures toward { vec_len self.new.known ≤ max (vec_len self.old.known) (point + 1) }
    {
        self.approach(point);
        if let Some(known) = self.known.get_mut(point as usize) {
            *known = Some(end);
        }
    }

    /// Whether a slot is known to stand behind the end of a point.
    fn is_behind(&self, point: u32, slot: u32) -> bool
        ensures { IsTrue result ↔ (end : ℕ) × (end_at self.now.known.items point ≡ Some end) × (end ≤ slot) }
    {
        match self.at(point) {
            Some(end) => end <= u64::from(slot),
            None => false,
        }
    }

    /// Moves the end of a point behind a slot of it.
    fn raise(&mut self, point: u32, slot: u32)
        ensures same { (key : Key) → IsWithin self.old.known.items key → IsWithin self.new.known.items key }
        ensures within { IsWithin self.new.known.items (point, slot) }
    {
        if let Some(end) = self.at(point) {
            self.known[point as usize] = Some(end.max(u64::from(slot) + 1));
        }
    }

    /// Moves the ends of readings' points behind them.
    fn raise_all(&mut self, readings: &[ReadingRow])
        ensures same { (key : Key) → IsWithin self.old.known.items key → IsWithin self.new.known.items key }
        ensures within { AreEnds self.new.known.items (as_rows readings.now) }
    {
        for row in readings {
            self.raise(row.point, row.slot);
        }
    }

    /// Follows the readings of a change, if it was written.
    pub(crate) fn follow(&mut self, readings: &[ReadingRow], is_written: bool)
        ensures written { is_written ≡ true → (table : Readings) → AreEnds self.old.known.items table → AreEnds self.new.known.items (with_rows (as_rows readings.now) table) }
        ensures same { is_written ≡ false → self.new ≡ self.old }
    {
        if is_written {
            self.raise_all(readings);
        }
    }

    /// Follows the voided slot of a change, whether or not it was written: an end may stand too far behind.
    pub(crate) fn follow_void(&mut self, void: Option<VoidRow>)
        ensures same { (table : Voids) → AreEnds self.old.known.items table → AreEnds self.new.known.items table }
        ensures voided { (table : Voids) → AreEnds self.old.known.items table → AreEnds self.new.known.items (with_voided void table) }
    {
        if let Some(row) = void {
            self.raise(row.point, row.slot);
        }
    }
}

/// The end of a point's readings, which is asked for if it isn't known.
fn end_of<S: Alter>(
    connection: &mut Connection<S>,
    ends: &mut Ends,
    point: u32,
) -> Result<u64, StoreFault>
    requires { connection.old.in_transaction ≡ false }
    ensures value { HasCleanDisk (state S.Store connection.new) → (kept : Tables) → Holds (state S.Store connection.old) kept
        → HasEnds (state S.Store connection.old) ends.old.known.items kept → IfOk result (λ end. IsEndOf point end kept.readings) }
    ensures same { (kept : Tables) → Holds (state S.Store connection.old) kept → HasEnds (state S.Store connection.old) ends.old.known.items kept
        → HasEnds (state S.Store connection.new) ends.new.known.items kept }
    ensures keeps { Keeps (state S.Store connection.old) (state S.Store connection.new) }
    ensures idle { connection.new.in_transaction ≡ false }
{
    if let Some(end) = ends.at(point) {
        return Ok(end);
    }
    let end = readings::end_of(connection, point)?;
    ends.note(point, end);
    Ok(end)
}

/// Whether a point has a reading in a slot. Behind its end it has none.
pub(crate) fn has_reading<S: Alter>(
    connection: &mut Connection<S>,
    ends: &mut Ends,
    point: u32,
    slot: u32,
) -> Result<bool, StoreFault>
    requires { connection.old.in_transaction ≡ false }
    ensures value { HasCleanDisk (state S.Store connection.new) → (kept : Tables) → Holds (state S.Store connection.old) kept
        → HasEnds (state S.Store connection.old) ends.old.known.items kept → IfOk result (λ has. has ≡ is_some (reading_at kept.readings (point, slot))) }
    ensures same { (kept : Tables) → Holds (state S.Store connection.old) kept → HasEnds (state S.Store connection.old) ends.old.known.items kept
        → HasEnds (state S.Store connection.new) ends.new.known.items kept }
    ensures keeps { Keeps (state S.Store connection.old) (state S.Store connection.new) }
    ensures idle { connection.new.in_transaction ≡ false }
{
    let end = end_of(connection, ends, point)?;
    if end <= u64::from(slot) {
        return Ok(false);
    }
    readings::has_reading(connection, point, slot)
}

/// Whether a slot of a point is voided, by one statement. Behind the end of the point's voids none is, which takes no
/// statement; but where the database may be closed it is asked all the same, since it may refuse.
pub(crate) fn is_void<S: Alter>(
    connection: &mut Connection<S>,
    ends: &mut Ends,
    may_be_closed: bool,
    point: u32,
    slot: u32,
) -> Result<bool, StoreFault>
    requires { connection.old.in_transaction ≡ false }
    ensures value { HasCleanDisk (state S.Store connection.new) → (kept : Tables) → Holds (state S.Store connection.old) kept
        → HasVoidEnds (state S.Store connection.old) ends.old.known.items kept → IfOk result (λ is. is ≡ is_void kept.voids (point, slot)) }
    ensures fails { HasCleanDisk (state S.Store connection.new)
        → IfErr result (FailsToTell point slot (state S.Store connection.old) (state S.Store connection.new)) }
    ensures behind { may_be_closed ≡ false → (end : ℕ) → end_at ends.old.known.items point ≡ Some end → end ≤ slot
        → (result ≡ Ok false) × (connection.new ≡ connection.old) }
    ensures longer { vec_len ends.new.known ≤ vec_len ends.old.known + 16 }
    ensures same { (kept : Tables) → Holds (state S.Store connection.old) kept → HasVoidEnds (state S.Store connection.old) ends.old.known.items kept
        → HasVoidEnds (state S.Store connection.new) ends.new.known.items kept }
    ensures keeps { Keeps (state S.Store connection.old) (state S.Store connection.new) }
    ensures idle { connection.new.in_transaction ≡ false }
{
    if !may_be_closed && ends.is_behind(point, slot) {
        return Ok(false);
    }
    match voids::voids_from(connection, point, slot)? {
        VoidsFrom::Here => Ok(true),
        VoidsFrom::NoneLeft if point <= MOST_REMEMBERED => {
            ends.note_if_near(point, u64::from(slot));
            Ok(false)
        }
        VoidsFrom::Later | VoidsFrom::NoneLeft => Ok(false),
    }
}

/// The voided slots of a point from the one to the other. Where the first of them stands behind the end of the point's
/// voids there is none, which takes no statement: so a page's last readings need none for their marks.
pub(crate) fn voids_between<S: Alter>(
    alloc: Global,
    connection: &mut Connection<S>,
    ends: &Ends,
    point: u32,
    from: u32,
    to: u32,
) -> Result<BTreeSet<u32>, StoreFault>
    requires { connection.old.in_transaction ≡ false }
    ensures value { HasCleanDisk (state S.Store connection.new) → (kept : Tables) → Holds (state S.Store connection.old) kept
        → HasVoidEnds (state S.Store connection.old) ends.now.known.items kept → IfOk result (AreVoidsOf point from to kept.voids) }
    ensures behind { (end : ℕ) → end_at ends.now.known.items point ≡ Some end → end ≤ from
        → IsOk result × (connection.new ≡ connection.old) }
    ensures keeps { Keeps (state S.Store connection.old) (state S.Store connection.new) }
    ensures idle { connection.new.in_transaction ≡ false }
{
    if ends.is_behind(point, from) {
        return Ok(BTreeSet::new(alloc));
    }
    voids::slots_between(alloc, connection, point, from, to)
}

/// The value of the nearest counted reading of a point after a slot, if there is one. None stands behind its end.
pub(crate) fn value_after<S: Alter>(
    alloc: Global,
    connection: &mut Connection<S>,
    ends: &Ends,
    point: &PointRow,
    slot: u32,
) -> Result<Option<u64>, StoreFault>
    requires { connection.old.in_transaction ≡ false }
    ensures value { HasCleanDisk (state S.Store connection.new) → (kept : Tables) → Holds (state S.Store connection.old) kept
        → HasEnds (state S.Store connection.old) ends.now.known.items kept → IfOk result (λ found. found ≡ value_after point.now slot kept.readings) }
    ensures bound { IfOk result (λ found. IfSome found (λ number. number ≤ point.now.point.roll)) }
    ensures keeps { Keeps (state S.Store connection.old) (state S.Store connection.new) }
    ensures idle { connection.new.in_transaction ≡ false }
{
    match ends.at(point.number) {
        Some(end) if end <= u64::from(slot) + 1 => Ok(None),
        _ => readings::value_after(alloc, connection, point, slot),
    }
}
