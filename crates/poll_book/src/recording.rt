//! What a reply adds to the tables.
ghost use Rattle.std.specs.Prelude.{◌≡◌, ◌≤◌, ◌<◌, ◌+◌, ◌*◌, ◌∷◌, ◌++◌, [], None, Some, if◌then◌else◌, IfOk, OnOk, IfSome, vec_len, option_map, option_to_list, option_and_then, length};
ghost use Rattle.poll_book.specs.declared.rows.Reading.{Reading as AReading};
ghost use Rattle.poll_book.specs.Tables.{AreByKey, Tables, Within, is_void, marked, new_rows, reading_at, sum_at, with_row};
ghost use Rattle.poll_book.specs.Totals as counting;
ghost use Rattle.poll_book.specs.Totals.{reading_number, total};
ghost use Rattle.poll_book.specs.Changes.{HaveTotals, as_row, as_rows, as_sum, as_sums, keyed, new_sums};
ghost use Rattle.poll_book.specs.Fault.{Accounts};
ghost use Rattle.poll_book.specs.Looks.{IsRaisedAtMost};

use crate::counting::{counted_number, repaired};
use crate::fault::StoreFault;
use crate::keeper::Neighbours;
use crate::rows::{Change, PointRow, ReadingRow, TotalRow};
use crate::words::Words;
use mb_pdu::Registers;
use point_list::Items;
use std::alloc::{AllocError, Global};

/// The total of a counter with a reading of this value put into a slot in which it has none.
fn total_with<N: Neighbours>(
    keeper: &mut N,
    point: &PointRow,
    slot: u32,
    value: u64,
) -> Result<TotalRow, StoreFault>
    requires { value ≤ point.now.point.roll }
    ensures value { N.is_clean keeper.new → (kept : Tables) → N.holds keeper.old kept → AreByKey kept.readings
        → sum_at kept.totals point.now.number ≡ Some (total point.now kept.readings)
        → reading_at kept.readings (point.now.number, slot) ≡ None
        → (reading : AReading) → reading_number point.now.point reading ≡ Some value
        → IfOk result (λ row. as_sum row ≡ (point.now.number, total point.now (with_row (point.now.number, slot) reading kept.readings))) }
    ensures cause { Accounts N.may_refuse (N.refused keeper.old) (N.refused keeper.new) result }
    ensures looks { IsRaisedAtMost 3 (N.looked keeper.old) (N.looked keeper.new) }
    ensures same { Within (N.holds keeper.old) (N.holds keeper.new) }
    ensures clean { N.is_clean keeper.new → N.is_clean keeper.old }
    ensures crash { N.is_clean keeper.new → Within (N.may_leave keeper.new) (N.may_leave keeper.old) }
{
    let total = keeper.total(point)?;
    let before = keeper.before(point, slot)?;
    let after = keeper.after(point, slot)?;
    Ok(TotalRow {
        point: point.number,
        total: repaired(total, before, value, after, point.point.roll),
    })
}

/// The number of a point's registers, if they count in the slot.
fn counted_in<N: Neighbours>(
    keeper: &mut N,
    point: &PointRow,
    slot: u32,
    words: &[u16],
) -> Result<Option<u64>, StoreFault>
    ensures value { N.is_clean keeper.new → (kept : Tables) → N.holds keeper.old kept
        → IfOk result (λ value. value ≡ (if is_void kept.voids (point.now.number, slot) then None else counting.counted_number point.now.point words.now)) }
    ensures bound { IfOk result (λ value. IfSome value (λ number. number ≤ point.now.point.roll)) }
    ensures cause { Accounts N.may_refuse (N.refused keeper.old) (N.refused keeper.new) result }
    ensures looks { IsRaisedAtMost 1 (N.looked keeper.old) (N.looked keeper.new) }
    ensures same { Within (N.holds keeper.old) (N.holds keeper.new) }
    ensures clean { N.is_clean keeper.new → N.is_clean keeper.old }
    ensures crash { N.is_clean keeper.new → Within (N.may_leave keeper.new) (N.may_leave keeper.old) }
{
    let value = counted_number(&point.point, words);
    let is_void = value.is_some() && keeper.voided(point, slot)?;
    Ok(if is_void { None } else { value })
}

/// A reading that a keeper lacks, with the total that changes by it.
#[derive(Drop)]
struct Lacking {
    reading: ReadingRow,
    total: Option<TotalRow>,
}

/// The reading of a covered point and what becomes of its total, if the keeper lacks it.
fn lacking_reading<N: Neighbours>(
    alloc: Global,
    keeper: &mut N,
    point: &PointRow,
    words: &[u16],
    slot: u32,
) -> Result<Option<Lacking>, StoreFault>
    requires not_empty { 0 < length words.now }
    requires short { length words.now ≤ 125 }
    ensures reading { N.is_clean keeper.new → (kept : Tables) → N.holds keeper.old kept
        → IfOk result (λ found. option_to_list (option_map (λ it. as_row it.reading) found) ≡ new_rows kept.readings (marked kept.voids (keyed slot ((point.now, words.now) ∷ [])))) }
    ensures total { N.is_clean keeper.new → (kept : Tables) → N.holds keeper.old kept → AreByKey kept.readings
        → HaveTotals kept ((point.now, words.now) ∷ [])
        → IfOk result (λ found. option_to_list (option_map as_sum (option_and_then (λ it. it.total) found)) ≡ new_sums kept.voids kept.readings slot ((point.now, words.now) ∷ [])) }
    ensures cause { Accounts N.may_refuse (N.refused keeper.old) (N.refused keeper.new) result }
    ensures looks { IsRaisedAtMost 5 (N.looked keeper.old) (N.looked keeper.new) }
    ensures same { Within (N.holds keeper.old) (N.holds keeper.new) }
    ensures clean { N.is_clean keeper.new → N.is_clean keeper.old }
    ensures crash { N.is_clean keeper.new → Within (N.may_leave keeper.new) (N.may_leave keeper.old) }
{
    if keeper.has_reading(point, slot)? {
        return Ok(None);
    }
    let value = counted_in(keeper, point, slot, words)?;
    let total = match value {
        Some(value) => Some(total_with(keeper, point, slot, value)?),
        None => None,
    };
    Ok(Some(Lacking {
        reading: ReadingRow {
            point: point.number,
            slot,
            words: Words::new(alloc, words)?,
            counted: value.is_some(),
        },
        total,
    }))
}

/// Adds what is found to what was.
fn push_found(
    readings: &mut Vec<ReadingRow>,
    totals: &mut Vec<TotalRow>,
    found: Option<Lacking>,
) -> Result<(), AllocError>
    ensures readings { OnOk result (as_rows readings.new.items ≡ as_rows readings.old.items ++ option_to_list (option_map (λ it. as_row it.reading) found)) }
    ensures totals { OnOk result (as_sums totals.new.items ≡ as_sums totals.old.items ++ option_to_list (option_map as_sum (option_and_then (λ it. it.total) found))) }
    ensures few { OnOk result (vec_len readings.new ≤ vec_len readings.old + 1) }
{
    let Some(it) = found else {
        return Ok(());
    };
    readings.push(it.reading)?;
    if let Some(total) = it.total {
        totals.push(total)?;
    }
    Ok(())
}

/// The change that a reply makes: of these points with their registers the readings of those that have
/// none in the slot, in their order, and the totals that change by them. In a slot that is voided they don't
/// count. It makes at most five look-ups a point.
pub fn reply_change<N: Neighbours>(
    alloc: Global,
    keeper: &mut N,
    covered: &[(PointRow, Registers)],
    slot: u32,
) -> Result<Change, StoreFault>
    ensures readings { N.is_clean keeper.new → (kept : Tables) → N.holds keeper.old kept
        → IfOk result (λ change. as_rows change.readings ≡ new_rows kept.readings (marked kept.voids (keyed slot covered.now))) }
    ensures totals { N.is_clean keeper.new → (kept : Tables) → N.holds keeper.old kept → AreByKey kept.readings
        → HaveTotals kept covered.now
        → IfOk result (λ change. as_sums change.totals ≡ new_sums kept.voids kept.readings slot covered.now) }
    ensures alone { IfOk result (λ change. change ≡ record { points = []; readings = change.readings; totals = change.totals; void = None; setting = None; request = None; connections = None }) }
    ensures few { IfOk result (λ change. length change.readings ≤ length covered.now) }
    ensures cause { Accounts N.may_refuse (N.refused keeper.old) (N.refused keeper.new) result }
    ensures looks { IsRaisedAtMost (5 * length covered.now) (N.looked keeper.old) (N.looked keeper.new) }
    ensures same { Within (N.holds keeper.old) (N.holds keeper.new) }
    ensures clean { N.is_clean keeper.new → N.is_clean keeper.old }
    ensures crash { N.is_clean keeper.new → Within (N.may_leave keeper.new) (N.may_leave keeper.old) }
{
    let mut readings = Vec::with_capacity(alloc, covered.len())?;
    let mut totals = Vec::with_capacity(alloc, covered.len())?;
    for entry in covered {
        let found = lacking_reading(alloc, keeper, &entry.0, entry.1.as_slice(), slot)?;
        push_found(&mut readings, &mut totals, found)?;
    }
    Ok(Change {
        readings: Items::from_vec(readings),
        totals: Items::from_vec(totals),
        ..Change::none(alloc)
    })
}
