//! A slot of a counter that is taken out of its total for good.
ghost use Rattle.std.specs.Prelude.{◌≡◌, ◌≤◌, ◌∷◌, [], None, Some, IfOk, IfSome, OnOk, option_map, option_to_list};
ghost use Rattle.poll_book.specs.declared.rows.Reading.{Reading as AReading};
ghost use Rattle.poll_book.specs.Changes.{as_row, as_rows, as_sum, as_sums, new_void, struck, struck_row, struck_sums, sums_of_rows, uncounted};
ghost use Rattle.poll_book.specs.Fault.{Accounts};
ghost use Rattle.poll_book.specs.Looks.{IsRaisedAtMost};
ghost use Rattle.poll_book.specs.Tables.{AreByKey, Tables, Within, reading_at, sum_at, with_row};
ghost use Rattle.poll_book.specs.Totals.{reading_number, total};

use crate::counting::{number_of, removed};
use crate::fault::StoreFault;
use crate::keeper::Neighbours;
use crate::rows::{Change, PointRow, ReadingRow, TotalRow, VoidRow};
use crate::words::Words;
use point_list::Items;
use std::alloc::{AllocError, Global};

/// The registers of a reading that counts, with its number.
#[derive(Drop)]
struct Counted {
    words: Words,
    value: u64,
}

/// The reading of a point in a slot, if it counts.
fn counted_reading<N: Neighbours>(
    keeper: &mut N,
    point: &PointRow,
    slot: u32,
) -> Result<Option<Counted>, StoreFault>
    ensures row { N.is_clean keeper.new → (kept : Tables) → N.holds keeper.old kept
        → IfOk result (λ found. option_to_list (option_map (λ it. ((point.now.number, slot), uncounted it.words)) found)
        ≡ struck_row point.now (point.now.number, slot) (reading_at kept.readings (point.now.number, slot))) }
    ensures number { N.is_clean keeper.new → (kept : Tables) → N.holds keeper.old kept
        → IfOk result (λ found. IfSome found (λ it. (there : AReading) × (reading_at kept.readings (point.now.number, slot) ≡ Some there) × (reading_number point.now.point there ≡ Some it.value))) }
    ensures bound { IfOk result (λ found. IfSome found (λ it. it.value ≤ point.now.point.roll)) }
    ensures cause { Accounts N.may_refuse (N.refused keeper.old) (N.refused keeper.new) result }
    ensures looks { IsRaisedAtMost 1 (N.looked keeper.old) (N.looked keeper.new) }
    ensures same { Within (N.holds keeper.old) (N.holds keeper.new) }
    ensures clean { N.is_clean keeper.new → N.is_clean keeper.old }
    ensures crash { N.is_clean keeper.new → Within (N.may_leave keeper.new) (N.may_leave keeper.old) }
{
    let Some(reading) = keeper.reading(point, slot)? else {
        return Ok(None);
    };
    let Some(value) = number_of(&point.point, &reading) else {
        return Ok(None);
    };
    Ok(Some(Counted {
        words: reading.words,
        value,
    }))
}

/// The total of a counter without the reading of this value in a slot.
fn total_without<N: Neighbours>(
    keeper: &mut N,
    point: &PointRow,
    slot: u32,
    value: u64,
) -> Result<TotalRow, StoreFault>
    requires { value ≤ point.now.point.roll }
    ensures value { N.is_clean keeper.new → (kept : Tables) → N.holds keeper.old kept → AreByKey kept.readings
        → sum_at kept.totals point.now.number ≡ Some (total point.now kept.readings)
        → (there : AReading) → reading_at kept.readings (point.now.number, slot) ≡ Some there → reading_number point.now.point there ≡ Some value
        → IfOk result (λ row. as_sum row ≡ (point.now.number, total point.now (with_row (point.now.number, slot) (uncounted there.words) kept.readings))) }
    ensures cause { Accounts N.may_refuse (N.refused keeper.old) (N.refused keeper.new) result }
    ensures looks { IsRaisedAtMost 3 (N.looked keeper.old) (N.looked keeper.new) }
    ensures same { Within (N.holds keeper.old) (N.holds keeper.new) }
    ensures clean { N.is_clean keeper.new → N.is_clean keeper.old }
    ensures crash { N.is_clean keeper.new → Within (N.may_leave keeper.new) (N.may_leave keeper.old) }
{
    let total = keeper.total(point)?;
    let before = keeper.before(point, slot)?;
    let after = keeper.after(point, slot)?;
    Ok(TotalRow {
        point: point.number,
        total: removed(total, before, value, after, point.point.roll),
    })
}

/// A reading that its total loses, and the total without it.
#[derive(Drop)]
struct Struck {
    reading: ReadingRow,
    total: TotalRow,
}

/// What becomes of the reading of a point in a slot that is voided, if it counts.
fn strike<N: Neighbours>(
    keeper: &mut N,
    point: &PointRow,
    slot: u32,
) -> Result<Option<Struck>, StoreFault>
    ensures reading { N.is_clean keeper.new → (kept : Tables) → N.holds keeper.old kept
        → IfOk result (λ found. option_to_list (option_map (λ it. as_row it.reading) found)
        ≡ struck_row point.now (point.now.number, slot) (reading_at kept.readings (point.now.number, slot))) }
    ensures total { N.is_clean keeper.new → (kept : Tables) → N.holds keeper.old kept → AreByKey kept.readings
        → sum_at kept.totals point.now.number ≡ Some (total point.now kept.readings)
        → IfOk result (λ found. option_to_list (option_map (λ it. as_sum it.total) found)
        ≡ sums_of_rows point.now kept.readings (struck_row point.now (point.now.number, slot) (reading_at kept.readings (point.now.number, slot)))) }
    ensures cause { Accounts N.may_refuse (N.refused keeper.old) (N.refused keeper.new) result }
    ensures looks { IsRaisedAtMost 4 (N.looked keeper.old) (N.looked keeper.new) }
    ensures same { Within (N.holds keeper.old) (N.holds keeper.new) }
    ensures clean { N.is_clean keeper.new → N.is_clean keeper.old }
    ensures crash { N.is_clean keeper.new → Within (N.may_leave keeper.new) (N.may_leave keeper.old) }
{
    let Some(counted) = counted_reading(keeper, point, slot)? else {
        return Ok(None);
    };
    let total = total_without(keeper, point, slot, counted.value)?;
    Ok(Some(Struck {
        reading: ReadingRow {
            point: point.number,
            slot,
            words: counted.words,
            counted: false,
        },
        total,
    }))
}

/// The change that voids a slot with what it takes out of the total.
fn voiding(alloc: Global, void: VoidRow, struck: Option<Struck>) -> Result<Change, AllocError>
    ensures alone { IfOk result (λ change. change ≡ record {
      points = [];
      readings = change.readings;
      totals = change.totals;
      void = Some void;
      setting = None;
      request = None;
      connections = None;
    }) }
    ensures readings { IfOk result (λ change. as_rows change.readings ≡ option_to_list (option_map (λ it. as_row it.reading) struck)) }
    ensures totals { IfOk result (λ change. as_sums change.totals ≡ option_to_list (option_map (λ it. as_sum it.total) struck)) }
{
    let mut readings = Vec::new(alloc);
    let mut totals = Vec::new(alloc);
    if let Some(it) = struck {
        readings.push(it.reading)?;
        totals.push(it.total)?;
    }
    Ok(Change {
        readings: Items::from_vec(readings),
        totals: Items::from_vec(totals),
        void: Some(void),
        ..Change::none(alloc)
    })
}

/// The change that takes a slot of a counter out of its total for good: the pair is voided, and a reading
/// of it that counts stays, but doesn't count any more. Of a pair that is voided already it is a change of
/// nothing. It makes at most five look-ups.
pub fn void_one<N: Neighbours>(
    alloc: Global,
    keeper: &mut N,
    point: &PointRow,
    slot: u32,
) -> Result<Change, StoreFault>
    ensures void { N.is_clean keeper.new → (kept : Tables) → N.holds keeper.old kept
        → IfOk result (λ change. change.void ≡ new_void kept.voids point.now slot) }
    ensures readings { N.is_clean keeper.new → (kept : Tables) → N.holds keeper.old kept
        → IfOk result (λ change. as_rows change.readings ≡ struck kept point.now slot) }
    ensures totals { N.is_clean keeper.new → (kept : Tables) → N.holds keeper.old kept → AreByKey kept.readings
        → sum_at kept.totals point.now.number ≡ Some (total point.now kept.readings)
        → IfOk result (λ change. as_sums change.totals ≡ struck_sums kept point.now slot) }
    ensures alone { IfOk result (λ change. change ≡ record {
      points = [];
      readings = change.readings;
      totals = change.totals;
      void = change.void;
      setting = None;
      request = None;
      connections = None;
    }) }
    ensures cause { Accounts N.may_refuse (N.refused keeper.old) (N.refused keeper.new) result }
    ensures looks { IsRaisedAtMost 5 (N.looked keeper.old) (N.looked keeper.new) }
    ensures same { Within (N.holds keeper.old) (N.holds keeper.new) }
    ensures clean { N.is_clean keeper.new → N.is_clean keeper.old }
    ensures crash { N.is_clean keeper.new → Within (N.may_leave keeper.new) (N.may_leave keeper.old) }
{
    if keeper.voided(point, slot)? {
        return Ok(Change::none(alloc));
    }
    let struck = strike(keeper, point, slot)?;
    let void = VoidRow {
        point: point.number,
        slot,
    };
    Ok(voiding(alloc, void, struck)?)
}
