//! The counted readings nearest to a slot.
ghost use Rattle.std.specs.Prelude.{◌≡◌, ◌≤◌, IfSome};
ghost use Rattle.poll_book.specs.declared.rows.PointRow.{PointRow};
ghost use Rattle.poll_book.specs.Histories.{IsRising, counted_in, slot_of, slots_of};
ghost use Rattle.poll_book.specs.Totals.{first_of, last_of, numbers_after, numbers_before};

use crate::counting::number_of;
use crate::history::{SlotRow, slot_place};
use point_list::Point;

/// The slots before a slot.
pub(crate) fn slots_before(slots: &[SlotRow], slot: u32) -> &[SlotRow]
    requires { IsRising slot_of slots.now }
    ensures { (known : PointRow) → counted_in known.point result.now ≡ numbers_before known slot (slots_of known.number slots.now) }
{
    match slot_place(slots, slot) {
        Ok(place) => &slots[..place],
        Err(place) => &slots[..place],
    }
}

/// The slots after a slot.
pub(crate) fn slots_after(slots: &[SlotRow], slot: u32) -> &[SlotRow]
    requires { IsRising slot_of slots.now }
    ensures { (known : PointRow) → counted_in known.point result.now ≡ numbers_after known slot (slots_of known.number slots.now) }
{
    match slot_place(slots, slot) {
        Ok(place) => &slots[place + 1..],
        Err(place) => &slots[place..],
    }
}

/// The number of the first reading of these that counts.
pub(crate) fn first_counted(point: &Point, slots: &[SlotRow]) -> Option<u64>
    ensures value { result ≡ first_of (counted_in point.now slots.now) }
    ensures bound { IfSome result (λ number. number ≤ point.now.roll) }
{
    for row in slots {
        if let Some(number) = number_of(point, &row.reading) {
            return Some(number);
        }
    }
    None
}

/// The number of the last reading of these that counts.
pub(crate) fn last_counted(point: &Point, slots: &[SlotRow]) -> Option<u64>
    ensures value { result ≡ last_of (counted_in point.now slots.now) }
    ensures bound { IfSome result (λ number. number ≤ point.now.roll) }
{
    let mut place = slots.len();
    while 0 < place {
        place -= 1;
        if let Some(number) = number_of(point, &slots[place].reading) {
            return Some(number);
        }
    }
    None
}
