//! What keeps the tables of an office.
ghost use Rattle.poll_book.specs.declared.fault.StoreFault.{StoreFault};
ghost use Rattle.std.specs.Prelude.{◌≡◌, ◌⊎◌, ◌<◌, ◌≤◌, ◌^◌, ℕ, All, IfSome, IfErr, IfOk, OnOk, OnErr, is_some, length, map, option_map};
ghost use Rattle.poll_book.specs.Fault.{CountsRefusal, IsCountedOn};
ghost use Rattle.poll_book.specs.Looks.{CountsShown};
ghost use Rattle.poll_book.specs.Tables.{Tables, Within, is_void, reading_at, readings_between};
ghost use Rattle.poll_book.specs.Orders.{as_setting, last_order, oldest_waiting, setting_at};
ghost use Rattle.poll_book.specs.Requests.{request_at};
ghost use Rattle.poll_book.specs.Changes.{IsNew, applied};
ghost use Rattle.poll_book.specs.Showing.{as_shown, with_marks};
ghost use Rattle.poll_book.specs.Histories.{end_of};
ghost use Rattle.poll_book.specs.Totals.{stored_total, value_after, value_before};

use crate::caller::{Caller, Key};
use crate::fault::StoreFault;
use crate::requests::KeptRequest;
use crate::rows::{Change, PointRow, Reading, Setting, SettingRow};
use crate::shown::ShownReading;
use std::alloc::Global;

/// A keeper's tables, seen from the points of a reply.
pub trait Neighbours {
    /// As far as it can still be read, it holds these tables.
    ghost holds: { Self → Tables → Type 0 };

    /// No wrong answer of a disk was taken as true. Memory is always clean.
    ghost is_clean: { Self → Type 0 };

    /// What a crash at this moment may leave.
    ghost may_leave: { Self → Tables → Type 0 };

    /// The faults that its calls may answer.
    ghost may_refuse: { StoreFault → Type 0 };

    /// How many of its calls were refused.
    ghost refused: { Self → ℕ };

    /// How many look-ups it made: one for each of the calls of a point here; and where `readings` gives
    /// readings, one for each, and one more for their marks, which are read at once.
    ghost looked: { Self → ℕ };

    /// The reading of a point in a slot, if there is one.
    fn reading(&mut self, point: &PointRow, slot: u32) -> Result<Option<Reading>, StoreFault>
        ensures value { is_clean self.new → (kept : Tables) → holds self.old kept
            → IfOk result (λ found. found ≡ reading_at kept.readings (point.now.number, slot)) }
        ensures cause { IfErr result (λ fault. may_refuse fault) }
        ensures counted { CountsRefusal (refused self.old) (refused self.new) result }
        ensures looked { IsCountedOn (looked self.old) (looked self.new) }
        ensures same { Within (holds self.old) (holds self.new) }
        ensures clean { is_clean self.new → is_clean self.old }
        ensures crash { is_clean self.new → Within (may_leave self.new) (may_leave self.old) };

    /// Whether a point has a reading in a slot.
    fn has_reading(&mut self, point: &PointRow, slot: u32) -> Result<bool, StoreFault>
        ensures value { is_clean self.new → (kept : Tables) → holds self.old kept
            → IfOk result (λ has. has ≡ is_some (reading_at kept.readings (point.now.number, slot))) }
        ensures cause { IfErr result (λ fault. may_refuse fault) }
        ensures counted { CountsRefusal (refused self.old) (refused self.new) result }
        ensures looked { IsCountedOn (looked self.old) (looked self.new) }
        ensures same { Within (holds self.old) (holds self.new) }
        ensures clean { is_clean self.new → is_clean self.old }
        ensures crash { is_clean self.new → Within (may_leave self.new) (may_leave self.old) };

    /// The slot behind the last reading of a point, whether it counts or not; 0 if the point has none.
    fn end(&mut self, point: &PointRow) -> Result<u64, StoreFault>
        ensures value { is_clean self.new → (kept : Tables) → holds self.old kept
            → IfOk result (λ end. end ≡ end_of point.now.number kept.readings) }
        ensures bound { IfOk result (λ end. end ≤ 2 ^ 32) }
        ensures cause { IfErr result (λ fault. may_refuse fault) }
        ensures counted { CountsRefusal (refused self.old) (refused self.new) result }
        ensures looked { IsCountedOn (looked self.old) (looked self.new) }
        ensures same { Within (holds self.old) (holds self.new) }
        ensures clean { is_clean self.new → is_clean self.old }
        ensures crash { is_clean self.new → Within (may_leave self.new) (may_leave self.old) };

    /// Whether a slot of a point is voided.
    fn voided(&mut self, point: &PointRow, slot: u32) -> Result<bool, StoreFault>
        ensures value { is_clean self.new → (kept : Tables) → holds self.old kept
            → IfOk result (λ is. is ≡ is_void kept.voids (point.now.number, slot)) }
        ensures cause { IfErr result (λ fault. may_refuse fault) }
        ensures counted { CountsRefusal (refused self.old) (refused self.new) result }
        ensures looked { IsCountedOn (looked self.old) (looked self.new) }
        ensures same { Within (holds self.old) (holds self.new) }
        ensures clean { is_clean self.new → is_clean self.old }
        ensures crash { is_clean self.new → Within (may_leave self.new) (may_leave self.old) };

    /// The value of the nearest counted reading of a point before a slot, if there is one.
    fn before(&mut self, point: &PointRow, slot: u32) -> Result<Option<u64>, StoreFault>
        ensures value { is_clean self.new → (kept : Tables) → holds self.old kept
            → IfOk result (λ found. found ≡ value_before point.now slot kept.readings) }
        ensures bound { IfOk result (λ found. IfSome found (λ number. number ≤ point.now.point.roll)) }
        ensures cause { IfErr result (λ fault. may_refuse fault) }
        ensures counted { CountsRefusal (refused self.old) (refused self.new) result }
        ensures looked { IsCountedOn (looked self.old) (looked self.new) }
        ensures same { Within (holds self.old) (holds self.new) }
        ensures clean { is_clean self.new → is_clean self.old }
        ensures crash { is_clean self.new → Within (may_leave self.new) (may_leave self.old) };

    /// The value of the nearest counted reading of a point after a slot, if there is one.
    fn after(&mut self, point: &PointRow, slot: u32) -> Result<Option<u64>, StoreFault>
        ensures value { is_clean self.new → (kept : Tables) → holds self.old kept
            → IfOk result (λ found. found ≡ value_after point.now slot kept.readings) }
        ensures bound { IfOk result (λ found. IfSome found (λ number. number ≤ point.now.point.roll)) }
        ensures cause { IfErr result (λ fault. may_refuse fault) }
        ensures counted { CountsRefusal (refused self.old) (refused self.new) result }
        ensures looked { IsCountedOn (looked self.old) (looked self.new) }
        ensures same { Within (holds self.old) (holds self.new) }
        ensures clean { is_clean self.new → is_clean self.old }
        ensures crash { is_clean self.new → Within (may_leave self.new) (may_leave self.old) };

    /// What is stored of how far a counter went; 0 for a point that is no counter. No slot that is kept
    /// passes 32 bits, so that a total has room.
    fn total(&mut self, point: &PointRow) -> Result<u128, StoreFault>
        ensures value { is_clean self.new → (kept : Tables) → holds self.old kept
            → IfOk result (λ sum. sum ≡ stored_total kept.totals point.now.number) }
        ensures slots { is_clean self.new → (kept : Tables) → holds self.old kept
            → OnOk result (All (λ row. row.0.1 < 2 ^ 32) kept.readings) }
        ensures cause { IfErr result (λ fault. may_refuse fault) }
        ensures counted { CountsRefusal (refused self.old) (refused self.new) result }
        ensures looked { IsCountedOn (looked self.old) (looked self.new) }
        ensures same { Within (holds self.old) (holds self.new) }
        ensures clean { is_clean self.new → is_clean self.old }
        ensures crash { is_clean self.new → Within (may_leave self.new) (may_leave self.old) };

    /// How many look-ups were made, up to the greatest count.
    fn lookups(&self) -> u64
        ensures { result ≡ looked self.now };

    /// How many calls were refused, up to the greatest count.
    fn refusals(&self) -> u64
        ensures { result ≡ refused self.now };
}

/// What keeps an office's tables.
pub trait Keeper: Neighbours {
    /// The known points, by their numbers.
    fn points(&mut self, alloc: Global) -> Result<Vec<PointRow>, StoreFault>
        ensures value { Self.is_clean self.new → (kept : Tables) → Self.holds self.old kept
            → IfOk result (λ points. points.items ≡ kept.points) }
        ensures cause { IfErr result (λ fault. Self.may_refuse fault) }
        ensures counted { CountsRefusal (Self.refused self.old) (Self.refused self.new) result }
        ensures looked { Self.looked self.new ≡ Self.looked self.old }
        ensures same { Within (Self.holds self.old) (Self.holds self.new) }
        ensures clean { Self.is_clean self.new → Self.is_clean self.old }
        ensures crash { Self.is_clean self.new
            → Within (Self.may_leave self.new) (Self.may_leave self.old) };

    /// The readings of a point in the slots `from` to `to`, by slot, each with whether its slot is voided.
    fn readings(
        &mut self,
        alloc: Global,
        point: &PointRow,
        from: u32,
        to: u32,
    ) -> Result<Vec<ShownReading>, StoreFault>
        ensures value { Self.is_clean self.new → (kept : Tables) → Self.holds self.old kept
            → IfOk result (λ shown. map as_shown shown.items ≡ with_marks kept.voids (readings_between point.now.number from to kept.readings)) }
        ensures cause { IfErr result (λ fault. Self.may_refuse fault) }
        ensures counted { CountsRefusal (Self.refused self.old) (Self.refused self.new) result }
        ensures looked { CountsShown (Self.looked self.old) (Self.looked self.new) result }
        ensures same { Within (Self.holds self.old) (Self.holds self.new) }
        ensures clean { Self.is_clean self.new → Self.is_clean self.old }
        ensures crash { Self.is_clean self.new
            → Within (Self.may_leave self.new) (Self.may_leave self.old) };

    /// The request of a caller under a key, if there is one.
    fn request(
        &mut self,
        alloc: Global,
        caller: &Caller,
        key: &Key,
    ) -> Result<Option<KeptRequest>, StoreFault>
        ensures value { Self.is_clean self.new → (kept : Tables) → Self.holds self.old kept
            → IfOk result (λ found. found ≡ request_at kept.requests (caller.now, key.now)) }
        ensures cause { IfErr result (λ fault. Self.may_refuse fault) }
        ensures counted { CountsRefusal (Self.refused self.old) (Self.refused self.new) result }
        ensures looked { Self.looked self.new ≡ Self.looked self.old }
        ensures same { Within (Self.holds self.old) (Self.holds self.new) }
        ensures clean { Self.is_clean self.new → Self.is_clean self.old }
        ensures crash { Self.is_clean self.new
            → Within (Self.may_leave self.new) (Self.may_leave self.old) };

    /// What the order of this number sets, if there is one.
    fn setting(&mut self, number: u32) -> Result<Option<Setting>, StoreFault>
        ensures value { Self.is_clean self.new → (kept : Tables) → Self.holds self.old kept
            → IfOk result (λ found. found ≡ setting_at kept.settings number) }
        ensures cause { IfErr result (λ fault. Self.may_refuse fault) }
        ensures counted { CountsRefusal (Self.refused self.old) (Self.refused self.new) result }
        ensures looked { Self.looked self.new ≡ Self.looked self.old }
        ensures same { Within (Self.holds self.old) (Self.holds self.new) }
        ensures clean { Self.is_clean self.new → Self.is_clean self.old }
        ensures crash { Self.is_clean self.new
            → Within (Self.may_leave self.new) (Self.may_leave self.old) };

    /// The oldest order that waits on the device of this name, if one does.
    fn oldest_waiting(&mut self, device: &str) -> Result<Option<SettingRow>, StoreFault>
        ensures value { Self.is_clean self.new → (kept : Tables) → Self.holds self.old kept
            → IfOk result (λ found. option_map as_setting found ≡ oldest_waiting kept.points device.now kept.settings) }
        ensures cause { IfErr result (λ fault. Self.may_refuse fault) }
        ensures counted { CountsRefusal (Self.refused self.old) (Self.refused self.new) result }
        ensures looked { Self.looked self.new ≡ Self.looked self.old }
        ensures same { Within (Self.holds self.old) (Self.holds self.new) }
        ensures clean { Self.is_clean self.new → Self.is_clean self.old }
        ensures crash { Self.is_clean self.new
            → Within (Self.may_leave self.new) (Self.may_leave self.old) };

    /// The number of the last order, 0 before the first.
    fn orders(&mut self) -> Result<u32, StoreFault>
        ensures value { Self.is_clean self.new → (kept : Tables) → Self.holds self.old kept
            → IfOk result (λ orders. orders ≡ last_order kept.settings) }
        ensures cause { IfErr result (λ fault. Self.may_refuse fault) }
        ensures counted { CountsRefusal (Self.refused self.old) (Self.refused self.new) result }
        ensures looked { Self.looked self.new ≡ Self.looked self.old }
        ensures same { Within (Self.holds self.old) (Self.holds self.new) }
        ensures clean { Self.is_clean self.new → Self.is_clean self.old }
        ensures crash { Self.is_clean self.new
            → Within (Self.may_leave self.new) (Self.may_leave self.old) };

    /// How many slots of points are voided.
    fn voids(&mut self) -> Result<u64, StoreFault>
        ensures value { Self.is_clean self.new → (kept : Tables) → Self.holds self.old kept
            → IfOk result (λ voids. voids ≡ length kept.voids) }
        ensures cause { IfErr result (λ fault. Self.may_refuse fault) }
        ensures counted { CountsRefusal (Self.refused self.old) (Self.refused self.new) result }
        ensures looked { Self.looked self.new ≡ Self.looked self.old }
        ensures same { Within (Self.holds self.old) (Self.holds self.new) }
        ensures clean { Self.is_clean self.new → Self.is_clean self.old }
        ensures crash { Self.is_clean self.new
            → Within (Self.may_leave self.new) (Self.may_leave self.old) };

    /// The number of the last connection, 0 before the first.
    fn connections(&mut self) -> Result<u32, StoreFault>
        ensures value { Self.is_clean self.new → (kept : Tables) → Self.holds self.old kept
            → IfOk result (λ connections. connections ≡ kept.connections) }
        ensures cause { IfErr result (λ fault. Self.may_refuse fault) }
        ensures counted { CountsRefusal (Self.refused self.old) (Self.refused self.new) result }
        ensures looked { Self.looked self.new ≡ Self.looked self.old }
        ensures same { Within (Self.holds self.old) (Self.holds self.new) }
        ensures clean { Self.is_clean self.new → Self.is_clean self.old }
        ensures crash { Self.is_clean self.new
            → Within (Self.may_leave self.new) (Self.may_leave self.old) };

    /// Writes the whole change or nothing.
    fn apply(&mut self, change: &Change) -> Result<(), StoreFault>
        ensures ok { (kept : Tables) → Self.holds self.old kept → IsNew change.now kept
            → OnOk result (Self.holds self.new (applied change.now kept)) }
        ensures cause { IfErr result (λ fault. Self.may_refuse fault) }
        ensures counted { CountsRefusal (Self.refused self.old) (Self.refused self.new) result }
        ensures looked { Self.looked self.new ≡ Self.looked self.old }
        ensures err { OnErr result (Within (Self.holds self.old) (Self.holds self.new)) }
        ensures clean { Self.is_clean self.new → Self.is_clean self.old }

        // A crash leaves what it could leave before, or the whole change; after `Ok` the change alone.
        ensures crash { Self.is_clean self.new
            → (kept : Tables) → Self.holds self.old kept → IsNew change.now kept
            → (left : Tables) → Self.may_leave self.new left
            → Self.may_leave self.old left ⊎ (left ≡ applied change.now kept) }
        ensures durable { Self.is_clean self.new
            → (kept : Tables) → Self.holds self.old kept → IsNew change.now kept
            → OnOk result ((left : Tables) → Self.may_leave self.new left → left ≡ applied change.now kept) };
}
