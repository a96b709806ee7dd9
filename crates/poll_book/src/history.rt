//! A point's readings by slot, and where they stand.
ghost use Rattle.std.specs.Prelude.{◌≡◌, ◌+◌, ◌<◌, ◌≤◌, map, Contains, IsOk, IfOk, IfErr, vec_len, vec_capacity};
ghost use Rattle.poll_book.specs.Tables.{with_row};
ghost use Rattle.poll_book.specs.Histories.{AreSmall, IsAt, IsGap, IsRising, point_of, slot_of, slots_of};

use crate::keyed::{Keyed, place_behind, place_numbered};
use crate::rows::Reading;

/// What is kept of a point in a slot.
#[derive(Drop)]
pub(crate) struct SlotRow {
    pub slot: u32,
    pub reading: Reading,
}

/// The readings of a point, by slot.
#[derive(Drop)]
pub(crate) struct History {
    pub point: u32,
    pub slots: Vec<SlotRow>,
}

impl Keyed for SlotRow {
    ghost key_of = { slot_of };

    fn key(&self) -> u32 {
        self.slot
    }
}

impl Keyed for History {
    ghost key_of = { point_of };

    fn key(&self) -> u32 {
        self.point
    }
}

/// Where the slot stands, or where it would go.
pub(crate) fn slot_place(slots: &[SlotRow], slot: u32) -> Result<usize, usize>
    requires { IsRising slot_of slots.now }
    ensures found { IfOk result (IsAt slot_of slots.now slot) }
    ensures absent { IfErr result (IsGap slot_of slots.now slot) }
{
    place_behind(slots, slot)
}

/// Where the point's history stands, or where it would go. Points are numbered from 1, and all may have one.
pub(crate) fn history_place(histories: &[History], point: u32) -> Result<usize, usize>
    requires { IsRising point_of histories.now }
    ensures found { IfOk result (IsAt point_of histories.now point) }
    ensures absent { IfErr result (IsGap point_of histories.now point) }
    ensures known { Contains (map point_of histories.now) point → IsOk result }
{
    place_numbered(histories, point)
}

impl History {
    /// Puts a reading under its slot. There is room for one more.
    pub(crate) fn put(&mut self, slot: u32, reading: Reading)
        requires rising { IsRising slot_of self.old.slots.items }
        requires room { vec_len self.old.slots < vec_capacity self.old.slots }
        requires small { AreSmall self.old.slots.items }
        ensures rising { IsRising slot_of self.new.slots.items }
        ensures put { slots_of self.new.point self.new.slots.items
            ≡ with_row (self.old.point, slot) reading (slots_of self.old.point self.old.slots.items) }
        ensures small { AreSmall self.new.slots.items }
        ensures point { self.new.point ≡ self.old.point }
        ensures longer { vec_len self.new.slots ≤ vec_len self.old.slots + 1 }
        ensures capacity { vec_capacity self.old.slots ≤ vec_capacity self.new.slots }
    {
        match slot_place(&self.slots, slot) {
            Ok(place) => self.slots[place] = SlotRow { slot, reading },
            Err(place) => {
                let _ = self.slots.insert(place, SlotRow { slot, reading });
            }
        }
    }
}
