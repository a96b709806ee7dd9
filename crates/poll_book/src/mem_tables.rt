//! Tables in memory.
ghost use Rattle.std.specs.Prelude.{◌≡◌, ◌+◌, ◌≤◌, ◌<◌, ◌^◌, ℕ, All, IfOk, IfSome, OnErr, OnOk, is_some, length, map, option_map};
ghost use Rattle.poll_book.specs.Tables as table;
ghost use Rattle.poll_book.specs.Tables.{no_tables, readings_between};
ghost use Rattle.poll_book.specs.Changes.{applied};
ghost use Rattle.poll_book.specs.Showing.{as_shown, with_marks};
ghost use Rattle.poll_book.specs.Histories.{IsRising, end_of, slot_of, slots_of};
ghost use Rattle.poll_book.specs.Orders as book;
ghost use Rattle.poll_book.specs.Orders.{as_setting, last_order, oldest_waiting};
ghost use Rattle.poll_book.specs.Requests as asked;
ghost use Rattle.poll_book.specs.Totals as totals;
ghost use Rattle.poll_book.specs.Totals.{value_after, value_before};

use crate::asked::{copy_of_request, put_request, request_at};
use crate::caller::{Caller, Key};
use crate::histories::{make_histories, put_all, slots_in, staged};
use crate::history::{History, SlotRow, slot_place};
use crate::marks::{Marks, forget_for, next_waiting, pass_settled, past_of, set_mark};
use crate::nearest::{first_counted, last_counted, slots_after, slots_before};
use crate::orders::{copy_of_setting, last_number, order_at, put_order, setting_at};
use crate::points::add_points;
use crate::requests::KeptRequest;
use crate::rows::{Change, PointRow, Reading, ReadingRow, Setting, SettingRow, TotalRow};
use crate::shown::ShownReading;
use crate::totals::{begin_totals, put_totals, stored_total};
use crate::voids::{Voids, is_void, may_be_void, put_void, take_void};
use std::alloc::{AllocError, Global};
use std::collections::BTreeMap;
use std::marker::Model;

/// The readings of each point stand by slot in a vector of their own: a look-up is a binary search,
/// and a reading after all others of its point is appended. Orders stand by number in a vector,
/// requests in a map.
#[derive(Drop)]
pub(crate) struct MemTables {
    points: Vec<PointRow>,
    // How many of the first points are numbered on from 1.
    counted: usize,
    histories: Vec<History>,
    voids: Voids,
    totals: Vec<TotalRow>,
    orders: Vec<SettingRow>,
    marks: Marks,
    requests: BTreeMap<(Caller, Key), KeptRequest>,
    connections: u32,
    alloc: Global,
}

impl Model for MemTables {
    ghost use Rattle.poll_book.specs.Tables.{Tables};

    ghost Value = { Tables };

    ghost use Rattle.poll_book.specs.Changes.{as_sums};
    ghost use Rattle.poll_book.specs.Histories.{readings_of};
    ghost use Rattle.poll_book.specs.Marks.{AreKept, settings_of};

    ghost view = { λ k. record {
      points = k.points.items;
      readings = readings_of k.histories.items;
      voids = k.voids.entries;
      totals = as_sums k.totals.items;
      settings = settings_of k.orders.items;
      requests = k.requests.entries;
      connections = k.connections;
    } };

    ghost invariant = { λ k. AreKept k.points.items k.counted k.histories.items k.totals.items k.orders.items k.marks };
}

impl MemTables {
    /// No point, no reading, no order and no request, before the first connection.
    pub(crate) fn new(alloc: Global) -> MemTables
        ensures { result ≡ no_tables }
    {
        MemTables {
            points: Vec::new(alloc),
            counted: 0,
            histories: Vec::new(alloc),
            voids: BTreeMap::new(alloc),
            totals: Vec::new(alloc),
            orders: Vec::new(alloc),
            marks: Marks::new(alloc),
            requests: BTreeMap::new(alloc),
            connections: 0,
            alloc,
        }
    }

    /// The reading of a point in a slot, if there is one.
    pub(crate) fn reading(&self, point: u32, slot: u32) -> Result<Option<Reading>, AllocError>
        ensures { IfOk result (λ found. found ≡ table.reading_at self.now.readings (point, slot)) }
    {
        let slots = slots_in(&self.histories, point);
        reading_at(slots, point, slot)
    }

    /// Whether a point has a reading in a slot.
    pub(crate) fn has_reading(&self, point: u32, slot: u32) -> bool
        ensures { result ≡ is_some (table.reading_at self.now.readings (point, slot)) }
    {
        has_slot(slots_in(&self.histories, point), slot)
    }

    /// The slot behind the last reading of a point; 0 if it has none.
    pub(crate) fn end(&self, point: u32) -> u64
        ensures value { result ≡ end_of point self.now.readings }
        ensures bound { result ≤ 2 ^ 32 }
    {
        slots_end(slots_in(&self.histories, point))
    }

    /// Whether a slot of a point is voided.
    pub(crate) fn voided(&self, point: u32, slot: u32) -> bool
        ensures { result ≡ table.is_void self.now.voids (point, slot) }
    {
        is_void(&self.voids, point, slot)
    }

    /// How many slots of points are voided.
    pub(crate) fn voids(&self) -> u64
        ensures { result ≡ length self.now.voids }
    {
        self.voids.len() as u64
    }

    /// The value of the nearest counted reading of a point before a slot, if there is one.
    pub(crate) fn before(&self, point: &PointRow, slot: u32) -> Option<u64>
        ensures value { result ≡ value_before point.now slot self.now.readings }
        ensures bound { IfSome result (λ number. number ≤ point.now.point.roll) }
    {
        let slots = slots_in(&self.histories, point.number);
        last_counted(&point.point, slots_before(slots, slot))
    }

    /// The value of the nearest counted reading of a point after a slot, if there is one.
    pub(crate) fn after(&self, point: &PointRow, slot: u32) -> Option<u64>
        ensures value { result ≡ value_after point.now slot self.now.readings }
        ensures bound { IfSome result (λ number. number ≤ point.now.point.roll) }
    {
        let slots = slots_in(&self.histories, point.number);
        first_counted(&point.point, slots_after(slots, slot))
    }

    /// What is stored of how far a counter went.
    pub(crate) fn total(&self, point: u32) -> u128
        ensures value { result ≡ totals.stored_total self.now.totals point }
        ensures slots { All (λ row. row.0.1 < 2 ^ 32) self.now.readings }
    {
        stored_total(&self.totals, point)
    }

    /// The known points.
    pub(crate) fn points(&self, alloc: Global) -> Result<Vec<PointRow>, AllocError>
        ensures { IfOk result (λ points. points.items ≡ self.now.points) }
    {
        Vec::from_slice(alloc, &self.points)
    }

    /// The readings of a point in the slots `from` to `to`, by slot, each with whether its slot is voided.
    pub(crate) fn readings(
        &self,
        alloc: Global,
        point: u32,
        from: u32,
        to: u32,
    ) -> Result<Vec<ShownReading>, AllocError>
        ensures { IfOk result (λ shown. map as_shown shown.items ≡ with_marks self.now.voids (readings_between point from to self.now.readings)) }
    {
        let slots = slots_in(&self.histories, point);
        shown_between(alloc, point, &self.voids, slots, from, to)
    }

    /// The request of a caller under a key, if there is one.
    pub(crate) fn request(
        &self,
        alloc: Global,
        caller: &Caller,
        key: &Key,
    ) -> Result<Option<KeptRequest>, AllocError>
        ensures { IfOk result (λ found. found ≡ asked.request_at self.now.requests (caller.now, key.now)) }
    {
        request_at(alloc, &self.requests, caller, key)
    }

    /// What the order of a number sets, if there is one.
    pub(crate) fn setting(&self, number: u32) -> Result<Option<Setting>, AllocError>
        ensures { IfOk result (λ found. found ≡ book.setting_at self.now.settings number) }
    {
        setting_at(&self.orders, number)
    }

    /// The oldest order that waits on the device of a name, if one does.
    pub(crate) fn oldest_waiting(&mut self, device: &str) -> Result<Option<SettingRow>, AllocError>
        ensures value { IfOk result (λ found. option_map as_setting found ≡ oldest_waiting self.old.points device.now self.old.settings) }
        ensures same { self.new ≡ self.old }
    {
        pass_settled(&mut self.marks, &self.orders);
        let from = past_of(&self.marks, device);
        let place = next_waiting(&self.points, self.counted, &self.orders, device, from);
        set_mark(&mut self.marks, device, place);
        order_at(&self.orders, place)
    }

    /// The number of the last order.
    pub(crate) fn orders(&self) -> u32
        ensures { result ≡ last_order self.now.settings }
    {
        last_number(&self.orders)
    }

    /// The number of the last connection.
    pub(crate) fn connections(&self) -> u32
        ensures { result ≡ self.now.connections }
    {
        self.connections
    }

    /// Writes the whole change or nothing.
    pub(crate) fn write(&mut self, change: &Change) -> Result<(), AllocError>
        ensures written { OnOk result (self.new ≡ applied change.now self.old) }
        ensures same { OnErr result (self.new ≡ self.old) }
    {
        let added = change.readings.as_slice();
        let totals = change.totals.as_slice();
        let points = change.points.as_slice();
        make_histories(self.alloc, &mut self.histories, added)?;
        let rows = staged(self.alloc, &mut self.histories, added)?;
        let setting = copy_of_setting(&change.setting)?;
        let request = copy_of_request(self.alloc, &change.request)?;
        self.points.reserve(points.len())?;
        self.totals.reserve(points.len() + totals.len())?;
        self.orders.reserve(1)?;
        let void = put_void(&mut self.voids, change.void)?;
        if let Err(error) = put_request(&mut self.requests, request) {
            take_void(&mut self.voids, void);
            return Err(error);
        }
        // From here on nothing can be refused.
        self.counted = add_points(&mut self.points, self.counted, points);
        begin_totals(&mut self.totals, points);
        put_totals(&mut self.totals, totals);
        forget_for(&mut self.marks, points);
        put_order(&mut self.orders, &mut self.marks, setting);
        put_all(&mut self.histories, rows);
        self.connections = change.connections.unwrap_or(self.connections);
        Ok(())
    }
}

fn reading_at(slots: &[SlotRow], point: u32, slot: u32) -> Result<Option<Reading>, AllocError>
    requires { IsRising slot_of slots.now }
    ensures { IfOk result (λ found. found ≡ table.reading_at (slots_of point slots.now) (point, slot)) }
{
    let Ok(place) = slot_place(slots, slot) else {
        return Ok(None);
    };
    let reading = &slots[place].reading;
    Ok(Some(Reading {
        words: reading.words.clone()?,
        counted: reading.counted,
    }))
}

fn has_slot(slots: &[SlotRow], slot: u32) -> bool
    requires { IsRising slot_of slots.now }
    ensures { (point : ℕ) → result ≡ is_some (table.reading_at (slots_of point slots.now) (point, slot)) }
{
    slot_place(slots, slot).is_ok()
}

fn behind(slot: u32) -> u64
    ensures value { result ≡ slot + 1 }
    ensures bound { result ≤ 2 ^ 32 }
{
    u64::from(slot) + 1
}

fn slots_end(slots: &[SlotRow]) -> u64
    ensures value { (point : ℕ) → result ≡ end_of point (slots_of point slots.now) }
    ensures bound { result ≤ 2 ^ 32 }
{
    match slots.last() {
        Some(row) => behind(row.slot),
        None => 0,
    }
}

fn shown_between(
    alloc: Global,
    point: u32,
    voids: &Voids,
    slots: &[SlotRow],
    from: u32,
    to: u32,
) -> Result<Vec<ShownReading>, AllocError>
    ensures { IfOk result (λ shown. map as_shown shown.items ≡ with_marks voids.now.entries (readings_between point from to (slots_of point slots.now))) }
{
    let mut shown = Vec::new(alloc);
    // A look-up for each reading is spared where no slot of the point is voided.
    let may_be_void = may_be_void(voids, point, from, to);
    for row in slots {
        if from <= row.slot && row.slot <= to {
            let reading = ReadingRow {
                point,
                slot: row.slot,
                words: row.reading.words.clone()?,
                counted: row.reading.counted,
            };
            let voided = may_be_void && is_void(voids, point, row.slot);
            shown.push(ShownReading { reading, voided })?;
        }
    }
    Ok(shown)
}
