//! How far the orders in memory were searched for one that waits.
ghost use Rattle.std.specs.Prelude.{◌≡◌, ◌++◌, List, option_map, slice_get};
ghost use Rattle.poll_book.specs.Orders.{as_setting, oldest_waiting};
ghost use Rattle.poll_book.specs.Marks.{AreCounted, ArePast, AreRight, AreSettled, IsPast, settings_of};
ghost use Rattle.poll_book.specs.declared.rows.PointRow.{PointRow as Known};
ghost use Rattle.poll_book.specs.declared.rows.SettingRow.{SettingRow as Order};

use crate::points::{is_waiting, waits_on};
use crate::rows::{PointRow, SettingRow};
use point_list::Label;
use std::alloc::Global;
use std::collections::BTreeMap;

/// How far the orders were searched.
#[derive(Drop)]
pub(crate) struct Marks {
    // For each device, by its name: none of so many first orders waits on it. So each order is passed
    // once for each device at most.
    past: BTreeMap<Label, usize>,
    // None of so many first orders waits at all. These are passed once more, for all devices.
    settled: usize,
}

impl Marks {
    /// Nothing is passed yet.
    pub(crate) fn new(alloc: Global) -> Marks
        ensures { (points : List Known) → (orders : List Order) → AreRight points orders result }
    {
        Marks {
            past: BTreeMap::new(alloc),
            settled: 0,
        }
    }

    /// Forgets all that was passed.
    pub(crate) fn forget(&mut self)
        ensures { (points : List Known) → (orders : List Order) → AreRight points orders self.new }
    {
        self.past.clear();
        self.settled = 0;
    }
}

/// How many first orders the device's own mark has passed, 0 where it has none.
fn mark_of(past: &BTreeMap<Label, usize>, device: &str) -> usize
    ensures { (points : List Known) → (orders : List Order) → ArePast points orders past.now
        → IsPast points orders device.now result }
{
    match Label::new(device.as_bytes()) {
        Some(device) => past.get(&device).copied().unwrap_or(0),
        None => 0,
    }
}

/// How many first orders are passed for the device: those that its mark has passed, or those that are
/// settled, where these are more.
pub(crate) fn past_of(marks: &Marks, device: &str) -> usize
    ensures { (points : List Known) → (orders : List Order) → AreRight points orders marks.now
        → IsPast points orders device.now result }
{
    let past = mark_of(&marks.past, device);
    if past < marks.settled {
        marks.settled
    } else {
        past
    }
}

/// How many first orders don't wait, of which so many are known not to.
#[tactic(auto, using(crate::proofs::Marked::settled_more))]
fn settled_on(orders: &[SettingRow], settled: usize) -> usize
    requires { AreSettled orders.now settled }
    ensures { AreSettled orders.now result }
{
    let mut count = settled;
    while count < orders.len() && !is_waiting(orders[count].state) {
        count += 1;
    }
    count
}

/// Passes the next orders while they don't wait.
pub(crate) fn pass_settled(marks: &mut Marks, orders: &[SettingRow])
    requires { AreSettled orders.now marks.old.settled }
    ensures { (points : List Known) → AreRight points orders.now marks.old → AreRight points orders.now marks.new }
{
    marks.settled = settled_on(orders, marks.settled);
}

/// The place of the first order from a place on that waits on the device, or the end.
pub(crate) fn next_waiting(
    points: &[PointRow],
    counted: usize,
    orders: &[SettingRow],
    device: &str,
    from: usize,
) -> usize
    requires counted { AreCounted points.now counted }
    requires past { IsPast points.now orders.now device.now from }
    ensures past { IsPast points.now orders.now device.now result }
    ensures here { option_map as_setting (slice_get orders.now result)
        ≡ oldest_waiting points.now device.now (settings_of orders.now) }
{
    for place in from..orders.len() {
        if waits_on(points, counted, device, &orders[place]) {
            return place;
        }
    }
    orders.len()
}

/// Sets the device's mark, over the one that it has. A new mark is left out where memory is refused, or
/// where the device's name is no label: a mark only saves work.
pub(crate) fn set_mark(marks: &mut Marks, device: &str, past: usize)
    ensures { (points : List Known) → (orders : List Order) → AreRight points orders marks.old
        → IsPast points orders device.now past → AreRight points orders marks.new }
{
    if let Some(device) = Label::new(device.as_bytes()) {
        let _ = marks.past.insert(device, past);
    }
}

/// Forgets the devices' marks where points come: an order may wait on a device that had none. What is
/// settled speaks of no point, and stays.
pub(crate) fn forget_for(marks: &mut Marks, added: &[PointRow])
    ensures { (points : List Known) → (orders : List Order) → AreRight points orders marks.old
        → AreRight (points ++ added.now) orders marks.new }
{
    if !added.is_empty() {
        marks.past.clear();
    }
}
