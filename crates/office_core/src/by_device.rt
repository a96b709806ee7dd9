//! Known points by their devices.
ghost use Rattle.std.specs.Prelude.{◌≡◌, ◌≤◌, ◌++◌, ◌∷◌, [], cond, List, ℕ, OnOk, OnErr, length};
ghost use Rattle.std.specs.Str.{bytes_eq};
ghost use Rattle.poll_book.specs.declared.rows.PointRow.{PointRow};
ghost use Rattle.point_list.specs.Lists.{point_limit};
ghost use Rattle.office_core.specs.ByDevice.{AreDevicesOf, AreTheirs, listed};

use point_list::Label;
use poll_book::PointRow;
use std::alloc::{AllocError, Global};
use std::collections::BTreeMap;

/// So few points are gone through one by one: on the average that costs no more than to make a label and look it up.
const FEW: usize = 64;

/// The places of the first so many known points by the names of their devices, of each device in the points' order.
#[derive(Drop)]
pub(crate) struct ByDevice {
    alloc: Global,
    count: usize,
    places: BTreeMap<Label, Vec<u32>>,
}

impl ByDevice {
    /// No point stands in it.
    pub(crate) fn new(alloc: Global) -> ByDevice
        ensures { (known : List PointRow) → AreDevicesOf known result }
    {
        ByDevice {
            alloc,
            count: 0,
            places: BTreeMap::new(alloc),
        }
    }

    /// Puts a place behind those of a device. Without memory for it all stays.
    fn put(&mut self, device: Label, place: u32) -> Result<(), AllocError>
        ensures count { self.new.count ≡ self.old.count }
        ensures put { OnOk result ((other : List ℕ) → listed self.new other ≡ cond (bytes_eq device other) (listed self.old other ++ place ∷ []) (listed self.old other)) }
        ensures err { OnErr result ((other : List ℕ) → listed self.new other ≡ listed self.old other) }
    {
        if let Some(places) = self.places.get_mut(&device) {
            places.push(place)?;
            return Ok(());
        }
        let mut places = Vec::new(self.alloc);
        places.push(place)?;
        match self.places.insert(device, places) {
            Ok(_) => Ok(()),
            Err(_) => Err(AllocError),
        }
    }

    /// Puts so many points in that don't stand in it yet, or all where they are fewer, as far as there is memory.
    pub(crate) fn catch_up(&mut self, known: &[PointRow], some: usize)
        requires few { length known.now ≤ point_limit }
        requires of { AreDevicesOf known.now self.old }
        ensures { AreDevicesOf known.now self.new }
    {
        let missing = known.len() - self.count;
        let end = self.count + missing.min(some);
        while self.count < end {
            let row = known[self.count];
            let Ok(()) = self.put(row.point.device, self.count as u32) else {
                return;
            };
            self.count += 1;
        }
    }

    /// Puts one point in that doesn't stand in it yet, unless they are few.
    pub(crate) fn catch_up_one(&mut self, known: &[PointRow])
        requires few { length known.now ≤ point_limit }
        requires of { AreDevicesOf known.now self.old }
        ensures { AreDevicesOf known.now self.new }
    {
        if known.len() > FEW {
            self.catch_up(known, 1);
        }
    }

    /// The places of the points of a device, where all known points stand in it and it pays to go through these alone:
    /// not where the points are few, or of one device, or more than half of them are this one's.
    pub(crate) fn places(&self, known: &[PointRow], device: &[u8]) -> Option<&[u32]>
        requires { AreDevicesOf known.now self.now }
        ensures { AreTheirs known.now device.now result }
    {
        if self.count < known.len() || known.len() <= FEW || self.places.len() == 1 {
            return None;
        }
        let device = Label::new(device)?;
        match self.places.get(&device) {
            Some(places) => {
                if places.len() > known.len() / 2 {
                    return None;
                }
                Some(places.as_slice())
            }
            None => Some(&[]),
        }
    }
}
