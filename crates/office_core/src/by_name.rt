//! Known points by their names.
ghost use Rattle.std.specs.Prelude.{◌≡◌, ◌≤◌, None, Some, cond, List, ℕ, OnOk, OnErr, length, option_copied};
ghost use Rattle.std.specs.Option.{option_or};
ghost use Rattle.std.specs.Str.{bytes_eq};
ghost use Rattle.poll_book.specs.declared.rows.PointRow.{PointRow};
ghost use Rattle.point_list.specs.Lists.{point_limit};
ghost use Rattle.office_core.specs.ByName.{AreNamesOf, place_of, row_at};
ghost use Rattle.office_core.specs.Loads as loads;

use crate::loads::known_named;
use point_list::Name;
use poll_book::PointRow;
use std::alloc::{AllocError, Global};
use std::collections::BTreeMap;

/// So few points are looked through one by one: on the average that costs no more than to make a name and look it up.
const FEW: usize = 64;

/// The places of the first so many known points by their names, of each name the first.
#[derive(Drop)]
pub(crate) struct ByName {
    count: usize,
    places: BTreeMap<Name, u32>,
}

impl ByName {
    /// No point stands in it.
    pub(crate) fn new(alloc: Global) -> ByName
        ensures { (known : List PointRow) → AreNamesOf known result }
    {
        ByName {
            count: 0,
            places: BTreeMap::new(alloc),
        }
    }

    /// Puts a place under a name that has none. Without memory for it all stays.
    fn put(&mut self, name: Name, place: u32) -> Result<(), AllocError>
        ensures count { self.new.count ≡ self.old.count }
        ensures put { OnOk result ((other : List ℕ) → place_of self.new other ≡ option_or (place_of self.old other) (cond (bytes_eq name other) (Some place) None)) }
        ensures err { OnErr result ((other : List ℕ) → place_of self.new other ≡ place_of self.old other) }
    {
        if self.places.contains_key(&name) {
            return Ok(());
        }
        match self.places.insert(name, place) {
            Ok(_) => Ok(()),
            Err(_) => Err(AllocError),
        }
    }

    /// Puts so many points in that don't stand in it yet, or all where they are fewer.
    pub(crate) fn catch_up(&mut self, known: &[PointRow], some: usize) -> Result<(), AllocError>
        requires few { length known.now ≤ point_limit }
        requires of { AreNamesOf known.now self.old }
        ensures { AreNamesOf known.now self.new }
    {
        let missing = known.len() - self.count;
        let end = self.count + missing.min(some);
        while self.count < end {
            let name = known[self.count].point.name;
            self.put(name, self.count as u32)?;
            self.count += 1;
        }
        Ok(())
    }

    /// Puts one point in that doesn't stand in it yet, unless they are few.
    pub(crate) fn catch_up_one(&mut self, known: &[PointRow])
        requires few { length known.now ≤ point_limit }
        requires of { AreNamesOf known.now self.old }
        ensures { AreNamesOf known.now self.new }
    {
        if known.len() > FEW {
            let _ = self.catch_up(known, 1);
        }
    }

    /// Whether it serves for many names: all known points stand in it, or they are few.
    pub(crate) fn is_ready(&self, known: &[PointRow]) -> bool {
        self.count >= known.len() || known.len() <= FEW
    }

    /// The point at the place that stands under a name.
    fn row<'a>(&self, known: &'a [PointRow], name: &Name) -> Option<&'a PointRow>
        ensures { option_copied result ≡ row_at known.now (place_of self.now name.now) }
    {
        match self.places.get(name) {
            Some(place) => known.get(*place as usize),
            None => None,
        }
    }

    /// The known point of a name. It is looked for one by one where not all points stand in it, or they are few.
    pub(crate) fn find(&self, known: &[PointRow], name: &[u8]) -> Option<PointRow>
        requires { AreNamesOf known.now self.now }
        ensures { result ≡ loads.known_named known.now name.now }
    {
        if self.count < known.len() || known.len() <= FEW {
            return known_named(known, name);
        }
        match Name::new(name) {
            Some(name) => self.row(known, &name).copied(),
            None => known_named(known, name),
        }
    }
}
