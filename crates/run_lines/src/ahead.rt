//! Counters that are counted in slots to come: the clock was another one once, or slots had another length.
ghost use Rattle.std.specs.Prelude.{◌≡◌, ◌==◌, ◌↔◌, IsTrue, if◌then◌else◌};
ghost use Rattle.office_core.specs.Proceeding.{GoesAlong, Nothing};
ghost use Rattle.run_lines.specs.Outlooks as outlooks;
ghost use Rattle.run_lines.specs.declared.ahead.Outlook.TheVariants as outlook;

use crate::event::Event;
use crate::journal::Journal;
use crate::station::Stations;
use office_core::{Office, OfficeError};
use office_net::last_counted;
use point_list::{Name, Role};
use poll_book::{Keeper, PointRow};

/// A counter, by its number, and the last slot in which it is counted, which is to come.
#[derive(Clone, Copy, Debug, PartialEq, Eq)]
pub struct Ahead {
    pub point: u32,
    pub slot: u32,
}

/// What is known of the counters of a line.
#[derive(Clone, Copy, Debug, PartialEq, Eq)]
enum Outlook {
    /// They weren't looked at, or not since a slot was voided.
    Unknown,
    /// None is counted in a slot to come.
    Clear,
    /// One is, and none in a later slot.
    Ahead(Ahead),
}

/// The last slot behind one in which a counter is counted.
fn last_slot<K: Keeper>(
    office: &mut Office<K>,
    counter: &PointRow,
    after: u32,
) -> Result<Option<u32>, OfficeError>
    ensures { GoesAlong Nothing office.old office.new }
{
    last_counted(office, counter.number, after)
}

/// The point in a place, if it is a counter of one of these devices.
fn counter_at<K: Keeper>(
    office: &Office<K>,
    stations: &Stations,
    place: usize,
) -> Option<PointRow> {
    let row = office.points().get(place)?;
    if row.point.role == Role::Counter && stations.have(row.point.device.as_str()) {
        Some(*row)
    } else {
        None
    }
}

/// How far behind a slot the point in a place is counted, if it is a counter of one of these devices.
fn ahead_at<K: Keeper>(
    office: &mut Office<K>,
    stations: &Stations,
    place: usize,
    after: u32,
) -> Result<Option<Ahead>, OfficeError>
    ensures { GoesAlong Nothing office.old office.new }
{
    let Some(counter) = counter_at(office, stations, place) else {
        return Ok(None);
    };
    let point = counter.number;
    let last = last_slot(office, &counter, after)?;
    Ok(last.map(|slot| Ahead { point, slot }))
}

/// The counter of these devices that is counted farthest behind a slot.
fn farthest<K: Keeper>(
    office: &mut Office<K>,
    stations: &Stations,
    slot: u32,
) -> Result<Option<Ahead>, OfficeError>
    ensures { GoesAlong Nothing office.old office.new }
{
    let mut found = None;
    let mut after = slot;
    for place in 0..office.points().len() {
        let later = ahead_at(office, stations, place, after)?;
        if let Some(ahead) = later {
            after = ahead.slot;
            found = later;
        }
    }
    Ok(found)
}

/// The name of the point of a number.
fn name_of<K: Keeper>(office: &Office<K>, number: u32) -> Option<Name> {
    Some(office.point_numbered(number)?.point.name)
}

impl Outlook {
    /// Whether a slot may be begun: it is known that no counter is counted in a later one.
    fn admits(self, slot: u32) -> bool
        ensures { result ≡ outlooks.admits slot self }
    {
        match self {
            Outlook::Unknown => false,
            Outlook::Clear => true,
            Outlook::Ahead(ahead) => ahead.slot <= slot,
        }
    }

    /// The counter that is counted in a slot later than this one.
    fn ahead_of(self, slot: u32) -> Option<Ahead>
        ensures { result ≡ outlooks.ahead_of slot self }
    {
        match self {
            Outlook::Ahead(ahead) if slot < ahead.slot => Some(ahead),
            _ => None,
        }
    }

    /// A slot was voided: where a counter was ahead, it has to be looked at again.
    fn doubt(self) -> Outlook
        ensures { result ≡ outlooks.doubted self }
    {
        match self {
            Outlook::Ahead(_) => Outlook::Unknown,
            known => known,
        }
    }
}

/// The counters of a line, as far as they are counted in slots to come: a reading in a slot before those would raise a
/// total by a whole roll.
#[derive(Clone, Copy, Debug, PartialEq, Eq)]
pub(crate) struct Lookout {
    outlook: Outlook,
    // So many slots had been voided when that was heard last.
    voids: u64,
    // Whether it was told that the line waits for a slot.
    is_told: bool,
}

impl Lookout {
    /// Nothing was looked at.
    pub fn new() -> Lookout
        ensures { result.outlook ≡ outlook.Unknown }
    {
        Lookout {
            outlook: Outlook::Unknown,
            voids: 0,
            is_told: false,
        }
    }

    /// Whether the counters have to be looked at before a slot is begun.
    pub fn is_unknown(&self) -> bool
        ensures { IsTrue result ↔ self.now.outlook ≡ outlook.Unknown }
    {
        self.outlook == Outlook::Unknown
    }

    /// Looks at the counters of these devices, as a slot is to be begun.
    pub fn look<K: Keeper>(
        &mut self,
        office: &mut Office<K>,
        stations: &Stations,
        slot: u32,
    ) -> Result<(), OfficeError>
        ensures { GoesAlong Nothing office.old office.new }
    {
        let found = farthest(office, stations, slot)?;
        self.outlook = found.map_or(Outlook::Clear, Outlook::Ahead);
        Ok(())
    }

    /// So many slots were voided since the run began.
    pub fn note_voids(&mut self, voids: u64)
        ensures { self.new.outlook ≡ (if self.old.voids == voids then self.old.outlook else outlooks.doubted self.old.outlook) }
    {
        if self.voids != voids {
            self.voids = voids;
            self.outlook = self.outlook.doubt();
        }
    }

    /// Whether a slot may be begun: it is known that no counter is counted in a later one.
    pub fn admits(&self, slot: u32) -> bool
        ensures { result ≡ outlooks.admits slot self.now.outlook }
    {
        self.outlook.admits(slot)
    }

    /// The counter that is counted in a slot later than this one.
    pub fn ahead_of(&self, slot: u32) -> Option<Ahead>
        ensures { result ≡ outlooks.ahead_of slot self.now.outlook }
    {
        self.outlook.ahead_of(slot)
    }

    /// Tells whether the line waits for a slot, where that is new.
    pub fn tell<K: Keeper>(
        &mut self,
        office: &Office<K>,
        journal: &mut Journal,
        line: &str,
        slot: u32,
    )
        ensures { self.new.outlook ≡ self.old.outlook }
    {
        match self.ahead_of(slot) {
            Some(Ahead { point, slot }) if !self.is_told => {
                self.is_told = true;
                if let Some(point) = name_of(office, point) {
                    journal.tell(&Event::Waits { line, point, slot });
                }
            }
            None if self.is_told && self.admits(slot) => {
                self.is_told = false;
                journal.tell(&Event::WaitsNoMore { line });
            }
            _ => {}
        }
    }
}
