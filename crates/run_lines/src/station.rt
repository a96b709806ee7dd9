//! The devices of a line, and what each of them is asked.
ghost use Rattle.std.specs.Prelude.{◌≡◌};
ghost use Rattle.std.specs.List.{list_any, position};
ghost use Rattle.run_lines.specs.Devices.{devices_in, is_named, is_under};

use crate::event::{Device as Told, Event};
use crate::journal::Journal;
use office_core::{Arrival, is_busy};
use office_net::reads_of;
use point_list::{Device, Site, Text};
use poll_book::PointRow;
use read_planner::Read;
use std::alloc::{AllocError, Global};

/// When in a round a device is asked: those that were silent last, and of these first the ones behind the one that fell
/// silent last, so that each of them has its turn in some round.
#[derive(Clone, Copy, Debug, PartialEq, Eq)]
pub(crate) enum Turn {
    Answering,
    SilentBehind,
    SilentBefore,
}

/// A device of a line.
#[derive(Drop)]
pub(crate) struct Station {
    pub name: Text,
    pub unit_id: u8,
    /// What it is asked in each slot.
    pub reads: Vec<Read>,
    /// Whether it didn't answer in time, and hasn't answered since.
    pub is_silent: bool,
    // Whether that was told.
    is_told: bool,
    // Whether it stands behind the device that fell silent last.
    is_behind: bool,
}

/// The devices of a line, in the site's order.
#[derive(Drop)]
pub(crate) struct Stations {
    line: Text,
    all: Vec<Station>,
    // So many points were known as its reads were planned; none were yet.
    known: Option<usize>,
}

impl Station {
    /// When it is asked.
    pub fn turn(&self) -> Turn {
        if !self.is_silent {
            Turn::Answering
        } else if self.is_behind {
            Turn::SilentBehind
        } else {
            Turn::SilentBefore
        }
    }

    fn tell(&self, line: &str, what: Told, journal: &mut Journal) {
        let name = self.name.as_str();
        journal.tell(&Event::Device { line, name, what });
    }
}

/// A device, of which is known so much of the one that was planned before in its place.
fn station_of(
    alloc: Global,
    device: &Device,
    known: &[PointRow],
    former: Option<&Station>,
) -> Result<Station, AllocError> {
    let (is_silent, is_told, is_behind) = match former {
        Some(former) => (former.is_silent, former.is_told, former.is_behind),
        None => (false, false, false),
    };
    Ok(Station {
        name: device.name.clone()?,
        unit_id: device.unit,
        reads: reads_of(alloc, known, device)?,
        is_silent,
        is_told,
        is_behind,
    })
}

impl Stations {
    /// Those of a line of this name, of which nothing is planned yet.
    pub fn new(alloc: Global, line: Text) -> Stations
        ensures { result.line ≡ line }
    {
        Stations {
            line,
            all: Vec::new(alloc),
            known: None,
        }
    }

    /// Plans the reads of a line's devices, unless no point came since that was done last.
    pub fn plan(
        &mut self,
        alloc: Global,
        site: &Site,
        known: &[PointRow],
        line: usize,
    ) -> Result<(), AllocError>
        ensures { self.new.line ≡ self.old.line }
    {
        if self.known == Some(known.len()) {
            return Ok(());
        }
        let mut all = Vec::new(alloc);
        for device in site.devices.as_slice() {
            if usize::from(device.line) == line {
                let former = self.all.get(all.len());
                all.push(station_of(alloc, device, known, former)?)?;
            }
        }
        self.all = all;
        self.known = Some(known.len());
        Ok(())
    }

    /// The devices, in the site's order.
    pub fn as_slice(&self) -> &[Station]
        ensures { result.now ≡ devices_in self.now }
    {
        &self.all
    }

    /// The place of the device with a unit identifier.
    pub fn place_of(&self, unit_id: u8) -> Option<usize>
        ensures { result ≡ position (is_under unit_id) (devices_in self.now) }
    {
        self.all
            .iter()
            .position(|station| station.unit_id == unit_id)
    }

    /// Whether one of this name is among them.
    pub fn have(&self, device: &str) -> bool
        ensures { result ≡ list_any (is_named device.now) (devices_in self.now) }
    {
        self.all
            .iter()
            .any(|station| station.name.as_str() == device)
    }

    /// The line's name.
    pub fn line(&self) -> &str
        ensures { result.now ≡ self.now.line }
    {
        self.line.as_str()
    }

    /// A device didn't answer in time.
    pub fn fall_silent(&mut self, at: usize)
        ensures { self.new.line ≡ self.old.line }
    {
        for (place, station) in self.all.iter_mut().enumerate() {
            station.is_silent |= place == at;
            station.is_behind = at < place;
        }
    }

    /// Whether no device is asked anything in a slot.
    pub fn have_no_reads(&self) -> bool {
        self.all.iter().all(|station| station.reads.is_empty())
    }

    /// A device answers. Where it was told that it is silent, this is told too.
    pub fn answer(&mut self, at: usize, journal: &mut Journal)
        ensures { self.new.line ≡ self.old.line }
    {
        let Some(station) = self.all.get_mut(at) else {
            return;
        };
        station.is_silent = false;
        if station.is_told {
            station.is_told = false;
            station.tell(self.line.as_str(), Told::Back, journal);
        }
    }

    /// Tells what a device made of what was sent for an order, unless the order waits as before: whether the query was
    /// for one isn't known any more where it was given up.
    pub fn tell_ordered(&self, at: usize, is_order: bool, arrival: Arrival, journal: &mut Journal) {
        let told = match arrival {
            Arrival::Settled => Told::Obeyed,
            Arrival::Excepted(code) if is_order && !is_busy(code) => Told::Refused(code),
            Arrival::Recorded(_) | Arrival::Excepted(_) => return,
        };
        if let Some(station) = self.all.get(at) {
            station.tell(self.line.as_str(), told, journal);
        }
    }

    /// Tells which devices are silent, where that is new.
    pub fn tell_silent(&mut self, journal: &mut Journal)
        ensures { self.new.line ≡ self.old.line }
    {
        let line = self.line.as_str();
        for station in &mut self.all {
            if station.is_silent && !station.is_told {
                station.is_told = true;
                station.tell(line, Told::Silent, journal);
            }
        }
    }
}
