//! A round of a line: of each of its devices the orders that waited as it began, and then its reads.
ghost use Rattle.std.specs.Prelude.{◌≡◌, ℕ, IfOk, MatchResult, None, Some};
ghost use Rattle.office_core.specs.Proceeding.{GoesAlong, Nothing};
ghost use Rattle.office_net.specs.Querying.{Makes, Misses};
ghost use Rattle.run_lines.specs.Rounds.{number_for, query_of};
ghost use Rattle.run_lines.specs.Wires.{Queries, SomeQuery};

use crate::share::Share;
use crate::station::{Station, Stations, Turn};
use crate::window::Window;
use mb_mbap::Frame;
use office_core::{Arrival, Office, OfficeError};
use office_net::{ask_among, last_order, oldest_order};
use poll_book::Keeper;
use poll_match::Conn;
use run_beat::Moment;
use std::alloc::Global;

/// What a round does for a slot.
#[derive(Clone, Copy, Debug, PartialEq, Eq)]
pub(crate) enum Kind {
    /// It sends orders, and asks what lacks a reading.
    Whole,
    /// It sends orders.
    OrdersAlone,
}

impl Kind {
    /// The reads of a device that have a turn.
    fn reads_of(self, station: &Station) -> usize {
        match self {
            Kind::Whole => station.reads.len(),
            Kind::OrdersAlone => 0,
        }
    }
}

/// A round under way.
#[derive(Drop)]
pub(crate) struct Round {
    slot: u32,
    kind: Kind,
    began: Moment,
    // Orders up to this number are sent: those that came since it began once the reads of their device had their turn.
    last: u32,
    progress: Progress,
    // Whether it asked something.
    has_asked: bool,
    // Whether nothing was left to be asked when that was looked for last.
    is_idle: bool,
}

/// How far each device of the line is.
#[derive(Drop)]
struct Progress {
    shares: Vec<Share>,
}

/// A query that a round makes, and for what.
#[derive(Drop)]
pub(crate) struct Asked {
    pub query: Frame,
    /// The place of its device among those of the line.
    pub device: usize,
    /// The number of the order that it is for, if it is for one.
    pub order: Option<u32>,
}

impl Progress {
    /// The next order of a device whose turn this is, if one is to be sent. One that was sent in a round before, and
    /// waits, counts as sent.
    fn order_of<K: Keeper>(
        &mut self,
        office: &mut Office<K>,
        conn: Conn,
        device: usize,
        station: &Station,
        turn: Turn,
        window: &Window,
    ) -> Result<Option<Asked>, OfficeError>
        ensures { (slot : ℕ) → MatchResult result (λ asked. Makes (Queries conn (Some slot) window.now (number_for asked)) office.old office.new (query_of asked)) (λ _. Misses (SomeQuery conn (Some slot) window.now) office.old office.new) }
    {
        if station.turn() != turn {
            return Ok(None);
        }
        let Some(share) = self.shares.get_mut(device) else {
            return Ok(None);
        };
        let Some(last) = share.order() else {
            return Ok(None);
        };
        let oldest = oldest_order(office, station.name.as_str())?;
        match oldest {
            Some(number) if number <= last => {
                share.send();
                if window.has_order(number) {
                    return Ok(None);
                }
                let query = office.send_order(conn, number)?;
                Ok(Some(Asked {
                    query,
                    device,
                    order: Some(number),
                }))
            }
            _ => {
                share.finish_orders();
                Ok(None)
            }
        }
    }

    /// The next read of a device whose turn this is that lacks a reading, if it is to be asked. One that was silent is
    /// asked one at a time.
    fn read_of<K: Keeper>(
        &mut self,
        office: &mut Office<K>,
        conn: Conn,
        slot: u32,
        at: usize,
        station: &Station,
        turn: Turn,
        window: &Window,
    ) -> Result<Option<Frame>, OfficeError>
        ensures { MatchResult result (Makes (Queries conn (Some slot) window.now None) office.old office.new) (λ _. Misses (SomeQuery conn (Some slot) window.now) office.old office.new) }
    {
        if station.turn() != turn || (station.is_silent && window.has(at)) {
            return Ok(None);
        }
        let Some(share) = self.shares.get_mut(at) else {
            return Ok(None);
        };
        let Some(first) = share.read() else {
            return Ok(None);
        };
        for place in first..station.reads.len() {
            share.ask(place + 1);
            let read = &station.reads[place];
            let query = ask_among(office, conn, slot, station.name.as_str(), read)?;
            if query.is_some() {
                return Ok(query);
            }
        }
        Ok(None)
    }

    /// The next order that is to be sent, in the order of the devices whose turn this is.
    fn next_order<K: Keeper>(
        &mut self,
        office: &mut Office<K>,
        conn: Conn,
        stations: &[Station],
        turn: Turn,
        window: &Window,
    ) -> Result<Option<Asked>, OfficeError>
        ensures { (slot : ℕ) → MatchResult result (λ asked. Makes (Queries conn (Some slot) window.now (number_for asked)) office.old office.new (query_of asked)) (λ _. Misses (SomeQuery conn (Some slot) window.now) office.old office.new) }
    {
        for (device, station) in stations.iter().enumerate() {
            let asked = self.order_of(office, conn, device, station, turn, window)?;
            if asked.is_some() {
                return Ok(asked);
            }
        }
        Ok(None)
    }

    /// The next read that is to be asked, in the order of the devices whose turn this is.
    fn next_read<K: Keeper>(
        &mut self,
        office: &mut Office<K>,
        conn: Conn,
        slot: u32,
        stations: &[Station],
        turn: Turn,
        window: &Window,
    ) -> Result<Option<Asked>, OfficeError>
        ensures { MatchResult result (λ asked. Makes (Queries conn (Some slot) window.now (number_for asked)) office.old office.new (query_of asked)) (λ _. Misses (SomeQuery conn (Some slot) window.now) office.old office.new) }
    {
        for (device, station) in stations.iter().enumerate() {
            if let Some(query) = self.read_of(office, conn, slot, device, station, turn, window)? {
                return Ok(Some(Asked {
                    query,
                    device,
                    order: None,
                }));
            }
        }
        Ok(None)
    }

    /// What is asked next of the devices whose turn this is: orders first.
    fn asked_among<K: Keeper>(
        &mut self,
        office: &mut Office<K>,
        conn: Conn,
        slot: u32,
        kind: Kind,
        stations: &[Station],
        turn: Turn,
        window: &Window,
    ) -> Result<Option<Asked>, OfficeError>
        ensures { MatchResult result (λ asked. Makes (Queries conn (Some slot) window.now (number_for asked)) office.old office.new (query_of asked)) (λ _. Misses (SomeQuery conn (Some slot) window.now) office.old office.new) }
    {
        let order = self.next_order(office, conn, stations, turn, window)?;
        if order.is_some() || kind == Kind::OrdersAlone {
            return Ok(order);
        }
        self.next_read(office, conn, slot, stations, turn, window)
    }

    /// What is asked next of the devices that were silent.
    fn asked_of_silent<K: Keeper>(
        &mut self,
        office: &mut Office<K>,
        conn: Conn,
        slot: u32,
        kind: Kind,
        stations: &[Station],
        window: &Window,
    ) -> Result<Option<Asked>, OfficeError>
        ensures { MatchResult result (λ asked. Makes (Queries conn (Some slot) window.now (number_for asked)) office.old office.new (query_of asked)) (λ _. Misses (SomeQuery conn (Some slot) window.now) office.old office.new) }
    {
        let behind = Turn::SilentBehind;
        let asked = self.asked_among(office, conn, slot, kind, stations, behind, window)?;
        if asked.is_some() {
            return Ok(asked);
        }
        let before = Turn::SilentBefore;
        self.asked_among(office, conn, slot, kind, stations, before, window)
    }

    /// What is asked next: of silent devices last, so that they hold up no other one.
    fn next_asked<K: Keeper>(
        &mut self,
        office: &mut Office<K>,
        conn: Conn,
        slot: u32,
        kind: Kind,
        stations: &[Station],
        window: &Window,
    ) -> Result<Option<Asked>, OfficeError>
        ensures { MatchResult result (λ asked. Makes (Queries conn (Some slot) window.now (number_for asked)) office.old office.new (query_of asked)) (λ _. Misses (SomeQuery conn (Some slot) window.now) office.old office.new) }
    {
        let answering = Turn::Answering;
        let asked = self.asked_among(office, conn, slot, kind, stations, answering, window)?;
        if asked.is_some() {
            return Ok(asked);
        }
        self.asked_of_silent(office, conn, slot, kind, stations, window)
    }

    /// Orders up to a number are to be sent: also those that came since, to the devices that are done.
    fn wake(&mut self, last: u32, kind: Kind, stations: &[Station]) {
        for (place, station) in stations.iter().enumerate() {
            if let Some(share) = self.shares.get_mut(place) {
                share.wake(last, kind.reads_of(station));
            }
        }
    }

    /// What is asked next, where orders up to a number are to be sent: those of a device that is done by that, too.
    fn next<K: Keeper>(
        &mut self,
        office: &mut Office<K>,
        conn: Conn,
        slot: u32,
        kind: Kind,
        last: u32,
        stations: &[Station],
        window: &Window,
    ) -> Result<Option<Asked>, OfficeError>
        ensures { MatchResult result (λ asked. Makes (Queries conn (Some slot) window.now (number_for asked)) office.old office.new (query_of asked)) (λ _. Misses (SomeQuery conn (Some slot) window.now) office.old office.new) }
    {
        self.wake(last, kind, stations);
        let asked = self.next_asked(office, conn, slot, kind, stations, window)?;
        if asked.is_some() {
            return Ok(asked);
        }
        self.wake(last, kind, stations);
        self.next_asked(office, conn, slot, Kind::OrdersAlone, stations, window)
    }
}

impl Round {
    /// A round of a slot over a line of so many devices begins.
    pub fn begin<K: Keeper>(
        alloc: Global,
        office: &mut Office<K>,
        devices: usize,
        slot: u32,
        kind: Kind,
        now: Moment,
    ) -> Result<Round, OfficeError>
        ensures along { GoesAlong Nothing office.old office.new }
        ensures slot { IfOk result (λ round. round.slot ≡ slot) }
    {
        let last = last_order(office)?;
        Ok(Round {
            slot,
            kind,
            began: now,
            last,
            progress: Progress {
                shares: vec![in alloc; Share::new(last); devices]?,
            },
            has_asked: false,
            is_idle: false,
        })
    }

    /// The slot that it is of.
    pub fn slot(&self) -> u32 {
        self.slot
    }

    /// What it asks.
    pub fn kind(&self) -> Kind {
        self.kind
    }

    /// When it began.
    pub fn began(&self) -> Moment {
        self.began
    }

    /// Whether nothing is left to be asked, as it was looked for last.
    pub fn is_idle(&self) -> bool {
        self.is_idle
    }

    /// Whether it asked something.
    pub fn has_asked(&self) -> bool {
        self.has_asked
    }

    /// What is asked next, beside what waits.
    pub fn next<K: Keeper>(
        &mut self,
        office: &mut Office<K>,
        conn: Conn,
        stations: &Stations,
        window: &Window,
    ) -> Result<Option<Asked>, OfficeError>
        ensures made { MatchResult result (λ asked. Makes (Queries conn (Some self.old.slot) window.now (number_for asked)) office.old office.new (query_of asked)) (λ _. Misses (SomeQuery conn (Some self.old.slot) window.now) office.old office.new) }
        ensures slot { self.new.slot ≡ self.old.slot }
    {
        let (slot, kind, last) = (self.slot, self.kind, self.last);
        let stations = stations.as_slice();
        let asked = self
            .progress
            .next(office, conn, slot, kind, last, stations, window)?;
        self.is_idle = asked.is_none();
        self.has_asked |= asked.is_some();
        Ok(asked)
    }

    /// Whether a device was passed over before all that it is asked had its turn.
    pub fn has_left(&self, stations: &Stations) -> bool {
        self.progress.shares.iter().zip(stations.as_slice()).any(|(share, station)| share.is_left(
            self.kind.reads_of(station),
        ))
    }

    /// A device answered, to what was sent for an order or to something else; none where the store refused the answer.
    pub fn hear(&mut self, device: usize, is_order: bool, arrival: Option<Arrival>)
        ensures { self.new.slot ≡ self.old.slot }
    {
        if let Some(share) = self.progress.shares.get_mut(device) {
            share.resume();
            if is_order {
                share.settle(arrival);
            }
        }
    }

    /// A device didn't answer in time.
    pub fn pass(&mut self, device: usize)
        ensures { self.new.slot ≡ self.old.slot }
    {
        if let Some(share) = self.progress.shares.get_mut(device) {
            share.pass();
        }
    }

    /// Orders came: they are sent once the reads of their device had their turn.
    pub fn wake<K: Keeper>(&mut self, office: &mut Office<K>) -> Result<(), OfficeError>
        ensures along { GoesAlong Nothing office.old office.new }
        ensures slot { self.new.slot ≡ self.old.slot }
    {
        self.last = last_order(office)?;
        Ok(())
    }
}
