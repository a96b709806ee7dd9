//! A connection to a line that stands, and the round that is under way over it.
ghost use Rattle.std.specs.Prelude.{◌≡◌, ◌≤◌, ◌<◌, ◌++◌, [], MatchResult, None, OnOk, Some, drop, false, is_some, length, true};
ghost use Rattle.mb_mbap.specs.Stream.{spelled};
ghost use Rattle.run_beat.specs.declared.sockets.Source.{Source as ASource};
ghost use Rattle.office_core.specs.Proceeding.{GoesAlong, Nothing};
ghost use Rattle.office_net.specs.Querying.{Makes, Misses};
ghost use Rattle.run_lines.specs.Rounds.{number_for, query_of};
ghost use Rattle.run_lines.specs.Wires.{GivesUp, Queries, Reaches, Sends, SomeQuery, Terms, Up, Wired, Works, fresh, rested, settled};

use crate::journal::Journal;
use crate::loss::{Loss, Stop};
use crate::round::{Asked, Kind, Round};
use crate::station::Stations;
use crate::window::{MOST_WAITING, Query, Window};
use mb_mbap::{Frame, FrameFault, FrameReader};
use office_core::{Arrival, Office, OfficeError};
use office_net::take_late;
use poll_book::{Keeper, StoreFault};
use poll_match::Conn;
use run_beat::{Moment, Outbox};
use std::alloc::{AllocError, Global};
use std::collections::VecDeque;
use std::mem;

/// A connection to a line that stands.
#[derive(Drop)]
pub(crate) struct Link {
    alloc: Global,
    conn: Conn,
    stream: FrameReader,
    // The frames that came and weren't taken yet, and why none can follow them.
    frames: VecDeque<Frame>,
    fault: Option<FrameFault>,
    ghost reading: { fault ≡ None → is_some stream ≡ true },
    // The queries that wait to be written.
    out: Outbox,
    // Those that are neither answered nor given up.
    window: Window,
    round: Option<Round>,
    // When something was answered last, or the connection came to stand.
    heard: Moment,
    // The slot in whose round something was answered last.
    answered: Option<u32>,
    // So many queries were made since they were counted.
    asked: u64,
}

/// The connection of a line.
#[derive(Drop)]
pub(crate) enum Connection {
    /// None stands.
    Down,
    /// One is begun.
    Begun,
    /// One stands.
    Up(Link),
}

/// What a frame was.
#[derive(Clone, Copy, Debug)]
pub(crate) enum Taken {
    /// An answer to a query.
    Answer(Arrival),
    /// An answer that the store refused.
    Refused(StoreFault),
    /// The answer of before, once more.
    Repeat,
    /// So many bytes that answer nothing which was asked.
    Noise(usize),
}

/// The bytes of a frame.
fn size_of(frame: &Frame) -> usize {
    frame.unit.as_bytes().len() + 7
}

impl Link {
    ghost use Rattle.run_lines.specs.Links.{asked_in, before, frames_in, slot_of, standing_of, waiting_in, wire_of};

    /// A connection over which nothing was asked yet.
    pub fn new(alloc: Global, conn: Conn, now: Moment) -> Link
        ensures { wire_of result ≡ Up (fresh conn) }
    {
        Link {
            alloc,
            conn,
            stream: FrameReader::new(alloc),
            frames: VecDeque::new(alloc),
            fault: None,
            out: Outbox::new(alloc),
            window: Window::new(alloc),
            round: None,
            heard: now,
            answered: None,
            asked: 0,
        }
    }

    /// The bytes that wait to be written.
    pub fn pending(&self) -> &[u8]
        ensures { result.now ≡ waiting_in self.now }
    {
        self.out.pending()
    }

    /// So many of them were written.
    pub fn wrote(&mut self, count: usize)
        requires { count ≤ length (waiting_in self.old) }
        ensures { standing_of self.new ≡ record (standing_of self.old) { left = drop count (waiting_in self.old) } }
    {
        self.out.wrote(count);
    }

    /// Begins the round of a slot. A round that is under way ends.
    pub fn start<K: Keeper>(
        &mut self,
        office: &mut Office<K>,
        devices: usize,
        slot: u32,
        kind: Kind,
        now: Moment,
    ) -> Result<(), OfficeError>
        ensures along { GoesAlong Nothing office.old office.new }
        ensures begun { MatchResult result (λ _. standing_of self.new ≡ record (standing_of self.old) { round = Some slot }) (λ _. standing_of self.new ≡ standing_of self.old) }
    {
        self.round = Some(Round::begin(self.alloc, office, devices, slot, kind, now)?);
        Ok(())
    }

    /// A query was made: it waits to be written, and to be answered.
    fn send(&mut self, asked: &Asked, now: Moment) -> Result<(), AllocError>
        requires { length (asked_in self.old) < 16 }
        ensures { OnOk result (Sends (standing_of self.old) asked.now.query asked.now.order (wire_of self.new)) }
    {
        self.asked = self.asked.saturating_add(1);
        let bytes = asked.query.encode();
        self.out.push(bytes.as_bytes())?;
        self.window.push(Query {
            transaction: asked.query.transaction,
            device: asked.device,
            order: asked.order,
            sent: now,
        })
    }

    /// The query that the round that is under way makes next.
    fn next<K: Keeper>(
        &mut self,
        office: &mut Office<K>,
        stations: &Stations,
    ) -> Result<Option<Asked>, OfficeError>
        ensures made { MatchResult result (λ asked. Makes (Queries self.old.conn (slot_of self.old.round) (asked_in self.old) (number_for asked)) office.old office.new (query_of asked)) (λ _. Misses (SomeQuery self.old.conn (slot_of self.old.round) (asked_in self.old)) office.old office.new) }
        ensures standing { standing_of self.new ≡ standing_of self.old }
    {
        match &mut self.round {
            Some(round) => round.next(office, self.conn, stations, &self.window),
            None => Ok(None),
        }
    }

    /// How many queries were made since this was asked last.
    pub fn take_asked(&mut self) -> u64
        ensures { wire_of self.new ≡ wire_of self.old }
    {
        mem::replace(&mut self.asked, 0)
    }

    /// Makes one query, if one may be made in the round that is under way, and fewer than so many wait; tells whether
    /// it did.
    fn ask_one<K: Keeper>(
        &mut self,
        office: &mut Office<K>,
        stations: &Stations,
        most: usize,
        now: Moment,
    ) -> Result<bool, Stop>
        requires { most ≤ 16 }
        ensures { (terms : Terms) (source : ASource) → terms.most ≡ most → Works result terms source office.old office.new (λ acts. acts ≡ []) (wire_of self.old) (wire_of self.new) }
    {
        if self.window.len() >= most {
            return Ok(false);
        }
        let Some(asked) = self.next(office, stations)? else {
            return Ok(false);
        };
        self.send(&asked, now)?;
        Ok(true)
    }

    /// Makes the queries that may be made in the round that is under way, until so many wait.
    pub fn ask<K: Keeper>(
        &mut self,
        office: &mut Office<K>,
        stations: &Stations,
        most: usize,
        now: Moment,
    ) -> Result<(), Stop>
        requires { most ≤ 16 }
        ensures { (terms : Terms) (source : ASource) → terms.most ≡ most → Works result terms source office.old office.new (λ acts. acts ≡ []) (wire_of self.old) (wire_of self.new) }
    {
        for _ in 0..most {
            let has_asked = self.ask_one(office, stations, most, now)?;
            if !has_asked {
                return Ok(());
            }
        }
        Ok(())
    }

    /// A device answered; none where the store refused the answer.
    fn hear(
        &mut self,
        stations: &mut Stations,
        journal: &mut Journal,
        frame: &Frame,
        arrival: Option<Arrival>,
        now: Moment,
    )
        ensures settled { standing_of self.new ≡ settled frame.now (standing_of self.old) }
        ensures name { stations.new.line ≡ stations.old.line }
    {
        self.heard = now;
        let query = self.window.answer(frame.transaction);
        if let Some(round) = &self.round {
            self.answered = Some(round.slot());
        }
        let Some(at) = stations.place_of(frame.unit_id) else {
            return;
        };
        let is_order = query.is_some_and(|query| query.order.is_some());
        stations.answer(at, journal);
        if let Some(arrival) = arrival {
            stations.tell_ordered(at, is_order, arrival, journal);
        }
        if let Some(round) = &mut self.round {
            round.hear(at, is_order, arrival);
        }
    }

    /// Cuts bytes that came into frames, which are taken later.
    pub fn feed(&mut self, piece: &[u8]) -> Result<(), AllocError>
        requires taken { frames_in self.old ≡ [] }
        requires reading { is_some self.old.stream ≡ true }
        ensures { OnOk result (Reaches (standing_of self.old) piece.now (wire_of self.new)) }
    {
        let fed = self.stream.feed(piece)?;
        self.frames = VecDeque::from_vec(fed.frames);
        self.fault = fed.fault;
        Ok(())
    }

    /// Whether something that came wasn't taken yet: a frame, or why none can follow.
    pub fn has_more(&self) -> bool
        ensures { result ≡ false → (frames_in self.now ≡ []) × (is_some self.now.stream ≡ true) }
    {
        !self.frames.is_empty() || self.fault.is_some()
    }

    /// Takes a frame, whenever it came.
    fn take_one<K: Keeper>(
        &mut self,
        office: &mut Office<K>,
        stations: &mut Stations,
        journal: &mut Journal,
        frame: &Frame,
        now: Moment,
    ) -> Taken
        ensures wired { (terms : Terms) (source : ASource) → Wired terms source office.old office.new (λ acts. acts ≡ []) (Up (before frame.now (standing_of self.old))) (wire_of self.new) }
        ensures name { stations.new.line ≡ stations.old.line }
    {
        match take_late(office, self.conn, frame) {
            Ok(arrival) => {
                self.hear(stations, journal, frame, Some(arrival), now);
                Taken::Answer(arrival)
            }
            Err(error) => match error {
                OfficeError::Store(fault) => {
                    self.hear(stations, journal, frame, None, now);
                    Taken::Refused(fault)
                }
                OfficeError::Repeat => Taken::Repeat,
                _ => Taken::Noise(size_of(frame)),
            },
        }
    }

    /// Takes the next frame that came, if there is one.
    pub fn take<K: Keeper>(
        &mut self,
        office: &mut Office<K>,
        stations: &mut Stations,
        journal: &mut Journal,
        now: Moment,
    ) -> Result<Option<Taken>, Loss>
        ensures wired { (terms : Terms) (source : ASource) → Wired terms source office.old office.new (λ acts. acts ≡ []) (wire_of self.old) (wire_of self.new) }
        ensures name { stations.new.line ≡ stations.old.line }
    {
        match (self.frames.pop_front(), self.fault) {
            (Some(frame), _) => {
                let taken = self.take_one(office, stations, journal, &frame, now);
                Ok(Some(taken))
            }
            (None, Some(fault)) => Err(Loss::Frames(fault)),
            (None, None) => Ok(None),
        }
    }

    /// From when on an answer is waited for, if one is: from the sending of the oldest query, or from the last answer,
    /// whichever is later.
    pub fn waits_from(&self) -> Option<Moment> {
        match self.window.oldest() {
            Some(query) => Some(query.sent.max(self.heard)),
            None => None,
        }
    }

    /// Passes a device over in the round that is under way.
    fn pass(&mut self, device: usize)
        ensures { standing_of self.new ≡ standing_of self.old }
    {
        if let Some(round) = &mut self.round {
            round.pass(device);
        }
    }

    /// Gives up all queries of the device whose query is the oldest: it is silent, and passed over in the round.
    fn give_up(&mut self, stations: &mut Stations)
        ensures given { GivesUp (wire_of self.old) (wire_of self.new) }
        ensures name { stations.new.line ≡ stations.old.line }
    {
        let Some(oldest) = self.window.oldest() else {
            return;
        };
        self.window.give_up(oldest.device);
        self.pass(oldest.device);
        stations.fall_silent(oldest.device);
    }

    /// Gives up the queries of each device that wasn't heard of within so many milliseconds.
    pub fn give_up_late(&mut self, stations: &mut Stations, timeout: u32, now: Moment)
        ensures given { GivesUp (wire_of self.old) (wire_of self.new) }
        ensures name { stations.new.line ≡ stations.old.line }
    {
        for _ in 0..MOST_WAITING {
            match self.waits_from() {
                Some(from) if from.after(timeout) <= now => self.give_up(stations),
                _ => return,
            }
        }
    }

    /// Orders came.
    pub fn wake<K: Keeper>(&mut self, office: &mut Office<K>) -> Result<(), OfficeError>
        ensures along { GoesAlong Nothing office.old office.new }
        ensures wire { wire_of self.new ≡ wire_of self.old }
    {
        match &mut self.round {
            Some(round) => round.wake(office),
            None => Ok(()),
        }
    }

    /// The round that is under way.
    pub fn round(&self) -> Option<&Round> {
        self.round.as_ref()
    }

    /// Whether something was answered in a round of this slot.
    pub fn has_answer(&self, slot: u32) -> bool {
        self.answered == Some(slot)
    }

    /// Whether nothing is waited for, and nothing more is to be asked in the round that is under way, unless a device
    /// that was passed over answers.
    pub fn is_settled(&self) -> bool {
        match &self.round {
            Some(round) => round.is_idle() && self.window.is_empty(),
            None => false,
        }
    }

    /// Ends the round that is under way. What is still answered to it counts as late.
    pub fn end_round(&mut self)
        ensures { wire_of self.new ≡ rested (wire_of self.old) }
    {
        self.round = None;
    }
}
