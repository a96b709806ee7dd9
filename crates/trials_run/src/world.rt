//! A small world in the place of the system's sockets. Its time passes in waits alone, up to the next moment at which
//! something comes: what a turn left unread ends no wait.
ghost use Rattle.std.specs.Prelude.{◌≡◌, IsTrue, false, is_some, slice_index_or, slice_set, ⊤};

use crate::guest::{Guests, Speech};
use crate::wire::{Wire, sent};
use run_beat::{
    Came, ClockTime, Connected, MOST_CALLERS, Moment, Sent, SocketFault, Sockets, Source,
};
use std::alloc::{AllocError, Global};

/// The seconds of a slot, where nothing else is said.
const SLOT: u32 = 5;

/// It takes so many milliseconds to look up where a line is.
const LOOK_UP_MILLIS: u64 = 30;

/// Somebody sets the clock, once so many milliseconds of the run have passed: so many ahead, and so many back.
#[derive(Clone, Copy, Debug)]
pub(crate) struct Setting {
    pub at: u64,
    pub ahead: u64,
    pub back: u64,
}

/// Lines and their devices, callers, and a clock.
#[derive(Drop)]
pub(crate) struct World {
    // So many milliseconds have passed.
    now: u64,
    // The clock showed so many milliseconds as the run began.
    began: u64,
    settings: &'static [Setting],
    /// The seconds of a slot.
    pub slot: u32,
    // The run is to end once so many have passed.
    ends: u64,
    is_over: bool,
    // Whether something came of what a turn did.
    has_news: bool,
    // A write to a caller takes so many bytes at most.
    most: usize,
    // What is read of a caller takes so many milliseconds.
    pace: u64,
    // Which lines and which callers' places have a socket.
    lines: Vec<bool>,
    callers: Vec<bool>,
    /// Each line's device.
    pub wires: Vec<Wire>,
    /// Those who call, in the order in which they come.
    pub guests: Guests,
    // Who waits to be taken.
    door: Option<usize>,
    /// What was told on standard error.
    pub told: Vec<u8>,
}

/// Whether a place has a socket.
fn has(sockets: &[bool], place: usize) -> bool
    ensures { result ≡ slice_index_or sockets.now place false }
{
    sockets.get(place).copied().unwrap_or(false)
}

/// A place has a socket from now on, or has none.
fn put(sockets: &mut Vec<bool>, place: usize, is_there: bool)
    ensures { sockets.new.items ≡ slice_set sockets.old.items place is_there }
{
    if let Some(socket) = sockets.get_mut(place) {
        *socket = is_there;
    }
}

impl World {
    /// The devices of a site's lines in their order, and callers in the order in which they come. The clock shows so
    /// many milliseconds as the run begins, and the run is to end once so many have passed.
    pub fn new(
        alloc: Global,
        began: u64,
        ends: u64,
        wires: Vec<Wire>,
        speeches: &[Speech],
    ) -> Result<World, AllocError> {
        Ok(World {
            now: 0,
            began,
            settings: &[],
            slot: SLOT,
            ends,
            is_over: false,
            has_news: false,
            most: usize::MAX,
            pace: 0,
            lines: vec![in alloc; false; wires.len()]?,
            callers: vec![in alloc; false; MOST_CALLERS]?,
            wires,
            guests: Guests::new(alloc, MOST_CALLERS, speeches)?,
            door: None,
            told: Vec::new(alloc),
        })
    }

    /// The same world, where a write to a caller takes so many bytes at most.
    pub fn with_most(self, most: usize) -> World {
        World { most, ..self }
    }

    /// The same world, where what is read of a caller takes so many milliseconds.
    pub fn with_pace(self, pace: u64) -> World {
        World { pace, ..self }
    }

    /// The same world, where the clock is set.
    pub fn with_settings(self, settings: &'static [Setting]) -> World {
        World { settings, ..self }
    }

    /// The same world, where a slot has so many seconds.
    pub fn with_slot(self, slot: u32) -> World {
        World { slot, ..self }
    }

    /// What the clock shows.
    fn shown(&self) -> u64 {
        let mut shown = self.began.saturating_add(self.now);
        for setting in self.settings {
            if setting.at <= self.now {
                shown = shown
                    .saturating_add(setting.ahead)
                    .saturating_sub(setting.back);
            }
        }
        shown
    }

    /// The first moment from now on at which something comes.
    fn next(&self) -> u64 {
        let mut first = self.ends.min(self.guests.next(self.now));
        for wire in &self.wires {
            first = first.min(wire.next(self.now));
        }
        first
    }
}

impl Sockets for World {
    ghost places = { λ world. record { lines = world.lines.items; callers = world.callers.items } };

    ghost waiting = { λ world. is_some world.door };

    ghost stopped = { λ world. world.is_over };

    // What comes and goes is looked at by the trials alone.
    ghost acts = { λ _ _ _. ⊤ };

    ghost rests = { λ _. tt };

    ghost joins = { λ _ _ _ _ _ _ _. tt };

    fn now(&self) -> Result<Moment, SocketFault> {
        Ok(Moment::new(self.now))
    }

    fn clock(&self) -> Result<ClockTime, SocketFault> {
        Ok(ClockTime::new(self.shown()))
    }

    fn wait(&mut self, most: u64) -> Result<(), SocketFault> {
        if !self.has_news {
            self.now = self.now.saturating_add(most).min(self.next());
        }
        self.has_news = false;
        self.door = self.guests.at_door(self.now);
        self.is_over |= self.ends <= self.now;
        Ok(())
    }

    fn is_stopped(&self) -> bool {
        self.is_over
    }

    fn connect(&mut self, line: usize) -> Result<(), SocketFault> {
        let Some(wire) = self.wires.get_mut(line) else {
            return Err(SocketFault::Connect);
        };
        if wire.is_nowhere(self.now) || wire.begin(self.now).is_err() {
            return Err(SocketFault::Connect);
        }
        put(&mut self.lines, line, true);
        self.has_news = true;
        Ok(())
    }

    fn look_up(&mut self, line: usize) -> bool {
        match self.wires.get_mut(line) {
            Some(wire) => {
                let now = self.now;
                self.now = now.saturating_add(LOOK_UP_MILLIS);
                wire.look_up(now).is_ok()
            }
            None => false,
        }
    }

    fn connected(&self, line: usize) -> Connected {
        match self.wires.get(line) {
            Some(wire) if has(&self.lines, line) => wire.connected(self.now),
            _ => Connected::Failed,
        }
    }

    fn has_caller(&self) -> bool {
        self.door.is_some()
    }

    fn accept(&mut self, caller: usize) -> bool {
        let Some(number) = self.door else {
            return false;
        };
        if self.callers.get(caller).copied() != Some(false) {
            return false;
        }
        self.guests.seat(caller, number);
        self.door = self.guests.at_door(self.now);
        put(&mut self.callers, caller, true);
        true
    }

    fn read(&mut self, source: Source, piece: &mut [u8]) -> Came {
        match source {
            Source::Line(line) if has(&self.lines, line) => match self.wires.get_mut(line) {
                Some(wire) => wire.read(piece, self.now),
                None => Came::Failed,
            },
            Source::Caller(caller) if has(&self.callers, caller) => match self.guests.at(caller) {
                Some(guest) => {
                    let came = guest.read(piece, self.now);
                    if let Came::Bytes(_) = came {
                        self.now = self.now.saturating_add(self.pace);
                    }
                    came
                }
                None => Came::Failed,
            },
            _ => Came::Failed,
        }
    }

    fn write(&mut self, source: Source, bytes: &[u8]) -> Sent {
        let sent = match source {
            Source::Line(line) if has(&self.lines, line) => match self.wires.get_mut(line) {
                Some(wire) => wire.write(bytes, self.now),
                None => Sent::Failed,
            },
            Source::Caller(caller) if has(&self.callers, caller) => match self.guests.at(caller) {
                Some(guest) => {
                    let count = bytes.len().min(self.most.max(1));
                    sent(guest.take(&bytes[..count]), count)
                }
                None => Sent::Failed,
            },
            _ => Sent::Failed,
        };
        self.has_news |= sent != Sent::Nothing;
        sent
    }

    fn tell(&mut self, bytes: &[u8]) -> Sent {
        sent(self.told.extend_from_slice(bytes), bytes.len())
    }

    fn finish(&mut self, source: Source) {
        self.has_news = true;
        if let Source::Caller(caller) = source
            && let Some(guest) = self.guests.at(caller)
        {
            guest.finish();
        }
    }

    fn close(&mut self, source: Source) {
        match source {
            Source::Line(line) => put(&mut self.lines, line, false),
            Source::Caller(caller) => {
                if has(&self.callers, caller)
                    && let Some(guest) = self.guests.at(caller)
                {
                    guest.close(self.now);
                }
                put(&mut self.callers, caller, false);
            }
        }
    }
}
