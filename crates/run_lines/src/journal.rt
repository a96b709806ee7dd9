//! What is told on standard error, which holds up nobody.
ghost use Rattle.std.specs.Prelude.{◌≡◌, ◌≤◌, [], length};

use crate::event::Event;
use jiff::Timestamp;
use run_beat::{ClockTime, Outbox, Sent, Sockets};
use std::alloc::{AllocError, Global};
use std::fmt;

/// So many bytes wait to be told at most.
const MOST_UNTOLD: usize = 65_536;

/// Lines that wait to be told: each an event with the time in UTC (RFC 3339).
#[derive(Drop)]
pub struct Journal {
    alloc: Global,
    out: Outbox,
    clock: ClockTime,
    // So many lines were left out since one was told.
    left_out: u64,
    ghost few: { length out ≤ 65536 },
}

/// How many lines were left out.
#[derive(Clone, Copy)]
struct LeftOut(u64);

impl fmt::Display for LeftOut {
    fn fmt<W: fmt::Write>(&self, f: &mut fmt::Formatter<W>) -> fmt::Result {
        write!(f, "{} lines were left out", self.0)
    }
}

/// A line: the time, and what is told.
fn line_of<D: fmt::Display>(
    alloc: Global,
    clock: ClockTime,
    told: &D,
) -> Result<String, AllocError> {
    let time = i64::try_from(clock.millis() / 1000 * 1000).unwrap_or(0);
    match Timestamp::from_millisecond(time) {
        Ok(time) => format!(in alloc; "{time} office: {told}\n"),
        Err(_) => format!(in alloc; "office: {told}\n"),
    }
}

impl Journal {
    ghost use Rattle.run_lines.specs.Journals.{untold};

    /// Nothing waits to be told.
    pub fn new(alloc: Global, clock: ClockTime) -> Journal
        ensures { untold result ≡ [] }
    {
        Journal {
            alloc,
            out: Outbox::new(alloc),
            clock,
            left_out: 0,
        }
    }

    /// It is later.
    pub fn set_clock(&mut self, clock: ClockTime)
        ensures { untold self.new ≡ untold self.old }
    {
        self.clock = clock;
    }

    /// Puts a line behind those that wait; tells whether there was room for it.
    fn put<D: fmt::Display>(&mut self, told: &D) -> bool {
        let Ok(line) = line_of(self.alloc, self.clock, told) else {
            return false;
        };
        let bytes = line.as_bytes();
        if bytes.len() > MOST_UNTOLD - self.out.pending().len() {
            return false;
        }
        self.out.push(bytes).is_ok()
    }

    /// Tells an event, unless more waits than is held; then it is counted, which is told before the next one for which
    /// there is room.
    pub fn tell(&mut self, event: &Event<'_>) {
        if self.left_out > 0 && self.put(&LeftOut(self.left_out)) {
            self.left_out = 0;
        }
        if self.left_out > 0 || !self.put(event) {
            self.left_out = self.left_out.saturating_add(1);
        }
    }

    /// Writes what waits, as far as it is taken; tells whether something was.
    pub fn write<S: Sockets>(&mut self, sockets: &mut S) -> bool
        ensures { S.acts sockets.old [] sockets.new }
    {
        if self.out.is_empty() {
            return false;
        }
        match sockets.tell(self.out.pending()) {
            Sent::Bytes(count) => {
                self.out.wrote(count);
                true
            }
            Sent::Nothing => false,
            // Nobody can be told any more.
            Sent::Failed => {
                let count = self.out.pending().len();
                self.out.wrote(count);
                false
            }
        }
    }
}
