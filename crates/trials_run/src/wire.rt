//! A line's devices, as the office reaches them: one alone, or several behind a gateway.
ghost use Rattle.std.specs.Prelude.{◌<◌, ◌≤◌, ℕ, length};
ghost use Rattle.run_beat.specs.Counts.{CameWithin, SentWithin};

use crate::arrivals::give;
use mb_map::{MapError, Sim, Table};
use mb_mbap::{Frame, FrameReader};
use mb_pdu::Unit;
use run_beat::{Came, Connected, Sent};
use std::alloc::{AllocError, Global};

/// In this register each device counts the seconds of the run.
pub(crate) const SECONDS: u16 = 41;

/// A reply to a query that nobody made: of transaction 65,000, unit 17, a register.
const NOISE: [u8; 11] = [0xfd, 0xe8, 0, 0, 0, 5, 17, 3, 2, 0, 0];

/// What is wrong with a device, or with the line.
#[derive(Clone, Copy, Debug, PartialEq, Eq)]
pub(crate) enum Trouble {
    /// It answers nothing.
    Silent,
    /// It answers so many milliseconds later.
    Late(u64),
    /// Each device of the line refuses what is to be set, by exception 6 (server device busy).
    Busy,
    /// The line has no connection, and refuses each.
    Away,
    /// The same, until it is looked up where it is.
    Moved,
    /// None can be begun.
    Nowhere,
    /// One that is begun comes neither to stand nor to an end.
    Unready,
    /// The line sends what nobody asked for, as fast as it is read.
    Flooding,
    /// The line sends each reply so many times.
    Repeating(usize),
    /// The line sends so many frames that nobody asked for behind its replies.
    Noisy(usize),
    /// The line takes no bytes.
    Stuck,
}

/// Something is wrong from a moment on, until another: with the device of a unit identifier, or with all of the line.
#[derive(Clone, Copy, Debug)]
pub(crate) struct Spell {
    pub trouble: Trouble,
    pub unit: Option<u8>,
    pub from: u64,
    pub to: u64,
}

impl Spell {
    fn is_at(&self, now: u64) -> bool {
        self.from <= now && now < self.to
    }

    fn is_of(&self, unit: u8) -> bool {
        self.unit.is_none_or(|of| of == unit)
    }
}

/// A reply on its way.
#[derive(Drop)]
struct Reply {
    due: u64,
    frame: Frame,
}

/// A line's devices, and the bytes on their way from them.
#[derive(Drop)]
pub(crate) struct Wire {
    alloc: Global,
    sim: Sim,
    spells: &'static [Spell],
    queries: FrameReader,
    later: Vec<Reply>,
    replies: Vec<u8>,
    /// The moments at which a connection was begun, and at which it was looked up where it is.
    pub begun: Vec<u64>,
    pub looked_up: Vec<u64>,
    /// Each query: when it came, and to which unit identifier.
    pub asked: Vec<(u64, u8)>,
    /// So many bytes were read of it.
    pub read: usize,
}

/// The device counts so many seconds.
fn count_seconds(sim: &mut Sim, unit: u8, seconds: u64) {
    let seconds = u16::try_from(seconds).unwrap_or(u16::MAX);
    sim.set(unit, Table::Holding, SECONDS, seconds);
}

/// What a device replies to a query.
fn replies(sim: &mut Sim, query: &Frame) -> Result<Vec<Frame>, AllocError> {
    match sim.take(query) {
        Ok(frames) => Ok(frames),
        Err(MapError::Memory | MapError::TooLarge | MapError::BadImage) => Err(AllocError),
    }
}

/// Whether a query is to set something.
fn is_write(query: &Frame) -> bool {
    matches!(query.unit.as_bytes().first(), Some(5 | 6 | 15 | 16))
}

/// What a busy device replies to a query.
fn busy(query: &Frame) -> Option<Frame> {
    let function = query.unit.as_bytes().first()?;
    Some(Frame {
        transaction: query.transaction,
        unit_id: query.unit_id,
        unit: Unit::from_bytes(&[function | 0x80, 6])?,
    })
}

/// Adds bytes so many times.
fn add(all: &mut Vec<u8>, bytes: &[u8], times: usize) -> Result<(), AllocError> {
    for _ in 0..times {
        all.extend_from_slice(bytes)?;
    }
    Ok(())
}

/// The queries that bytes complete.
fn queries(reader: &mut FrameReader, bytes: &[u8]) -> Result<Vec<Frame>, AllocError> {
    Ok(reader.feed(bytes)?.frames)
}

/// What a write took, where memory was refused or not.
pub(crate) fn sent(taken: Result<(), AllocError>, count: usize) -> Sent
    ensures { (there : ℕ) → 0 < count → count ≤ there → SentWithin there result }
{
    match taken {
        Ok(()) => Sent::Bytes(count),
        Err(_) => Sent::Failed,
    }
}

impl Wire {
    pub fn new(alloc: Global, sim: Sim, spells: &'static [Spell]) -> Wire {
        Wire {
            alloc,
            sim,
            spells,
            queries: FrameReader::new(alloc),
            later: Vec::new(alloc),
            replies: Vec::new(alloc),
            begun: Vec::new(alloc),
            looked_up: Vec::new(alloc),
            asked: Vec::new(alloc),
            read: 0,
        }
    }

    /// Whether something is wrong with all of the line.
    fn has(&self, trouble: Trouble, now: u64) -> bool {
        self.spells
            .iter()
            .any(|spell| spell.trouble == trouble && spell.is_at(now))
    }

    /// How many milliseconds the device of a unit identifier takes to answer; none where it answers nothing.
    fn delay(&self, unit: u8, now: u64) -> Option<u64> {
        let mut delay = 0;
        for spell in self.spells {
            match spell.trouble {
                Trouble::Silent if spell.is_at(now) && spell.is_of(unit) => return None,
                Trouble::Late(millis) if spell.is_at(now) && spell.is_of(unit) => delay = millis,
                _ => {}
            }
        }
        Some(delay)
    }

    /// How many times a reply comes, and how many frames behind it that nobody asked for.
    fn times(&self, now: u64) -> (usize, usize) {
        let mut times = (1, 0);
        for spell in self.spells {
            match spell.trouble {
                Trouble::Repeating(count) if spell.is_at(now) => times.0 = count,
                Trouble::Noisy(count) if spell.is_at(now) => times.1 = count,
                _ => {}
            }
        }
        times
    }

    /// The first moment after this one at which it is to be looked at.
    pub fn next(&self, now: u64) -> u64 {
        let mut first = u64::MAX;
        for spell in self.spells {
            for moment in [spell.from, spell.to] {
                if now < moment {
                    first = first.min(moment);
                }
            }
        }
        for reply in &self.later {
            if now < reply.due {
                first = first.min(reply.due);
            }
        }
        first
    }

    /// Whether no connection can be begun.
    pub fn is_nowhere(&self, now: u64) -> bool {
        self.has(Trouble::Nowhere, now)
    }

    /// A connection is begun.
    pub fn begin(&mut self, now: u64) -> Result<(), AllocError> {
        self.begun.push(now)?;
        self.queries = FrameReader::new(self.alloc);
        self.later.clear();
        self.replies.clear();
        Ok(())
    }

    /// It is looked up where it is.
    pub fn look_up(&mut self, now: u64) -> Result<(), AllocError> {
        self.looked_up.push(now)?;
        Ok(())
    }

    pub fn connected(&self, now: u64) -> Connected {
        if self.has(Trouble::Unready, now) {
            return Connected::NotYet;
        }
        let is_lost = self.looked_up.is_empty() && self.has(Trouble::Moved, now);
        if is_lost || self.has(Trouble::Away, now) {
            Connected::Failed
        } else {
            Connected::Yes
        }
    }

    /// The replies that are due come.
    fn come_due(&mut self, now: u64) -> Result<(), AllocError> {
        let (times, noises) = self.times(now);
        for reply in &self.later {
            if reply.due <= now {
                add(&mut self.replies, reply.frame.encode().as_bytes(), times)?;
                add(&mut self.replies, &NOISE, noises)?;
            }
        }
        self.later.retain(|reply| now < reply.due);
        if self.replies.is_empty() && self.has(Trouble::Flooding, now) {
            add(&mut self.replies, &NOISE, 20)?;
        }
        Ok(())
    }

    pub fn read(&mut self, piece: &mut [u8], now: u64) -> Came
        requires { 0 < length piece.old }
        ensures { CameWithin (length piece.new) result }
    {
        if self.has(Trouble::Away, now) || self.come_due(now).is_err() {
            return Came::Ended;
        }
        let count = give(&self.replies, piece);
        if count == 0 {
            return Came::Nothing;
        }
        self.replies.drain(..count);
        self.read = self.read.saturating_add(count);
        Came::Bytes(count)
    }

    /// What is replied to a query.
    fn answers(&mut self, query: &Frame, now: u64) -> Result<Vec<Frame>, AllocError> {
        if !self.has(Trouble::Busy, now) || !is_write(query) {
            return replies(&mut self.sim, query);
        }
        let mut answers = Vec::new(self.alloc);
        if let Some(answer) = busy(query) {
            answers.push(answer)?;
        }
        Ok(answers)
    }

    /// A query comes.
    fn hear(&mut self, query: &Frame, now: u64) -> Result<(), AllocError> {
        self.asked.push((now, query.unit_id))?;
        let Some(delay) = self.delay(query.unit_id, now) else {
            return Ok(());
        };
        count_seconds(&mut self.sim, query.unit_id, now / 1000);
        for frame in self.answers(query, now)? {
            self.later.push(Reply {
                due: now.saturating_add(delay),
                frame,
            })?;
        }
        Ok(())
    }

    /// Takes bytes of queries, and replies to each that is whole.
    pub fn take(&mut self, bytes: &[u8], now: u64) -> Result<(), AllocError> {
        for query in &queries(&mut self.queries, bytes)? {
            self.hear(query, now)?;
        }
        Ok(())
    }

    pub fn write(&mut self, bytes: &[u8], now: u64) -> Sent
        requires { 0 < length bytes.now }
        ensures { SentWithin (length bytes.now) result }
    {
        if self.has(Trouble::Stuck, now) {
            return Sent::Nothing;
        }
        sent(self.take(bytes, now), bytes.len())
    }
}
