//! Callers, by what they say and when.
ghost use Rattle.std.specs.Prelude.{◌<◌, length};
ghost use Rattle.run_beat.specs.Counts.{CameWithin};

use crate::arrivals::give;
use run_beat::Came;
use std::alloc::{AllocError, Global};

/// When a caller comes, and what it says: so many bytes as it comes, and as many again whenever so many milliseconds
/// have passed.
#[derive(Clone, Copy, Debug)]
pub(crate) struct Speech {
    pub comes: u64,
    pub text: &'static str,
    pub most: usize,
    pub pause: u64,
    /// Whether it stays once it was told that no more is written to it.
    pub stays: bool,
}

impl Speech {
    /// All is said as the caller comes.
    pub fn at_once(comes: u64, text: &'static str) -> Speech {
        Speech {
            comes,
            text,
            most: usize::MAX,
            pause: u64::MAX,
            stays: false,
        }
    }

    /// So many bytes were said at a moment.
    fn said(self, now: u64) -> usize {
        let Some(since) = now.checked_sub(self.comes) else {
            return 0;
        };
        let pauses = since / self.pause.max(1);
        let pieces = usize::try_from(pauses)
            .unwrap_or(usize::MAX)
            .saturating_add(1);
        self.text.len().min(self.most.saturating_mul(pieces))
    }

    /// The first moment after this one at which something is said.
    fn next(self, now: u64) -> u64 {
        let Some(since) = now.checked_sub(self.comes) else {
            return self.comes;
        };
        if self.said(now) == self.text.len() {
            return u64::MAX;
        }
        let pause = self.pause.max(1);
        now.saturating_add(pause - since % pause)
    }
}

/// A caller.
#[derive(Drop)]
pub(crate) struct Guest {
    speech: Speech,
    // So many bytes were read of it.
    read: usize,
    is_taken: bool,
    // Whether it was told that no more is written; it ends then, unless it stays.
    is_told: bool,
    /// What was written to it.
    pub heard: Vec<u8>,
    /// When its connection was closed.
    pub gone: Option<u64>,
}

impl Guest {
    pub fn new(alloc: Global, speech: Speech) -> Guest {
        Guest {
            speech,
            read: 0,
            is_taken: false,
            is_told: false,
            heard: Vec::new(alloc),
            gone: None,
        }
    }

    /// Whether it waits to be taken.
    fn waits(&self, now: u64) -> bool {
        !self.is_taken && self.speech.comes <= now
    }

    /// The first moment after this one at which it says something.
    fn next(&self, now: u64) -> u64 {
        self.speech.next(now)
    }

    pub fn read(&mut self, piece: &mut [u8], now: u64) -> Came
        requires { 0 < length piece.old }
        ensures { CameWithin (length piece.new) result }
    {
        let said = self.speech.said(now);
        let rest = self
            .speech
            .text
            .as_bytes()
            .get(self.read..said)
            .unwrap_or(&[]);
        let count = give(rest, piece);
        if count > 0 {
            self.read = self.read.saturating_add(count);
            Came::Bytes(count)
        } else if self.is_told && !self.speech.stays {
            Came::Ended
        } else {
            Came::Nothing
        }
    }

    pub fn take(&mut self, bytes: &[u8]) -> Result<(), AllocError> {
        self.heard.extend_from_slice(bytes)
    }

    pub fn finish(&mut self) {
        self.is_told = true;
    }

    pub fn close(&mut self, now: u64) {
        self.gone = Some(now);
    }
}

/// All callers, and where those sit that were taken.
#[derive(Drop)]
pub(crate) struct Guests {
    pub all: Vec<Guest>,
    // At each place, the number of the caller that was taken into it last.
    seats: Vec<usize>,
}

impl Guests {
    pub fn new(alloc: Global, seats: usize, speeches: &[Speech]) -> Result<Guests, AllocError> {
        let mut all = Vec::new(alloc);
        for speech in speeches {
            all.push(Guest::new(alloc, *speech))?;
        }
        let seats = vec![in alloc; usize::MAX; seats]?;
        Ok(Guests { all, seats })
    }

    /// The caller at a place.
    pub fn at(&mut self, place: usize) -> Option<&mut Guest> {
        let guest = *self.seats.get(place)?;
        self.all.get_mut(guest)
    }

    /// The first of those that wait to be taken.
    pub fn at_door(&self, now: u64) -> Option<usize> {
        self.all.iter().position(|guest| guest.waits(now))
    }

    /// A caller is taken into a place.
    pub fn seat(&mut self, place: usize, number: usize) {
        if let Some(seat) = self.seats.get_mut(place) {
            *seat = number;
        }
        if let Some(guest) = self.all.get_mut(number) {
            guest.is_taken = true;
        }
    }

    /// The first moment after this one at which one of them says something.
    pub fn next(&self, now: u64) -> u64 {
        let mut first = u64::MAX;
        for guest in &self.all {
            first = first.min(guest.next(now));
        }
        first
    }
}
