//! What a line sends that answers nothing.
ghost use Rattle.std.specs.Prelude.{◌≡◌, ◌≢◌, ◌+◌, ◌-◌, ◌^◌, ◌||◌, min, nat_lt};
ghost use Rattle.run_lines.specs.Noises.{IsBegun, IsCut};

use office_net::MOST_READ;
use run_beat::{Delay, Moment};

/// So many bytes of frames that answer nothing are borne in a slot.
const MOST_NOISE: usize = 65_536;

/// What came in a slot, and for how long a line is left alone that was cut for it.
#[derive(Clone, Copy, Debug)]
pub(crate) struct Noise {
    // The slot of which bytes are counted.
    slot: u32,
    // So many were of frames that answer nothing.
    refused: usize,
    // So many came in all.
    read: usize,
    // The slot in which the line was cut for it last.
    cut: Option<u32>,
    delay: Delay,
    // It is left alone until then.
    until: Moment,
}

impl Noise {
    /// Nothing came.
    pub fn none() -> Noise {
        Noise {
            slot: 0,
            refused: 0,
            read: 0,
            cut: None,
            delay: Delay::none(),
            until: Moment::new(0),
        }
    }

    /// Until when the line is left alone.
    pub fn until(&self) -> Moment
        ensures { result ≡ self.now.until }
    {
        self.until
    }

    /// A slot begins, unless it was begun. Behind a whole one without a cut, the next cut counts as the first.
    pub fn begin(&mut self, slot: u32)
        ensures same { self.old.slot ≡ slot → self.new ≡ self.old }
        ensures begun { self.old.slot ≢ slot → IsBegun slot self.old self.new }
    {
        if slot == self.slot {
            return;
        }
        self.slot = slot;
        self.refused = 0;
        self.read = 0;
        let is_past = self.cut.is_some_and(|cut| cut.saturating_add(1) < slot);
        if is_past {
            self.cut = None;
            self.delay = Delay::none();
        }
    }

    /// So many bytes came, of which so many were of frames that answer nothing.
    pub fn add(&mut self, read: usize, refused: usize)
        ensures { self.new ≡ record self.old {
          read = min (self.old.read + read) (2 ^ 64 - 1);
          refused = min (self.old.refused + refused) (2 ^ 64 - 1);
        } }
    {
        self.read = self.read.saturating_add(read);
        self.refused = self.refused.saturating_add(refused);
    }

    /// Whether more came than is borne.
    pub fn is_too_much(&self) -> bool
        ensures { result ≡ (nat_lt 65536 self.now.refused || nat_lt 16777216 self.now.read) }
    {
        self.refused > MOST_NOISE || self.read > MOST_READ
    }

    /// The line is cut for it.
    pub fn cut(&mut self, now: Moment)
        ensures { IsCut now self.old self.new }
    {
        self.refused = 0;
        self.read = 0;
        self.cut = Some(self.slot);
        self.delay = self.delay.longer();
        self.until = now.after(self.delay.millis());
    }
}
