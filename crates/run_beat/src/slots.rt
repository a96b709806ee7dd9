//! Slots by the clock.
ghost use Rattle.std.specs.Prelude.{◌≡◌, ◌≤◌, ◌<◌, ◌+◌, ◌-◌, ◌*◌, ◌/◌, ◌^◌, SomeIff};
ghost use Rattle.run_beat.specs.Slots.{slot, begins};

use crate::times::ClockTime;
use std::marker::Model;

/// How time is cut into slots: each takes as many seconds, and slot 0 begins with 1970. Contracts
/// see the seconds of a slot, 1 at least.
#[derive(Clone, Copy, Debug, PartialEq, Eq)]
pub struct Slots {
    seconds: u32,
}

impl Model for Slots {
    ghost use Rattle.std.specs.Prelude.{ℕ, ◌<◌};

    ghost Value = { ℕ };

    ghost view = { λ slots. slots.seconds };

    ghost invariant = { λ slots. 0 < slots.seconds };

    ghost inverse = { λ seconds. record { seconds = seconds } };
}

impl Slots {
    /// Slots of so many seconds; none of 0.
    pub fn new(seconds: u32) -> Option<Slots>
        ensures { SomeIff result (0 < seconds) seconds }
    {
        if seconds == 0 {
            None
        } else {
            Some(Slots { seconds })
        }
    }

    /// The milliseconds of a slot.
    pub fn millis(self) -> u64
        ensures { result ≡ self * 1000 }
    {
        u64::from(self.seconds) * 1_000
    }

    /// The slot at a time, where it has a number: slots of a second have none from 2106 on, and
    /// those of a minute none from the year 10136 on.
    pub fn slot_at(self, time: ClockTime) -> Option<u32>
        ensures { SomeIff result (slot time self < 2 ^ 32) (slot time self) }
    {
        u32::try_from(time.millis() / self.millis()).ok()
    }

    /// How many milliseconds it is to the next slot: 1 to the length of a slot.
    pub fn until_next(self, time: ClockTime) -> u64
        ensures next { time + result ≡ begins (slot time self + 1) self }
        ensures some { 0 < result }
        ensures most { result ≤ self * 1000 }
    {
        let millis = self.millis();
        millis - time.millis() % millis
    }

    /// How many whole seconds of the clock it is to the beginning of a slot: 0 where that is past.
    pub fn seconds_until(self, slot: u32, time: ClockTime) -> u64
        ensures { result ≡ slot * self - time / 1000 }
    {
        (u64::from(slot) * u64::from(self.seconds)).saturating_sub(time.millis() / 1_000)
    }
}
