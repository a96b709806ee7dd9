//! How long a line is left alone.
ghost use Rattle.std.specs.Prelude.{◌≡◌, ◌≤◌};
ghost use Rattle.run_beat.specs.Delays.{longer_than};

use std::marker::Model;

/// For how long a line is left alone after it failed. Contracts see the milliseconds: 0 after a
/// whole round, and 64,000 at most.
#[derive(Clone, Copy, Debug, PartialEq, Eq)]
pub struct Delay {
    millis: u32,
}

impl Model for Delay {
    ghost use Rattle.std.specs.Prelude.{ℕ, ◌≤◌};

    ghost Value = { ℕ };

    ghost view = { λ delay. delay.millis };

    ghost invariant = { λ delay. delay.millis ≤ 64000 };

    ghost inverse = { λ millis. record { millis = millis } };
}

impl Delay {
    /// It isn't left alone.
    pub fn none() -> Delay
        ensures { result ≡ 0 }
    {
        Delay { millis: 0 }
    }

    /// The delay of a line that fails again: twice as long, but a second at least and 64 seconds at
    /// most.
    pub fn longer(self) -> Delay
        ensures value { result ≡ longer_than self }
        ensures some { 1000 ≤ result }
        ensures most { result ≤ 64000 }
        ensures grows { self ≤ result }
    {
        Delay {
            millis: (self.millis * 2).clamp(1_000, 64_000),
        }
    }

    /// In milliseconds.
    pub fn millis(self) -> u32
        ensures value { result ≡ self }
        ensures most { result ≤ 64000 }
    {
        self.millis
    }
}
