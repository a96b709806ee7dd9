//! Moments of a run, and times by the clock on the wall.
ghost use Rattle.std.specs.Prelude.{◌≡◌, ◌-◌};
ghost use Rattle.run_beat.specs.Times.{later};

use std::marker::Model;

/// A moment of a run, by a clock that never goes back. Contracts see the milliseconds since the run
/// began.
#[derive(Clone, Copy, Debug, PartialEq, Eq, PartialOrd, Ord)]
pub struct Moment {
    millis: u64,
}

impl Model for Moment {
    ghost use Rattle.std.specs.Prelude.{ℕ};

    ghost Value = { ℕ };

    ghost view = { λ moment. moment.millis };

    ghost inverse = { λ millis. record { millis = millis } };
}

impl Moment {
    /// The moment so many milliseconds after the run began.
    pub fn new(millis: u64) -> Moment
        ensures { result ≡ millis }
    {
        Moment { millis }
    }

    /// The moment so many milliseconds later, or the last one, 2⁶⁴ − 1, where that is past it.
    pub fn after(self, millis: u32) -> Moment
        ensures { result ≡ later self millis }
    {
        Moment::new(self.millis.saturating_add(u64::from(millis)))
    }

    /// How many milliseconds it is until another moment: 0 where that is past.
    pub fn until(self, other: Moment) -> u64
        ensures { result ≡ other - self }
    {
        other.millis.saturating_sub(self.millis)
    }
}

/// A time by the system's clock, which may be set back. Contracts see the milliseconds since 1970
/// began, by UTC.
#[derive(Clone, Copy, Debug, PartialEq, Eq, PartialOrd, Ord)]
pub struct ClockTime {
    millis: u64,
}

impl Model for ClockTime {
    ghost use Rattle.std.specs.Prelude.{ℕ};

    ghost Value = { ℕ };

    ghost view = { λ time. time.millis };

    ghost inverse = { λ millis. record { millis = millis } };
}

impl ClockTime {
    /// The time so many milliseconds after 1970 began.
    pub fn new(millis: u64) -> ClockTime
        ensures { result ≡ millis }
    {
        ClockTime { millis }
    }

    /// How many milliseconds it is after 1970 began.
    pub fn millis(self) -> u64
        ensures { result ≡ self }
    {
        self.millis
    }
}
