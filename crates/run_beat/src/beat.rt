//! When a line is due.
ghost use Rattle.std.specs.Prelude.{◌≡◌, ◌↔◌, ℕ, IsTrue, List, None, Option, Some};
ghost use Rattle.run_beat.specs.Delays.{longer_than};
ghost use Rattle.run_beat.specs.Times.{later};
ghost use Rattle.run_beat.specs.Stages.{IsPolling, due_in, rested, renewed, unpolled};
ghost use Rattle.run_beat.specs.Beats.{Calls, NeverFall, begun_by};
ghost use Rattle.run_beat.specs.declared.beat.Beat.{Beat};

use crate::delay::Delay;
use crate::times::Moment;

/// How a line stands.
#[derive(Clone, Copy, Debug, PartialEq, Eq)]
pub enum Stage {
    /// It has no connection. One is to be begun at a moment.
    Closed { until: Moment },
    /// A connection is begun, and is given up at a moment where it doesn't stand by then.
    Connecting { until: Moment },
    /// A connection stands, and no round is under way. The last one over it was of a slot, where
    /// there was one.
    Resting { polled: Option<u32> },
    /// A round of a slot is under way, and is given up at a moment where nothing comes by then.
    Polling { slot: u32, until: Moment },
}

/// A line's time: how it stands, and for how long it is left alone after its next failure.
#[derive(Clone, Copy, Debug, PartialEq, Eq)]
pub struct Beat {
    // For how many milliseconds a connection, or the next frame of a round, is waited for.
    timeout: u32,
    stage: Stage,
    delay: Delay,
    // No slot before this one is begun any more.
    from: u32,
}

impl Stage {
    /// When something is due, if nothing comes before.
    pub fn due(self) -> Option<Moment>
        ensures { result ≡ due_in self }
    {
        match self {
            Stage::Closed { until } | Stage::Connecting { until } | Stage::Polling { until, .. } =>
                Some(until),
            Stage::Resting { .. } => None,
        }
    }
}

impl Beat {
    ghost use Rattle.run_beat.specs.Beats.{Begins, IsDue, IsSoon, KeepsTimes, Wants, delay_of, due_of, from_of, stage_of, timeout_of};

    /// A line with no connection, due as the run begins. It gives its devices so many milliseconds
    /// to connect, and for each next frame of a round.
    pub fn new(timeout: u32) -> Beat
        ensures closed { stage_of result ≡ Stage.Closed 0 }
        ensures delay { delay_of result ≡ 0 }
        ensures timeout { timeout_of result ≡ timeout }
        ensures from { from_of result ≡ 0 }
    {
        Beat {
            timeout,
            stage: Stage::Closed {
                until: Moment::new(0),
            },
            delay: Delay::none(),
            from: 0,
        }
    }

    /// How far it is.
    pub fn stage(&self) -> Stage
        ensures { result ≡ stage_of self.now }
    {
        self.stage
    }

    /// When something is due, if nothing comes before.
    pub fn due(&self) -> Option<Moment>
        ensures { result ≡ due_of self.now }
    {
        self.stage.due()
    }

    /// Whether something is due.
    pub fn is_due(&self, now: Moment) -> bool
        ensures { IsTrue result ↔ IsDue self.now now }
    {
        match self.due() {
            Some(due) => due <= now,
            None => false,
        }
    }

    /// No slot before this one is to be begun.
    pub fn from(&self) -> u32
        ensures { result ≡ from_of self.now }
    {
        self.from
    }

    /// Whether a round of this slot is to be begun: a connection stands, no round is under way, the
    /// last one over it was of another slot, and no later slot was begun.
    pub fn wants(&self, slot: u32) -> bool
        ensures { IsTrue result ↔ Wants self.now slot }
    {
        match self.stage {
            Stage::Resting { polled } => polled != Some(slot) && self.from <= slot,
            _ => false,
        }
    }

    /// A connection is begun.
    pub fn begin(&mut self, now: Moment)
        ensures stage { stage_of self.new ≡ Stage.Connecting (later now (timeout_of self.old)) }
        ensures same { KeepsTimes self.old self.new }
        ensures begins { Begins self.old None self.new }
        ensures soon { IsSoon self.new now }
    {
        self.stage = Stage::Connecting {
            until: now.after(self.timeout),
        };
    }

    /// The connection stands.
    pub fn open(&mut self)
        ensures stage { stage_of self.new ≡ Stage.Resting None }
        ensures same { KeepsTimes self.old self.new }
        ensures begins { Begins self.old None self.new }
    {
        self.stage = Stage::Resting { polled: None };
    }

    /// A round of this slot begins.
    pub fn start(&mut self, slot: u32, now: Moment)
        requires { Wants self.old slot }
        ensures stage { stage_of self.new ≡ Stage.Polling slot (later now (timeout_of self.old)) }
        ensures same { KeepsTimes self.old self.new }
        ensures begins { Begins self.old (Some slot) self.new }
        ensures soon { IsSoon self.new now }
    {
        self.stage = Stage::Polling {
            slot,
            until: now.after(self.timeout),
        };
        self.from = slot;
    }

    /// An answer came in a round: the next one has the time again. Where no round is under way,
    /// nothing changes.
    pub fn wait_on(&mut self, now: Moment)
        ensures stage { stage_of self.new ≡ renewed (stage_of self.old) (later now (timeout_of self.old)) }
        ensures same { KeepsTimes self.old self.new }
        ensures begins { Begins self.old None self.new }
        ensures soon { IsPolling (stage_of self.old) → IsSoon self.new now }
    {
        if let Stage::Polling { slot, .. } = self.stage {
            self.stage = Stage::Polling {
                slot,
                until: now.after(self.timeout),
            };
        }
    }

    /// The round that is under way ended, so that the next failure counts as the first. Where none
    /// is, nothing changes.
    pub fn rest(&mut self)
        ensures stage { stage_of self.new ≡ rested (stage_of self.old) }
        ensures delay { IsPolling (stage_of self.old) → delay_of self.new ≡ 0 }
        ensures same { (IsPolling (stage_of self.old) → ⊥) → self.new ≡ self.old }
        ensures timeout { timeout_of self.new ≡ timeout_of self.old }
        ensures begins { Begins self.old None self.new }
    {
        if let Stage::Polling { slot, .. } = self.stage {
            self.stage = Stage::Resting { polled: Some(slot) };
            self.delay = Delay::none();
        }
    }

    /// The round of the slot is to be begun once more, where none is under way.
    pub fn again(&mut self)
        ensures stage { stage_of self.new ≡ unpolled (stage_of self.old) }
        ensures same { KeepsTimes self.old self.new }
        ensures begins { Begins self.old None self.new }
    {
        if let Stage::Resting { .. } = self.stage {
            self.stage = Stage::Resting { polled: None };
        }
    }

    /// There is no connection any more, or none came: the line is left alone for longer than after
    /// the failure before.
    pub fn fail(&mut self, now: Moment)
        ensures stage { stage_of self.new ≡ Stage.Closed (later now (longer_than (delay_of self.old))) }
        ensures delay { delay_of self.new ≡ longer_than (delay_of self.old) }
        ensures timeout { timeout_of self.new ≡ timeout_of self.old }
        ensures begins { Begins self.old None self.new }
        ensures soon { IsSoon self.new now }
    {
        self.delay = self.delay.longer();
        self.stage = Stage::Closed {
            until: now.after(self.delay.millis()),
        };
    }
}

/// Of the calls of a line's beat, whatever the clocks showed: none begins a slot before one that was begun.
pub fn slots_never_fall()
    ensures { (first last : Beat) (calls : List (Option ℕ)) → Calls first calls last → NeverFall (begun_by calls) }
{}
