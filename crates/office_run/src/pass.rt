//! Turns that take too long for all to do something in each.
ghost use Rattle.std.specs.Prelude.{◌≡◌, false};
ghost use Rattle.office_run.specs.Passes as passes;

use run_beat::Moment;

/// For so many milliseconds of a turn lines do something, and for as many callers.
const MOST_MILLIS: u32 = 5;

/// A pass over lines, or over callers: each does something once in it. It takes one turn, or several where they take
/// too long; then those that are owed have theirs before any has another one.
#[derive(Clone, Copy, Debug, PartialEq, Eq)]
pub(crate) struct Pass {
    number: u64,
    // In this turn nothing more is begun from then on.
    until: Moment,
    // Whether one is owed.
    is_owed: bool,
}

impl Pass {
    /// No pass yet.
    pub fn new() -> Pass
        ensures number { result.number ≡ 0 }
        ensures owed { result.is_owed ≡ false }
    {
        Pass {
            number: 0,
            until: Moment::new(0),
            is_owed: false,
        }
    }

    /// The first pass, which begins with a turn.
    pub fn at(now: Moment) -> Pass
        ensures number { result.number ≡ 1 }
        ensures owed { result.is_owed ≡ false }
    {
        Pass {
            number: 1,
            until: now.after(MOST_MILLIS),
            is_owed: false,
        }
    }

    /// A turn begins, and with it the next pass, unless one is owed.
    pub fn begin_turn(&mut self, now: Moment)
        ensures { self.new ≡ passes.begun now self.old }
    {
        if !self.is_owed {
            self.number = self.number.wrapping_add(1);
        }
        self.is_owed = false;
        self.until = now.after(MOST_MILLIS);
    }

    /// The pass that goes on.
    pub fn number(self) -> u64
        ensures { result ≡ self.number }
    {
        self.number
    }

    /// Whether one may do something that did last in the pass of this number. If not, it had its turn in this pass, or
    /// is owed.
    pub fn admit(&mut self, served: u64, now: Moment) -> bool
        ensures admits { result ≡ passes.admits served now self.old }
        ensures owed { self.new ≡ passes.judged served now self.old }
    {
        if served == self.number {
            return false;
        }
        if self.until <= now {
            self.is_owed = true;
            return false;
        }
        true
    }
}
