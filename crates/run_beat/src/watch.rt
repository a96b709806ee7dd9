//! Whether the clock on the wall can be followed.
ghost use Rattle.std.specs.Prelude.{◌≡◌, ◌∷◌, ℕ, [], List};
ghost use Rattle.run_beat.specs.Watches as watches;

use crate::slots::Slots;
use crate::times::{ClockTime, Moment};

/// A clock that jumped ahead isn't followed before it stood for so many milliseconds.
const STANDING_MILLIS: u32 = 60_000;

/// What both clocks showed at once.
#[derive(Clone, Copy, Debug, PartialEq, Eq)]
pub struct Sight {
    pub moment: Moment,
    pub clock: ClockTime,
}

/// Looks at both clocks again and again. The clock on the wall jumps ahead where it goes on by more than two slots and
/// a minute beyond what has passed, and is held for a minute then, in which no slot is to be begun.
#[derive(Clone, Copy, Debug, PartialEq, Eq)]
pub struct Watch {
    // By so many milliseconds it may go on beyond what has passed.
    most: u64,
    last: Option<Sight>,
    // When it jumped ahead last.
    jumped: Option<Moment>,
}

/// Whether the clock went on by more than so many milliseconds beyond what has passed.
fn is_jump(most: u64, earlier: &Sight, later: &Sight) -> bool
    ensures { result ≡ watches.is_jump most earlier.now later.now }
{
    let passed = earlier.moment.until(later.moment);
    let latest = u128::from(earlier.clock.millis()) + u128::from(passed) + u128::from(most);
    latest < u128::from(later.clock.millis())
}

impl Watch {
    ghost use Rattle.run_beat.specs.Watches.{IsWatch, has_jumped, held_until, is_held};

    /// It has seen nothing yet.
    pub fn new(slots: Slots) -> Watch
        ensures { IsWatch slots [] result }
    {
        Watch {
            most: 2 * slots.millis() + u64::from(STANDING_MILLIS),
            last: None,
            jumped: None,
        }
    }

    /// Looks at both clocks, and tells whether the one on the wall has jumped ahead since it looked before.
    pub fn look(&mut self, sight: &Sight) -> bool
        ensures jumped { (seconds : ℕ) (sights : List _) → IsWatch seconds sights self.old → result ≡ has_jumped seconds (sight.now ∷ sights) }
        ensures seen { (seconds : ℕ) (sights : List _) → IsWatch seconds sights self.old → IsWatch seconds (sight.now ∷ sights) self.new }
    {
        let has_jumped = match &self.last {
            Some(last) => is_jump(self.most, last, sight),
            None => false,
        };
        self.last = Some(*sight);
        if has_jumped {
            self.jumped = Some(sight.moment);
        }
        has_jumped
    }

    /// Whether the clock is held: less than a minute ago it jumped ahead.
    pub fn is_held(&self, now: Moment) -> bool
        ensures { (seconds : ℕ) (sights : List _) → IsWatch seconds sights self.now → result ≡ is_held seconds sights now }
    {
        match self.jumped {
            Some(moment) => moment.until(now) < u64::from(STANDING_MILLIS),
            None => false,
        }
    }

    /// When the clock is held no more, if it is held.
    pub fn held_until(&self, now: Moment) -> Option<Moment>
        ensures { (seconds : ℕ) (sights : List _) → IsWatch seconds sights self.now → result ≡ held_until seconds sights now }
    {
        match self.jumped {
            Some(moment) if self.is_held(now) => Some(moment.after(STANDING_MILLIS)),
            _ => None,
        }
    }
}
