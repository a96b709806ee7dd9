//! What time it is in a turn.
ghost use Rattle.std.specs.Prelude.{◌≡◌, IfErr, IfOk};
ghost use Rattle.run_beat.specs.Slots as by_clock;
ghost use Rattle.run_lines.specs.Dues as dues;

use run_beat::{ClockTime, Moment, Sight, Slots, SocketFault, Sockets, Watch};

/// The seconds of a day.
const DAY_SECONDS: u64 = 86_400;

/// The times of a turn, which are the same for all that is called in it.
#[derive(Clone, Copy, Debug, PartialEq, Eq)]
pub struct Times {
    pub now: Moment,
    pub clock: ClockTime,
    pub slots: Slots,
    /// The slot at that time.
    slot: u32,
    /// Whether the clock is held, as it jumped ahead a short while ago.
    is_held: bool,
    /// Whether the clock jumped ahead since the turn before.
    pub has_jumped: bool,
}

/// The earlier of two moments, where there are any.
pub fn earlier(one: Option<Moment>, other: Option<Moment>) -> Option<Moment>
    ensures { result ≡ dues.earlier one other }
{
    match (one, other) {
        (Some(one), Some(other)) => Some(one.min(other)),
        (one, other) => one.or(other),
    }
}

impl Times {
    ghost use Rattle.run_lines.specs.Times as times;

    /// What time it is; a fault where the clock can't be read, or shows a time that has no slot.
    pub fn of<S: Sockets>(
        sockets: &S,
        slots: Slots,
        watch: &mut Watch,
    ) -> Result<Times, SocketFault>
        ensures times { IfOk result (λ told. (told.slots ≡ slots) × (times.clock_slot told ≡ by_clock.slot told.clock slots)) }
        ensures fault { IfErr result (λ fault. fault ≡ SocketFault.Clock) }
    {
        let now = sockets.now()?;
        let clock = sockets.clock()?;
        let Some(slot) = slots.slot_at(clock) else {
            return Err(SocketFault::Clock);
        };
        let has_jumped = watch.look(&Sight { moment: now, clock });
        Ok(Times {
            now,
            clock,
            slots,
            slot,
            is_held: watch.is_held(now),
            has_jumped,
        })
    }

    /// The slot that may be begun; none while the clock is held.
    pub fn slot(&self) -> Option<u32>
        ensures { result ≡ times.slot_in self.entry.now }
    {
        if self.is_held { None } else { Some(self.slot) }
    }

    /// Whether it is a day or longer until a slot begins.
    pub fn is_far(&self, slot: u32) -> bool
        ensures { result ≡ times.is_far slot self.entry.now }
    {
        self.slots.seconds_until(slot, self.clock) >= DAY_SECONDS
    }
}
