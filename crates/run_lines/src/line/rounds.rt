//! The rounds of a line: what becomes of one that is under way, and which one is begun.
ghost use Rattle.std.specs.Prelude.{◌≡◌, ◌⊎◌, [], IfSome, Some};
ghost use Rattle.office_core.specs.Proceeding.{GoesAlong, Nothing};
ghost use Rattle.run_lines.specs.Times.{slot_in};
ghost use Rattle.run_lines.specs.Wires.{BeginsAt, Settles, rested};
ghost use Rattle.run_beat.specs.Beats.{Wants, from_of};

use crate::event::{Event, RoundNumbers};
use crate::journal::Journal;
use crate::line::{Line, one_more};
use crate::link::Connection;
use crate::loss::{Loss, Stop};
use crate::round::{Kind, Round};
use crate::times::Times;
use office_core::Office;
use poll_book::Keeper;
use run_beat::{Delay, Moment, Stage};

/// What becomes of a round that is under way.
#[derive(Clone, Copy, Debug)]
enum Becomes {
    /// It is done.
    Done,
    /// Its slot is over, and it isn't done.
    Cut(Kind, u32),
    /// Nothing was answered in time.
    Silent,
    /// An answer is waited for.
    Waiting,
}

/// When the slot is begun again that the store refused, as a round begins: where that isn't of orders alone, it is by
/// that.
fn retry_beside(retry: Option<Moment>, kind: Kind) -> Option<Moment> {
    match kind {
        Kind::Whole => None,
        Kind::OrdersAlone => retry,
    }
}

impl Line {
    ghost use Rattle.run_lines.specs.Lines.{Advances, IsSame, Keeps, state_at, wire_at};

    /// The round that is under way.
    pub(super) fn round(&self) -> Option<&Round> {
        match &self.connection {
            Connection::Up(link) => link.round(),
            _ => None,
        }
    }

    /// What comes from now on is told of the next round, if one is under way.
    fn end_numbers(&mut self)
        ensures { Keeps self.old self.new }
    {
        if self.round().is_some() {
            self.since = self.tally;
        }
    }

    /// Counts a round that its line cuts, if one is under way, and isn't of orders alone.
    pub(super) fn count_cut(&mut self)
        ensures { Keeps self.old self.new }
    {
        let is_whole = self
            .round()
            .is_some_and(|round| round.kind() == Kind::Whole);
        if is_whole {
            one_more(&mut self.tally.cut);
        }
        self.end_numbers();
    }

    /// Tells that the round of a slot is done, which took so many milliseconds, if it asked something.
    fn tell_polled(&self, journal: &mut Journal, slot: u32, millis: u64) {
        let numbers = RoundNumbers {
            millis,
            asked: self.tally.queries.saturating_sub(self.since.queries),
            recorded: self.tally.readings.saturating_sub(self.since.readings),
            excepted: self.tally.exceptions.saturating_sub(self.since.exceptions),
            refused: self.tally.refused.saturating_sub(self.since.refused),
        };
        if numbers.asked > 0 {
            let line = self.stations.line();
            journal.tell(&Event::Polled {
                line,
                slot,
                numbers,
            });
        }
    }

    /// Counts and tells a round that is done, unless it was of orders alone.
    fn count_round(&mut self, journal: &mut Journal, now: Moment)
        ensures { Keeps self.old self.new }
    {
        let Connection::Up(link) = &self.connection else {
            return;
        };
        if let Some(round) = link.round()
            && round.kind() == Kind::Whole
        {
            let slot = round.slot();
            let millis = round.began().until(now);
            self.tally.last_round = Some(millis);
            one_more(&mut self.tally.rounds);
            self.tell_polled(journal, slot, millis);
        }
    }

    /// Counts and tells that a round of a slot was cut, unless it was of orders alone.
    fn tell_cut(&mut self, journal: &mut Journal, kind: Kind, slot: u32)
        ensures { Keeps self.old self.new }
    {
        if kind == Kind::Whole {
            one_more(&mut self.tally.cut);
            let line = self.stations.line();
            journal.tell(&Event::Cut { line, slot });
        }
    }

    /// Ends the round that is under way.
    pub(super) fn end_round(&mut self)
        ensures same { IsSame self.old self.new }
        ensures rested { wire_at self.new ≡ rested (wire_at self.old) }
    {
        self.end_numbers();
        if let Connection::Up(link) = &mut self.connection {
            link.end_round();
        }
        self.beat.rest();
        if self.is_unbegun {
            self.beat.again();
        }
    }

    /// Whether a round that is under way is past: by the clock, or since it lasted for a slot, as where the clock was
    /// set back. One in which nothing was answered yet lasts for a time-out at least.
    fn is_past(&self, round: &Round, has_answer: bool, times: &Times) -> bool {
        let begun_in = self.begun_in;
        let is_over = times.slot().is_some_and(|slot| begun_in < slot)
            || times.slots.millis() <= round.began().until(times.now);
        is_over && (has_answer || round.began().after(self.timeout) <= times.now)
    }

    /// What becomes of the round that is under way. Until it is past a device that was passed over may answer. Where
    /// nothing was answered then, or for three time-outs, and nothing is left to be asked, the line is silent.
    fn becomes(&self, times: &Times) -> Option<Becomes> {
        let Connection::Up(link) = &self.connection else {
            return None;
        };
        let round = link.round()?;
        let slot = round.slot();
        let has_answer = link.has_answer(slot);
        let is_past = self.is_past(round, has_answer, times);
        let is_left = round.has_left(&self.stations);
        let is_done = if has_answer {
            is_past || !is_left
        } else {
            !round.has_asked() && !is_left
        };
        if link.is_settled() && is_done {
            return Some(Becomes::Done);
        }
        if has_answer && is_past {
            return Some(Becomes::Cut(round.kind(), slot));
        }
        let two = round.began().after(self.timeout).after(self.timeout);
        let is_late = two.after(self.timeout) <= times.now;
        if is_past || (!has_answer && link.is_settled() && is_late) {
            return Some(Becomes::Silent);
        }
        Some(Becomes::Waiting)
    }

    /// From when on an answer is waited for in the round that is under way. Where all that was asked is given up, and
    /// nothing was answered, that is looked at after one time-out and after three.
    fn waits_from(&self, now: Moment) -> Moment {
        let Connection::Up(link) = &self.connection else {
            return now;
        };
        match (link.waits_from(), link.round()) {
            (Some(from), _) => from,
            (None, Some(round)) if !link.has_answer(round.slot()) => {
                let one = round.began().after(self.timeout);
                if now < one {
                    round.began()
                } else {
                    one.after(self.timeout)
                }
            }
            (None, _) => now,
        }
    }

    /// Ends the round that is under way where it is done, or its slot is over.
    pub(super) fn settle(&mut self, journal: &mut Journal, times: Times) -> Result<(), Stop>
        ensures same { IsSame self.old self.new }
        ensures settles { Settles (wire_at self.old) (wire_at self.new) }
    {
        let now = times.now;
        self.count_queries();
        match self.becomes(&times) {
            Some(Becomes::Done) => {
                self.refusals = Delay::none();
                self.tell_stands(journal);
                self.count_round(journal, now);
                self.end_round();
                self.stations.tell_silent(journal);
            }
            Some(Becomes::Cut(kind, slot)) => {
                self.refusals = Delay::none();
                self.tell_cut(journal, kind, slot);
                self.end_round();
                self.stations.tell_silent(journal);
            }
            Some(Becomes::Silent) => return Err(Stop::Lost(Loss::Silent)),
            Some(Becomes::Waiting) => {
                let from = self.waits_from(now);
                self.beat.wait_on(from);
            }
            None => {}
        }
        Ok(())
    }

    /// Begins a round of a slot.
    fn begin_round<K: Keeper>(
        &mut self,
        office: &mut Office<K>,
        slot: u32,
        kind: Kind,
        times: &Times,
        orders: u64,
    ) -> Result<(), Stop>
        requires { Wants self.old.beat slot }
        ensures goes { Advances result self.old self.new office.old office.new (λ acts. acts ≡ []) }
        ensures begins { (from_of self.new.beat ≡ from_of self.old.beat) ⊎ (from_of self.new.beat ≡ slot) }
    {
        let now = times.now;
        self.stations
            .plan(self.alloc, office.site(), office.points(), self.place)?;
        let Connection::Up(link) = &mut self.connection else {
            return Err(Stop::Lost(Loss::Ended));
        };
        let devices = self.stations.as_slice().len();
        link.start(office, devices, slot, kind, now)?;
        self.beat.start(slot, now);
        self.begun_in = times.slot().unwrap_or(slot).max(slot);
        self.has_begun = true;
        self.retry = retry_beside(self.retry, kind);
        self.orders = Some(orders);
        self.offered = times.slot();
        self.woken = orders;
        Ok(())
    }

    /// Whether no round is begun, since the store refused a while ago.
    fn pauses(&self, now: Moment) -> bool {
        self.is_paused && self.retry.is_some_and(|moment| now < moment)
    }

    /// Looks whether its counters are counted in slots to come, where a slot is to be begun, and that isn't known.
    fn look<K: Keeper>(
        &mut self,
        office: &mut Office<K>,
        slot: u32,
        now: Moment,
    ) -> Result<(), Stop>
        ensures along { GoesAlong Nothing office.old office.new }
        ensures keeps { Keeps self.old self.new }
    {
        if self.pauses(now) || !self.lookout.is_unknown() || !self.beat.wants(slot) {
            return Ok(());
        }
        self.stations
            .plan(self.alloc, office.site(), office.points(), self.place)?;
        self.lookout.look(office, &self.stations, slot)?;
        Ok(())
    }

    /// The same, and stops where one is counted in a slot that is far.
    pub(super) fn look_ahead<K: Keeper>(
        &mut self,
        office: &mut Office<K>,
        times: &Times,
    ) -> Result<(), Stop>
        ensures along { GoesAlong Nothing office.old office.new }
        ensures keeps { Keeps self.old self.new }
    {
        let Some(slot) = times.slot() else {
            return Ok(());
        };
        self.look(office, slot, times.now)?;
        match self.lookout.ahead_of(slot) {
            Some(ahead) if times.is_far(ahead.slot) => Err(Stop::Ahead(ahead)),
            _ => Ok(()),
        }
    }

    /// The round is begun again, where that is due, and none is under way.
    fn retry_if_due(&mut self, now: Moment)
        ensures { Keeps self.old self.new }
    {
        let is_resting = matches!(self.beat.stage(), Stage::Resting { .. });
        let is_due = self.retry.is_some_and(|moment| moment <= now);
        if is_due && is_resting {
            self.retry = None;
            self.orders = None;
            self.beat.again();
        }
    }

    /// The round that is to be begun: the slot's, if it isn't begun, and no counter of the line is counted in a later
    /// one. Where orders came since, or the clock's slot is another one and may not be begun, it is one of orders
    /// alone.
    fn choose(&mut self, times: &Times, orders: u64) -> Option<(u32, Kind)>
        ensures keeps { Keeps self.old self.new }
        ensures wanted { IfSome result (λ chosen. Wants self.new.beat chosen.0) }
        ensures by_clock { IfSome result (λ chosen. (chosen.0 ≡ from_of self.old.beat) ⊎ (slot_in times.entry.now ≡ Some chosen.0)) }
    {
        if self.pauses(times.now) {
            return None;
        }
        self.retry_if_due(times.now);
        let Stage::Resting { polled } = self.beat.stage() else {
            return None;
        };
        if let Some(slot) = times.slot()
            && self.beat.wants(slot)
            && self.lookout.admits(slot)
        {
            self.is_unbegun = false;
            return Some((slot, Kind::Whole));
        }
        if self.orders == Some(orders) && self.offered == times.slot() {
            return None;
        }
        self.beat.again();
        let last = self.beat.from();
        if !self.beat.wants(last) {
            return None;
        }
        self.is_unbegun = polled.is_none();
        Some((last, Kind::OrdersAlone))
    }

    /// Begins a round, where one is to be begun; tells whether it did.
    pub(super) fn start<K: Keeper>(
        &mut self,
        office: &mut Office<K>,
        times: Times,
        orders: u64,
    ) -> Result<bool, Stop>
        ensures goes { Advances result self.old self.new office.old office.new (λ acts. acts ≡ []) }
        ensures by_clock { BeginsAt (slot_in times) (state_at self.old) (state_at self.new) }
    {
        let Some((slot, kind)) = self.choose(&times, orders) else {
            return Ok(false);
        };
        self.begin_round(office, slot, kind, &times, orders)?;
        Ok(true)
    }
}
