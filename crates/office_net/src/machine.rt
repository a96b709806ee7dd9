//! A round as a machine that reads and writes nothing.
ghost use Rattle.std.specs.Prelude.{◌≡◌, ◌<◌, ◌≤◌, ◌+◌, ◌*◌, ◌^◌, ◌∷◌, ◌↔◌, [], ℕ, IfOk, IsNone, IsSome, IsTrue, MatchResult, length};
ghost use Rattle.office_core.specs.declared.error.OfficeError.{OfficeError};
ghost use Rattle.office_core.specs.declared.event.EventAnswer.TheVariants.{Arrived, Refused};
ghost use Rattle.office_core.specs.Offices.{AccountsFor, keeper_of};
ghost use Rattle.office_net.specs.Faults.{IsCaused};
ghost use Rattle.office_core.specs.Proceeding.{GoesAlong};

use crate::fault::{PollFault, is_store};
use crate::job::LineJob;
use crate::round::Round;
use crate::turns::turn;
use mb_mbap::Frame;
use office_core::{Arrival, Office};
use poll_book::Keeper;
use poll_match::Conn;

/// A round under way.
#[derive(Drop)]
pub struct Poll {
    conn: Conn,
    slot: u32,
    // So many of its queries may be outstanding.
    most: u8,
    jobs: Vec<LineJob>,
    // So many jobs had their turn.
    turned: usize,
    // The transaction of the round's first query, once there is one.
    first: u16,
    // So many of its queries aren't answered.
    waiting: u8,
    // So many frames came.
    taken: u32,
    round: Round,
    ghost few: { length jobs.items < 2 ^ 64 },
    ghost within: { turned ≤ length jobs.items },
    ghost asked: { round.asked ≤ turned },
    ghost waits: { waiting ≤ most },
    ghost recorded: { round.recorded ≤ taken * 4294967295 },
    ghost excepted: { round.excepted ≤ taken },
    ghost refused: { round.refused ≤ taken },
}

impl Poll {
    ghost use Rattle.office_net.specs.Kinds.{HearsIn, TurnIn};
    ghost use Rattle.office_net.specs.Stages.{Asked, BreaksOff, GoesOn, HasTurn, IsDone, IsNew, IsSame, IsWaiting, Passed, Took, as_list, counts_of, left_of, own, taken_of};

    /// A round of these jobs, in this order, over a connection. So many of its queries may be outstanding; where that
    /// is 0 none is sent.
    pub fn new(conn: Conn, slot: u32, most: u8, jobs: Vec<LineJob>) -> Poll
        ensures { IsNew conn slot most jobs.items result }
    {
        let _few = jobs.len();
        Poll {
            conn,
            slot,
            most,
            jobs,
            turned: 0,
            first: 0,
            waiting: 0,
            taken: 0,
            round: Round {
                asked: 0,
                recorded: 0,
                excepted: 0,
                refused: 0,
            },
        }
    }

    /// Whether all its queries are settled, and no job is left.
    pub fn is_done(&self) -> bool
        ensures { IsTrue result ↔ IsDone self.now }
    {
        self.turned == self.jobs.len() && self.waiting == 0
    }

    /// Whether no query can be sent: no job is left, or as many are outstanding as may be.
    pub fn is_waiting(&self) -> bool
        ensures { IsTrue result ↔ IsWaiting self.now }
    {
        self.turned == self.jobs.len() || self.waiting == self.most
    }

    /// How many frames it took.
    pub fn taken(&self) -> u32
        ensures { result ≡ taken_of self.now }
    {
        self.taken
    }

    /// What it came to so far.
    pub fn round(&self) -> Round
        ensures { result ≡ counts_of self.now }
    {
        self.round
    }

    /// The job at the turn is passed over.
    fn pass(&mut self)
        requires { HasTurn self.old }
        ensures passed { Passed self.old self.new }
        ensures left { left_of self.new + 1 ≡ left_of self.old }
        ensures taken { taken_of self.new ≡ taken_of self.old }
    {
        self.turned += 1;
    }

    /// The job at the turn made a query of this transaction.
    fn note_query(&mut self, transaction: u16)
        requires { HasTurn self.old }
        ensures asked { Asked self.old transaction self.new }
        ensures left { left_of self.new + 1 ≡ left_of self.old }
        ensures taken { taken_of self.new ≡ taken_of self.old }
    {
        if self.round.asked == 0 {
            self.first = transaction;
        }
        self.turned += 1;
        self.round.asked += 1;
        self.waiting += 1;
    }

    /// The turn of the next job: its query, or none where the job is passed over.
    fn next_turn<K: Keeper>(&mut self, office: &mut Office<K>) -> Result<Option<Frame>, PollFault>
        requires { HasTurn self.old }
        ensures goes { K.is_clean (keeper_of office.new) → MatchResult result
            (λ query. GoesOn office.old self.old office.new self.new [] (as_list query))
            (λ fault. BreaksOff office.old self.old office.new self.new [] [] [] fault) }
        ensures along { GoesAlong (TurnIn self.old) office.old office.new }
        ensures same { IsSame self.old self.new }
        ensures accounts { AccountsFor (IsCaused ⊥) office.old office.new result }
        ensures left { IfOk result (λ _. left_of self.new + 1 ≡ left_of self.old) }
        ensures taken { taken_of self.new ≡ taken_of self.old }
    {
        match turn(office, self.conn, self.slot, &self.jobs[self.turned])? {
            Some(query) => {
                self.note_query(query.transaction);
                Ok(Some(query))
            }
            None => {
                self.pass();
                Ok(None)
            }
        }
    }

    /// The next query to send, if fewer are outstanding than may be and a job is left that has something
    /// to do. Each job is judged at its turn.
    pub fn next<K: Keeper>(&mut self, office: &mut Office<K>) -> Result<Option<Frame>, PollFault>
        ensures goes { K.is_clean (keeper_of office.new) → MatchResult result
            (λ query. GoesOn office.old self.old office.new self.new [] (as_list query))
            (λ fault. BreaksOff office.old self.old office.new self.new [] [] [] fault) }
        ensures along { GoesAlong (TurnIn self.old) office.old office.new }
        ensures accounts { AccountsFor (IsCaused ⊥) office.old office.new result }
        ensures waits { IfOk result (λ query. IsNone query → IsWaiting self.new) }
        ensures left { IfOk result (λ query. IsSome query → left_of self.new < left_of self.old) }
        ensures taken { taken_of self.new ≡ taken_of self.old }
    {
        while self.turned < self.jobs.len() && self.waiting < self.most {
            if let Some(query) = self.next_turn(office)? {
                return Ok(Some(query));
            }
        }
        Ok(None)
    }

    /// Whether a query with this transaction, which is among the last 65,536 of the connection, is
    /// the round's own.
    fn is_own(&self, transaction: u16) -> bool
        ensures { result ≡ own self.now.first self.now.round.asked transaction }
    {
        (transaction.wrapping_sub(self.first) as u64) < self.round.asked
    }

    /// A frame with this transaction was a reply.
    fn note_arrival(&mut self, arrival: Arrival, transaction: u16)
        requires { taken_of self.old < 4294967295 }
        ensures took { Took self.old (Arrived arrival) transaction self.new }
        ensures left { left_of self.new ≡ left_of self.old }
        ensures taken { taken_of self.new ≡ taken_of self.old + 1 }
    {
        let is_own = self.is_own(transaction);
        self.taken += 1;
        match arrival {
            Arrival::Recorded(count) => self.round.recorded += count as u64,
            Arrival::Settled => {}
            Arrival::Excepted(_) => self.round.excepted += 1,
        }
        if is_own {
            self.waiting = self.waiting.saturating_sub(1);
        }
    }

    /// A frame was refused.
    fn note_refusal(&mut self)
        requires { taken_of self.old < 4294967295 }
        ensures took { (fault : OfficeError) (transaction : ℕ) → Took self.old (Refused fault) transaction self.new }
        ensures left { left_of self.new ≡ left_of self.old }
        ensures taken { taken_of self.new ≡ taken_of self.old + 1 }
    {
        self.taken += 1;
        self.round.refused += 1;
    }

    /// A frame came, where no query could be sent.
    pub fn take<K: Keeper>(
        &mut self,
        office: &mut Office<K>,
        frame: &Frame,
    ) -> Result<(), PollFault>
        requires few { taken_of self.old < 4294967295 }
        requires waits { IsWaiting self.old }
        ensures goes { K.is_clean (keeper_of office.new) → MatchResult result
            (λ _. GoesOn office.old self.old office.new self.new (frame.now ∷ []) [])
            (λ fault. BreaksOff office.old self.old office.new self.new [] (frame.now ∷ []) [] fault) }
        ensures along { GoesAlong (HearsIn self.old frame.now) office.old office.new }
        ensures accounts { AccountsFor (IsCaused ⊥) office.old office.new result }
        ensures left { left_of self.new ≡ left_of self.old }
        ensures taken { IfOk result (λ _. taken_of self.new ≡ taken_of self.old + 1) }
    {
        match office.arrive(self.conn, frame) {
            Ok(arrival) => {
                self.note_arrival(arrival, frame.transaction);
                Ok(())
            }
            Err(error) => {
                if is_store(&error) {
                    return Err(PollFault::from(error));
                }
                self.note_refusal();
                Ok(())
            }
        }
    }
}
