//! A caller's place.
ghost use Rattle.std.specs.Prelude.{◌≡◌, ◌∷◌, []};
ghost use Rattle.run_beat.specs.Acts.{Closes};
ghost use Rattle.run_callers.specs.Sessions.{Exchanges, Free};

use crate::caller::{Caller, Gone, Hold, News};
use office_core::Office;
use poll_book::Keeper;
use run_beat::{Moment, Sockets, Source};
use run_deeds::Board;
use std::alloc::Global;

/// One of the places in which callers are held.
#[derive(Drop)]
pub struct Place {
    alloc: Global,
    at: usize,
    caller: Option<Caller>,
    // What became of what a caller asked for that is gone, of which nobody was told yet.
    left: Option<News>,
    // The pass in which it did something last.
    served: u64,
}

impl Place {
    ghost use Rattle.run_callers.specs.Callers.{at_of, served_in, session_at};

    /// An empty one.
    pub fn new(alloc: Global, at: usize) -> Place
        ensures at { at_of result ≡ at }
        ensures free { session_at result ≡ Free }
    {
        Place {
            alloc,
            at,
            caller: None,
            left: None,
            served: 0,
        }
    }

    /// Its number, from 0 on.
    pub fn at(&self) -> usize
        ensures { result ≡ at_of self.now }
    {
        self.at
    }

    /// The pass in which it did something last; 0 before the first.
    pub fn served(&self) -> u64
        ensures { result ≡ served_in self.now }
    {
        self.served
    }

    /// It has its turn in a pass.
    pub fn serve(&mut self, pass: u64)
        ensures at { at_of self.new ≡ at_of self.old }
        ensures same { session_at self.new ≡ session_at self.old }
        ensures served { served_in self.new ≡ pass }
    {
        self.served = pass;
    }

    /// When its caller has to go.
    pub fn due(&self) -> Option<Moment> {
        match &self.caller {
            Some(caller) => Some(caller.due()),
            None => None,
        }
    }

    /// Whether nobody is there.
    pub fn is_free(&self) -> bool {
        self.caller.is_none()
    }

    /// What became of what its caller asked for since this was asked last, though it is gone since.
    pub fn news(&mut self) -> Option<News>
        ensures at { at_of self.new ≡ at_of self.old }
        ensures same { session_at self.new ≡ session_at self.old }
    {
        match &mut self.caller {
            Some(caller) => Some(caller.news()),
            None => self.left.take(),
        }
    }

    /// How soon its caller goes where another one waits, if it may.
    pub fn hold(&self, now: Moment) -> Option<Hold> {
        match &self.caller {
            Some(caller) => caller.hold(now),
            None => None,
        }
    }

    /// The moment to come from which on its caller may go for another one, though its head is whole.
    pub fn slow_from(&self, now: Moment) -> Option<Moment> {
        match &self.caller {
            Some(caller) if now < caller.slow_from() => Some(caller.slow_from()),
            _ => None,
        }
    }

    /// Sends its caller away, if it has one.
    pub fn clear<S: Sockets>(&mut self, sockets: &mut S)
        ensures at { at_of self.new ≡ at_of self.old }
        ensures free { session_at self.new ≡ Free }
        ensures acts { S.acts sockets.old (Closes (Source.Caller (at_of self.old)) ∷ []) sockets.new }
    {
        sockets.close(Source::Caller(self.at));
        self.caller = None;
    }

    /// Its turn: an empty one takes a caller that waits. Tells whether there may be more to do at once.
    pub fn turn<K: Keeper, S: Sockets>(
        &mut self,
        office: &mut Office<K>,
        sockets: &mut S,
        board: &Board,
        now: Moment,
    ) -> bool
        ensures at { at_of self.new ≡ at_of self.old }
        ensures goes { Exchanges (Source.Caller (at_of self.old)) office.old office.new (λ acts. S.acts sockets.old acts sockets.new) (session_at self.old) (session_at self.new) }
    {
        let Some(caller) = &mut self.caller else {
            let is_taken = sockets.accept(self.at);
            if is_taken {
                self.caller = Some(Caller::new(self.alloc, now));
            }
            return is_taken;
        };
        match caller.go_on(office, sockets, board, Source::Caller(self.at), now) {
            Ok(is_more) => is_more,
            Err(Gone) => {
                self.left = Some(caller.news());
                self.clear(sockets);
                true
            }
        }
    }
}
