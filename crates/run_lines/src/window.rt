//! The queries of a connection that are neither answered nor given up.
ghost use Rattle.std.specs.Prelude.{◌≡◌, ◌≤◌, ◌<◌, ◌↔◌, ◌++◌, ◌∷◌, [], IsTrue, OnErr, OnOk, length};
ghost use Rattle.std.specs.List.{filter, find, list_any};
ghost use Rattle.run_lines.specs.Windows as windows;

use run_beat::Moment;
use std::alloc::{AllocError, Global};
use std::marker::Model;

/// So many queries of a connection are neither answered nor given up, at most.
pub(crate) const MOST_WAITING: usize = 16;

/// A query that was sent.
#[derive(Clone, Copy, Debug, PartialEq, Eq)]
pub(crate) struct Query {
    /// Its transaction identifier.
    pub transaction: u16,
    /// The place of its device among those of the line.
    pub device: usize,
    /// The number of the order that it was sent for, if it was for one.
    pub order: Option<u32>,
    pub sent: Moment,
}

impl Query {
    /// Whether it was sent for the order of a number.
    fn is_for(&self, number: u32) -> bool
        ensures { result ≡ windows.is_for number self.now }
    {
        match self.order {
            Some(order) => order == number,
            None => false,
        }
    }
}

/// Queries, in the order in which they were sent. Contracts see them as a list, of 16 at most.
#[derive(Debug, Drop)]
pub(crate) struct Window {
    queries: Vec<Query>,
}

impl Model for Window {
    ghost use Rattle.std.specs.Prelude.{List, ◌≤◌, length};
    ghost use Rattle.run_lines.specs.declared.window.Query.{Query};

    ghost Value = { List Query };

    ghost view = { λ window. window.queries.items };

    ghost invariant = { λ window. length window.queries.items ≤ 16 };
}

/// The first query of a transaction.
fn first_under(queries: &[Query], transaction: u16) -> Option<Query>
    ensures { result ≡ find (windows.is_under transaction) queries.now }
{
    queries
        .iter()
        .copied()
        .find(|query| query.transaction == transaction)
}

/// Takes out the queries of a transaction.
fn drop_under(queries: &mut Vec<Query>, transaction: u16)
    ensures rest { queries.new.items ≡ filter (windows.is_under_another transaction) queries.old.items }
    ensures few { length queries.new.items ≤ length queries.old.items }
{
    queries.retain(|query| query.transaction != transaction);
}

/// Takes out the queries of a device.
fn drop_of(queries: &mut Vec<Query>, device: usize)
    ensures rest { queries.new.items ≡ filter (windows.is_of_another device) queries.old.items }
    ensures few { length queries.new.items ≤ length queries.old.items }
{
    queries.retain(|query| query.device != device);
}

impl Window {
    /// None was sent.
    pub fn new(alloc: Global) -> Window
        ensures { result ≡ [] }
    {
        Window {
            queries: Vec::new(alloc),
        }
    }

    /// Whether nothing is waited for.
    pub fn is_empty(&self) -> bool
        ensures { IsTrue result ↔ self.now ≡ [] }
    {
        self.queries.is_empty()
    }

    /// So many wait, 16 at most.
    pub fn len(&self) -> usize
        ensures count { result ≡ length self.now }
        ensures most { result ≤ 16 }
    {
        self.queries.len()
    }

    /// Whether one of a device waits.
    pub fn has(&self, device: usize) -> bool
        ensures { result ≡ list_any (windows.is_of device) self.now }
    {
        self.queries.iter().any(|query| query.device == device)
    }

    /// Whether one waits that was sent for the order of a number.
    pub fn has_order(&self, number: u32) -> bool
        ensures { result ≡ list_any (windows.is_for number) self.now }
    {
        self.queries.iter().any(|query| query.is_for(number))
    }

    /// The one that was sent first.
    pub fn oldest(&self) -> Option<Query>
        ensures { result ≡ windows.first self.now }
    {
        self.queries.first().copied()
    }

    /// One more was sent. It refuses for memory alone, and then nothing has changed.
    pub fn push(&mut self, query: Query) -> Result<(), AllocError>
        requires { length self.old < 16 }
        ensures ok { OnOk result (self.new ≡ self.old ++ query ∷ []) }
        ensures err { OnErr result (self.new ≡ self.old) }
    {
        self.queries.push(query)?;
        Ok(())
    }

    /// The query of a transaction is answered; none has it where it was given up before.
    pub fn answer(&mut self, transaction: u16) -> Option<Query>
        ensures found { result ≡ find (windows.is_under transaction) self.old }
        ensures rest { self.new ≡ filter (windows.is_under_another transaction) self.old }
    {
        let found = first_under(&self.queries, transaction);
        drop_under(&mut self.queries, transaction);
        found
    }

    /// All queries of a device are given up.
    pub fn give_up(&mut self, device: usize)
        ensures { self.new ≡ filter (windows.is_of_another device) self.old }
    {
        drop_of(&mut self.queries, device);
    }
}
