//! Bytes that wait to be written.
ghost use Rattle.std.specs.Prelude.{◌≡◌, ◌≤◌, ◌++◌, ◌↔◌, [], drop, length, IsTrue, OnErr, OnOk};

use std::alloc::{AllocError, Global};
use std::marker::Model;

/// Bytes that wait to be written. Contracts see them as a list, in their order.
#[derive(Debug, Drop)]
pub struct Outbox {
    // Those that were written are dropped once others come, or all are.
    bytes: Vec<u8>,
    written: usize,
}

impl Model for Outbox {
    ghost use Rattle.std.specs.Prelude.{List, ℕ};

    ghost Value = { List ℕ };

    ghost use Rattle.run_beat.specs.Outboxes.{waiting, IsOutbox};

    ghost view = { waiting };

    ghost invariant = { IsOutbox };
}

impl Outbox {
    /// Nothing waits.
    pub fn new(alloc: Global) -> Outbox
        ensures { result ≡ [] }
    {
        Outbox {
            bytes: Vec::new(alloc),
            written: 0,
        }
    }

    /// Puts bytes behind those that wait. It refuses for memory alone, and then nothing has changed.
    pub fn push(&mut self, bytes: &[u8]) -> Result<(), AllocError>
        ensures ok { OnOk result (self.new ≡ self.old ++ bytes.now) }
        ensures err { OnErr result (self.new ≡ self.old) }
    {
        let written = self.written;
        self.bytes.drain(..written);
        self.written = 0;
        self.bytes.extend_from_slice(bytes)
    }

    /// What waits.
    pub fn pending(&self) -> &[u8]
        ensures { result.now ≡ self.now }
    {
        &self.bytes[self.written..]
    }

    /// Whether nothing waits.
    pub fn is_empty(&self) -> bool
        ensures { IsTrue result ↔ self.now ≡ [] }
    {
        self.pending().is_empty()
    }

    /// So many of those that wait were written, the first ones.
    pub fn wrote(&mut self, count: usize)
        requires { count ≤ length self.old }
        ensures { self.new ≡ drop count self.old }
    {
        self.written += count;
        if self.written == self.bytes.len() {
            self.bytes.clear();
            self.written = 0;
        }
    }
}
