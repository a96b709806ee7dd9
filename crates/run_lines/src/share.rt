//! How far a device is in a round.
ghost use Rattle.std.specs.Prelude.{◌≡◌};
ghost use Rattle.run_lines.specs.Shares as shares;
ghost use Rattle.run_lines.specs.declared.share.Orders.TheVariants as orders;

use office_core::{Arrival, is_busy};

/// How a device's orders stand in a round.
#[derive(Clone, Copy, Debug, PartialEq, Eq)]
pub(crate) enum Orders {
    /// The next one is to be sent, if one waits that is old enough.
    Next,
    /// One was sent. The next one waits for what becomes of it.
    Sent,
    /// None waits any more.
    Done,
    /// One is to be sent again, or wasn't answered: no more are sent in this round.
    Ended,
}

/// How far a device is in a round: its orders first, then its reads.
#[derive(Clone, Copy, Debug, PartialEq, Eq)]
pub(crate) struct Share {
    orders: Orders,
    // Orders up to this number are sent.
    last: u32,
    // So many reads had their turn.
    reads: usize,
    // Whether it is passed over, since it didn't answer in time.
    is_passed: bool,
}

impl Share {
    /// A device that had no turn yet, of which orders up to this number are sent.
    pub fn new(last: u32) -> Share
        ensures { result ≡ shares.unbegun last }
    {
        Share {
            orders: Orders::Next,
            last,
            reads: 0,
            is_passed: false,
        }
    }

    /// The number up to which an order is to be sent next; none where none is to be sent.
    pub fn order(self) -> Option<u32>
        ensures { result ≡ shares.order_of self }
    {
        if self.orders == Orders::Next && !self.is_passed {
            Some(self.last)
        } else {
            None
        }
    }

    /// The place of the read that is to be asked next; none before its orders had their turn.
    pub fn read(self) -> Option<usize>
        ensures { result ≡ shares.read_of self }
    {
        match self.orders {
            Orders::Done | Orders::Ended if !self.is_passed => Some(self.reads),
            _ => None,
        }
    }

    /// Whether it was passed over before all had its turn: an order, or one of so many reads.
    pub fn is_left(self, reads: usize) -> bool
        ensures { result ≡ shares.is_left reads self }
    {
        self.is_passed && (self.orders == Orders::Next || self.reads < reads)
    }

    /// An order was sent.
    pub fn send(&mut self)
        ensures { self.new ≡ shares.with_orders orders.Sent self.old }
    {
        self.orders = Orders::Sent;
    }

    /// No order waits.
    pub fn finish_orders(&mut self)
        ensures { self.new ≡ shares.with_orders orders.Done self.old }
    {
        self.orders = Orders::Done;
    }

    /// So many reads had their turn.
    pub fn ask(&mut self, reads: usize)
        ensures { self.new ≡ shares.with_reads reads self.old }
    {
        self.reads = reads;
    }

    /// What was sent for its order, in this round or before, is answered: behind exceptions 5 (acknowledge) and 6
    /// (server device busy), and where the store refused the answer, it waits as before, and no more orders are sent;
    /// else it is settled.
    pub fn settle(&mut self, arrival: Option<Arrival>)
        ensures { self.new ≡ shares.settled arrival self.old }
    {
        if matches!(self.orders, Orders::Next | Orders::Sent) {
            self.orders = match arrival {
                None => Orders::Ended,
                Some(Arrival::Excepted(code)) if is_busy(code) => Orders::Ended,
                _ => Orders::Next,
            };
        }
    }

    /// It didn't answer in time: it is passed over, and no more orders are sent to it.
    pub fn pass(&mut self)
        ensures { self.new ≡ shares.passed self.old }
    {
        self.is_passed = true;
        if self.orders == Orders::Sent {
            self.orders = Orders::Ended;
        }
    }

    /// It answered, and is passed over no more.
    pub fn resume(&mut self)
        ensures { self.new ≡ shares.resumed self.old }
    {
        self.is_passed = false;
    }

    /// Orders up to a later number wait, too: they are sent once all of its reads, so many, had their turn.
    pub fn wake(&mut self, last: u32, reads: usize)
        ensures { self.new ≡ shares.woken last reads self.old }
    {
        if self.orders == Orders::Done && self.reads == reads && self.last < last {
            self.orders = Orders::Next;
            self.last = last;
        }
    }
}
