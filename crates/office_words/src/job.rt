//! What the words of a command line ask for, and why they ask for nothing.
ghost use Rattle.std.specs.Prelude.{◌≡◌};
ghost use Rattle.office_words.specs.declared.job.WordFault.TheVariants.{Memory};

use poll_book::{Caller, Key};
use std::alloc::AllocError;
use std::error::Error;
use std::fmt;

/// A command with its values. The names of files, lines and points are as the words give them.
#[derive(Debug, Drop)]
pub enum Job {
    /// Plays a script.
    Replay,
    /// Prints the reads of a point list.
    Plan {
        site: String,
        list: String,
    },
    /// Prints the chain of models of a device.
    Discover {
        site: String,
        /// Seconds, 1 to 3,600.
        timeout: u16,
        device: String,
    },
    /// Plays the devices of an image, on a port or on standard input and output.
    Sim {
        image: String,
        port: Option<u16>,
    },
    /// Moves a store of an earlier version to today's.
    Migrate {
        store: String,
        /// Seconds, 1 to 3,600.
        timeout: u16,
    },
    /// Does an errand in the office of a store, over a site.
    Office {
        store: String,
        site: String,
        /// Seconds, 1 to 3,600.
        timeout: u16,
        errand: Errand,
    },
}

/// What is done in an office.
#[derive(Debug, Drop)]
pub enum Errand {
    /// Loads a point list.
    Load {
        caller: Caller,
        key: Key,
        list: String,
    },
    /// Polls the devices of a line for a slot.
    Poll {
        slot: u32,
        line: String,
    },
    /// Orders a setting.
    Order {
        caller: Caller,
        key: Key,
        point: String,
        value: i128,
    },
    /// Takes a slot of a counter out of its total.
    Void {
        caller: Caller,
        key: Key,
        point: String,
        slot: u32,
    },
    /// Prints the readings of a point, with `from` at most `to` and the two at most 9,999 apart.
    Report {
        point: String,
        from: u32,
        to: u32,
    },
    /// Answers over HTTP.
    Serve {
        port: u16,
        /// How many connections; without it there is no end.
        count: Option<u32>,
    },
    /// Stays up: polls each slot, sends each order at once, and answers over HTTP.
    Run {
        /// The seconds of a slot, more than the timeout, 86,400 at most.
        every: u32,
        /// The address that callers reach.
        bind: String,
        port: u16,
    },
}

/// Why words ask for no job.
#[derive(Clone, Copy, Debug, PartialEq, Eq)]
pub enum WordFault {
    /// The words aren't those of a command, or a value isn't in its form.
    Words,
    /// Memory was refused.
    Memory,
}

impl fmt::Display for WordFault {
    ghost use Rattle.std.specs.Prelude.{Some};
    ghost use Rattle.office_words.specs.Faults.{fault_text};

    ghost output = { λ fault. Some (fault_text fault) };

    fn fmt<W: fmt::Write>(&self, f: &mut fmt::Formatter<W>) -> fmt::Result {
        f.write_str(match self {
            WordFault::Words => "command",
            WordFault::Memory => "memory",
        })
    }
}

impl Error for WordFault {}

impl From<AllocError> for WordFault {
    ghost from_gives = { λ _ fault. fault ≡ Memory };

    fn from(_: AllocError) -> WordFault {
        WordFault::Memory
    }
}
