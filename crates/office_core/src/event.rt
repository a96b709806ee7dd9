//! What an office is told, and what it answers.
use crate::error::OfficeError;
use mb_mbap::Frame;
use point_list::{Items, Text};
use poll_book::{Caller, Key, Outcome};
use poll_match::Conn;
use read_planner::Read;

/// What happens to an office.
#[derive(Debug, Drop)]
pub enum Event {
    /// The bytes of a point list, from a caller under a key of its own.
    Load(Caller, Key, Items<u8>),
    /// A value for a setting, by the point's name, from a caller under a key of its own.
    Order(Caller, Key, Text, i128),
    /// A slot of a counter that doesn't count, by the point's name, from a caller under a key of its own.
    Void(Caller, Key, Text, u32),
    /// A line by its name.
    Open(Text),
    /// A read of a device, by its name, for a slot.
    Ask(Conn, Text, u32, Read),
    /// The order of this number, to be sent.
    Send(Conn, u32),
    /// A frame that came over a connection.
    Arrive(Conn, Frame),
    /// The office begins anew, with the same site.
    Restart,
}

/// The answer to a request of a caller.
#[derive(Clone, Copy, Debug, PartialEq, Eq)]
pub enum RequestAnswer {
    /// What became of the first request under the key, and whether this was it.
    Kept { first: bool, outcome: Outcome },
    /// The first request under the key was another one.
    KeyReused,
}

/// What a frame brought.
#[derive(Clone, Copy, Debug, PartialEq, Eq)]
pub enum Arrival {
    /// A normal reply to a read, and how many new readings it gave.
    Recorded(u32),
    /// A normal reply to what was sent for an order.
    Settled,
    /// An exception with its code. One to a read changes no table; one to an order refuses it, but
    /// for codes 5 (acknowledge) and 6 (server device busy), after which it waits as before.
    Excepted(u8),
}

/// The answer to an event.
#[derive(Debug, PartialEq, Eq, Drop)]
pub enum EventAnswer {
    Request(RequestAnswer),
    Opened(Conn),
    /// The frame of the query, to be sent.
    Query(Frame),
    Arrived(Arrival),
    Restarted,
    Refused(OfficeError),
}

impl From<Result<RequestAnswer, OfficeError>> for EventAnswer {
    ghost use Rattle.std.specs.Prelude.{◌≡◌};
    ghost use Rattle.office_core.specs.Offices.{told_so};

    ghost from_gives = { λ told answer. answer ≡ told_so told };

    fn from(told: Result<RequestAnswer, OfficeError>) -> EventAnswer {
        match told {
            Ok(told) => EventAnswer::Request(told),
            Err(error) => EventAnswer::Refused(error),
        }
    }
}

impl From<Result<Conn, OfficeError>> for EventAnswer {
    ghost use Rattle.std.specs.Prelude.{◌≡◌};
    ghost use Rattle.office_core.specs.Offices.{opened};

    ghost from_gives = { λ told answer. answer ≡ opened told };

    fn from(told: Result<Conn, OfficeError>) -> EventAnswer {
        match told {
            Ok(conn) => EventAnswer::Opened(conn),
            Err(error) => EventAnswer::Refused(error),
        }
    }
}

impl From<Result<Frame, OfficeError>> for EventAnswer {
    ghost use Rattle.std.specs.Prelude.{◌≡◌};
    ghost use Rattle.office_core.specs.Offices.{asked_so};

    ghost from_gives = { λ told answer. answer ≡ asked_so told };

    fn from(told: Result<Frame, OfficeError>) -> EventAnswer {
        match told {
            Ok(frame) => EventAnswer::Query(frame),
            Err(error) => EventAnswer::Refused(error),
        }
    }
}

impl From<Result<Arrival, OfficeError>> for EventAnswer {
    ghost use Rattle.std.specs.Prelude.{◌≡◌};
    ghost use Rattle.office_core.specs.Offices.{arrived};

    ghost from_gives = { λ told answer. answer ≡ arrived told };

    fn from(told: Result<Arrival, OfficeError>) -> EventAnswer {
        match told {
            Ok(arrival) => EventAnswer::Arrived(arrival),
            Err(error) => EventAnswer::Refused(error),
        }
    }
}
