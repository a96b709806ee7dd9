//! What a request asks for.
use poll_book::{Caller, Key};

/// What is shown piece by piece.
#[derive(Clone, Copy, Debug, PartialEq, Eq)]
pub enum Page {
    /// Each known point with its last reading, as JSON.
    Points,
    /// What lines and points came to, for a monitoring system (OpenMetrics 1.0).
    Metrics,
    /// Lines, orders that wait, and points, for a browser.
    Office,
    /// The points of the device at this place of the site, from 0 on, with their last slots, for a browser.
    Device(u32),
}

/// The methods of a route.
#[derive(Clone, Copy, Debug, PartialEq, Eq)]
pub enum Methods {
    Get,
    Put,
    GetPut,
}

/// Why a request asks for nothing.
#[derive(Clone, Copy, Debug, PartialEq, Eq)]
pub enum Refusal {
    /// 400: a head, a target's parts or a body that aren't in form.
    BadRequest,
    /// 404: no route.
    NotFound,
    /// 405: another method than the route's.
    NotAllowed(Methods),
    /// 411: a body without its length.
    LengthRequired,
    /// 413: a body of over 262,144 bytes.
    TooLarge,
}

/// What a connection asks for.
#[derive(Debug, Drop)]
pub enum Heard {
    /// No byte came.
    Nothing,
    Refused(Refusal),
    /// A caller's list of points, under a key.
    Load {
        caller: Caller,
        key: Key,
        list: Vec<u8>,
    },
    /// A caller's order, under a key.
    Order {
        caller: Caller,
        key: Key,
        point: String,
        value: i128,
    },
    /// A caller's void of a slot, under a key.
    Void {
        caller: Caller,
        key: Key,
        point: String,
        slot: u32,
    },
    /// What became of the order under a caller's key.
    OrderUnder {
        caller: Caller,
        key: Key,
    },
    /// The readings of a point, in the slots from the one to the other.
    Readings {
        point: String,
        from: u32,
        to: u32,
    },
    /// How far a counter went.
    Total {
        point: String,
    },
    /// The report of a point, over the slots from the one to the other.
    Report {
        point: String,
        from: u32,
        to: u32,
    },
    /// What is shown piece by piece.
    Page(Page),
}
