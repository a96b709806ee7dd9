//! What is shown: points, lines and orders.
use point_list::Point;
use poll_book::ShownReading;

/// A point as it is shown: its last reading, and of a counter the total.
#[derive(Debug, Drop)]
pub struct Seen {
    pub point: Point,
    pub last: Option<ShownReading>,
    pub total: Option<u128>,
}

/// What a line's rounds came to since the run began.
#[derive(Clone, Copy, Debug, PartialEq, Eq, Default)]
pub struct Tally {
    /// Rounds that ended uncut, with or without the readings of a silent device.
    pub rounds: u64,
    /// Rounds that the end of their slot, or of their line's connection, cut.
    pub cut: u64,
    pub queries: u64,
    pub readings: u64,
    pub exceptions: u64,
    /// Frames that answered nothing, or what was answered.
    pub refused: u64,
    /// How many milliseconds the last round that ended uncut took.
    pub last_round: Option<u64>,
}

/// How a line stands.
#[derive(Clone, Copy, Debug)]
pub struct LineSeen<'a> {
    pub name: &'a str,
    pub address: &'a str,
    pub is_up: bool,
    pub tally: Tally,
}

/// The oldest order that waits on a device. `value` is the text of its number as the point shows it.
#[derive(Clone, Copy, Debug)]
pub struct OrderSeen<'a> {
    pub device: &'a str,
    pub number: u32,
    pub point: &'a str,
    pub value: &'a str,
}
