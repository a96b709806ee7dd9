//! What is told of a run.
use crate::loss::Loss;
use point_list::Name;
use poll_book::StoreFault;
use std::fmt;

/// What a round came to: how long it took, and since the one before ended, how many queries were made, readings
/// recorded, exceptions answered, and how many frames answered nothing, or what was answered.
#[derive(Clone, Copy, Debug)]
pub struct RoundNumbers {
    pub millis: u64,
    pub asked: u64,
    pub recorded: u64,
    pub excepted: u64,
    pub refused: u64,
}

/// What is told of a device.
#[derive(Clone, Copy, Debug)]
pub enum Device {
    /// It didn't answer in time.
    Silent,
    /// It answers again.
    Back,
    /// It did what was sent for an order.
    Obeyed,
    /// It refused what was sent for an order, in time, by an exception of this code.
    Refused(u8),
}

/// What happened that an operator wants to know.
#[derive(Clone, Copy, Debug)]
pub enum Event<'a> {
    /// A line's connection stands, or it answers again where it was silent.
    Up {
        line: &'a str,
    },
    /// A line's connection is lost, or doesn't come to stand.
    Down {
        line: &'a str,
        why: Loss,
    },
    /// Something of a device of a line.
    Device {
        line: &'a str,
        name: &'a str,
        what: Device,
    },
    /// A line's round of a slot, in which something was asked, ended and wasn't cut.
    Polled {
        line: &'a str,
        slot: u32,
        numbers: RoundNumbers,
    },
    /// A line's round of a slot didn't end within it.
    Cut {
        line: &'a str,
        slot: u32,
    },
    /// A line's counter is counted in a slot to come: no slot before it is begun on the line.
    Waits {
        line: &'a str,
        point: Name,
        slot: u32,
    },
    /// The slot has come, or the counter isn't counted in it any more.
    WaitsNoMore {
        line: &'a str,
    },
    /// It was looked up where a line is, which took so many milliseconds.
    LookedUp {
        line: &'a str,
        millis: u64,
    },
    /// The clock jumped ahead.
    Jumped,
    /// The clock stood for long enough since.
    Followed,
    /// The clock stands behind the last slot that was begun.
    Behind {
        slot: u32,
    },
    /// It has caught up.
    CaughtUp,
    /// The store refused.
    Refused(StoreFault),
    /// It refuses no more.
    Kept,
}

/// What was told of a line last.
#[derive(Clone, Copy, Debug, PartialEq, Eq)]
pub(crate) enum Told {
    Nothing,
    Up,
    Down(Loss),
}

impl Told {
    /// Whether it was told that the line is down though it had stood: then it is up once it answers, and not as it
    /// stands, since what ended at once may do so again.
    pub fn is_of_answers(self) -> bool {
        match self {
            Told::Down(Loss::Silent | Loss::Stuck | Loss::Noise | Loss::Frames(_) | Loss::Ended) =>
                true,
            Told::Down(_) | Told::Nothing | Told::Up => false,
        }
    }
}

impl fmt::Display for Device {
    fn fmt<W: fmt::Write>(&self, f: &mut fmt::Formatter<W>) -> fmt::Result {
        match self {
            Device::Silent => f.write_str("is silent"),
            Device::Back => f.write_str("answers again"),
            Device::Obeyed => f.write_str("did what was ordered"),
            Device::Refused(code) => write!(f, "refused what was ordered, by exception {code}"),
        }
    }
}

impl fmt::Display for RoundNumbers {
    fn fmt<W: fmt::Write>(&self, f: &mut fmt::Formatter<W>) -> fmt::Result {
        let RoundNumbers {
            millis,
            asked,
            recorded,
            excepted,
            refused,
        } = self;
        write!(
            f,
            "asked {asked} recorded {recorded} excepted {excepted} refused {refused} in {millis} ms"
        )
    }
}

impl fmt::Display for Event<'_> {
    fn fmt<W: fmt::Write>(&self, f: &mut fmt::Formatter<W>) -> fmt::Result {
        match self {
            Event::Up { line } => write!(f, "line {line} is up"),
            Event::Down { line, why } => write!(f, "line {line} is down: {why}"),
            Event::Device { line, name, what } => {
                write!(f, "device {name} of line {line} {what}")
            }
            Event::Polled {
                line,
                slot,
                numbers,
            } => write!(f, "line {line} polled slot {slot}: {numbers}"),
            Event::Cut { line, slot } => write!(
                f,
                "the round of line {line} in slot {slot} was cut"
            ),
            Event::Waits { line, point, slot } => write!(
                f,
                "line {line} waits for slot {slot}, in which {point} is counted already"
            ),
            Event::WaitsNoMore { line } => write!(f, "line {line} waits no more"),
            Event::LookedUp { line, millis } => write!(
                f,
                "it took {millis} ms to look up where line {line} is"
            ),
            Event::Jumped => {
                f.write_str("the clock jumped ahead: no slot is begun before it stood for a minute")
            }
            Event::Followed => f.write_str("the clock is followed again"),
            Event::Behind { slot } => {
                write!(
                    f,
                    "the clock stands behind slot {slot}: no slot before it is begun"
                )
            }
            Event::CaughtUp => f.write_str("the clock has caught up"),
            Event::Refused(fault) => write!(f, "the store refuses: {fault}"),
            Event::Kept => f.write_str("the store takes what comes again"),
        }
    }
}
