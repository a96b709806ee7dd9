//! What an office that stays up needs beside the office and its sockets: slots by the clock, when a
//! line is due and how long it is left alone, bytes that wait to be written, and turns in which
//! each line and each caller is called once.
//!
//! `crates/tour/src/beats.rt` is a short example.
#![tactic(auto)]

mod beat;
mod callers;
mod delay;
mod outbox;
mod slots;
mod sockets;
mod times;
mod turns;
mod watch;

pub use beat::{Beat, Stage};
pub use callers::{CLOSING_MILLIS, EXCHANGE_MILLIS, HEAD_MILLIS, MOST_CALLERS};
pub use delay::Delay;
pub use outbox::Outbox;
pub use slots::Slots;
pub use sockets::{Came, Connected, MOST_LINES, Sent, SocketFault, Sockets, Source};
pub use times::{ClockTime, Moment};
pub use turns::{Called, World, call_each, run, turn};
pub use watch::{Sight, Watch};
