//! The lines of an office that stays up: each one's connection and rounds, as a machine that is called once a turn over
//! sockets that never wait, and what is told of them.
//!
//! `crates/office_run/src/running.rt` calls them.
#![tactic(auto)]

mod ahead;
mod event;
mod journal;
mod line;
mod link;
mod loss;
mod noise;
mod round;
mod share;
mod station;
mod times;
mod turned;
mod window;

pub use ahead::Ahead;
pub use event::{Device, Event, RoundNumbers};
pub use journal::Journal;
pub use line::Line;
pub use loss::Loss;
pub use times::{Times, earlier};
pub use turned::Turned;
