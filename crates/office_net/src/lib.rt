//! The office at its lines and its callers: poll rounds, which ask what lacks a reading and send the
//! orders that wait, and requests over HTTP.
//!
//! `crates/tour/src/rounds.rt` and `exchanges.rt` there are short examples.
#![tactic(auto)]

mod answering;
mod counting;
mod drilling;
mod fault;
mod going;
mod job;
pub mod laws;
mod machine;
mod planning;
mod polling;
mod replies;
mod round;
mod serving;
mod turns;

pub use answering::{has_page, respond};
pub use counting::last_counted;
pub use drilling::{DrillFault, DrillStep, drill};
pub use fault::PollFault;
pub use going::{ask_among, last_order, oldest_order, open_line, take_late};
pub use job::LineJob;
pub use machine::Poll;
pub use planning::{jobs_of, reads_of};
pub use polling::{MOST_READ, poll_round};
pub use round::Round;
pub use serving::{ServeFault, Served, serve_one};
