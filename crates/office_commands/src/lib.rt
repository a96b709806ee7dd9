//! What the program `office` does with the words of its command line, over an office, readers, writers and
//! sockets that are handed in: where files, streams and the office's store are is the host's matter.
//!
//! `crates/office/src/machine.rt` is a host, and `crates/cases_office/src/world.rt` another one, on which pages are played.
#![tactic(auto)]

mod discovering;
mod errands;
mod failure;
mod fault;
mod frame_line;
mod host;
mod listing;
mod ordering;
mod output;
mod polling;
mod running;
mod serving;
mod simulating;
mod staying;
mod timed;
mod voiding;

pub use discovering::discover;
pub use errands::{Task, work_in};
pub use failure::{Failure, Why};
pub use fault::Fault;
pub use host::{Host, Migration, Stores};
pub use listing::{load, plan};
pub use ordering::order;
pub use polling::{connect, poll};
pub use running::{end_with, run};
pub use serving::{serve, take_next};
pub use simulating::{LinesFault, answer_lines, answer_stream};
pub use staying::{Stay, addresses_of, door_of};
pub use timed::Timed;
pub use voiding::void;
