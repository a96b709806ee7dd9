//! Pieces and frames over counted readers and writers. Each call is told which fault it has.
//!
//! `crates/tour/src/pieces.rt` is a short example.
#![tactic(auto)]

mod reading;
mod writing;

pub use reading::{read_piece, read_some};
pub use writing::{write, write_frame};
