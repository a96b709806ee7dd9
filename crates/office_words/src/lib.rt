//! The command line of the program `office`: what its words ask for, and the text of its help.
//!
//! `crates/office_commands/src/running.rt` does what they ask for.
#![tactic(auto)]

mod builders;
mod commands;
mod given;
mod help;
mod job;
mod line;
mod values;
mod words;

pub use help::help_of;
pub use job::{Errand, Job, WordFault};
pub use words::read_words;
