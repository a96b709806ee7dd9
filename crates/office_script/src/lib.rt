//! Scripts: what their lines mean, and playing them to an office in memory.
//!
//! `crates/tour/src/scripts.rt` is a short example.
#![tactic(auto)]

mod acting;
mod command;
mod cutting;
mod device;
pub mod hexadecimal;
mod input;
pub mod laws;
mod opening;
mod player;
mod printing;
mod report;
mod word;

pub use input::SCRIPT_LIMIT;
pub use player::{ReplayFault, Replayed, replay};
