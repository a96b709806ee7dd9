//! An office that stays up: the turns in which each line and each caller's place is called once, over sockets that never
//! wait.
//!
//! `crates/office_commands/src/staying.rt` runs it over any sockets, and `crates/trials_run/src/scenes.rt` over played ones.
#![tactic(auto)]

mod pass;
mod running;

pub use running::{RunFault, run};
