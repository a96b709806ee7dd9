//! The sockets of an office that stays up, over `mio`: what `run_beat` asks of the system.
//!
//! The program `office` listens on them in `crates/office/src/machine.rt`.
#![tactic(auto)]

mod address;
mod door;
mod place;
mod ports;
mod socket;
mod system;
mod table;
mod teller;
mod tokens;

pub use system::System;
