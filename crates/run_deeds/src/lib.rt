//! What an office that stays up does, deed by deed: with its store, and with its sockets; and what is shown of it beside
//! what the store has.
//!
//! `crates/run_lines/src/line.rt` says what lines do by it, and `crates/run_callers/src/place.rt` what callers' places do.
#![tactic(auto)]

mod board;

pub use board::{Board, Standing};
