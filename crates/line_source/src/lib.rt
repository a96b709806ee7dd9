//! A device's registers over a line, as a source that a device's models can be discovered from.
//!
//! `crates/tour/src/source.rt` is a short example.
#![tactic(auto)]

mod exchange;
mod hearing;
mod source;
mod waiting;

pub use source::LineSource;
