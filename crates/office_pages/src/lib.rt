//! What an office that stays up shows of itself, as texts: its points as JSON, its counts and points as OpenMetrics,
//! and its pages in HTML. Each is made piece by piece, and knows no office, no socket and no clock.
//!
//! `crates/tour/src/pages.rt` is a short example.
#![tactic(auto)]

mod curve;
mod escape;
pub mod json;
mod label_value;
mod line_metrics;
pub mod metrics;
mod moment;
pub mod page;
mod row;
mod seen;
mod style;
mod words;

pub use seen::{LineSeen, OrderSeen, Seen, Tally};
