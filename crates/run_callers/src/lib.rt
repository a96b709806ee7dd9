//! The callers of an office that stays up: places in which they are held, each one's exchange, and pages of which a part
//! is shown a turn.
//!
//! `crates/office_run/src/running.rt` calls them.
#![tactic(auto)]

mod caller;
mod looks;
mod moved;
mod place;
mod showing;

pub use caller::{Hold, News, orders_of};
pub use place::Place;
