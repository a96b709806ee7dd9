//! The book of a polling office: its points, their readings, the settings that were ordered, the
//! requests of callers and its connection number, the trait of what keeps them, what a reply adds
//! to them, and a keeper in memory.
//!
//! `crates/tour/src/keepers.rt` is a short example.
#![tactic(auto)]

mod asked;
mod caller;
mod counting;
mod fault;
mod histories;
mod history;
mod keeper;
mod keyed;
pub mod laws;
mod marks;
mod mem_keeper;
mod mem_tables;
mod nearest;
mod orders;
mod points;
mod recording;
mod requests;
mod rows;
mod shown;
mod totals;
mod voiding;
mod voids;
mod words;

pub use caller::{Caller, CallerError, Key, KeyError};
pub use counting::{counted_number, removed, repaired, step_between};
pub use fault::StoreFault;
pub use keeper::{Keeper, Neighbours};
pub use mem_keeper::MemKeeper;
pub use recording::reply_change;
pub use requests::{Body, KeptRequest, MOST_APART, Outcome, Reason, RequestFault, RequestRow};
pub use rows::{
    Change, OrderState, PointRow, Reading, ReadingRow, Setting, SettingRow, TotalRow, VoidRow,
};
pub use shown::ShownReading;
pub use voiding::void_one;
pub use words::Words;
