//! The office: what it keeps of lists, connections, queries and replies, whatever is lost, late,
//! repeated or reordered.
//!
//! `crates/tour/src/offices.rt` is a short example.
#![tactic(auto)]

mod arrival;
mod by_device;
mod by_name;
mod by_number;
mod changes;
mod commit;
mod cover;
mod error;
mod event;
mod growing;
mod happening;
mod judging;
mod lacking;
pub mod laws;
mod limits;
mod loads;
mod office;
mod orders;
mod requests;
mod site;
mod voids;

pub use arrival::is_busy;
pub use error::OfficeError;
pub use event::{Arrival, Event, EventAnswer, RequestAnswer};
pub use office::Office;
