//! HTTP for an office, as a machine that reads and writes nothing: what the bytes of a connection ask
//! for, and the bytes of the answers (RFC 9110, RFC 9112).
//!
//! `crates/tour/src/exchanges.rt` is a short example.
#![tactic(auto)]

pub mod answer;
mod asked;
mod bodies;
mod body;
mod document;
mod exchange;
mod fields;
mod head;
mod heard;
mod judge;
pub mod laws;
mod order;
mod place;
mod reading_body;
mod routes;
mod stage;
mod status;
mod verdict;
mod void;

pub use exchange::Exchange;
pub use heard::{Heard, Methods, Page, Refusal};
pub use reading_body::Shown;
pub use routes::Routes;
pub use status::Status;
