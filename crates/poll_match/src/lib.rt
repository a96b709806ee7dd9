//! The queries of open connections, and which of them a frame answers (Modbus Messaging on TCP/IP
//! V1.0b, section 4.2: matching by transaction identifier).
//!
//! `crates/tour/src/queries.rt` is a short example.
#![tactic(auto)]

mod asked;
mod brief;
mod conn;
mod connection;
mod error;
mod matcher;

pub use asked::{Asked, Matched, Payload};
pub use brief::{BriefReply, FoundBrief};
pub use conn::Conn;
pub use error::MatchError;
pub use matcher::{Found, Matcher};
