//! Why there is no query.
use thiserror::Error;

/// Why there is no query.
#[derive(Clone, Copy, Debug, PartialEq, Eq, Error)]
pub enum MatchError {
    /// The connection isn't open.
    #[error("no such connection")]
    NoConnection,
    /// No query of the connection has the frame's transaction.
    #[error("no query has this transaction identifier")]
    NoQuery,
    /// The frame's unit identifier isn't the query's.
    #[error("the unit identifier is not the query's")]
    WrongUnit,
    /// The query was answered before.
    #[error("the query was answered before")]
    Repeat,
    /// The unit is no reply to the query.
    #[error("no reply to the query")]
    WrongReply,
    /// Memory was refused.
    #[error("out of memory")]
    Memory,
    /// The connection made 4,294,967,295 queries.
    #[error("no query number is left")]
    Exhausted,
}
