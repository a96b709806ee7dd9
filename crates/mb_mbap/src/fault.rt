//! Why bytes aren't a frame, or a stream can't be read on.
use thiserror::Error;

/// Why bytes aren't a frame, or a stream of frames can't be read on.
#[derive(Clone, Copy, Debug, PartialEq, Eq, Error)]
pub enum FrameFault {
    /// The protocol field of a header isn't 0.
    #[error("the protocol field isn't 0")]
    NotModbus,
    /// The length field of a header is outside 2 to 254.
    #[error("the length field is outside 2 to 254")]
    BadLength,
    /// The bytes end before their frame does. Of `Frame::decode` alone: a stream may go on.
    #[error("the frame isn't whole")]
    Short,
    /// More bytes follow the frame. Of `Frame::decode` alone: a stream has more frames.
    #[error("more bytes follow the frame")]
    Long,
    /// An earlier header was bad, so no later byte has a place in a frame. Of a stream alone.
    #[error("an earlier header was bad")]
    Failed,
}
