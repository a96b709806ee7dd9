//! Replies that a simulator holds back.
use mb_mbap::Frame;

/// A reply that is held back.
#[derive(Debug, Drop)]
pub(crate) struct Held {
    /// How many frames until it leaves, at least 1.
    pub left: u8,
    pub reply: Frame,
}
