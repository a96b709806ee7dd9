//! What an office keeps at most.

/// At most so many orders exist, and at most so many slots of points are voided.
pub(crate) const MOST_KEPT: u32 = 1_000_000;
