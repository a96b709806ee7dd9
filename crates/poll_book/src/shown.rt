//! Readings as they are shown.
use crate::rows::ReadingRow;

/// A reading, with whether its slot is voided: it doesn't count for its point's total then.
#[derive(Debug, Drop)]
pub struct ShownReading {
    pub reading: ReadingRow,
    pub voided: bool,
}
