//! What a turn of a line came to.
use crate::ahead::Ahead;
use crate::loss::Loss;
use office_core::OfficeError;
use poll_book::StoreFault;

/// What a turn of a line came to.
#[derive(Clone, Copy, Debug)]
pub struct Turned {
    /// Whether there may be more to do at once.
    pub is_more: bool,
    /// What the store refused.
    pub refused: Option<StoreFault>,
    /// Whether it kept something.
    pub has_kept: bool,
    /// The counter that is counted in a slot a day from now, or later.
    pub ahead: Option<Ahead>,
}

/// What the store refused where a connection is lost.
pub(crate) fn refused_in(why: Loss) -> Option<StoreFault> {
    match why {
        Loss::Office(OfficeError::Store(fault)) => Some(fault),
        _ => None,
    }
}
