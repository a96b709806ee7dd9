//! What a head asks for, before the bytes behind it.
ghost use Rattle.std.specs.Prelude.{◌≤◌};

use crate::heard::Heard;
use poll_book::{Caller, Key};

/// What a body is for.
#[derive(Clone, Copy)]
pub(crate) enum Purpose {
    List,
    Order,
    Void,
}

/// A request whose body is awaited.
#[derive(Clone, Copy)]
pub(crate) struct Awaited {
    pub purpose: Purpose,
    pub caller: Caller,
    pub key: Key,
    /// So many bytes are the body.
    pub count: usize,
    ghost small: { count ≤ 262144 },
}

/// What a head asks for.
#[derive(Drop)]
pub(crate) enum Asked {
    /// That, whatever stands behind it.
    Known(Heard),
    /// That of a body.
    Awaits(Awaited),
}
