//! What callers are given.

/// So many callers are held at once; a further one has to wait until a place is free.
pub const MOST_CALLERS: usize = 64;

/// A caller is given so many milliseconds to send a whole head.
pub const HEAD_MILLIS: u32 = 5_000;

/// A caller is given so many milliseconds for the whole exchange, from its connection to the end of
/// the answer.
pub const EXCHANGE_MILLIS: u32 = 30_000;

/// A caller is given so many milliseconds to close after the answer, so that what it still sends
/// doesn't cost it the answer.
pub const CLOSING_MILLIS: u32 = 1_000;
