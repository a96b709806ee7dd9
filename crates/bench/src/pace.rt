//! How long something took, and what a search ends with where there is nothing.
use std::io;

/// What something gives, and how long it took.
macro_rules! timed {
    ($rt:expr, $work:expr) => {{
        let start = std::time::Instant::now($rt)?;
        let done = $work;
        (done, start.elapsed($rt)?)
    }};
}

pub(crate) use timed;

pub fn refused() -> io::Error {
    io::Error::other("it was refused")
}

/// What there is; a search ends where there is nothing.
pub fn granted<T>(answer: Option<T>) -> io::Result<T> {
    match answer {
        Some(answer) => Ok(answer),
        None => Err(refused()),
    }
}
