//! How bytes are cut that are read.
use std::alloc::AllocError;
use std::io::{self, ErrorKind, Read};

/// So many bytes come one by one at most, the last ones.
const MOST_ONE_BY_ONE: usize = 1_048_576;

/// How many of the bytes that are there a read gives.
#[derive(Clone, Copy, PartialEq, Eq)]
pub(crate) enum Cut {
    Whole,
    /// Half of them.
    Halves,
    /// One, once there are no more than come one by one.
    Bytes,
}

impl Cut {
    /// How many bytes of so many come next.
    pub(crate) fn next(self, there: usize) -> usize {
        match self {
            Cut::Whole => there,
            Cut::Halves => there.div_ceil(2),
            Cut::Bytes if there > MOST_ONE_BY_ONE => there - MOST_ONE_BY_ONE,
            Cut::Bytes => there.min(1),
        }
    }
}

/// Bytes to be read, to which more may be added.
#[derive(Drop)]
pub(crate) struct Bytes {
    bytes: Vec<u8>,
    taken: usize,
    cut: Cut,
    /// Behind them a read fails, and doesn't end.
    fails: bool,
}

impl Bytes {
    /// Behind them a read fails, or they end.
    pub(crate) fn new(bytes: Vec<u8>, cut: Cut, fails: bool) -> Bytes {
        Bytes {
            bytes,
            taken: 0,
            cut,
            fails,
        }
    }

    pub(crate) fn add(&mut self, bytes: &[u8]) -> Result<(), AllocError> {
        self.bytes.extend_from_slice(bytes)
    }
}

impl Read for Bytes {
    ghost use Rattle.std.specs.Prelude.{None};

    ghost remaining = { λ _. None };

    fn read(&mut self, buf: &mut [u8]) -> io::Result<usize> {
        let rest = self.bytes.get(self.taken..).unwrap_or(&[]);
        if rest.is_empty() && self.fails {
            return Err(io::Error::from(ErrorKind::ConnectionReset));
        }
        let next = self.cut.next(rest.len());
        let count = next.min(rest.len()).min(buf.len());
        buf[..count].copy_from_slice(&rest[..count]);
        self.taken = self.taken.saturating_add(count);
        Ok(count)
    }
}
