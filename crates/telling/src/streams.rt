//! Readers and writers that give and take little at a time, and that fail.
use std::alloc::{AllocError, Global};
use std::io::{self, ErrorKind, Read, Write};

/// What comes in: a read gives so many bytes at most, and so many reads succeed. Then one fails, or it and all behind
/// it. Behind the bytes there is an end, or a failure.
#[derive(Clone, Copy)]
pub struct Incoming<'a> {
    pub bytes: &'a [u8],
    pub most: usize,
    pub reads: usize,
    pub recovers: bool,
    pub fails: bool,
}

impl<'a> Incoming<'a> {
    /// All of this, in pieces of at most so many bytes, and then an end or a failure.
    pub fn new(bytes: &'a [u8], most: usize, fails: bool) -> Incoming<'a> {
        Incoming {
            bytes,
            most,
            reads: usize::MAX,
            recovers: false,
            fails,
        }
    }
}

fn failure() -> io::Error {
    io::Error::from(ErrorKind::Other)
}

impl Read for Incoming<'_> {
    ghost use Rattle.std.specs.Prelude.{None};

    ghost remaining = { λ _. None };

    fn read(&mut self, buf: &mut [u8]) -> io::Result<usize> {
        let bytes = self.bytes;
        if self.reads == 0 || bytes.is_empty() && self.fails {
            if self.recovers {
                self.reads = usize::MAX;
            }
            return Err(failure());
        }
        self.reads -= 1;
        let count = buf.len().min(self.most).min(bytes.len());
        buf[..count].copy_from_slice(&bytes[..count]);
        self.bytes = &bytes[count..];
        Ok(count)
    }
}

/// What goes out: a write takes so many bytes at most, and so many writes succeed. Then one fails, or it and all behind
/// it, with each flush.
#[derive(Drop)]
pub struct Outgoing {
    pub sent: Vec<u8>,
    pub most: usize,
    pub writes: usize,
    pub recovers: bool,
}

impl Outgoing {
    /// Takes all of so many writes, and fails for good then.
    pub fn new(alloc: Global, writes: usize) -> Outgoing {
        Outgoing {
            sent: Vec::new(alloc),
            most: usize::MAX,
            writes,
            recovers: false,
        }
    }

    /// The same in writes of so many bytes, for so many of which there is room.
    pub fn with_room(
        alloc: Global,
        room: usize,
        most: usize,
        writes: usize,
    ) -> Result<Outgoing, AllocError> {
        Ok(Outgoing {
            sent: Vec::with_capacity(alloc, room)?,
            most,
            writes,
            recovers: false,
        })
    }
}

impl Write for Outgoing {
    fn write(&mut self, buf: &[u8]) -> io::Result<usize> {
        if self.writes == 0 {
            if self.recovers {
                self.writes = usize::MAX;
            }
            return Err(failure());
        }
        self.writes -= 1;
        let count = buf.len().min(self.most);
        match self.sent.extend_from_slice(&buf[..count]) {
            Ok(()) => Ok(count),
            Err(_) => Err(io::Error::from(ErrorKind::OutOfMemory)),
        }
    }

    fn flush(&mut self) -> io::Result<()> {
        if self.writes == 0 {
            return Err(failure());
        }
        Ok(())
    }
}
