//! Standard error, to which nothing is written that would have to wait.
ghost use Rattle.std.specs.Prelude.{◌<◌, length};
ghost use Rattle.run_beat.specs.Counts.{SentWithin};

use crate::tokens::ERROR;
use mio::unix::SourceFd;
use mio::{Interest, Poll};
use run_beat::Sent;
use std::io::{ErrorKind, Write};
use std::os::fd::RawFd;

/// The descriptor of standard error (POSIX, `STDERR_FILENO`).
const STANDARD_ERROR: RawFd = 2;

/// A pipe that is told to be ready takes so many bytes without a wait (POSIX, `PIPE_BUF`, on Linux).
const MOST_AT_ONCE: usize = 4_096;

/// What standard error is.
#[derive(Clone, Copy, Debug)]
enum Kind {
    /// A pipe or a terminal, of which the system tells when it is ready.
    Watched,
    /// A file, of which it refuses that: it never has to be waited for.
    File,
    /// It isn't open. A connection may have its descriptor, so nothing is written.
    Closed,
}

/// Standard error.
#[derive(Drop)]
pub(crate) struct Teller<E> {
    out: E,
    kind: Kind,
    // Whether the system was asked when it is ready since something was written last.
    has_asked: bool,
}

impl<E: Write> Teller<E> {
    /// Looks what it is.
    pub(crate) fn new(poll: &Poll, out: E) -> Teller<E> {
        let watched = poll
            .registry()
            .register(&mut SourceFd(&STANDARD_ERROR), ERROR, Interest::WRITABLE);
        let kind = match watched {
            Ok(()) => Kind::Watched,
            // `EBADF` has no kind of its own.
            Err(error) if error.kind() == ErrorKind::Uncategorized => Kind::Closed,
            Err(_) => Kind::File,
        };
        Teller {
            out,
            kind,
            has_asked: false,
        }
    }

    /// Has the system tell when it is ready, also where it is so still.
    fn ask(&mut self, poll: &Poll) {
        // Where that is refused nothing more is told, and nobody is held up.
        let _ = poll
            .registry()
            .reregister(&mut SourceFd(&STANDARD_ERROR), ERROR, Interest::WRITABLE);
        self.has_asked = true;
    }

    /// Writes once, where it is ready, as far as that takes no wait. What the system told before something was to be
    /// written says nothing: a terminal may have been stopped since.
    fn write_where_ready(&mut self, poll: &Poll, is_ready: &mut bool, bytes: &[u8]) -> Sent
        requires { 0 < length bytes.now }
        ensures { SentWithin (length bytes.now) result }
    {
        let may_write = self.has_asked && *is_ready;
        if !self.has_asked {
            *is_ready = false;
            self.ask(poll);
        }
        if !may_write {
            return Sent::Nothing;
        }
        self.has_asked = false;
        self.write_once(&bytes[..bytes.len().min(MOST_AT_ONCE)])
    }

    /// Writes once, as far as that takes no wait.
    pub(crate) fn write(&mut self, poll: &Poll, is_ready: &mut bool, bytes: &[u8]) -> Sent
        requires { 0 < length bytes.now }
        ensures { SentWithin (length bytes.now) result }
    {
        match self.kind {
            Kind::Watched => self.write_where_ready(poll, is_ready, bytes),
            Kind::File => self.write_once(bytes),
            Kind::Closed => Sent::Failed,
        }
    }

    fn write_once(&mut self, bytes: &[u8]) -> Sent
        requires { 0 < length bytes.now }
        ensures { SentWithin (length bytes.now) result }
    {
        match self.out.write(bytes) {
            Ok(0) => Sent::Failed,
            Ok(count) => Sent::Bytes(count),
            Err(error) => match error.kind() {
                ErrorKind::WouldBlock | ErrorKind::Interrupted => Sent::Nothing,
                _ => Sent::Failed,
            },
        }
    }
}
