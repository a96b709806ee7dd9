//! A connection that ends in time, however slowly its peer goes.
ghost use Rattle.std.specs.Io.{ReadsAtMost};

use std::io::{self, ErrorKind, Read, Write};
use std::net::TcpStream;
use std::rt::Clock;
use std::time::{Duration, Instant};

/// A poll round, or a search for models, takes so many times as long as one answer is waited for at most.
const ROUND: u64 = 12;

/// So often is a read begun at most that is interrupted again and again.
const READS: u8 = 64;

/// How long the reads and writes of a stream take at most: all together, and each.
#[derive(Clone, Copy, Drop)]
struct Limit {
    begun: Instant,
    whole: Duration,
    pause: Duration,
}

/// A stream that may have a limit in time.
#[derive(Drop)]
pub struct Timed<'a, C: Clock> {
    clock: &'a C,
    stream: TcpStream,
    limit: Option<Limit>,
}

impl<'a, C: Clock> Timed<'a, C> {
    /// A stream without a limit.
    pub fn endless(clock: &'a C, stream: TcpStream) -> Timed<'a, C> {
        Timed {
            clock,
            stream,
            limit: None,
        }
    }

    /// A stream of which all reads and writes together take so long at most from now on, and each no longer than
    /// `pause`.
    pub(crate) fn new(
        clock: &'a C,
        stream: TcpStream,
        whole: Duration,
        pause: Duration,
    ) -> io::Result<Timed<'a, C>> {
        let begun = Instant::now(clock)?;
        let limit = Limit {
            begun,
            whole,
            pause,
        };
        Ok(Timed {
            clock,
            stream,
            limit: Some(limit),
        })
    }

    /// A stream to devices: each read and each write waits for so many seconds at most, and all together for twelve
    /// times as many.
    pub fn to_devices(clock: &'a C, stream: TcpStream, seconds: u16) -> io::Result<Timed<'a, C>> {
        let seconds = u64::from(seconds);
        let whole = Duration::from_secs(ROUND * seconds);
        Timed::new(clock, stream, whole, Duration::from_secs(seconds))
    }

    /// For how long the next call may wait, a millisecond at least: to the system no time means no
    /// limit.
    fn left(&self) -> io::Result<Option<Duration>> {
        let Some(limit) = self.limit else {
            return Ok(None);
        };
        let least = Duration::from_millis(1);
        let gone = limit.begun.elapsed(self.clock)?;
        match limit.whole.checked_sub(gone) {
            Some(left) if left >= least => Ok(Some(left.min(limit.pause).max(least))),
            _ => Err(io::Error::from(ErrorKind::TimedOut)),
        }
    }

    /// Whether an error is the end of what comes: one who is waited for without a limit may go as it likes, also where it
    /// leaves answers unread, so that the system resets the connection.
    fn is_end(&self, error: io::Error) -> bool {
        self.limit.is_none() && error.kind() == ErrorKind::ConnectionReset
    }

    fn read_once(&mut self, buf: &mut [u8]) -> io::Result<usize>
        ensures { ReadsAtMost result buf.new }
    {
        let left = self.left()?;
        self.stream.set_read_timeout(left)?;
        self.stream.read(buf)
    }
}

impl<C: Clock> Read for Timed<'_, C> {
    /// A read that waits for a while is interrupted where the process is stopped and goes on: it is begun again, with
    /// what is left of its time.
    fn read(&mut self, buf: &mut [u8]) -> io::Result<usize> {
        for _ in 1..READS {
            match self.read_once(buf) {
                Err(error) if error.kind() == ErrorKind::Interrupted => {}
                Err(error) if self.is_end(error) => return Ok(0),
                done => return done,
            }
        }
        self.read_once(buf)
    }
}

impl<C: Clock> Write for Timed<'_, C> {
    fn write(&mut self, buf: &[u8]) -> io::Result<usize> {
        let left = self.left()?;
        self.stream.set_write_timeout(left)?;
        self.stream.write(buf)
    }

    fn flush(&mut self) -> io::Result<()> {
        Ok(())
    }
}
