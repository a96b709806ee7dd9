//! Answering over HTTP, one connection after the other.
use crate::timed::Timed;
use crate::{Failure, Fault};
use mb_mbap::Counted;
use office_core::{Office, OfficeError};
use office_net::serve_one;
use poll_book::{Keeper, StoreFault};
use std::alloc::Global;
use std::io::{self, ErrorKind, Read, Write};
use std::net::{Shutdown, TcpListener, TcpStream};
use std::rt::Clock;
use std::time::Duration;

/// An exchange takes so many seconds at most, however slowly the caller writes and reads.
const EXCHANGE: u64 = 30;

/// A caller is given so many seconds to close after the answer, so that what it still sends doesn't
/// cost it the answer.
const CLOSING: u64 = 1;

/// So many pieces of what a caller still sends are read at most.
const PIECES: u32 = 256;

/// Reads what a caller still sends after its answer, until it closes.
fn close<C: Clock>(clock: &C, stream: &TcpStream) -> io::Result<()> {
    stream.shutdown(Shutdown::Write)?;
    let closing = Duration::from_secs(CLOSING);
    let mut rest = Timed::new(clock, stream.try_clone()?, closing, closing)?;
    let mut piece = [0u8; 4096];
    for _ in 0..PIECES {
        if rest.read(&mut piece)? == 0 {
            break;
        }
    }
    Ok(())
}

/// A stream to a caller, and whether the answer says that the store or memory refused.
#[derive(Drop)]
struct Answering<W> {
    stream: W,
    is_refused: bool,
}

impl<W: Write> Write for Answering<W> {
    fn write(&mut self, buf: &[u8]) -> io::Result<usize> {
        self.is_refused |= buf.starts_with(b"HTTP/1.1 503 ");
        self.stream.write(buf)
    }

    fn flush(&mut self) -> io::Result<()> {
        self.stream.flush()
    }
}

/// Answers the request of a connection; tells whether it was refused. A fault ends the connection alone.
fn answer<R: Clock + AllocGlobal, K: Keeper>(
    rt: &R,
    office: &mut Office<K>,
    stream: &TcpStream,
    timeout: Duration,
) -> io::Result<bool> {
    stream.set_nodelay(true)?;
    let exchange = Duration::from_secs(EXCHANGE);
    let mut reader = Counted::new(Timed::new(rt, stream.try_clone()?, exchange, timeout)?);
    let mut writer = Counted::new(Answering {
        stream: Timed::new(rt, stream.try_clone()?, exchange, timeout)?,
        is_refused: false,
    });
    if serve_one(rt.alloc(), office, &mut reader, &mut writer).is_ok() {
        // Of a connection that fails nobody is there to be told.
        let _ = close(rt, stream);
    }
    Ok(writer.into_inner().is_refused)
}

/// Whether a file of the store fails.
fn fails<K: Keeper>(office: &mut Office<K>) -> bool {
    matches!(office.orders(), Err(OfficeError::Store(StoreFault::Disk)))
}

/// Takes the next connection of a listener. One that went away before it was taken is passed over.
pub fn take_next(listener: &TcpListener) -> Result<TcpStream, Failure> {
    for _ in 0..u32::MAX {
        match listener.accept() {
            Ok((stream, _)) => return Ok(stream),
            Err(error) if error.kind() == ErrorKind::ConnectionAborted => {}
            Err(error) => return Err(Failure::of_line(error)),
        }
    }
    Err(Failure::from(Fault::Line))
}

/// Answers so many connections, one after the other; without a count it goes on. Each read and write
/// waits for `timeout` at most, and an exchange takes 30 seconds in all. A connection that fails ends
/// alone; `Line` comes where none can be taken any more, and `Store` where a file of the store failed, and fails again
/// as it is asked twice behind that.
pub fn serve<R: Clock + AllocGlobal, K: Keeper>(
    rt: &R,
    office: &mut Office<K>,
    listener: &TcpListener,
    count: Option<u32>,
    timeout: Duration,
) -> Result<(), Failure> {
    let count = count.map_or(u64::MAX, u64::from);
    for _ in 0..count {
        let stream = take_next(listener)?;
        let is_refused = answer(rt, office, &stream, timeout).unwrap_or(false);
        if is_refused && fails(office) && fails(office) {
            return Err(Failure::from(Fault::Store(StoreFault::Disk)));
        }
    }
    Ok(())
}
