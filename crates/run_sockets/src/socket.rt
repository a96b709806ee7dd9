//! A connection over a socket that never waits.
ghost use Rattle.std.specs.Prelude.{◌≡◌, ◌≢◌, ◌<◌, ◌||◌, IsTrue, false, length};
ghost use Rattle.mio.specs.Event.{is_error, is_read_closed, is_readable, is_writable, is_write_closed};
ghost use Rattle.run_beat.specs.Counts.{CameWithin, SentWithin};

use mio::event::Event;
use mio::net::TcpStream;
use run_beat::{Came, Connected, Sent};
use std::io::{ErrorKind, Read, Write};
use std::net::Shutdown;

/// A connection, and for what it may be ready: so from an event that says so until a call that
/// would have had to wait.
#[derive(Drop)]
pub(crate) struct Socket {
    stream: TcpStream,
    may_read: bool,
    may_write: bool,
}

impl Socket {
    /// A connection of which no event has come.
    pub(crate) fn new(stream: TcpStream) -> Socket
        ensures reads { result.may_read ≡ false }
        ensures writes { result.may_write ≡ false }
    {
        Socket {
            stream,
            may_read: false,
            may_write: false,
        }
    }

    /// Notes for what an event says that it is ready. An error or an end is told by the next read or
    /// write.
    pub(crate) fn note(&mut self, event: &Event)
        ensures reads { self.new.may_read ≡ (self.old.may_read || is_readable event.now || is_read_closed event.now || is_error event.now) }
        ensures writes { self.new.may_write ≡ (self.old.may_write || is_writable event.now || is_write_closed event.now || is_error event.now) }
    {
        let is_failed = event.is_error();
        let may_read = event.is_readable() || event.is_read_closed() || is_failed;
        let may_write = event.is_writable() || event.is_write_closed() || is_failed;
        self.may_read = self.may_read || may_read;
        self.may_write = self.may_write || may_write;
    }

    /// How the connection that was begun stands. One whose two ends are one address is none: the system may join a socket
    /// to itself at a port of its own where nobody listens, and each request would come back as its reply. No clause
    /// says so, since no contract knows the addresses that the system holds.
    pub(crate) fn connected(&self) -> Connected
        ensures { self.now.may_write ≡ false → result ≡ Connected.NotYet }
    {
        if !self.may_write {
            return Connected::NotYet;
        }
        match self.stream.take_error() {
            Ok(None) => {}
            _ => return Connected::Failed,
        }
        let Ok(peer) = self.stream.peer_addr() else {
            return Connected::NotYet;
        };
        match self.stream.local_addr() {
            Ok(own) if own != peer => Connected::Yes,
            _ => Connected::Failed,
        }
    }

    /// Reads once.
    pub(crate) fn read(&mut self, piece: &mut [u8]) -> Came
        requires { 0 < length piece.old }
        ensures within { CameWithin (length piece.new) result }
        ensures waits { self.old.may_read ≡ false → result ≡ Came.Nothing }
        ensures emptied { result ≡ Came.Nothing → self.new.may_read ≡ false }
        ensures reads { result ≢ Came.Nothing → self.new.may_read ≡ self.old.may_read }
        ensures writes { self.new.may_write ≡ self.old.may_write }
    {
        if !self.may_read {
            return Came::Nothing;
        }
        match self.stream.read(piece) {
            Ok(0) => Came::Ended,
            Ok(count) => Came::Bytes(count),
            Err(error) if error.kind() == ErrorKind::WouldBlock => {
                self.may_read = false;
                Came::Nothing
            }
            Err(_) => Came::Failed,
        }
    }

    /// Writes once.
    pub(crate) fn write(&mut self, bytes: &[u8]) -> Sent
        requires { 0 < length bytes.now }
        ensures within { SentWithin (length bytes.now) result }
        ensures waits { self.old.may_write ≡ false → result ≡ Sent.Nothing }
        ensures filled { result ≡ Sent.Nothing → self.new.may_write ≡ false }
        ensures writes { result ≢ Sent.Nothing → self.new.may_write ≡ self.old.may_write }
        ensures reads { self.new.may_read ≡ self.old.may_read }
    {
        if !self.may_write {
            return Sent::Nothing;
        }
        match self.stream.write(bytes) {
            Ok(0) => Sent::Failed,
            Ok(count) => Sent::Bytes(count),
            Err(error) if error.kind() == ErrorKind::WouldBlock => {
                self.may_write = false;
                Sent::Nothing
            }
            Err(_) => Sent::Failed,
        }
    }

    /// Tells the peer that no more is written.
    pub(crate) fn finish(&self) {
        // A peer that is gone needs no telling.
        let _ = self.stream.shutdown(Shutdown::Write);
    }
}
