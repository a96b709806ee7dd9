//! All that the system's events tell of.
ghost use Rattle.std.specs.Prelude.{◌≡◌, ◌<◌, ◌==◌, ◌&&◌, ◌||◌, IfOk, IsTrue, false, length, true};
ghost use Rattle.mio.specs.Event.{event_token, is_read_closed};
ghost use Rattle.run_beat.specs.Counts.{CameWithin, SentWithin};
ghost use Rattle.run_beat.specs.Places.{has_socket, no_sockets, with_socket};

use crate::door::Door;
use crate::table::Table;
use crate::tokens::{ERROR, INPUT, LISTENER, source_of};
use mio::Events;
use mio::event::Event;
use mio::net::{TcpListener, TcpStream};
use run_beat::{Came, Connected, MOST_CALLERS, MOST_LINES, Sent, Source};
use std::alloc::{AllocError, Global};

/// The connections of lines and callers, the door, whether standard input has ended, and whether standard error may
/// take bytes.
#[derive(Drop)]
pub(crate) struct Ports {
    lines: Table,
    callers: Table,
    pub(crate) door: Door,
    pub(crate) is_stopped: bool,
    pub(crate) may_tell: bool,
}

impl Ports {
    ghost use Rattle.run_sockets.specs.Ports.{places_in};

    /// No connection yet.
    pub(crate) fn new(alloc: Global, listener: TcpListener) -> Result<Ports, AllocError>
        ensures { IfOk result (λ ports. places_in ports ≡ no_sockets) }
    {
        Ok(Ports {
            lines: Table::new(alloc, MOST_LINES)?,
            callers: Table::new(alloc, MOST_CALLERS)?,
            door: Door::new(listener),
            is_stopped: false,
            may_tell: false,
        })
    }

    /// Notes what an event says.
    fn note(&mut self, event: &Event)
        ensures same { places_in self.new ≡ places_in self.old }
        ensures stopped { self.new.is_stopped ≡ (self.old.is_stopped || ((event_token event.now).0 == 129 && is_read_closed event.now)) }
    {
        let token = event.token();
        match source_of(token) {
            Some(Source::Line(place)) => self.lines.note(place, event),
            Some(Source::Caller(place)) => self.callers.note(place, event),
            None if token == LISTENER => self.door.note(),
            None if token == INPUT && event.is_read_closed() => self.is_stopped = true,
            None if token == ERROR => self.may_tell = true,
            None => {}
        }
    }

    /// Notes what these events say.
    pub(crate) fn note_all(&mut self, events: &Events)
        ensures same { places_in self.new ≡ places_in self.old }
        ensures stays { IsTrue self.old.is_stopped → IsTrue self.new.is_stopped }
    {
        for event in events.iter() {
            self.note(event);
        }
    }

    /// Whether a caller's place is there and has no socket.
    pub(crate) fn is_free(&self, caller: usize) -> bool
        ensures { IsTrue result → has_socket (Source.Caller caller) (places_in self.now) ≡ false }
    {
        self.callers.is_free(caller)
    }

    /// Puts a connection into its place. One that was there is closed.
    pub(crate) fn put(&mut self, source: Source, stream: TcpStream)
        ensures { places_in self.new ≡ with_socket source true (places_in self.old) }
    {
        match source {
            Source::Line(place) => self.lines.put(place, stream),
            Source::Caller(place) => self.callers.put(place, stream),
        }
    }

    /// Closes a connection, if there is one.
    pub(crate) fn close(&mut self, source: Source)
        ensures { places_in self.new ≡ with_socket source false (places_in self.old) }
    {
        match source {
            Source::Line(place) => self.lines.close(place),
            Source::Caller(place) => self.callers.close(place),
        }
    }

    /// How the connection to a line stands.
    pub(crate) fn connected(&self, line: usize) -> Connected
        ensures { has_socket (Source.Line line) (places_in self.now) ≡ false → result ≡ Connected.Failed }
    {
        self.lines.connected(line)
    }

    /// Reads once.
    pub(crate) fn read(&mut self, source: Source, piece: &mut [u8]) -> Came
        requires { 0 < length piece.old }
        ensures within { CameWithin (length piece.new) result }
        ensures none { has_socket source (places_in self.old) ≡ false → result ≡ Came.Failed }
        ensures same { places_in self.new ≡ places_in self.old }
    {
        match source {
            Source::Line(place) => self.lines.read(place, piece),
            Source::Caller(place) => self.callers.read(place, piece),
        }
    }

    /// Writes once.
    pub(crate) fn write(&mut self, source: Source, bytes: &[u8]) -> Sent
        requires { 0 < length bytes.now }
        ensures within { SentWithin (length bytes.now) result }
        ensures none { has_socket source (places_in self.old) ≡ false → result ≡ Sent.Failed }
        ensures same { places_in self.new ≡ places_in self.old }
    {
        match source {
            Source::Line(place) => self.lines.write(place, bytes),
            Source::Caller(place) => self.callers.write(place, bytes),
        }
    }

    /// Tells the peer that no more is written.
    pub(crate) fn finish(&self, source: Source) {
        match source {
            Source::Line(place) => self.lines.finish(place),
            Source::Caller(place) => self.callers.finish(place),
        }
    }
}
