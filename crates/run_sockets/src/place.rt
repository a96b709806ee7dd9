//! The place of a line or a caller.
ghost use Rattle.std.specs.Prelude.{◌≡◌, ◌<◌, false, length, not, true};
ghost use Rattle.run_beat.specs.Counts.{CameWithin, SentWithin};

use crate::socket::Socket;
use mio::event::Event;
use mio::net::TcpStream;
use run_beat::{Came, Connected, Sent};
use std::marker::Model;

/// A place with a socket, or with none. Contracts see whether it has one.
#[derive(Drop)]
pub(crate) struct Place {
    socket: Option<Socket>,
}

impl Model for Place {
    ghost use Rattle.std.specs.Prelude.{Bool};

    ghost Value = { Bool };

    ghost use Rattle.run_sockets.specs.PlaceFields.{has_one};

    ghost view = { has_one };
}

impl Place {
    /// A place with no socket.
    pub(crate) fn new() -> Place
        ensures { result ≡ false }
    {
        Place { socket: None }
    }

    /// Whether it has no socket.
    pub(crate) fn is_free(&self) -> bool
        ensures { result ≡ not self.now }
    {
        self.socket.is_none()
    }

    /// Takes a connection. One that was there is closed.
    pub(crate) fn put(&mut self, stream: TcpStream)
        ensures { self.new ≡ true }
    {
        self.socket = Some(Socket::new(stream));
    }

    /// Closes its connection, if it has one.
    pub(crate) fn close(&mut self)
        ensures { self.new ≡ false }
    {
        self.socket = None;
    }

    /// Notes for what an event says that its socket is ready.
    pub(crate) fn note(&mut self, event: &Event)
        ensures { self.new ≡ self.old }
    {
        if let Some(socket) = &mut self.socket {
            socket.note(event);
        }
    }

    /// How its connection stands.
    pub(crate) fn connected(&self) -> Connected
        ensures { self.now ≡ false → result ≡ Connected.Failed }
    {
        match &self.socket {
            Some(socket) => socket.connected(),
            None => Connected::Failed,
        }
    }

    /// Reads once.
    pub(crate) fn read(&mut self, piece: &mut [u8]) -> Came
        requires { 0 < length piece.old }
        ensures within { CameWithin (length piece.new) result }
        ensures none { self.old ≡ false → result ≡ Came.Failed }
        ensures same { self.new ≡ self.old }
    {
        match &mut self.socket {
            Some(socket) => socket.read(piece),
            None => Came::Failed,
        }
    }

    /// Writes once.
    pub(crate) fn write(&mut self, bytes: &[u8]) -> Sent
        requires { 0 < length bytes.now }
        ensures within { SentWithin (length bytes.now) result }
        ensures none { self.old ≡ false → result ≡ Sent.Failed }
        ensures same { self.new ≡ self.old }
    {
        match &mut self.socket {
            Some(socket) => socket.write(bytes),
            None => Sent::Failed,
        }
    }

    /// Tells the peer that no more is written.
    pub(crate) fn finish(&self) {
        if let Some(socket) = &self.socket {
            socket.finish();
        }
    }
}
