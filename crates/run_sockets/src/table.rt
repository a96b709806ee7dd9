//! The places of lines, or of callers.
ghost use Rattle.std.specs.Prelude.{◌≡◌, ◌<◌, ◌↔◌, IfOk, IsTrue, Some, false, length, replicate, slice_get, slice_index_or, slice_set, true};
ghost use Rattle.run_beat.specs.Counts.{CameWithin, SentWithin};

use crate::place::Place;
use mio::event::Event;
use mio::net::TcpStream;
use run_beat::{Came, Connected, Sent};
use std::alloc::{AllocError, Global};

/// Places, numbered from 0. Nothing happens at a place that isn't there.
#[derive(Drop)]
pub(crate) struct Table {
    places: Vec<Place>,
}

impl Table {
    ghost use Rattle.run_sockets.specs.Tables.{sockets_of};

    /// So many places with no socket.
    pub(crate) fn new(alloc: Global, count: usize) -> Result<Table, AllocError>
        ensures { IfOk result (λ table. sockets_of table ≡ replicate count false) }
    {
        let mut places = Vec::with_capacity(alloc, count)?;
        for _ in 0..count {
            places.push(Place::new())?;
        }
        Ok(Table { places })
    }

    /// Whether a place is there and has no socket.
    pub(crate) fn is_free(&self, place: usize) -> bool
        ensures { IsTrue result ↔ (slice_get (sockets_of self.now) place ≡ Some false) }
    {
        match self.places.get(place) {
            Some(place) => place.is_free(),
            None => false,
        }
    }

    /// Puts a connection into a place. One that was there is closed.
    pub(crate) fn put(&mut self, place: usize, stream: TcpStream)
        ensures { sockets_of self.new ≡ slice_set (sockets_of self.old) place true }
    {
        if let Some(place) = self.places.get_mut(place) {
            place.put(stream);
        }
    }

    /// Closes the connection of a place, if it has one.
    pub(crate) fn close(&mut self, place: usize)
        ensures { sockets_of self.new ≡ slice_set (sockets_of self.old) place false }
    {
        if let Some(place) = self.places.get_mut(place) {
            place.close();
        }
    }

    /// Notes for what an event says that the socket of a place is ready.
    pub(crate) fn note(&mut self, place: usize, event: &Event)
        ensures { sockets_of self.new ≡ sockets_of self.old }
    {
        if let Some(place) = self.places.get_mut(place) {
            place.note(event);
        }
    }

    /// How the connection of a place stands.
    pub(crate) fn connected(&self, place: usize) -> Connected
        ensures { slice_index_or (sockets_of self.now) place false ≡ false → result ≡ Connected.Failed }
    {
        match self.places.get(place) {
            Some(place) => place.connected(),
            None => Connected::Failed,
        }
    }

    /// Reads once from the socket of a place.
    pub(crate) fn read(&mut self, place: usize, piece: &mut [u8]) -> Came
        requires { 0 < length piece.old }
        ensures within { CameWithin (length piece.new) result }
        ensures none { slice_index_or (sockets_of self.old) place false ≡ false → result ≡ Came.Failed }
        ensures same { sockets_of self.new ≡ sockets_of self.old }
    {
        match self.places.get_mut(place) {
            Some(place) => place.read(piece),
            None => Came::Failed,
        }
    }

    /// Writes once to the socket of a place.
    pub(crate) fn write(&mut self, place: usize, bytes: &[u8]) -> Sent
        requires { 0 < length bytes.now }
        ensures within { SentWithin (length bytes.now) result }
        ensures none { slice_index_or (sockets_of self.old) place false ≡ false → result ≡ Sent.Failed }
        ensures same { sockets_of self.new ≡ sockets_of self.old }
    {
        match self.places.get_mut(place) {
            Some(place) => place.write(bytes),
            None => Sent::Failed,
        }
    }

    /// Tells the peer of a place that no more is written.
    pub(crate) fn finish(&self, place: usize) {
        if let Some(place) = self.places.get(place) {
            place.finish();
        }
    }
}
