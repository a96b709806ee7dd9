//! A request, of which pieces come.
ghost use Rattle.std.specs.Prelude.{◌≡◌, ◌++◌, ◌↔◌, [], IfOk, IsTrue, OnErr, OnOk};
ghost use Rattle.office_http.specs.Deciding.{Lacks, Means};
ghost use Rattle.office_http.specs.Exchanges.{bytes_of, routes_of};
ghost use Rattle.office_http.specs.Head.{BeginsWithHead};
ghost use Rattle.office_http.specs.Heard.{meaning_of};
ghost use Rattle.office_http.specs.Judging.{IsShort, Judges};

use crate::heard::{Heard, Refusal};
use crate::routes::Routes;
use crate::stage::{Stage, go_on};
use std::alloc::{AllocError, Global};
use std::marker::Model;

/// A connection's request, of which pieces come. Contracts see the routes that it offers, and the
/// bytes that came.
#[derive(Drop)]
pub struct Exchange {
    alloc: Global,
    routes: Routes,
    bytes: Vec<u8>,
    stage: Stage,
}

impl Model for Exchange {
    ghost use Rattle.office_http.specs.Exchanges.{Arrived};

    ghost Value = { Arrived };

    ghost use Rattle.office_http.specs.Stages.{IsAt};

    ghost view = { λ e. record { routes = e.routes; bytes = e.bytes.items } };

    ghost invariant = { λ e. IsAt e.routes e.bytes.items e.stage };
}

impl Exchange {
    /// Of which nothing came, where these routes are offered.
    pub fn new(alloc: Global, routes: Routes) -> Exchange
        ensures routes { routes_of result ≡ routes }
        ensures bytes { bytes_of result ≡ [] }
        ensures lacks { Lacks (routes_of result) (bytes_of result) }
    {
        Exchange {
            alloc,
            routes,
            bytes: Vec::new(alloc),
            stage: Stage::Headless,
        }
    }

    /// Takes a piece, and tells what is asked for, as soon as that is known whatever follows; `None`
    /// while no whole request is there: then fewer than 270,336 bytes came.
    pub fn take(&mut self, piece: &[u8]) -> Result<Option<Heard>, AllocError>
        ensures same { routes_of self.new ≡ routes_of self.old }
        ensures taken { OnOk result (bytes_of self.new ≡ bytes_of self.old ++ piece.now) }
        ensures asked { IfOk result (Judges (routes_of self.new) (bytes_of self.new)) }
        ensures short { IfOk result (IsShort (bytes_of self.new)) }
        ensures memory { OnErr result (bytes_of self.new ≡ bytes_of self.old) }
    {
        let count = self.bytes.len();
        self.bytes.extend_from_slice(piece)?;
        if self.bytes.is_empty() {
            return Ok(None);
        }
        let asked = go_on(self.alloc, self.routes, &mut self.bytes, &mut self.stage);
        if asked.is_err() {
            self.bytes.truncate(count);
        }
        asked
    }

    /// Whether its head is whole, within the limits of one: what lacks then is of the body.
    pub fn has_head(&self) -> bool
        ensures { IsTrue result ↔ BeginsWithHead (bytes_of self.now) }
    {
        match self.stage {
            Stage::Headless => false,
            Stage::Headed => true,
            Stage::InBody { .. } => true,
        }
    }

    /// What is asked for where no more bytes come, and no whole request is there.
    pub fn end(&self) -> Heard
        ensures { Lacks (routes_of self.now) (bytes_of self.now) → Means (routes_of self.now) (bytes_of self.now) (meaning_of result) }
    {
        if self.bytes.is_empty() {
            Heard::Nothing
        } else {
            Heard::Refused(Refusal::BadRequest)
        }
    }
}
