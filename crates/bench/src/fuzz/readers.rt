//! What each reader makes of bytes. It ends in a value or in a named refusal, and then what it read into is as it was.
ghost use Rattle.point_list.specs.Sites.{IsSound};

use crate::fuzz::dice::Dice;
use crate::fuzz::{Came, Trouble};
use mb_map::Sim;
use mb_mbap::{Counted, Frame, FrameReader};
use mb_pdu::{Reply, Request, Span};
use office_core::Office;
use office_net::serve_one;
use office_script::{ReplayFault, Replayed, replay};
use point_list::{ListFault, Site, read_points};
use poll_book::MemKeeper;
use std::alloc::{AllocError, Global};

/// A unit as a request. What one is read to spells the bytes again.
pub fn request(bytes: &[u8]) -> Result<Came, Trouble> {
    match Request::decode(bytes) {
        Ok(request) if request.encode().as_bytes() == bytes => Ok(Came::Value),
        Ok(_) => Err(Trouble::Wrong("a request that spells other bytes")),
        Err(_) => Ok(Came::Refused),
    }
}

/// A unit as a reply to a read of three registers.
pub fn reply(bytes: &[u8]) -> Result<Came, Trouble> {
    let span = Span {
        start: 107,
        quantity: 3,
    };
    match Reply::decode(&Request::ReadHolding(span), bytes) {
        Ok(_) => Ok(Came::Value),
        Err(_) => Ok(Came::Refused),
    }
}

/// How many frames a piece completes, and whether a header was bad.
fn fed(stream: &mut FrameReader, piece: &[u8]) -> Result<(usize, bool), AllocError> {
    let fed = stream.feed(piece)?;
    Ok((fed.frames.len(), fed.fault.is_some()))
}

const WHOLE: &[u8] = &[0, 0, 0, 0, 0, 2, 17, 7];

/// A stream in one piece and in two, which have the same frames. After a bad header no frame comes any more.
pub fn stream(alloc: Global, dice: &mut Dice, bytes: &[u8]) -> Result<Came, Trouble> {
    let cut = dice.below(bytes.len() + 1);
    let (mut whole, mut halves) = (FrameReader::new(alloc), FrameReader::new(alloc));
    let (all, bad) = fed(&mut whole, bytes)?;
    let (one, early) = fed(&mut halves, bytes.get(..cut).unwrap_or(bytes))?;
    let (other, late) = fed(&mut halves, bytes.get(cut..).unwrap_or(&[]))?;
    if one.saturating_add(other) != all || (early || late) != bad {
        return Err(Trouble::Wrong("a stream that is another one in two pieces"));
    }
    match fed(&mut whole, WHOLE)? {
        (0, true) if bad => Ok(Came::Refused),
        (_, _) if bad => Err(Trouble::Wrong("a frame behind a bad header")),
        (_, _) => Ok(Came::Value),
    }
}

/// A point list over a site.
pub fn list(alloc: Global, known: &Site, bytes: &[u8]) -> Result<Came, Trouble>
    requires { IsSound known.now }
{
    match read_points(alloc, bytes, known) {
        Ok(_) => Ok(Came::Value),
        Err(error) if error.fault == ListFault::Memory => Err(Trouble::Memory),
        Err(_) => Ok(Came::Refused),
    }
}

/// A site file, of which a site comes whose parts agree.
pub fn site_file(alloc: Global, bytes: &[u8]) -> Result<Came, Trouble> {
    match Site::from_toml(alloc, bytes) {
        Ok(site) if site.is_sound() => Ok(Came::Value),
        Ok(_) => Err(Trouble::Wrong("a site whose parts don't agree")),
        Err(error) if error.is_memory() => Err(Trouble::Memory),
        Err(_) => Ok(Came::Refused),
    }
}

/// A simulator's file, whose devices answer.
pub fn image(alloc: Global, bytes: &[u8]) -> Result<Came, Trouble> {
    let mut sim = match Sim::from_image(alloc, bytes) {
        Ok(sim) => sim,
        Err(error) if error.is_memory() => return Err(Trouble::Memory),
        Err(_) => return Ok(Came::Refused),
    };
    let Ok(query) = Frame::decode(&[0, 0, 0, 0, 0, 6, 17, 3, 0, 5, 0, 2]) else {
        return Err(Trouble::Wrong("a query that is no frame"));
    };
    match (sim.take(&query), sim.rest()) {
        (Ok(_), Ok(_)) => Ok(Came::Value),
        _ => Err(Trouble::Memory),
    }
}

/// A script, played over an office of its own.
pub fn script(alloc: Global, bytes: &[u8]) -> Result<Came, Trouble> {
    let mut reader = Counted::new(bytes);
    let mut writer = Counted::new(Vec::new(alloc));
    match replay(alloc, &mut reader, &mut writer) {
        Ok(Replayed::Done) => Ok(Came::Value),
        Ok(Replayed::FaultLine(_)) => Ok(Came::Refused),
        Err(ReplayFault::Memory) => Err(Trouble::Memory),
        Err(_) => Err(Trouble::Wrong("a reader or a writer that failed")),
    }
}

/// What is answered to a connection's bytes over HTTP.
pub fn answer(
    alloc: Global,
    office: &mut Office<MemKeeper>,
    bytes: &[u8],
) -> Result<Vec<u8>, Trouble> {
    let mut reader = Counted::new(bytes);
    let mut writer = Counted::new(Vec::new(alloc));
    if serve_one(alloc, office, &mut reader, &mut writer).is_err() {
        return Err(Trouble::Wrong("a reader or a writer that failed"));
    }
    let answer = writer.into_inner();
    if answer.starts_with(b"HTTP/1.1 503") {
        return Err(Trouble::Memory);
    }
    Ok(answer)
}

/// Whether an office may keep something behind an answer: a request that was taken, or one whose refusal is kept.
pub fn may_keep(answer: &[u8]) -> bool {
    answer.starts_with(b"HTTP/1.1 201") || answer.starts_with(b"HTTP/1.1 422")
}
