//! What a query asks.
ghost use Rattle.std.specs.Prelude.{◌≡◌, ◌<◌, ◌≤◌, length, true};
ghost use Rattle.mb_pdu.specs.Grammar.{spells};
ghost use Rattle.mb_pdu.specs.declared.request.Request.TheVariants.{WriteRegisters};
ghost use Rattle.poll_match.specs.Queries.{CanBeAsked, is_valid, payload, registers_payload, request_of, unit_id_of, word_at, write_request};

use mb_pdu::{Registers, Request, Unit, pair_unit, registers_unit};
use read_planner::Read;
use std::mem::size_of;
use sunspec::{Content, PointType};

/// What a setting is set to, as it is written (Modbus Application Protocol V1.1b3, sections 6.5,
/// 6.6 and 6.12).
#[derive(Clone, Copy, Debug, PartialEq, Eq)]
pub enum Payload {
    /// A coil, by function 05.
    Coil(bool),
    /// One register, by function 06.
    One(u16),
    /// Two registers, by function 16.
    Two([u16; 2]),
    /// Four registers, by function 16.
    Four([u16; 4]),
}

/// The word at a place, 0 where there is none.
fn word_at(words: &[u16], place: usize) -> u16
    ensures { result ≡ word_at words.now place }
{
    words.get(place).copied().unwrap_or(0)
}

/// How words that aren't a bit are written.
fn registers_payload(words: &[u16]) -> Payload
    ensures { result ≡ registers_payload words.now }
{
    let first = word_at(words, 0);
    let second = word_at(words, 1);
    match words.len() {
        1 => Payload::One(first),
        2 => Payload::Two([first, second]),
        _ => Payload::Four([first, second, word_at(words, 2), word_at(words, 3)]),
    }
}

/// The request that writes registers by function 16.
fn registers_request(start: u16, words: &[u16]) -> Request
    requires some { 0 < length words.now }
    requires few { length words.now ≤ 125 }
    ensures { result ≡ WriteRegisters start words.now }
{
    let words = Registers::from_slice(words).unwrap();
    Request::WriteRegisters { start, words }
}

impl Payload {
    /// How words of a type are written: a bit by function 05, where 1 is on and any other word off;
    /// one register by function 06, two by function 16, and any other number of them as four by
    /// function 16. A word that is missing is 0, and one past the fourth isn't written.
    pub fn new(kind: &PointType, words: &[u16]) -> Payload
        ensures { result ≡ payload kind.now words.now }
    {
        match kind.row().content {
            Content::Bit => Payload::Coil(word_at(words, 0) == 1),
            _ => registers_payload(words),
        }
    }

    /// The spelling of its request at an address.
    pub(crate) fn unit(self, address: u16) -> Unit
        ensures { spells (write_request address self) result }
    {
        match self {
            Payload::Coil(on) => pair_unit(5, address, if on { 0xFF00 } else { 0 }),
            Payload::One(value) => pair_unit(6, address, value),
            Payload::Two(words) => registers_unit(address, &words),
            Payload::Four(words) => registers_unit(address, &words),
        }
    }

    /// The request that writes it at an address.
    fn request(self, address: u16) -> Request
        ensures { result ≡ write_request address self }
    {
        match self {
            Payload::Coil(on) => Request::WriteCoil { address, on },
            Payload::One(value) => Request::WriteRegister { address, value },
            Payload::Two(words) => registers_request(address, &words),
            Payload::Four(words) => registers_request(address, &words),
        }
    }
}

/// What a query asks. It is kept for each of the last 65,536 queries of a connection, so it is flat
/// and small.
#[derive(Clone, Copy, Debug, PartialEq, Eq)]
pub enum Asked {
    /// The values of a slot.
    Read {
        unit_id: u8,
        /// The place of the device in its site.
        device: u16,
        slot: u32,
        read: Read,
        /// How many points were known: later ones aren't covered.
        known: u32,
    },
    /// A setting, for an order.
    Write {
        unit_id: u8,
        /// The number of the order.
        order: u32,
        address: u16,
        payload: Payload,
    },
}

impl Asked {
    /// The request that goes out: a read by one of the four reading functions, or a write by
    /// function 05, 06 or 16.
    pub fn request(&self) -> Request
        requires { CanBeAsked self.now }
        ensures { result ≡ request_of self.now }
    {
        match self {
            Asked::Read { read, .. } => read.request(),
            Asked::Write {
                address,
                payload,
                ..
            } => payload.request(*address),
        }
    }

    /// The spelling of its request, which isn't made: it would have room for 2,000 bits.
    pub(crate) fn unit(&self) -> Unit
        requires { is_valid self.now ≡ true }
        ensures { spells (request_of self.now) result }
    {
        match self {
            Asked::Read { read, .. } => {
                pair_unit(read.function, read.span.start, read.span.quantity)
            }
            Asked::Write {
                address,
                payload,
                ..
            } => payload.unit(*address),
        }
    }

    /// The unit identifier of the device that is asked.
    pub fn unit_id(&self) -> u8
        ensures { result ≡ unit_id_of self.now }
    {
        match self {
            Asked::Read { unit_id, .. } | Asked::Write { unit_id, .. } => *unit_id,
        }
    }
}

/// A query of a connection: what it asked, and whether it was answered. No call takes or gives it:
/// it is public for contracts alone, which see a connection as the list of its queries.
#[derive(Clone, Copy, Debug, PartialEq, Eq)]
pub struct Matched {
    pub asked: Asked,
    pub settled: bool,
}

// So the queries of 64 open connections take 64 times 65,536 times 24 bytes, 101 MB.
const _: () = prove!(size_of::<Matched>() <= 24);
