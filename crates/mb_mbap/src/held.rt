//! The bytes of a frame that isn't whole yet.
ghost use Rattle.std.specs.Prelude.{◌≡◌, ◌≤◌, ◌<◌, ◌+◌, [], ◌++◌, length, take};
ghost use Rattle.mb_mbap.specs.Stream.{IsOpen, wanted};
ghost use Rattle.mb_mbap.specs.Feeding.{TakeMeans};

use crate::judging::{Step, step_of};
use byteorder::{BigEndian, ByteOrder};
use std::marker::Model;

/// The bytes of a frame that isn't whole yet, with room for the last one.
#[derive(Drop)]
pub(crate) struct Held {
    bytes: [u8; 260],
    len: usize,
}

impl Model for Held {
    ghost use Rattle.std.specs.Prelude.{List, ℕ};

    ghost Value = { List ℕ };

    ghost use Rattle.mb_mbap.specs.Places.{held_bytes, IsHeld};

    ghost view = { held_bytes };

    ghost invariant = { IsHeld };
}

/// How many bytes there must be before the next judgement of these.
#[tactic(auto, unfolding(crate::specs::Stream::wanted))]
fn wanted(bytes: &[u8]) -> usize
    ensures { result ≡ wanted bytes.now }
{
    if bytes.len() < 6 {
        6
    } else {
        6 + BigEndian::read_u16(&bytes[4..]) as usize
    }
}

/// Copies the bytes behind the first `len` of the room.
fn put_behind(room: &mut [u8; 260], len: usize, bytes: &[u8])
    requires { len + length bytes.now ≤ 260 }
    ensures behind { take (len + length bytes.now) room.new ≡ take len room.old ++ bytes.now }
    ensures front { take len room.new ≡ take len room.old }
{
    room[len..len + bytes.len()].copy_from_slice(bytes);
}

impl Held {
    pub(crate) fn from_bytes(bytes: &[u8]) -> Held
        requires short { length bytes.now ≤ 259 }
        requires open { IsOpen bytes.now }
        ensures { result ≡ bytes.now }
    {
        let mut all = [0u8; 260];
        put_behind(&mut all, 0, bytes);
        Held {
            bytes: all,
            len: bytes.len(),
        }
    }

    pub(crate) fn as_bytes(&self) -> &[u8]
        ensures value { result.now ≡ self.now }
        ensures short { length self.now ≤ 259 }
        ensures open { IsOpen self.now }
    {
        &self.bytes[..self.len]
    }

    /// Takes bytes off the front of these, which are next in the stream, up to the next
    /// judgement, and says how many.
    pub(crate) fn take(&mut self, next: &[u8]) -> (usize, Step)
        requires { 0 < length next.now }
        ensures { TakeMeans self.old next.now result.0 result.1 self.new }
    {
        if self.len == 0 {
            self.take_first(next)
        } else {
            self.take_more(next)
        }
    }

    /// A frame that lies whole in the bytes is read where it lies.
    #[tactic(auto, using(crate::proofs::Rests::open_short, crate::proofs::Rests::open_empty))]
    fn take_first(&mut self, next: &[u8]) -> (usize, Step)
        requires some { 0 < length next.now }
        requires none { self.old ≡ [] }
        ensures { TakeMeans self.old next.now result.0 result.1 self.new }
    {
        let step = step_of(next);
        match &step {
            Step::More => {
                put_behind(&mut self.bytes, 0, next);
                self.len = next.len();
                (next.len(), step)
            }
            Step::Whole(frame) => (7 + frame.unit.as_bytes().len(), step),
            Step::Bad(_) => (next.len(), step),
        }
    }

    #[tactic(auto, using(crate::proofs::Rests::open_short, crate::proofs::Rests::open_empty, crate::proofs::Rests::open_wanted))]
    fn take_more(&mut self, next: &[u8]) -> (usize, Step)
        requires { 0 < length next.now }
        ensures { TakeMeans self.old next.now result.0 result.1 self.new }
    {
        let len = self.len;
        let taken = (wanted(&self.bytes[..len]) - len).min(next.len());
        let end = len + taken;
        put_behind(&mut self.bytes, len, &next[..taken]);
        let step = step_of(&self.bytes[..end]);
        match &step {
            Step::More => self.len = end,
            Step::Whole(_) => self.len = 0,
            Step::Bad(_) => {}
        }
        (taken, step)
    }
}
