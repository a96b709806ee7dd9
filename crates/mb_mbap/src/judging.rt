//! What the front of a buffer is.
ghost use Rattle.mb_mbap.specs.Steps.{StepMeans};

use crate::fault::FrameFault;
use crate::frame::Frame;
use byteorder::{BigEndian, ByteOrder};
use mb_pdu::Unit;

/// What the front of a buffer is: less than a frame, a frame, or a bad header.
#[derive(Drop)]
pub(crate) enum Step {
    More,
    Whole(Frame),
    Bad(FrameFault),
}

/// Judges the front of a buffer. A header is judged once its first six bytes are there.
#[tactic(auto, unfolding(crate::specs::Stream::fault_of, crate::specs::Stream::header_fault, crate::specs::Stream::wanted))]
pub(crate) fn step_of(bytes: &[u8]) -> Step
    ensures { StepMeans bytes.now result }
{
    if bytes.len() < 6 {
        return Step::More;
    }
    if BigEndian::read_u16(&bytes[2..]) != 0 {
        return Step::Bad(FrameFault::NotModbus);
    }
    let length = BigEndian::read_u16(&bytes[4..]) as usize;
    if length < 2 || length > 254 {
        return Step::Bad(FrameFault::BadLength);
    }
    if bytes.len() < 6 + length {
        return Step::More;
    }
    match Unit::from_bytes(&bytes[7..6 + length]) {
        Some(unit) => Step::Whole(Frame {
            transaction: BigEndian::read_u16(bytes),
            unit_id: bytes[6],
            unit,
        }),
        None => unreachable!(),
    }
}
