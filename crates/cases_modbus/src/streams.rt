//! Frames, and the streams that they come in.
use crate::texts::{hex_text, refusal, unless};
use crate::units::OTHERWISE;
use case_pages::{Trouble, hex_of, pieces_of};
use mb_mbap::{Fed, Frame, FrameFault, FrameReader};
use std::alloc::{AllocError, Global};

fn feed(reader: &mut FrameReader, piece: &[u8]) -> Result<Fed, AllocError> {
    reader.feed(piece)
}

/// The frames that pieces of a stream give, and the first fault.
fn given_by(alloc: Global, pieces: &[&[u8]]) -> Result<Fed, AllocError> {
    let mut reader = FrameReader::new(alloc);
    let mut frames = Vec::new(alloc);
    let mut fault = None;
    for piece in pieces {
        let mut fed = feed(&mut reader, piece)?;
        fault = fault.or(fed.fault);
        frames.append(&mut fed.frames)?;
    }
    Ok(Fed { frames, fault })
}

fn is_given(alloc: Global, pieces: &[&[u8]], whole: &Fed) -> Result<bool, AllocError> {
    let given = given_by(alloc, pieces)?;
    Ok(given.frames.as_slice() == whole.frames.as_slice() && given.fault == whole.fault)
}

/// Whether the same comes of a stream in two pieces, and in three of which these are the first two together.
fn is_same_cut(
    alloc: Global,
    stream: &[u8],
    second: usize,
    whole: &Fed,
) -> Result<bool, AllocError> {
    let (front, back) = stream.split_at(second.min(stream.len()));
    let mut is_same = is_given(alloc, &[front, back], whole)?;
    for first in 0..=front.len() {
        let (left, middle) = front.split_at(first.min(front.len()));
        is_same = is_same && is_given(alloc, &[left, middle, back], whole)?;
    }
    Ok(is_same)
}

/// Whether the same comes of a stream whole, byte by byte, and cut in two and in three at each place.
fn is_same_however_cut(alloc: Global, stream: &[u8]) -> Result<bool, AllocError> {
    let whole = given_by(alloc, &[stream])?;
    let bytes: Vec<&[u8]> = stream.chunks(1).collect(alloc)?;
    let mut is_same = is_given(alloc, &bytes, &whole)?;
    for second in 0..=stream.len() {
        is_same = is_same && is_same_cut(alloc, stream, second, &whole)?;
    }
    Ok(is_same)
}

/// A frame as its transaction identifier, its unit identifier and its unit.
fn frame_text(alloc: Global, frame: &Frame) -> Result<String, AllocError> {
    let (transaction, unit_id) = (frame.transaction, frame.unit_id);
    let unit = hex_text(alloc, frame.unit.as_bytes())?;
    format!(in alloc; "{transaction} {unit_id}: {unit}")
}

/// Frames side by side, or `nothing`.
pub(crate) fn frames_text(alloc: Global, frames: &[Frame]) -> Result<String, AllocError> {
    if frames.is_empty() {
        return String::from_str(alloc, "nothing");
    }
    let mut text = String::new(alloc);
    for frame in frames {
        if !text.is_empty() {
            text.push_str(", ")?;
        }
        text.push_str(frame_text(alloc, frame)?.as_str())?;
    }
    Ok(text)
}

fn fed_text(alloc: Global, fed: &Fed) -> Result<String, AllocError> {
    let frames = frames_text(alloc, &fed.frames)?;
    match fed.fault {
        Some(fault) => format!(in alloc; "{frames}, {fault}"),
        None => Ok(frames),
    }
}

/// What comes of each piece of a stream; and that the same comes of the whole stream, however it is cut.
pub(crate) fn stream(alloc: Global, input: &str) -> Result<String, Trouble> {
    let mut reader = FrameReader::new(alloc);
    let mut stream = Vec::new(alloc);
    let mut text = String::new(alloc);
    for piece in pieces_of(alloc, input)? {
        if !text.is_empty() {
            text.push_str(" | ")?;
        }
        let bytes = hex_of(alloc, piece)?;
        text.push_str(fed_text(alloc, &feed(&mut reader, &bytes)?)?.as_str())?;
        stream.extend_from_slice(&bytes)?;
    }
    let is_same = is_same_however_cut(alloc, &stream)?;
    unless(is_same, ", and SOMETHING ELSE in other pieces", text)
}

fn decoded(bytes: &[u8]) -> Result<Frame, FrameFault> {
    Frame::decode(bytes)
}

fn is_spelled(frame: &Frame, bytes: &[u8]) -> bool {
    frame.encode().as_bytes() == bytes
}

/// The frame that bytes are, or why they are none.
pub(crate) fn frame(alloc: Global, input: &str) -> Result<String, Trouble> {
    let bytes = hex_of(alloc, input)?;
    match decoded(&bytes) {
        Ok(frame) => {
            let text = frame_text(alloc, &frame)?;
            unless(is_spelled(&frame, &bytes), OTHERWISE, text)
        }
        Err(fault) => refusal(alloc, &fault),
    }
}
