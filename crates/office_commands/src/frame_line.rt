//! Frames as lines of text: bytes as two hexadecimal digits each, with single spaces between them.
use mb_mbap::Frame;
use office_script::hexadecimal;
use std::alloc::{AllocError, Global};

/// The frame that a line spells, without the line's end; `None` where it spells none.
pub(crate) fn frame_of(alloc: Global, line: &[u8]) -> Result<Option<Frame>, AllocError> {
    let words: Vec<&[u8]> = line.split(|byte| *byte == b' ').collect(alloc)?;
    let Some(bytes) = hexadecimal::bytes(alloc, &words)? else {
        return Ok(None);
    };
    Ok(Frame::decode(&bytes).ok())
}

/// Adds the line of a frame, in upper case.
pub(crate) fn push_frame(
    alloc: Global,
    text: &mut Vec<u8>,
    frame: &Frame,
) -> Result<(), AllocError> {
    let bytes = frame.encode();
    for (place, byte) in bytes.as_bytes().iter().enumerate() {
        if place > 0 {
            text.push(b' ')?;
        }
        hexadecimal::push_byte(alloc, text, *byte)?;
    }
    Ok(text.push(b'\n')?)
}
