//! Bytes as a line of text.
use crate::Trouble;
use std::alloc::Global;

/// The byte of two hexadecimal digits.
fn byte_of(digits: &str) -> Option<u8> {
    let mut byte = [0];
    hex::decode_to_slice(digits, &mut byte).ok()?;
    Some(byte[0])
}

fn push_times(bytes: &mut Vec<u8>, byte: u8, times: u32) -> Result<(), Trouble> {
    for _ in 0..times {
        bytes.push(byte)?;
    }
    Ok(())
}

/// The byte that the part behind a `\` begins with, how often it comes behind the byte before it, and what follows.
fn escape_of(part: &str, before: u8) -> Option<(u8, u32, &str)> {
    let mut letters = part.chars();
    let letter = letters.next()?;
    let rest = letters.as_str();
    match letter {
        'n' => Some((b'\n', 1, rest)),
        'r' => Some((b'\r', 1, rest)),
        't' => Some((b'\t', 1, rest)),
        '*' => {
            let (times, rest) = rest.split_once(';')?;
            Some((before, times.parse::<u32>().ok()?.saturating_sub(1), rest))
        }
        'x' => {
            let (digits, rest) = rest.split_at_checked(2)?;
            Some((byte_of(digits)?, 1, rest))
        }
        _ => None,
    }
}

/// The bytes that a text stands for: each `\n`, `\r` and `\t` is the byte that it is in Rust, `\xNN` any byte, as
/// `\x5C` for `\`, `\*N;` has the byte before it come N times, and all else is itself.
pub fn bytes_of(alloc: Global, text: &str) -> Result<Vec<u8>, Trouble> {
    let mut parts = text.split('\\');
    let mut bytes = Vec::from_slice(alloc, parts.next().unwrap_or("").as_bytes())?;
    for part in parts {
        let before = bytes.last().copied().unwrap_or(0);
        let Some((byte, times, rest)) = escape_of(part, before) else {
            return Err(Trouble::Page("no escape of this kind"));
        };
        push_times(&mut bytes, byte, times)?;
        bytes.extend_from_slice(rest.as_bytes())?;
    }
    Ok(bytes)
}

/// A byte in hexadecimal digits, and how often it comes: `00`, or `00*246`.
fn times_of(word: &str) -> Option<(u8, u32)> {
    let (digits, times) = word.split_once('*').unwrap_or((word, "1"));
    Some((byte_of(digits)?, times.parse::<u32>().ok()?))
}

/// The bytes that pairs of hexadecimal digits spell, with single spaces between them, none for an empty text.
/// `00*246` stands for that byte so many times.
pub fn hex_of(alloc: Global, text: &str) -> Result<Vec<u8>, Trouble> {
    let mut bytes = Vec::new(alloc);
    if text.is_empty() {
        return Ok(bytes);
    }
    for word in text.split(' ') {
        let Some((byte, times)) = times_of(word) else {
            return Err(Trouble::Page("no byte in hexadecimal digits"));
        };
        push_times(&mut bytes, byte, times)?;
    }
    Ok(bytes)
}

/// The parts of a text between ` | `, as pieces of a stream.
pub fn pieces_of(alloc: Global, text: &str) -> Result<Vec<&str>, Trouble> {
    Ok(text.split(" | ").collect(alloc)?)
}
