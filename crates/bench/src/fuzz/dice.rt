//! Numbers that follow from a seed, and bytes that are drawn with them.
use std::alloc::{AllocError, Global};

/// So many bytes at most are drawn at random.
const RANDOM: usize = 300;

/// An xorshift generator with a product (Vigna, An experimental exploration of Marsaglia's xorshift generators).
#[derive(Drop)]
pub struct Dice(u64);

impl Dice {
    pub fn new(seed: u64) -> Dice {
        Dice(seed | 1)
    }

    fn next(&mut self) -> u64 {
        self.0 ^= self.0 >> 12;
        self.0 ^= self.0.wrapping_mul(1 << 25);
        self.0 ^= self.0 >> 27;
        self.0.wrapping_mul(0x2545_F491_4F6C_DD1D)
    }

    /// A number below a limit, or 0.
    pub fn below(&mut self, limit: usize) -> usize {
        (self.next() >> 32) as usize % limit.max(1)
    }

    pub fn byte(&mut self) -> u8 {
        (self.next() >> 56) as u8
    }
}

/// Random bytes, one time in two of ASCII alone.
fn random(alloc: Global, dice: &mut Dice) -> Result<Vec<u8>, AllocError> {
    let mask = if dice.below(2) == 0 { 0x7F } else { 0xFF };
    let mut bytes = Vec::new(alloc);
    for _ in 0..dice.below(RANDOM) {
        bytes.push(dice.byte() & mask)?;
    }
    Ok(bytes)
}

/// Some part of bytes.
fn part<'a>(dice: &mut Dice, bytes: &'a [u8]) -> &'a [u8] {
    let rest = bytes.get(dice.below(bytes.len())..).unwrap_or(bytes);
    rest.get(..dice.below(rest.len())).unwrap_or(rest)
}

/// Puts a byte at a random place, takes one away or puts one in, or repeats a part.
fn change(dice: &mut Dice, bytes: &mut Vec<u8>) -> Result<(), AllocError> {
    let place = dice.below(bytes.len());
    let byte = dice.byte();
    match dice.below(4) {
        0 => {
            if let Some(there) = bytes.get_mut(place) {
                *there = byte;
            }
        }
        1 if place < bytes.len() => {
            bytes.remove(place);
        }
        2 if place <= bytes.len() => bytes.insert(place, byte)?,
        _ => {
            let again = Vec::from_slice(*bytes.allocator(), part(dice, bytes))?;
            bytes.extend_from_slice(&again)?;
        }
    }
    Ok(())
}

fn sample<'a>(dice: &mut Dice, samples: &[&'a [u8]]) -> &'a [u8] {
    samples
        .get(dice.below(samples.len()))
        .copied()
        .unwrap_or(&[])
}

/// A valid input, changed at up to four places.
fn changed(alloc: Global, dice: &mut Dice, samples: &[&[u8]]) -> Result<Vec<u8>, AllocError> {
    let mut bytes = Vec::from_slice(alloc, sample(dice, samples))?;
    for _ in 0..dice.below(5) {
        change(dice, &mut bytes)?;
    }
    Ok(bytes)
}

/// A random line of a valid input, with its end.
fn line<'a>(dice: &mut Dice, bytes: &'a [u8]) -> &'a [u8] {
    let place = dice.below(bytes.len());
    let from = match bytes
        .get(..place)
        .unwrap_or(bytes)
        .iter()
        .rposition(|b| *b == b'\n')
    {
        Some(end) => end + 1,
        None => 0,
    };
    let rest = bytes.get(from..).unwrap_or(bytes);
    match rest.iter().position(|b| *b == b'\n') {
        Some(end) => rest.get(..=end).unwrap_or(rest),
        None => rest,
    }
}

/// Lines of valid inputs, in some order.
fn lines(alloc: Global, dice: &mut Dice, samples: &[&[u8]]) -> Result<Vec<u8>, AllocError> {
    let mut bytes = Vec::new(alloc);
    for _ in 0..dice.below(20) {
        let from = sample(dice, samples);
        bytes.extend_from_slice(line(dice, from))?;
    }
    Ok(bytes)
}

/// An input for a reader of which these are valid ones: random bytes, a valid one that is changed at random places, or
/// lines of valid ones.
pub fn drawn(alloc: Global, dice: &mut Dice, samples: &[&[u8]]) -> Result<Vec<u8>, AllocError> {
    match dice.below(3) {
        0 => random(alloc, dice),
        1 => changed(alloc, dice, samples),
        _ => lines(alloc, dice, samples),
    }
}
