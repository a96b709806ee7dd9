//! The registers of a reading.
ghost use Rattle.std.specs.Prelude.{◌≡◌, ◌≤◌, ◌<◌, IfOk, length};

use std::alloc::{AllocError, Global};
use std::fmt;
use std::marker::Model;

// Up to four registers, all that a number has, stand in place.
#[derive(Drop)]
enum Held {
    Few { words: [u16; 4], count: usize },
    Many(Vec<u16>),
}

/// The registers of a reading, 1 to 125. Contracts see a list. Up to four of them take no memory of
/// their own.
#[derive(Drop)]
pub struct Words {
    held: Held,
}

impl Model for Words {
    ghost use Rattle.std.specs.Prelude.{ℕ, List};
    ghost use Rattle.poll_book.specs.Words.{held_words, AreHeld};

    ghost Value = { List ℕ };

    ghost view = { λ w. held_words w.held };

    ghost invariant = { λ w. AreHeld w.held };
}

impl Words {
    /// A copy of 1 to 125 registers, in order of their addresses.
    pub fn new(alloc: Global, words: &[u16]) -> Result<Words, AllocError>
        requires not_empty { 0 < length words.now }
        requires short { length words.now ≤ 125 }
        ensures { IfOk result (λ held. held ≡ words.now) }
    {
        let count = words.len();
        if count > 4 {
            return Ok(Words {
                held: Held::Many(Vec::from_slice(alloc, words)?),
            });
        }
        let mut few = [0; 4];
        few[..count].copy_from_slice(words);
        Ok(Words {
            held: Held::Few { words: few, count },
        })
    }

    /// The registers, in order of their addresses.
    pub fn as_slice(&self) -> &[u16]
        ensures value { result.now ≡ self.now }
        ensures not_empty { 0 < length self.now }
        ensures short { length self.now ≤ 125 }
    {
        match &self.held {
            Held::Few { words, count } => &words[..*count],
            Held::Many(words) => words.as_slice(),
        }
    }
}

impl Clone for Words {
    ghost use Rattle.std.specs.Prelude.{◌≡◌};

    ghost is_clone = { λ words copy. copy ≡ words };

    fn clone(&self) -> Result<Words, AllocError> {
        let held = match &self.held {
            Held::Few { words, count } => Held::Few {
                words: *words,
                count: *count,
            },
            Held::Many(words) => Held::Many(words.clone()?),
        };
        Ok(Words { held })
    }
}

impl fmt::Debug for Words {
    fn fmt<W: fmt::Write>(&self, f: &mut fmt::Formatter<W>) -> fmt::Result {
        fmt::Debug::fmt(&self.as_slice(), f)
    }
}
