//! The order of a number's registers.
ghost use Rattle.std.specs.Prelude.{◌≡◌, ◌≢◌, ◌<◌, ◌≤◌, MatchResult, Some, length, reverse};
ghost use Rattle.sunspec.specs.WordOrder.{order_name};
ghost use Rattle.sunspec.specs.declared.word_order.WordOrder.{WordOrder};

use mb_pdu::Registers;
use std::fmt;
use std::str::FromStr;
use thiserror::Error;

/// Which register of a number a device sends first. It prints as `big` or `swapped`, the words of a
/// point list.
#[derive(Clone, Copy, Debug, Default, PartialEq, Eq, Hash)]
pub enum WordOrder {
    /// The most significant one.
    #[default]
    Big,
    /// The least significant one. Each register has its high byte first all the same.
    Swapped,
}

impl fmt::Display for WordOrder {
    ghost output = { λ order. Some (order_name order) };

    fn fmt<W: fmt::Write>(&self, f: &mut fmt::Formatter<W>) -> fmt::Result {
        f.pad(match self {
            WordOrder::Big => "big",
            WordOrder::Swapped => "swapped",
        })
    }
}

/// A text is no order.
#[derive(Clone, Copy, Debug, PartialEq, Eq, Error)]
#[error("neither big nor swapped")]
pub struct WordOrderError;

impl FromStr for WordOrder {
    type Err = WordOrderError;

    ghost from_str_gives = { λ text result. MatchResult result
        (λ order. text ≡ order_name order)
        (λ _. (order : WordOrder) → text ≢ order_name order) };

    fn from_str(text: &str) -> Result<WordOrder, WordOrderError> {
        match text {
            "big" => Ok(WordOrder::Big),
            "swapped" => Ok(WordOrder::Swapped),
            _ => Err(WordOrderError),
        }
    }
}

/// The registers the other way round.
pub(crate) fn swapped(words: &[u16]) -> Registers
    requires some { 0 < length words.now }
    requires few { length words.now ≤ 125 }
    ensures { result ≡ reverse words.now }
{
    let mut room = [0; 125];
    let all = &mut room[..words.len()];
    all.copy_from_slice(words);
    all.reverse();
    Registers::from_slice(all).unwrap()
}
