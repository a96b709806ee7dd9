//! What a word spells: a number, a text or a key.
ghost use Rattle.std.specs.Prelude.{◌≡◌, IfOk, true};
ghost use Rattle.sunspec.specs.Digits.{number_within};
ghost use Rattle.office_script.specs.Words as words;
ghost use Rattle.office_script.specs.Words.{key_of, value_of};

use point_list::{Text, is_ascii};
use poll_book::Key;
use std::alloc::{AllocError, Global};
use std::str;
use sunspec::digits::{signed, within};

/// The number that digits spell, if it is at most the limit.
pub(crate) fn number(word: &[u8], limit: u32) -> Option<u32>
    ensures { result ≡ number_within limit word.now }
{
    match within(word, u128::from(limit)) {
        Some(number) => Some(number as u32),
        None => None,
    }
}

/// The number that digits with or without a minus before them spell, if 128 bits hold it.
pub(crate) fn value(word: &[u8]) -> Option<i128>
    ensures { result ≡ value_of word.now }
{
    signed(word)
}

/// Whether a word is one byte or more, all of them ASCII.
pub(crate) fn is_text(word: &[u8]) -> bool
    ensures { result ≡ words.is_text word.now }
{
    !word.is_empty() && is_ascii(word)
}

/// The text of a word.
pub(crate) fn text(alloc: Global, word: &[u8]) -> Result<Text, AllocError>
    requires { words.is_text word.now ≡ true }
    ensures { IfOk result (λ text. text ≡ word.now) }
{
    match str::from_utf8(word) {
        Ok(text) => Ok(Text::from_string(String::from_str(alloc, text)?)),
        Err(_) => unreachable!(),
    }
}

/// The key that a word is.
pub(crate) fn key(word: &[u8]) -> Option<Key>
    ensures { result ≡ key_of word.now }
{
    match str::from_utf8(word) {
        Ok(text) => Key::new(text),
        Err(_) => None,
    }
}
