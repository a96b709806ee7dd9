//! Who asks, and under which key: short words in the value itself.
ghost use Rattle.std.specs.Prelude.{◌≡◌, if◌then◌else◌, MatchResult, Some, None, false, true, nat_eq, refl};
ghost use Rattle.std.specs.Cmp.{partial_equiv_from_equiv};
ghost use Rattle.std.specs.Cmp.Lexicographic.{pointwise, nat_list_eq_equiv, slice_cmp, nat_list_cmp_total, texts_po, texts_ties};
ghost use Rattle.std.specs.List.{list_all};
ghost use Rattle.std.specs.Ordering.{nat_cmp};
ghost use Rattle.poll_book.specs.Callers.{is_caller, is_key, is_key_byte, is_word_within};

use std::cmp::Ordering;
use std::marker::Model;
use std::str::FromStr;
use std::{fmt, str};
use sunspec::FixedText;
use thiserror::Error;

/// The name of a caller: 1 to 32 of `A-Z a-z 0-9 _ -`. Contracts see its bytes.
#[derive(Clone, Copy, Hash)]
pub struct Caller {
    text: FixedText<32>,
}

impl Model for Caller {
    ghost use Rattle.std.specs.Prelude.{◌≡◌, ℕ, List, true};
    ghost use Rattle.poll_book.specs.Callers.{is_caller};

    ghost Value = { List ℕ };

    ghost view = { λ c. c.text };

    ghost invariant = { λ c. is_caller c.text ≡ true };

    ghost inverse = { λ text. record { text = text } };
}

/// A key under which a caller asks: 1 to 64 of `A-Z a-z 0-9 _ -`. Contracts see its bytes.
#[derive(Clone, Copy, Hash)]
pub struct Key {
    text: FixedText<64>,
}

impl Model for Key {
    ghost use Rattle.std.specs.Prelude.{◌≡◌, ℕ, List, true};
    ghost use Rattle.poll_book.specs.Callers.{is_key};

    ghost Value = { List ℕ };

    ghost view = { λ k. k.text };

    ghost invariant = { λ k. is_key k.text ≡ true };

    ghost inverse = { λ text. record { text = text } };
}

fn is_key_byte(byte: u8) -> bool
    ensures { result ≡ is_key_byte byte }
{
    byte.is_ascii_alphanumeric() || byte == b'_' || byte == b'-'
}

fn has_key_bytes(text: &[u8]) -> bool
    ensures { result ≡ list_all is_key_byte text.now }
{
    text.iter().all(|byte| is_key_byte(*byte))
}

/// Whether a text is 1 to so many bytes of a key.
fn is_word_within(most: usize, text: &[u8]) -> bool
    ensures { result ≡ is_word_within most text.now }
{
    !text.is_empty() && text.len() <= most && has_key_bytes(text)
}

impl Caller {
    /// The caller of a name, if the text is one.
    pub fn new(text: &str) -> Option<Caller>
        ensures { result ≡ (if is_caller text.now then Some text.now else None) }
    {
        if !is_word_within(32, text.as_bytes()) {
            return None;
        }
        match FixedText::from_bytes(text.as_bytes()) {
            Some(text) => Some(Caller { text }),
            None => unreachable!(),
        }
    }

    /// The bytes of the name, all of them ASCII.
    pub fn as_bytes(&self) -> &[u8]
        ensures value { result.now ≡ self.now }
        ensures caller { is_caller self.now ≡ true }
    {
        self.text.as_bytes()
    }

    // Its bytes are ASCII, so they are text.
    fn as_text(&self) -> &str
        ensures { result.now ≡ self.now }
    {
        unsafe { str::from_utf8_unchecked(self.as_bytes()) }
    }
}

impl Key {
    /// The key that a text is, if it is one.
    pub fn new(text: &str) -> Option<Key>
        ensures { result ≡ (if is_key text.now then Some text.now else None) }
    {
        if !is_word_within(64, text.as_bytes()) {
            return None;
        }
        match FixedText::from_bytes(text.as_bytes()) {
            Some(text) => Some(Key { text }),
            None => unreachable!(),
        }
    }

    /// The bytes of the key, all of them ASCII.
    pub fn as_bytes(&self) -> &[u8]
        ensures value { result.now ≡ self.now }
        ensures key { is_key self.now ≡ true }
    {
        self.text.as_bytes()
    }

    // Its bytes are ASCII, so they are text.
    fn as_text(&self) -> &str
        ensures { result.now ≡ self.now }
    {
        unsafe { str::from_utf8_unchecked(self.as_bytes()) }
    }
}

// Callers and keys are compared as texts, by words, where bytes are compared a few at a time.
impl PartialEq for Caller {
    ghost eq = { pointwise nat_eq };

    ghost laws = { partial_equiv_from_equiv nat_list_eq_equiv };

    fn eq(&self, other: &Caller) -> bool {
        self.as_text() == other.as_text()
    }
}

impl Eq for Caller {
    ghost laws = { nat_list_eq_equiv };
}

impl PartialOrd for Caller {
    ghost partial_cmp = { λ a b. Some (slice_cmp nat_cmp a b) };

    ghost laws = { texts_po };

    fn partial_cmp(&self, other: &Caller) -> Option<Ordering> {
        Some(self.cmp(other))
    }
}

impl Ord for Caller {
    ghost cmp = { slice_cmp nat_cmp };

    ghost total = { nat_list_cmp_total };

    ghost matches_partial_cmp = { λ a b. refl };

    ghost matches_eq = { texts_ties };

    fn cmp(&self, other: &Caller) -> Ordering {
        self.as_text().cmp(other.as_text())
    }
}

impl PartialEq for Key {
    ghost eq = { pointwise nat_eq };

    ghost laws = { partial_equiv_from_equiv nat_list_eq_equiv };

    fn eq(&self, other: &Key) -> bool {
        self.as_text() == other.as_text()
    }
}

impl Eq for Key {
    ghost laws = { nat_list_eq_equiv };
}

impl PartialOrd for Key {
    ghost partial_cmp = { λ a b. Some (slice_cmp nat_cmp a b) };

    ghost laws = { texts_po };

    fn partial_cmp(&self, other: &Key) -> Option<Ordering> {
        Some(self.cmp(other))
    }
}

impl Ord for Key {
    ghost cmp = { slice_cmp nat_cmp };

    ghost total = { nat_list_cmp_total };

    ghost matches_partial_cmp = { λ a b. refl };

    ghost matches_eq = { texts_ties };

    fn cmp(&self, other: &Key) -> Ordering {
        self.as_text().cmp(other.as_text())
    }
}

impl fmt::Debug for Caller {
    fn fmt<W: fmt::Write>(&self, f: &mut fmt::Formatter<W>) -> fmt::Result {
        fmt::Debug::fmt(&self.text, f)
    }
}

impl fmt::Debug for Key {
    fn fmt<W: fmt::Write>(&self, f: &mut fmt::Formatter<W>) -> fmt::Result {
        fmt::Debug::fmt(&self.text, f)
    }
}

/// A text is no caller.
#[derive(Clone, Copy, Debug, PartialEq, Eq, Error)]
#[error("not 1 to 32 of A-Z a-z 0-9 _ -")]
pub struct CallerError;

/// As `new`.
impl FromStr for Caller {
    type Err = CallerError;

    ghost from_str_gives = { λ text result. MatchResult result
        (λ caller. (is_caller text ≡ true) × (caller ≡ text))
        (λ _. is_caller text ≡ false) };

    fn from_str(text: &str) -> Result<Caller, CallerError> {
        Caller::new(text).ok_or(CallerError)
    }
}

/// A text is no key.
#[derive(Clone, Copy, Debug, PartialEq, Eq, Error)]
#[error("not 1 to 64 of A-Z a-z 0-9 _ -")]
pub struct KeyError;

/// As `new`.
impl FromStr for Key {
    type Err = KeyError;

    ghost from_str_gives = { λ text result. MatchResult result
        (λ key. (is_key text ≡ true) × (key ≡ text))
        (λ _. is_key text ≡ false) };

    fn from_str(text: &str) -> Result<Key, KeyError> {
        Key::new(text).ok_or(KeyError)
    }
}
