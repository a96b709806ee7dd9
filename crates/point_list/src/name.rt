//! Names of points.
ghost use Rattle.std.specs.Prelude.{◌≡◌, if◌then◌else◌, MatchResult, Some, None, false, true};
ghost use Rattle.std.specs.List.{list_all};
ghost use Rattle.point_list.specs.Name.{is_name, is_name_byte};

use crate::label::Label;
use std::fmt;
use std::marker::Model;
use std::str::FromStr;
use thiserror::Error;

/// A name: 1 to 64 of `A-Z a-z 0-9 _ - .`, in the value itself. Contracts see its bytes.
#[derive(Clone, Copy, PartialEq, Eq, PartialOrd, Ord, Hash)]
pub struct Name {
    label: Label,
}

impl Model for Name {
    ghost use Rattle.std.specs.Prelude.{◌≡◌, ℕ, List, true};
    ghost use Rattle.point_list.specs.Name.{is_name};

    ghost Value = { List ℕ };

    ghost view = { λ n. n.label };

    ghost invariant = { λ n. is_name n.label ≡ true };

    ghost inverse = { λ text. record { label = text } };
}

fn is_name_byte(byte: u8) -> bool
    ensures { result ≡ is_name_byte byte }
{
    byte.is_ascii_alphanumeric() || byte == b'_' || byte == b'-' || byte == b'.'
}

fn has_name_bytes(text: &[u8]) -> bool
    ensures { result ≡ list_all is_name_byte text.now }
{
    text.iter().all(|byte| is_name_byte(*byte))
}

/// Whether a text is a name.
pub(crate) fn is_name(text: &[u8]) -> bool
    ensures { result ≡ is_name text.now }
{
    !text.is_empty() && text.len() <= 64 && has_name_bytes(text)
}

impl Name {
    /// The name that a text is, if it is one.
    pub fn new(text: &[u8]) -> Option<Name>
        ensures { result ≡ (if is_name text.now then Some text.now else None) }
    {
        if !is_name(text) {
            return None;
        }
        match Label::new(text) {
            Some(label) => Some(Name { label }),
            None => unreachable!(),
        }
    }

    /// The bytes of the name, all of them ASCII.
    pub fn as_bytes(&self) -> &[u8]
        ensures value { result.now ≡ self.now }
        ensures name { is_name self.now ≡ true }
    {
        self.label.as_bytes()
    }

    /// The name as text.
    pub fn as_str(&self) -> &str
        ensures { result.now ≡ self.now }
    {
        self.label.as_str()
    }
}

impl fmt::Debug for Name {
    fn fmt<W: fmt::Write>(&self, f: &mut fmt::Formatter<W>) -> fmt::Result {
        fmt::Debug::fmt(&self.label, f)
    }
}

impl fmt::Display for Name {
    ghost output = { λ n. Some n };

    fn fmt<W: fmt::Write>(&self, f: &mut fmt::Formatter<W>) -> fmt::Result {
        fmt::Display::fmt(&self.label, f)
    }
}

/// A text is no name.
#[derive(Clone, Copy, Debug, PartialEq, Eq, Error)]
#[error("not 1 to 64 of A-Z a-z 0-9 _ - .")]
pub struct NameError;

impl FromStr for Name {
    type Err = NameError;

    ghost from_str_gives = { λ text result. MatchResult result
        (λ name. (is_name text ≡ true) × (name ≡ text))
        (λ _. is_name text ≡ false) };

    fn from_str(text: &str) -> Result<Name, NameError> {
        Name::new(text.as_bytes()).ok_or(NameError)
    }
}

impl TryFrom<&[u8]> for Name {
    type Error = NameError;

    ghost try_from_gives = { λ text result. MatchResult result
        (λ name. (is_name text.now ≡ true) × (name ≡ text.now))
        (λ _. is_name text.now ≡ false) };

    fn try_from(text: &[u8]) -> Result<Name, NameError> {
        Name::new(text).ok_or(NameError)
    }
}
