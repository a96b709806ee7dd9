//! Short texts of ASCII.
ghost use Rattle.std.specs.Prelude.{◌≡◌, ◌≤◌, length, if◌then◌else◌, Some, None, IsTrue, MatchResult, false, true, nat_eq, refl};
ghost use Rattle.std.specs.Char.{is_ascii};
ghost use Rattle.std.specs.Cmp.{partial_equiv_from_equiv};
ghost use Rattle.std.specs.Cmp.Lexicographic.{pointwise, nat_list_eq_equiv, slice_cmp, nat_list_cmp_total, texts_po, texts_ties};
ghost use Rattle.std.specs.List.{list_all};
ghost use Rattle.std.specs.Ordering.{nat_cmp};
ghost use Rattle.point_list.specs.Label.{is_label};

use std::cmp::Ordering;
use std::marker::Model;
use std::str::FromStr;
use std::{fmt, str};
use sunspec::FixedText;
use thiserror::Error;

/// A text of 1 to 64 ASCII characters, in the value itself. Contracts see its bytes.
#[derive(Clone, Copy, Hash)]
pub struct Label {
    text: FixedText<64>,
}

impl Model for Label {
    ghost use Rattle.std.specs.Prelude.{◌≡◌, ℕ, List, true};
    ghost use Rattle.point_list.specs.Label.{is_label};

    ghost Value = { List ℕ };

    ghost view = { λ l. l.text };

    ghost invariant = { λ l. is_label l.text ≡ true };

    ghost inverse = { λ text. record { text = text } };
}

/// Whether all bytes are ASCII.
pub fn is_ascii(text: &[u8]) -> bool
    ensures { result ≡ list_all is_ascii text.now }
{
    text.iter().all(|byte| byte.is_ascii())
}

/// Whether a text is 1 to 64 ASCII characters.
pub(crate) fn is_label(text: &[u8]) -> bool
    ensures label { result ≡ is_label text.now }
    ensures short { IsTrue result → length text.now ≤ 64 }
{
    !text.is_empty() && text.len() <= 64 && is_ascii(text)
}

/// A label as text. It is ASCII, so no byte is looked at.
pub(crate) fn as_text(label: &[u8]) -> &str
    requires { is_label label.now ≡ true }
    ensures { result.now ≡ label.now }
{
    unsafe { str::from_utf8_unchecked(label) }
}

impl Label {
    /// The label that a text is, if it is one.
    pub fn new(text: &[u8]) -> Option<Label>
        ensures { result ≡ (if is_label text.now then Some text.now else None) }
    {
        if !is_label(text) {
            return None;
        }
        let text = FixedText::from_bytes(text)?;
        Some(Label { text })
    }

    /// The bytes of the label, all of them ASCII.
    pub fn as_bytes(&self) -> &[u8]
        ensures value { result.now ≡ self.now }
        ensures label { is_label self.now ≡ true }
    {
        self.text.as_bytes()
    }

    /// The label as text.
    pub fn as_str(&self) -> &str
        ensures value { result.now ≡ self.now }
        ensures label { is_label self.now ≡ true }
    {
        as_text(self.as_bytes())
    }
}

// As text, which is compared by words, where bytes are compared a few at a time.
impl PartialEq for Label {
    ghost eq = { pointwise nat_eq };

    ghost laws = { partial_equiv_from_equiv nat_list_eq_equiv };

    fn eq(&self, other: &Label) -> bool {
        self.as_str() == other.as_str()
    }
}

impl Eq for Label {
    ghost laws = { nat_list_eq_equiv };
}

/// Labels are ordered by their bytes.
impl PartialOrd for Label {
    ghost partial_cmp = { λ a b. Some (slice_cmp nat_cmp a b) };

    ghost laws = { texts_po };

    fn partial_cmp(&self, other: &Label) -> Option<Ordering> {
        Some(self.cmp(other))
    }
}

impl Ord for Label {
    ghost cmp = { slice_cmp nat_cmp };

    ghost total = { nat_list_cmp_total };

    ghost matches_partial_cmp = { λ a b. refl };

    ghost matches_eq = { texts_ties };

    fn cmp(&self, other: &Label) -> Ordering {
        self.as_str().cmp(other.as_str())
    }
}

impl fmt::Debug for Label {
    fn fmt<W: fmt::Write>(&self, f: &mut fmt::Formatter<W>) -> fmt::Result {
        fmt::Debug::fmt(self.as_str(), f)
    }
}

impl fmt::Display for Label {
    ghost output = { λ l. Some l };

    fn fmt<W: fmt::Write>(&self, f: &mut fmt::Formatter<W>) -> fmt::Result {
        f.pad(self.as_str())
    }
}

/// A text is no label.
#[derive(Clone, Copy, Debug, PartialEq, Eq, Error)]
#[error("not 1 to 64 ASCII characters")]
pub struct LabelError;

impl FromStr for Label {
    type Err = LabelError;

    ghost from_str_gives = { λ text result. MatchResult result
        (λ label. (is_label text ≡ true) × (label ≡ text))
        (λ _. is_label text ≡ false) };

    fn from_str(text: &str) -> Result<Label, LabelError> {
        Label::new(text.as_bytes()).ok_or(LabelError)
    }
}

impl TryFrom<&[u8]> for Label {
    type Error = LabelError;

    ghost try_from_gives = { λ text result. MatchResult result
        (λ label. (is_label text.now ≡ true) × (label ≡ text.now))
        (λ _. is_label text.now ≡ false) };

    fn try_from(text: &[u8]) -> Result<Label, LabelError> {
        Label::new(text).ok_or(LabelError)
    }
}
