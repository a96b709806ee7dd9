//! Short texts that take no memory.
ghost use Rattle.std.specs.Prelude.{◌≡◌, ◌↔◌, ◌≤◌, length, IsSome, IfSome, Some, nat_eq, refl};
ghost use Rattle.std.specs.Cmp.{partial_equiv_from_equiv, unsigned_Decides};
ghost use Rattle.std.specs.Hash as fed;
ghost use Rattle.std.specs.Cmp.Lexicographic.{pointwise, nat_list_eq_equiv, slice_cmp, nat_list_cmp_total, texts_po, texts_ties};
ghost use Rattle.std.specs.Ordering.{nat_cmp};

use std::cmp::Ordering;
use std::fmt;
use std::hash::{Hash, Hasher};
use std::marker::Model;

/// At most `CAP` bytes, in the value itself. Contracts see the bytes.
#[derive(Clone, Copy)]
pub struct FixedText<const CAP: usize> {
    // Zero past `len`, so that equal texts have equal fields.
    bytes: [u8; CAP],
    len: usize,
}

/// The text of a string point.
pub type ShortText = FixedText<250>;

impl<const CAP: usize> Model for FixedText<CAP> {
    ghost use Rattle.std.specs.Prelude.{ℕ, ◌-◌, List, ◌++◌, length, replicate, take};
    ghost use Rattle.sunspec.specs.FixedText.{IsPadded, bytes_again, len_again};

    ghost Value = { List ℕ };

    ghost view = { λ t. take t.len t.bytes };

    ghost invariant = { λ t. IsPadded CAP t.len t.bytes };

    ghost inverse = { λ text. record { bytes = text ++ replicate (CAP - length text) 0; len = length text } };

    ghost inverse_ok = { λ t h i. record {
      bytes = bytes_again CAP t.len t.bytes h i;
      len = len_again CAP t.len t.bytes h i;
    } };
}

impl<const CAP: usize> FixedText<CAP> {
    /// The text of these bytes, if there are at most `CAP`.
    pub fn from_bytes(bytes: &[u8]) -> Option<FixedText<CAP>>
        ensures some { IsSome result ↔ (length bytes.now ≤ CAP) }
        ensures value { IfSome result (λ text. text ≡ bytes.now) }
    {
        let len = bytes.len();
        if len > CAP {
            return None;
        }
        let mut all = [0; CAP];
        all[..len].copy_from_slice(bytes);
        Some(FixedText { bytes: all, len })
    }

    /// Its bytes, at most `CAP`.
    pub fn as_bytes(&self) -> &[u8]
        ensures value { result.now ≡ self.now }
        ensures short { length self.now ≤ CAP }
    {
        &self.bytes[..self.len]
    }
}

impl<const CAP: usize> fmt::Debug for FixedText<CAP> {
    fn fmt<W: fmt::Write>(&self, f: &mut fmt::Formatter<W>) -> fmt::Result {
        fmt::Debug::fmt(self.as_bytes(), f)
    }
}

impl<const CAP: usize> PartialEq for FixedText<CAP> {
    ghost eq = { pointwise nat_eq };

    ghost laws = { partial_equiv_from_equiv nat_list_eq_equiv };

    fn eq(&self, other: &FixedText<CAP>) -> bool {
        self.as_bytes() == other.as_bytes()
    }
}

impl<const CAP: usize> Eq for FixedText<CAP> {
    ghost laws = { nat_list_eq_equiv };
}

impl<const CAP: usize> Hash for FixedText<CAP> {
    ghost hash_input = { λ text. fed.slice fed.u8 text };

    ghost respects_eq = { (fed.items_Alike (fed.same_Alike fed.u8 unsigned_Decides)).fed };

    fn hash<H: Hasher>(&self, state: &mut H) {
        self.as_bytes().hash(state);
    }
}

/// Texts are ordered by their bytes.
impl<const CAP: usize> PartialOrd for FixedText<CAP> {
    ghost partial_cmp = { λ a b. Some (slice_cmp nat_cmp a b) };

    ghost laws = { texts_po };

    fn partial_cmp(&self, other: &FixedText<CAP>) -> Option<Ordering> {
        Some(self.cmp(other))
    }
}

impl<const CAP: usize> Ord for FixedText<CAP> {
    ghost cmp = { slice_cmp nat_cmp };

    ghost total = { nat_list_cmp_total };

    ghost matches_partial_cmp = { λ a b. refl };

    ghost matches_eq = { texts_ties };

    fn cmp(&self, other: &FixedText<CAP>) -> Ordering {
        self.as_bytes().cmp(other.as_bytes())
    }
}
