//! Sets of labels that stand elsewhere, so that none has to be copied to look for another like it.
ghost use Rattle.std.specs.Prelude.{◌≡◌, ◌||◌, ℕ, List, IfOk, OnErr, OnOk, true, false, not};
ghost use Rattle.std.specs.Str.{bytes_eq};
ghost use Rattle.point_list.specs.Label.{is_label};
ghost use Rattle.point_list.specs.Texts.{has_text};

use crate::label::as_text;
use std::alloc::{AllocError, Global};
use std::collections::BTreeSet;

// As text they are compared by words, where bytes are compared a few at a time.
#[derive(Drop)]
pub(crate) struct Texts<'a> {
    set: BTreeSet<&'a str>,
}

impl<'a> Texts<'a> {
    pub(crate) fn new(alloc: Global) -> Texts<'a>
        ensures { (text : List ℕ) → has_text result text ≡ false }
    {
        Texts {
            set: BTreeSet::new(alloc),
        }
    }

    pub(crate) fn has(&self, text: &[u8]) -> bool
        requires { is_label text.now ≡ true }
        ensures { result ≡ has_text self.now text.now }
    {
        self.set.contains(as_text(text))
    }

    /// Adds a text, and says whether it is new. Memory can only be refused where it is.
    pub(crate) fn add(&mut self, text: &'a [u8]) -> Result<bool, AllocError>
        requires { is_label text.now ≡ true }
        ensures new { IfOk result (λ is_new. is_new ≡ not (has_text self.old text.now)) }
        ensures added { OnOk result ((other : List ℕ) → has_text self.new other ≡ (bytes_eq other text.now || has_text self.old other)) }
        ensures refused { OnErr result (has_text self.old text.now ≡ false) }
    {
        match self.set.insert(as_text(text)) {
            Ok(is_new) => Ok(is_new),
            Err(_) => Err(AllocError),
        }
    }
}
