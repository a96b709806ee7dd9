//! Rows of standard inputs.
use crate::cut::Bytes;
use crate::shell::{file, office, text_of};
use crate::world::World;
use case_pages::{Outcomes, Trouble, bytes_of};
use std::alloc::{AllocError, Global};

/// The lines of a text on one line.
fn joined(alloc: Global, text: &str) -> Result<String, AllocError> {
    let mut all = String::new(alloc);
    for (place, line) in text.lines().enumerate() {
        if place > 0 {
            all.push_str(" / ")?;
        }
        all.push_str(line)?;
    }
    Ok(all)
}

/// A frame's text with these bytes in it.
fn framed(alloc: Global, frame: &str, bytes: &[u8]) -> Result<Vec<u8>, Trouble> {
    let Some((before, behind)) = frame.split_once("...") else {
        return Err(Trouble::Page("a file without its line ..."));
    };
    let mut script = Vec::from_slice(alloc, before.as_bytes())?;
    script.extend_from_slice(bytes)?;
    script.extend_from_slice(behind.as_bytes())?;
    Ok(script)
}

impl World<'_> {
    /// The standard input that these bytes are, or are a part of.
    fn whole_input(&self, bytes: Vec<u8>) -> Result<Vec<u8>, Trouble> {
        if self.frame.is_empty() {
            return Ok(bytes);
        }
        let frame = file(self, self.frame.as_str())?;
        framed(self.rt.alloc(), text_of(&frame), &bytes)
    }
}

impl Outcomes for World<'_> {
    /// What the command prints for a standard input.
    fn outcome(&mut self, input: &str) -> Result<String, Trouble> {
        let alloc = self.rt.alloc();
        let bytes = self.whole_input(bytes_of(alloc, input)?)?;
        self.input = Bytes::new(bytes, self.play.cut, false);
        let words = String::from_str(alloc, self.words.as_str())?;
        let told = office(self, words.as_str())?;
        Ok(joined(alloc, told.as_str())?)
    }
}
