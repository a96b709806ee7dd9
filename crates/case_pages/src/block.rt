//! The fenced blocks of a page.
use crate::Trouble;
use std::alloc::Global;

/// A fenced block.
#[derive(Clone, Copy)]
pub struct Block<'a> {
    /// The words behind its fence.
    pub words: &'a str,
    pub text: &'a str,
    /// The number of its fence's line in the page, from 1.
    pub line: usize,
}

impl<'a> Block<'a> {
    /// The name of the file that the block is, whose words are `file NAME`, or a language and these.
    pub fn file_name(&self) -> Option<&'a str> {
        let (before, name) = self.words.split_once("file ")?;
        if before.is_empty() || before.ends_with(' ') {
            Some(name)
        } else {
            None
        }
    }
}

fn line_ends(text: &str) -> usize {
    text.bytes().filter(|byte| *byte == b'\n').count()
}

/// The blocks of a page, in their order: each second part between fences.
pub fn blocks_of(alloc: Global, page: &str) -> Result<Vec<Block<'_>>, Trouble> {
    let mut blocks = Vec::new(alloc);
    let mut line = 1usize;
    for (place, part) in page.split("```").enumerate() {
        if place % 2 == 1 {
            let Some((words, text)) = part.split_once('\n') else {
                return Err(Trouble::Page("a fence without a line"));
            };
            blocks.push(Block { words, text, line })?;
        }
        line = line.saturating_add(line_ends(part));
    }
    Ok(blocks)
}

/// The text of a page's file of this name.
pub fn file_of<'a>(page: &[Block<'a>], name: &str) -> Result<&'a str, Trouble> {
    for block in page {
        if block.file_name() == Some(name) {
            return Ok(block.text);
        }
    }
    Err(Trouble::Page("no file of this name"))
}
