//! Peers of a line that speak bytes: lines `> ..` of the frames that a peer hears, and `< ..` of what it says behind
//! them. What stands before the first frame is said at once. `5x` before bytes has them come five times.
use crate::world::World;
use case_pages::{Block, Trouble, hex_of};
use std::alloc::Global;

/// What is said once so many frames were heard.
#[derive(Drop)]
struct Part {
    behind: usize,
    bytes: Vec<u8>,
}

/// What a peer hears and says over each of its connections.
#[derive(Drop)]
pub(crate) struct Script {
    pub(crate) address: String,
    parts: Vec<Part>,
    /// Behind all that it says the connection fails, and doesn't end.
    pub(crate) fails: bool,
    /// The frames that it is to hear, a line each; none where it isn't asked.
    pub(crate) wanted: String,
    /// The line of its block.
    pub(crate) line: usize,
}

impl Script {
    /// What is said once so many frames were heard, and no more.
    pub(crate) fn said_behind(&self, frames: usize) -> &[u8] {
        for part in &self.parts {
            if part.behind == frames {
                return part.bytes.as_slice();
            }
        }
        &[]
    }
}

/// The bytes that a text spells, behind a number of times.
pub(crate) fn repeated(alloc: Global, text: &str) -> Result<Vec<u8>, Trouble> {
    let (times, text) = match text.split_once("x ") {
        Some((times, text)) => (times.parse::<u32>().unwrap_or(0), text),
        None => (1, text),
    };
    let bytes = hex_of(alloc, text)?;
    let mut all = Vec::new(alloc);
    for _ in 0..times {
        all.extend_from_slice(&bytes)?;
    }
    Ok(all)
}

impl Script {
    fn hear(&mut self, text: &str) -> Result<(), Trouble> {
        self.wanted.push_str(text)?;
        self.wanted.push_str(" \n")?;
        Ok(())
    }

    fn say(&mut self, alloc: Global, behind: usize, bytes: &[u8]) -> Result<(), Trouble> {
        if let Some(part) = self.parts.last_mut() {
            if part.behind == behind {
                part.bytes.extend_from_slice(bytes)?;
                return Ok(());
            }
        }
        let bytes = Vec::from_slice(alloc, bytes)?;
        Ok(self.parts.push(Part { behind, bytes })?)
    }

    fn add_lines(&mut self, alloc: Global, text: &str) -> Result<(), Trouble> {
        let mut heard = 0usize;
        for line in text.lines() {
            if let Some(frame) = line.strip_prefix("> ") {
                heard = heard.saturating_add(1);
                self.hear(frame)?;
            } else if let Some(said) = line.strip_prefix("< ") {
                let bytes = repeated(alloc, said)?;
                self.say(alloc, heard, &bytes)?;
            } else {
                return Err(Trouble::Page("a line of neither a frame nor an answer"));
            }
        }
        Ok(())
    }
}

/// Has a block's peer wait at an address, behind which `fails` may stand.
pub(crate) fn wait(world: &mut World<'_>, block: &Block<'_>, address: &str) -> Result<(), Trouble> {
    let alloc = world.rt.alloc();
    let (address, fails) = match address.strip_suffix(" fails") {
        Some(address) => (address, true),
        None => (address, false),
    };
    let mut script = Script {
        address: String::from_str(alloc, address)?,
        parts: Vec::new(alloc),
        fails,
        wanted: String::new(alloc),
        line: block.line,
    };
    script.add_lines(alloc, block.text)?;
    match world.devices.try_borrow_mut() {
        Ok(mut devices) => {
            devices.wait_with(script);
            Ok(())
        }
        Err(_) => Err(Trouble::Page("a peer in use")),
    }
}
