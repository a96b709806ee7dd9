//! Whole files as examples: blocks `toml site`, `csv list` and `toml simulator`, behind whose two words it stands why
//! the file is refused, and where; nothing where it is read. A list is read for the last site before it. Lines may
//! be left out between two that differ in a number.
use crate::lists::last_of;
use crate::texts::refusal;
use case_pages::{Block, Tally, Trouble};
use mb_map::Sim;
use point_list::Site;
use std::alloc::{AllocError, Global};
use std::fmt::Display;

/// The line that stands for those between its neighbours, which differ in a number.
const AND_SO_ON: &str = "…\n";

/// The words of a fence without the fault behind them, and the fault.
fn example_of(words: &str) -> Option<(&str, &str)> {
    for name in ["toml site", "csv list", "toml simulator"] {
        if let Some(fault) = words.strip_prefix(name) {
            return Some((name, fault.trim_start()));
        }
    }
    None
}

/// Whether a page has an example of a fault.
fn has_example(page: &[Block<'_>], fault: &str) -> bool {
    page.iter()
        .filter_map(|block| example_of(block.words))
        .any(|(_, words)| words.starts_with(fault))
}

/// The number at which a line differs from another, as digits, and where it begins.
fn digits_at(line: &str, at: usize) -> Option<&str> {
    let (_, rest) = line.split_at_checked(at)?;
    let count = rest
        .bytes()
        .take_while(|byte| byte.is_ascii_digit())
        .count();
    Some(rest.split_at_checked(count)?.0)
}

/// The line before those that are left out, its number, and the number of the line behind them.
fn left_out<'a>(before: &'a str, after: &str) -> Option<(&'a str, &'a str, u32)> {
    let line = before.lines().last()?;
    let next = after.lines().next()?;
    let same = line
        .bytes()
        .zip(next.bytes())
        .take_while(|(a, b)| a == b)
        .count();
    let last = digits_at(next, same)?.parse::<u32>().ok()?;
    Some((line, digits_at(line, same)?, last))
}

/// Writes the lines between these two parts: the last one of the first part, with each number in the place of its own.
fn fill(whole: &mut String, before: &str, after: &str) -> Result<(), AllocError> {
    let Some((line, digits, last)) = left_out(before, after) else {
        return Ok(());
    };
    let alloc = *whole.allocator();
    let first = digits.parse::<u32>().unwrap_or(last);
    for number in first.saturating_add(1)..last {
        let number = number.to_string(alloc)?;
        whole.push_str(line.replace(alloc, digits, number.as_str())?.as_str())?;
        whole.push('\n')?;
    }
    Ok(())
}

/// The text of a file with the lines that it leaves out.
fn whole(alloc: Global, text: &str) -> Result<String, AllocError> {
    let parts: Vec<&str> = text.split(AND_SO_ON).collect(alloc)?;
    let mut whole = String::from_str(alloc, parts.first().copied().unwrap_or(""))?;
    for pair in parts.windows(2) {
        let [before, after] = pair else {
            continue;
        };
        fill(&mut whole, before, after)?;
        whole.push_str(after)?;
    }
    Ok(whole)
}

/// A page's examples under way.
#[derive(Drop)]
pub(crate) struct Examples<'a> {
    alloc: Global,
    /// The last site that was read.
    site: &'a str,
}

impl<'a> Examples<'a> {
    pub(crate) fn new(alloc: Global) -> Examples<'a> {
        Examples { alloc, site: "" }
    }

    /// Plays a block that is an example, and passes over any other.
    pub(crate) fn play<R: Print>(
        &mut self,
        tally: &mut Tally<'_, R>,
        block: &Block<'a>,
    ) -> Result<(), Trouble> {
        let Some((example, wanted)) = example_of(block.words) else {
            return Ok(());
        };
        let told = match self.fault(example, block.text) {
            Err(Trouble::Memory) => self.fault(example, block.text)?,
            told => told?,
        };
        if example == "toml site" && told.is_empty() {
            self.site = block.text;
        }
        tally.told(block.line, told.as_str(), wanted)
    }

    /// What a file is refused for, or nothing where it is read.
    fn fault(&self, example: &str, text: &str) -> Result<String, Trouble> {
        let alloc = self.alloc;
        let text = whole(alloc, text)?;
        let bytes = text.as_bytes();
        match example {
            "toml site" => fault_of(alloc, Site::from_toml(alloc, bytes)),
            "csv list" => fault_of(alloc, last_of(alloc, self.site, bytes)),
            _ => fault_of(alloc, Sim::from_image(alloc, bytes)),
        }
    }
}

fn fault_of<T: Drop, E: Display + Drop>(
    alloc: Global,
    told: Result<T, E>,
) -> Result<String, Trouble> {
    match told {
        Ok(_) => Ok(String::new(alloc)),
        Err(error) => refusal(alloc, &error),
    }
}

/// Expects that each fault of a block, a line each, has an example in the page.
pub(crate) fn play_faults<R: Print>(
    tally: &mut Tally<'_, R>,
    page: &[Block<'_>],
    block: &Block<'_>,
) -> Result<(), Trouble> {
    for fault in block.text.lines() {
        let met = if has_example(page, fault) {
            fault
        } else {
            "no example"
        };
        tally.told(block.line, met, fault)?;
    }
    Ok(())
}
