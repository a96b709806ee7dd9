//! Rows of reads of a device's registers over a line: the start and the quantity of each, and behind `: ` what the
//! device says, all of it beforehand, with ` | ` between its pieces. Behind it the line ends, or it fails.
ghost use Rattle.std.specs.Prelude.{◌≤◌};

use crate::cut::{Bytes, Cut};
use crate::peers::repeated;
use case_pages::Trouble;
use line_source::LineSource;
use mb_mbap::Counted;
use std::alloc::{AllocError, Global};
use sunspec::RegisterSource;

/// The unit identifier of the device.
const UNIT: u8 = 17;

fn read_text<S: RegisterSource>(
    alloc: Global,
    source: &mut S,
    start: u16,
    quantity: u16,
) -> Result<String, AllocError>
    requires { (1 ≤ quantity) × (quantity ≤ 125) }
{
    match source.read(start, quantity) {
        Ok(Some(words)) => format!(in alloc; "{:?}", words.as_slice()),
        Ok(None) => String::from_str(alloc, "not there"),
        Err(_) => String::from_str(alloc, "fault"),
    }
}

/// The start and the quantity of a read.
fn read_of(text: &str) -> Option<(u16, u16)> {
    let (start, quantity) = text.split_once(' ')?;
    Some((start.parse::<u16>().ok()?, quantity.parse::<u16>().ok()?))
}

/// What each read came to, and how many of them failed.
fn told<S: RegisterSource>(alloc: Global, source: &mut S, reads: &str) -> Result<String, Trouble> {
    let mut all = String::new(alloc);
    for read in reads.split(", ") {
        let text = match read_of(read) {
            Some((start, quantity)) if 1 <= quantity && quantity <= 125 => {
                read_text(alloc, source, start, quantity)?
            }
            _ => return Err(Trouble::Page("no read")),
        };
        write!(all, "{text}; ")?;
    }
    write!(all, "{} failed", source.failures())?;
    Ok(all)
}

/// All that a device says.
fn said(alloc: Global, text: &str) -> Result<Vec<u8>, Trouble> {
    let mut bytes = Vec::new(alloc);
    for piece in text.split(" | ") {
        bytes.extend_from_slice(&repeated(alloc, piece)?)?;
    }
    Ok(bytes)
}

/// What reads come to of a device that says this, cut in some way.
fn told_cut(alloc: Global, reads: &str, text: &str, cut: Cut) -> Result<String, Trouble> {
    let (text, fails) = match text.strip_suffix("fails") {
        Some(text) => (text.trim_end(), true),
        None => (text, false),
    };
    let reader = Counted::new(Bytes::new(said(alloc, text)?, cut, fails));
    let writer = Counted::new(Vec::new(alloc));
    let mut source = LineSource::new(alloc, UNIT, reader, writer);
    told(alloc, &mut source, reads)
}

/// What reads come to, whole, and where they differ, cut.
pub(crate) fn reads(alloc: Global, input: &str) -> Result<String, Trouble> {
    let (reads, text) = input
        .split_once(": ")
        .ok_or(Trouble::Page("reads of no device"))?;
    let mut whole = told_cut(alloc, reads, text, Cut::Whole)?;
    for (name, cut) in [("halves", Cut::Halves), ("bytes", Cut::Bytes)] {
        let told = told_cut(alloc, reads, text, cut)?;
        if told.as_str() != whole.as_str() {
            whole = format!(in alloc; "{whole}, in {name} {told}")?;
        }
    }
    Ok(whole)
}
