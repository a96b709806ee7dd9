//! Plays the cases of Modbus, SunSpec, lists, sites and plans: the pages of `data/`, which its arguments name.
#![tactic(auto)]

mod chains;
mod formats;
mod lists;
mod names;
mod numbers;
mod plans;
mod rows;
mod simulators;
mod sites;
mod streams;
mod tables;
mod texts;
mod units;
mod values;

use crate::formats::Examples;
use crate::rows::Rows;
use crate::simulators::Simulator;
use crate::tables::Tables;
use case_pages::{Block, Player, Tally, Trouble, play_pages, play_rows};
use std::alloc::Global;
use std::process::ExitCode;

/// The words of a block of faults, of each of which its page has an example.
const FAULTS: &str = "text faults";

#[derive(Drop)]
struct Pages {
    alloc: Global,
}

fn play_kind<R: Print>(
    alloc: Global,
    tally: &mut Tally<'_, R>,
    page: &[Block<'_>],
    block: &Block<'_>,
    words: &str,
) -> Result<(), Trouble> {
    if let Some(sizes) = words.strip_prefix("tables ") {
        return play_rows(tally, block, &mut Tables::new(alloc, sizes)?);
    }
    if let Some(name) = words.strip_prefix("simulator ") {
        return play_rows(tally, block, &mut Simulator::new(alloc, page, name)?);
    }
    let kind = words;
    play_rows(tally, block, &mut Rows { alloc, kind, page })
}

impl Player for Pages {
    fn play<R: Print>(
        &mut self,
        tally: &mut Tally<'_, R>,
        _name: &str,
        page: &[Block<'_>],
    ) -> Result<(), Trouble> {
        let mut examples = Examples::new(self.alloc);
        for block in page {
            match block.words.strip_prefix("rows ") {
                Some(words) => play_kind(self.alloc, tally, page, block, words)?,
                None if block.words == FAULTS => formats::play_faults(tally, page, block)?,
                None => examples.play(tally, block)?,
            }
        }
        Ok(())
    }
}

fn main(rt: HostRuntime) -> Result<ExitCode, Trouble> {
    let mut pages = Pages { alloc: rt.alloc() };
    play_pages(&rt, &mut pages)
}
