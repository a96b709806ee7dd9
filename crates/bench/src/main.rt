//! What looks for faults by hand. Each word of the command line is one search: `fuzz` tries each reader on 100,000 inputs
//! that follow from a seed, which it prints, and `fuzz=SEED` on those of that seed; `worked` lives through worked
//! examples, for trials of refused memory; `map-memory=ORDERS` loads two lists of forty rows at an office with so many
//! orders, and `short-map-memory=ORDERS` two of twelve, for `.ci/refused`. Without words the program ends at once and
//! prints nothing. What users wait for is timed by `bench/run`.
#![tactic(auto)]

use anyhow::{Result, bail};
use std::{env, io};

mod fuzz;
mod map_memory;
mod pace;
mod worked;

const WORDS: &str = "fuzz fuzz=SEED worked map-memory=ORDERS short-map-memory=ORDERS";

/// What a search of this name did with a number; `None` where there is none of it.
fn done_with(rt: &HostRuntime, name: &str, number: &str) -> Option<io::Result<()>> {
    Some(match name {
        "fuzz" => fuzz::run(rt, Some(number.parse::<u64>().ok()?)),
        "map-memory" => map_memory::long(rt, number.parse::<u32>().ok()?),
        "short-map-memory" => map_memory::short(rt, number.parse::<u32>().ok()?),
        _ => return None,
    })
}

/// What a search of this name did; `None` where there is none of it.
fn done(rt: &HostRuntime, word: &str) -> Option<io::Result<()>> {
    Some(match word {
        "worked" => worked::run(rt),
        "fuzz" => fuzz::run(rt, None),
        _ => {
            let (name, number) = word.split_once('=')?;
            return done_with(rt, name, number);
        }
    })
}

fn main(rt: HostRuntime) -> Result<()> {
    for word in env::args(&rt)?.skip(1) {
        match done(&rt, word.as_str()) {
            Some(done) => done?,
            None => bail!("no search '{word}'; there are: {WORDS}"),
        }
    }
    Ok(())
}
