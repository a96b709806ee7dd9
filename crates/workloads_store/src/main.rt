//! Jobs that a user waits for, over offices in a database whose files lie in memory, on inputs that follow from a seed:
//! `rounds SEED` polls a plant slot after slot, one line of which is away for a while and comes late, `reports SEED`
//! reports windows of readings. Each prints a digest of all that was answered. `small SEED` does a little of each.
#![tactic(auto)]

use crate::work::{Size, Task, done_in_pages};
use anyhow::{Result, bail};
use std::{env, io};

mod reports;
mod rounds;
mod work;

/// What a job of this name printed; `None` where there is none of it.
fn done(rt: &HostRuntime, name: &str, seed: u32) -> Option<io::Result<()>> {
    Some(match name {
        "rounds" => done_in_pages(rt, seed, Task::Rounds(Size::Whole)),
        "reports" => done_in_pages(rt, seed, Task::Reports(Size::Whole)),
        "small" => each(rt, seed),
        _ => return None,
    })
}

/// A little of each job.
fn each(rt: &HostRuntime, seed: u32) -> io::Result<()> {
    done_in_pages(rt, seed, Task::Rounds(Size::Small))?;
    done_in_pages(rt, seed, Task::Reports(Size::Small))
}

/// What the words of the command line ask for; `None` where they ask for nothing.
fn asked(rt: &HostRuntime) -> Result<Option<io::Result<()>>> {
    let mut words = env::args(rt)?.skip(1);
    let Some(name) = words.next() else {
        return Ok(None);
    };
    let Some(seed) = words.next() else {
        return Ok(None);
    };
    match seed.parse::<u32>() {
        Ok(seed) => Ok(done(rt, name.as_str(), seed)),
        Err(_) => Ok(None),
    }
}

fn main(rt: HostRuntime) -> Result<()> {
    match asked(&rt)? {
        Some(done) => Ok(done?),
        None => bail!("usage: workloads_store rounds|reports|small SEED"),
    }
}
