//! Jobs that a user waits for, over offices in memory, on inputs that follow from a seed: `replay SEED` plays the script
//! of a plant, `points SEED` those of four, each of which makes 10,000 points known line by line, `lists SEED` loads and
//! plans lists of 10,000 points, `orders SEED` has orders carried out, `settings SEED` on a site of 10,000 points. Each
//! prints a digest of all that was answered. `small SEED` does a little of each.
#![tactic(auto)]

use crate::work::Size;
use anyhow::{Result, bail};
use std::{env, io};

mod lists;
mod orders;
mod scripts;
mod work;

/// What a job of this name printed; `None` where there is none of it.
fn done(rt: &HostRuntime, name: &str, seed: u32) -> Option<io::Result<()>> {
    Some(match name {
        "replay" => scripts::replayed(rt, seed, Size::Whole),
        "points" => scripts::points(rt, seed, Size::Whole),
        "lists" => lists::loaded(rt, seed, Size::Whole),
        "orders" => orders::carried_out(rt, seed, Size::Whole),
        "settings" => orders::on_full_site(rt, seed, Size::Whole),
        "small" => each(rt, seed),
        _ => return None,
    })
}

/// A little of each job.
fn each(rt: &HostRuntime, seed: u32) -> io::Result<()> {
    scripts::replayed(rt, seed, Size::Small)?;
    scripts::points(rt, seed, Size::Small)?;
    lists::loaded(rt, seed, Size::Small)?;
    orders::carried_out(rt, seed, Size::Small)?;
    orders::on_full_site(rt, seed, Size::Small)
}

/// What the words of the command line ask for; `None` where they ask for nothing.
fn asked(rt: &HostRuntime) -> Result<Option<io::Result<()>>> {
    let mut words = env::args(rt)?.skip(1);
    let Some(name) = words.next() else {
        return Ok(None);
    };
    let Some(seed) = words.next() else {
        return Ok(None);
    };
    match seed.parse::<u32>() {
        Ok(seed) => Ok(done(rt, name.as_str(), seed)),
        Err(_) => Ok(None),
    }
}

fn main(rt: HostRuntime) -> Result<()> {
    match asked(&rt)? {
        Some(done) => Ok(done?),
        None => bail!("usage: workloads replay|points|lists|orders|settings|small SEED"),
    }
}
