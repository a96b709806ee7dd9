//! A short example for each library, in the order in which they stand on one another. Each module is one: what it prints
//! stands in `stdout` beside `src/`, which the gate compares.
#![tactic(auto)]

mod beats;
mod bytes;
mod chains;
mod devices;
mod exchanges;
mod frames;
mod keepers;
mod lists;
mod members;
mod offices;
mod pages;
mod pieces;
mod plans;
mod queries;
mod rounds;
mod scripts;
mod source;
mod units;
mod values;

use anyhow::Result;

fn main(rt: HostRuntime) -> Result<()> {
    units::show(&rt)?;
    frames::show(&rt)?;
    pieces::show(&rt)?;
    members::show(&rt)?;
    devices::show(&rt)?;
    values::show(&rt)?;
    chains::show(&rt)?;
    source::show(&rt)?;
    lists::show(&rt)?;
    plans::show(&rt)?;
    queries::show(&rt)?;
    keepers::show(&rt)?;
    offices::show(&rt)?;
    rounds::show(&rt)?;
    exchanges::show(&rt)?;
    scripts::show(&rt)?;
    beats::show(&rt)?;
    pages::show(&rt)
}
