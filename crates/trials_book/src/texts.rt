//! Refusals as texts.
use poll_book::StoreFault;
use poll_match::MatchError::{self, *};
use std::alloc::AllocError;
use std::test::Fail;
use telling::{Trial, twice};

const OF_QUERIES: &[(MatchError, &str)] = &[
    (NoConnection, "no such connection"),
    (NoQuery, "no query has this transaction identifier"),
    (WrongUnit, "the unit identifier is not the query's"),
    (Repeat, "the query was answered before"),
    (WrongReply, "no reply to the query"),
    (Memory, "out of memory"),
    (Exhausted, "no query number is left"),
];

fn refusals(trial: &Trial<'_>) -> Result<(), AllocError> {
    use StoreFault::*;
    let alloc = trial.alloc();
    for (refusal, text) in OF_QUERIES {
        trial.told(refusal, &refusal.to_string(alloc)?.as_str(), text);
    }
    let shown = format!(in alloc; "{Memory}, {Full}, {Disk}, {Other}")?;
    trial.told(&"keepers", &shown.as_str(), &"memory, full, disk, other");
    Ok(())
}

#[test]
fn texts_of_refusals(rt: HostRuntime) -> Result<(), Fail> {
    Ok(twice!(rt, refusals)?)
}
