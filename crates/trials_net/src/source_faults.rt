//! Reads of a register source whose write fails, or to which memory is refused.
ghost use Rattle.std.specs.Prelude.{◌≤◌};

use line_source::LineSource;
use mb_mbap::Counted;
use std::alloc::Global;
use std::test::Fail;
use sunspec::{RegisterSource, SourceFault};
use telling::{Incoming, Outgoing, Trial, twice};

/// Replies of two registers to the first query, and of one to the second.
const REPLIES: &[u8] = &[
    0, 0, 0, 0, 0, 7, 17, 3, 4, 0x53, 0x75, 0x6E, 0x53, 0, 1, 0, 0, 0, 5, 17, 3, 2, 0, 80,
];

/// The second query.
const QUERY: &[u8] = &[0, 1, 0, 0, 0, 6, 17, 3, 0, 7, 0, 1];

/// A source over these replies, in pieces of 13 bytes, of whose writes the one behind `writes` others fails.
fn source<'a>(
    alloc: Global,
    replies: &'a [u8],
    writes: usize,
) -> LineSource<Incoming<'a>, Outgoing> {
    let replies = Incoming::new(replies, 13, true);
    let writer = Outgoing {
        recovers: true,
        ..Outgoing::new(alloc, writes)
    };
    LineSource::new(alloc, 17, Counted::new(replies), Counted::new(writer))
}

/// Whether a read failed, which else gives these registers.
fn failed<S: RegisterSource>(
    trial: &Trial<'_>,
    source: &mut S,
    start: u16,
    quantity: u16,
    words: &[u16],
) -> bool
    requires { (1 ≤ quantity) × (quantity ≤ 125) }
{
    match source.read(start, quantity) {
        Ok(Some(found)) => {
            trial.told(&start, &found.as_slice(), &words);
            false
        }
        Ok(None) => {
            trial.told(&start, &"not there", &"there");
            false
        }
        Err(SourceFault) => true,
    }
}

fn a_failed_write_takes_a_transaction(trial: &Trial<'_>) {
    let mut line = source(trial.alloc(), REPLIES.get(13..).unwrap_or(&[]), 0);
    let first = failed(trial, &mut line, 7, 1, &[]);
    let second = failed(trial, &mut line, 7, 1, &[80]);
    trial.told(
        &"writes",
        &(first, second, line.failures()),
        &(true, false, 1),
    );
    let (_, writer) = line.into_parts();
    trial.told(&"sent", &writer.into_inner().sent.as_slice(), &QUERY);
}

/// Run under `rt try --test --fail-alloc N`, this one sees each allocation of two reads refused: the
/// read fails and is counted, and the other one goes well.
fn refused_memory_is_a_fault(trial: &Trial<'_>) {
    let mut line = source(trial.alloc(), REPLIES, 1000);
    let first = failed(trial, &mut line, 40000, 2, &[0x5375, 0x6E53]);
    trial.told(&"first", &line.failures(), &(first as u64));
    let second = failed(trial, &mut line, 7, 1, &[80]);
    trial.told(&"both", &(first && second), &false);
    trial.told(&"both", &line.failures(), &(first as u64 + second as u64));
}

fn all(trial: &Trial<'_>) -> Result<(), std::alloc::AllocError> {
    a_failed_write_takes_a_transaction(trial);
    refused_memory_is_a_fault(trial);
    Ok(())
}

#[test]
fn source_faults_are_counted(rt: HostRuntime) -> Result<(), Fail> {
    Ok(twice!(rt, all)?)
}
