//! Readers and writers that give and take little at a time, and that fail; and what is shown of endings.
use crate::playing::{COUNTER, COUNTER_TEXT, comes};
use office_script::ReplayFault;
use office_script::Replayed::{Done, FaultLine};
use std::alloc::AllocError;
use std::io::{self, Read};
use std::test::Fail;
use telling::{Incoming, Outgoing, Trial, twice};

/// Each read of seven bytes fails once, of which the last finds the end. Run under `rt try --test --fail-alloc N`,
/// this one sees each allocation of a script refused.
fn reads(trial: &Trial<'_>) -> Result<(), ReplayFault> {
    let calls = COUNTER.len().div_ceil(7).saturating_add(1);
    for reads in 0..=calls {
        let reader = Incoming {
            reads,
            ..Incoming::new(COUNTER.as_bytes(), 7, false)
        };
        let writer = Outgoing::with_room(
            trial.alloc(),
            COUNTER_TEXT.len(),
            usize::MAX,
            usize::MAX,
        )?;
        if reads < calls {
            comes(trial, reader, writer, "", Err(ReplayFault::Read), 1)?;
        } else {
            comes(trial, reader, writer, COUNTER_TEXT, Ok(Done), 0)?;
        }
    }
    Ok(())
}

#[test]
fn each_read_fails_once(rt: HostRuntime) -> Result<(), Fail> {
    Ok(twice!(rt, reads)?)
}

/// Expects what is written of a script in so many calls of so many bytes: so many bytes of its text. Where it has more,
/// a call failed.
fn is_written(
    trial: &Trial<'_>,
    (script, text): (&str, &str),
    (most, writes): (usize, usize),
    taken: usize,
) -> Result<(), ReplayFault> {
    let writer = Outgoing::with_room(trial.alloc(), taken, most, writes)?;
    match text.get(..taken) {
        Some(front) if taken < text.len() => {
            let ended = Err(ReplayFault::Write);
            comes(trial, script.as_bytes(), writer, front, ended, 1)
        }
        _ => comes(trial, script.as_bytes(), writer, text, Ok(Done), 0),
    }
}

fn writes(trial: &Trial<'_>) -> Result<(), ReplayFault> {
    for calls in 0..=COUNTER_TEXT.len().div_ceil(7) {
        let taken = calls.saturating_mul(7);
        is_written(trial, (COUNTER, COUNTER_TEXT), (7, calls), taken)?;
    }
    Ok(())
}

#[test]
fn each_write_fails_once(rt: HostRuntime) -> Result<(), Fail> {
    Ok(twice!(rt, writes)?)
}

/// Neither a fault line nor an output can be written, and a writer that takes nothing is as one
/// that fails.
fn nothing(trial: &Trial<'_>) -> Result<(), ReplayFault> {
    for (script, text, most, writes) in [
        ("x", "fault line 1\n", 7, 0),
        ("open attic\nx", "refused WrongLine\nfault line 2\n", 7, 0),
        (COUNTER, COUNTER_TEXT, 0, 5),
    ] {
        is_written(trial, (script, text), (most, writes), 0)?;
    }
    Ok(())
}

#[test]
fn nothing_can_be_written(rt: HostRuntime) -> Result<(), Fail> {
    Ok(twice!(rt, nothing)?)
}

/// 8,000 refusals, 144,000 bytes, are written from 65,536 bytes on in whole lines: twice 3,641 of them and
/// then the rest.
fn pieces(trial: &Trial<'_>, script: &str, text: &str) -> Result<(), ReplayFault> {
    for (calls, taken) in [(0, 0), (1, 65538), (2, 131_076), (3, text.len())] {
        is_written(trial, (script, text), (text.len(), calls), taken)?;
    }
    Ok(())
}

fn long_output(trial: &Trial<'_>) -> Result<(), ReplayFault> {
    let script = "open attic\n".repeat(trial.alloc(), 8000)?;
    let text = "refused WrongLine\n".repeat(trial.alloc(), 8000)?;
    pieces(trial, script.as_str(), text.as_str())
}

#[test]
fn a_long_output_is_written_in_pieces(rt: HostRuntime) -> Result<(), Fail> {
    Ok(twice!(rt, long_output)?)
}

/// A reader of so many bytes: of a line feed at the start of each piece, and else of what stands
/// in the room.
#[derive(Drop)]
struct Long {
    left: usize,
}

impl Read for Long {
    fn read(&mut self, buf: &mut [u8]) -> io::Result<usize> {
        let count = self.left.min(buf.len());
        if let Some(first) = buf.first_mut() {
            *first = b'\n';
        }
        self.left -= count;
        Ok(count)
    }
}

/// The second line is of another form.
fn greatest(trial: &Trial<'_>) -> Result<(), ReplayFault> {
    for (left, text, ended) in [
        (67_108_864, "fault line 2\n", Ok(FaultLine(2))),
        (67_108_865, "", Err(ReplayFault::Read)),
    ] {
        let writer = Outgoing::with_room(trial.alloc(), 16, usize::MAX, usize::MAX)?;
        comes(trial, Long { left }, writer, text, ended, 0)?;
    }
    Ok(())
}

#[test]
fn scripts_of_the_greatest_length_and_a_byte_more(rt: HostRuntime) -> Result<(), Fail> {
    Ok(twice!(rt, greatest)?)
}

fn endings(trial: &Trial<'_>) -> Result<(), AllocError> {
    use ReplayFault::*;
    let (alloc, fault) = (trial.alloc(), FaultLine(3));
    let shown = format!(in alloc; "{Done}, {fault}, {Read}, {Write}, {Memory}")?;
    let expected = "done, fault line 3, file, file, memory";
    trial.told(&"shown", &shown.as_str(), &expected);
    Ok(())
}

#[test]
fn endings_are_shown(rt: HostRuntime) -> Result<(), Fail> {
    Ok(twice!(rt, endings)?)
}
