//! Readers and writers of simulated devices that fail.
use crate::noise::Noise;
use crate::sockets::{ends, say};
use mb_map::Sim;
use mb_mbap::Counted;
use office_commands::{Failure, Fault, Timed, answer_lines, answer_stream};
use std::alloc::Global;
use std::io::{self, Write};
use std::test::Fail;
use telling::{Outgoing, Trial, twice};

/// A device of three registers.
const IMAGE: &[u8] = b"[[unit]]\nid = 17\nholding_start = 107\nholding = [555, 0, 100]\n";

/// Refused memory ends the attempt.
fn is_ended(trial: &Trial<'_>, ended: Result<(), Failure>, expected: Fault) -> Result<(), Fault> {
    let ended = ended.map_err(|failure| failure.fault);
    if ended == Err(Fault::Memory) {
        return ended;
    }
    trial.told(&expected, &ended, &Err(expected));
    Ok(())
}

/// How a line ends whose reply can't be written.
fn unprinted(alloc: Global, sim: &mut Sim) -> Result<(), Failure> {
    let mut line = Counted::new(b"00 00 00 00 00 02 11 07\n".as_slice());
    let mut full = Counted::new(Outgoing::new(alloc, 0));
    answer_lines(alloc, sim, &mut line, &mut full).map_err(Failure::from)
}

/// How a stream without end ends, whose replies are written.
fn streamed<W: Write + Drop>(alloc: Global, sim: &mut Sim, writer: W) -> Result<(), Failure> {
    let (mut noisy, mut writer) = (Counted::new(Noise), Counted::new(writer));
    answer_stream(alloc, sim, &mut noisy, &mut writer)
}

fn are_ended(trial: &Trial<'_>, sim: &mut Sim) -> Result<(), Fault> {
    let alloc = trial.alloc();
    is_ended(trial, unprinted(alloc, sim), Fault::File)?;
    is_ended(trial, streamed(alloc, sim, io::sink()), Fault::Noise)?;
    is_ended(
        trial,
        streamed(alloc, sim, Outgoing::new(alloc, 0)),
        Fault::Line,
    )
}

fn all(trial: &Trial<'_>) -> Result<(), Fault> {
    are_ended(trial, &mut Sim::from_toml(trial.alloc(), IMAGE)?)
}

#[test]
fn readers_and_writers_of_devices_fail(rt: HostRuntime) -> Result<(), Fail> {
    Ok(twice!(rt, all)?)
}

/// A peer closes, and leaves an answer unread: what comes in ends by a reset.
fn reset(trial: &Trial<'_>) -> Result<(), Fault> {
    let rt = trial.runtime();
    let mut sim = Sim::from_toml(rt.alloc(), IMAGE)?;
    let (near, far) = ends(rt)?;
    say(&far, &[0], false)?;
    drop(near);
    let mut reader = Counted::new(Timed::endless(rt, far));
    let mut writer = Counted::new(io::sink());
    let ended = answer_stream(rt.alloc(), &mut sim, &mut reader, &mut writer);
    trial.told(&"ended", &ended.map_err(|failure| failure.fault), &Ok(()));
    Ok(())
}

#[test]
fn devices_end_well_where_an_answer_is_left_unread(rt: HostRuntime) -> Result<(), Fail> {
    Ok(twice!(rt, reset)?)
}
