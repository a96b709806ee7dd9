//! Counted readers and writers over fakes that take one byte a call, and fail when told to.
use mb_mbap::Counted;
use std::alloc::AllocError;
use std::io::{Read, Write};
use std::test::Fail;
use telling::{Incoming, Outgoing, Trial, twice};

fn counted(bytes: &[u8], reads: usize) -> Counted<Incoming<'_>> {
    Counted::new(Incoming {
        reads,
        ..Incoming::new(bytes, 1, false)
    })
}

/// How many bytes come in eight reads, and how many ends and failures are counted.
fn counts(reads: usize) -> (usize, u64, u64) {
    let mut reader = counted(b"abc", reads);
    let mut got = 0usize;
    for _ in 0..8 {
        let count = reader.read(&mut [0; 8]).unwrap_or(0);
        got = got.saturating_add(count);
    }
    (got, reader.ends(), reader.failures())
}

fn reads(trial: &Trial<'_>) {
    for (reads, expected) in [
        (0, (0, 0, 8)),
        (1, (1, 0, 7)),
        (2, (2, 0, 6)),
        (3, (3, 0, 5)),
        (4, (3, 1, 4)),
        (5, (3, 2, 3)),
    ] {
        trial.told(&reads, &counts(reads), &expected);
    }
}

/// No byte that is asked for is no end.
fn empty_room(trial: &Trial<'_>) {
    let mut reader = counted(b"abc", 9);
    let told = (reader.read(&mut []).ok(), reader.ends());
    trial.told(&"no room", &told, &(Some(0), 0));
}

/// Whether a whole room of three bytes could be read, and holds these; how many failures and ends there are.
fn whole(reader: &mut Counted<Incoming<'_>>) -> (bool, u64, u64) {
    let mut room = [0; 3];
    let is_read = reader.read_exact(&mut room).is_ok() && room == *b"abc";
    (is_read, reader.failures(), reader.ends())
}

/// An end inside a whole read is a failure, and no end.
fn whole_reads(trial: &Trial<'_>) {
    let mut reader = counted(b"abcd", 9);
    trial.told(&"abc", &whole(&mut reader), &(true, 0, 0));
    trial.told(&"d", &whole(&mut reader), &(false, 1, 0));
    trial.told(&"left", &reader.into_inner().bytes.is_empty(), &true);
}

/// A call of a writer.
#[derive(Clone, Copy, Debug)]
enum Call {
    Write(&'static [u8]),
    WriteAll(&'static [u8]),
    Flush,
}

/// What a call gives, and how many failed so far.
fn told(writer: &mut Counted<Outgoing>, call: Call) -> (Option<usize>, u64) {
    let given = match call {
        Call::Write(bytes) => writer.write(bytes).ok(),
        Call::WriteAll(bytes) => writer.write_all(bytes).ok().map(|_| bytes.len()),
        Call::Flush => writer.flush().ok().map(|_| 0),
    };
    (given, writer.failures())
}

const CALLS: &[(Call, (Option<usize>, u64))] = &[
    (Call::Write(b"ab"), (Some(1), 0)),
    (Call::WriteAll(b"cd"), (Some(2), 0)),
    (Call::Flush, (Some(0), 0)),
    (Call::WriteAll(b"ef"), (None, 1)),
    (Call::Flush, (None, 2)),
    (Call::Write(b"g"), (None, 3)),
];

fn writes(trial: &Trial<'_>) -> Result<(), AllocError> {
    let mut writer = Counted::new(Outgoing::with_room(trial.alloc(), 4, 1, 4)?);
    for (call, expected) in CALLS {
        trial.told(call, &told(&mut writer, *call), expected);
    }
    trial.told(&"ends", &writer.ends(), &0);
    trial.told(
        &"taken",
        &writer.into_inner().sent.as_slice(),
        &b"acde".as_slice(),
    );
    Ok(())
}

fn all(trial: &Trial<'_>) -> Result<(), AllocError> {
    reads(trial);
    empty_room(trial);
    whole_reads(trial);
    writes(trial)
}

#[test]
fn ends_and_failures_are_counted(rt: HostRuntime) -> Result<(), Fail> {
    Ok(twice!(rt, all)?)
}
