//! Streams of numbered frames, where memory is refused and where a reader gives one byte a call, and fails.
use mb_mbap::{Counted, Fed, Frame, FrameReader};
use std::alloc::AllocError;
use std::io::Read;
use std::test::Fail;
use telling::{Incoming, Trial, twice};

/// Feeds a piece, and once more where memory was refused, of which it keeps count.
fn feed(reader: &mut FrameReader, piece: &[u8], refusals: &mut u64) -> Result<Fed, AllocError> {
    match reader.feed(piece) {
        Ok(fed) => Ok(fed),
        Err(AllocError) => {
            *refusals = refusals.saturating_add(1);
            reader.feed(piece)
        }
    }
}

/// An exception of unit 1, whose transaction and code are this number.
fn numbered(number: u8) -> [u8; 9] {
    [0, number, 0, 0, 0, 3, 1, 0x83, number]
}

/// Twenty frames, numbered from 0.
fn twenty() -> [u8; 180] {
    let mut stream = [0; 180];
    for number in 0..20u8 {
        let at = 9 * number as usize;
        stream[at..at + 9].copy_from_slice(&numbered(number));
    }
    stream
}

fn is_spelled(frame: &Frame, bytes: &[u8]) -> bool {
    frame.encode().as_bytes() == bytes
}

/// Expects that the frames are those numbered from `first` on, and gives the number after them.
fn next_number(trial: &Trial<'_>, frames: &[Frame], first: u8) -> u8 {
    let mut next = first;
    for frame in frames {
        trial.told(frame, &is_spelled(frame, &numbered(next)), &true);
        next = next.saturating_add(1);
    }
    next
}

/// Where an allocation is refused the reader is as it was: the same piece, fed again, gives its frames, and the
/// pieces after it give theirs.
fn refused(trial: &Trial<'_>) -> Result<(), AllocError> {
    let mut reader = FrameReader::new(trial.alloc());
    let stream = twenty();
    let mut refusals = 0u64;
    let mut next = 0;
    for (piece, after) in [(&stream[..4], 0), (&stream[4..86], 9), (&stream[86..], 20)] {
        let fed = feed(&mut reader, piece, &mut refusals)?;
        next = next_number(trial, &fed.frames, next);
        trial.told(&"frames", &next, &after);
        trial.told(&"fault", &fed.fault, &None);
    }
    trial.told(&"refused once at most", &(refusals <= 1), &true);
    Ok(())
}

#[test]
fn refused_memory_is_told(rt: HostRuntime) -> Result<(), Fail> {
    let trial = Trial::new(&rt);
    let done = refused(&trial);
    Ok(trial.ended(done)?)
}

/// Reads 30 times, and feeds what comes. Each frame is there once its last byte is, and a call that fails loses
/// none.
fn frames(
    trial: &Trial<'_>,
    source: &mut Counted<Incoming<'_>>,
    reader: &mut FrameReader,
) -> Result<(), AllocError> {
    let mut room = [0; 8];
    let mut read = 0usize;
    let mut next = 0;
    for _ in 0..30 {
        let Ok(count) = source.read(&mut room) else {
            continue;
        };
        read = read.saturating_add(count);
        let fed = feed(reader, &room[..count], &mut 0)?;
        next = next_number(trial, &fed.frames, next);
        trial.told(&"frames", &(next as usize), &(read / 9));
        trial.told(&"fault", &fed.fault, &None);
    }
    trial.told(&"frames", &next, &3);
    Ok(())
}

/// Each call fails in turn, and the others give one byte of three frames.
fn calls(trial: &Trial<'_>) -> Result<(), AllocError> {
    let stream = twenty();
    let bytes = stream.get(..27).unwrap_or(&[]);
    for reads in 0..31 {
        let mut source = Counted::new(Incoming {
            reads,
            recovers: true,
            ..Incoming::new(bytes, 1, false)
        });
        let mut reader = FrameReader::new(trial.alloc());
        frames(trial, &mut source, &mut reader)?;
        let failures = if reads < 30 { 1 } else { 0 };
        let told = (source.failures(), source.ends());
        trial.told(&reads, &told, &(failures, 3 - failures));
    }
    Ok(())
}

#[test]
fn each_call_failing_in_turn(rt: HostRuntime) -> Result<(), Fail> {
    Ok(twice!(rt, calls)?)
}
