//! Playing devices, for frames as lines of text or over a stream.
ghost use Rattle.std.specs.Prelude.{◌≡◌};
ghost use Rattle.office_commands.specs.Conversions.{of_lines};
ghost use Rattle.office_commands.specs.declared.simulating.LinesFault.TheVariants as LinesFault;

use crate::frame_line::{frame_of, push_frame};
use crate::{Failure, Fault, Why};
use line_io::{read_piece, write, write_frame};
use mb_map::Sim;
use mb_mbap::{Counted, Frame, FrameReader};
use office_net::MOST_READ;
use std::alloc::{AllocError, Global};
use std::error::Error;
use std::fmt;
use std::io::{Read, Write};

/// So many bytes are read at once at most.
const PIECE: usize = 4096;

/// The longest line of a frame: 260 bytes with a space between each two, and a carriage return.
const MOST_LINE: usize = 780;

const UNREAD: Why = Why::Words("what comes in can't be read");

const UNWRITTEN: Why = Why::Words("what goes out can't be written");

const TOO_MUCH: Why = Why::Words("16,777,216 bytes came");

/// Why frames in lines aren't answered to their end.
#[derive(Clone, Copy, Debug, PartialEq, Eq)]
pub enum LinesFault {
    /// The lines can't be read.
    Read,
    /// The replies can't be written.
    Write,
    /// The line of this number, from 1 on, is no frame.
    NoFrame(u64),
    /// 16,777,216 bytes came.
    Noise,
    /// Memory was refused.
    Memory,
}

impl fmt::Display for LinesFault {
    fn fmt<W: fmt::Write>(&self, f: &mut fmt::Formatter<W>) -> fmt::Result {
        match self {
            LinesFault::Read => f.write_str("unread"),
            LinesFault::Write => f.write_str("unwritten"),
            LinesFault::NoFrame(number) => write!(f, "line {number} is no frame"),
            LinesFault::Noise => f.write_str("noise"),
            LinesFault::Memory => f.write_str("memory"),
        }
    }
}

impl Error for LinesFault {}

impl From<AllocError> for LinesFault {
    ghost from_gives = { λ _ told. told ≡ LinesFault.Memory };

    fn from(_: AllocError) -> LinesFault {
        LinesFault::Memory
    }
}

impl From<LinesFault> for Failure {
    ghost from_gives = { λ fault told. told.fault ≡ of_lines fault };

    fn from(fault: LinesFault) -> Failure {
        match fault {
            LinesFault::Read => Failure::new(Fault::File, UNREAD),
            LinesFault::Write => Failure::new(Fault::File, UNWRITTEN),
            LinesFault::NoFrame(number) => Failure::new(Fault::FrameLine, Why::Line(number)),
            LinesFault::Noise => Failure::new(Fault::Noise, TOO_MUCH),
            LinesFault::Memory => Failure::from(Fault::Memory),
        }
    }
}

/// The lines of replies.
fn lines_of(alloc: Global, replies: &[Frame]) -> Result<Vec<u8>, AllocError> {
    let mut text = Vec::new(alloc);
    for reply in replies {
        push_frame(alloc, &mut text, reply)?;
    }
    Ok(text)
}

fn write_lines<W: Write>(
    alloc: Global,
    replies: &[Frame],
    writer: &mut Counted<W>,
) -> Result<(), LinesFault> {
    let text = lines_of(alloc, replies)?;
    write(writer, &text, LinesFault::Write)
}

/// A line without its end.
fn without_return(line: &[u8]) -> &[u8] {
    match line {
        [front @ .., b'\r'] => front,
        _ => line,
    }
}

/// The line that is being read, without its end, and its number from 1 on.
#[derive(Drop)]
struct Line {
    bytes: Vec<u8>,
    number: u64,
}

/// Answers the frame of a line.
fn answer_line<W: Write>(
    alloc: Global,
    sim: &mut Sim,
    line: &Line,
    writer: &mut Counted<W>,
) -> Result<(), LinesFault> {
    let Some(frame) = frame_of(alloc, without_return(&line.bytes))? else {
        return Err(LinesFault::NoFrame(line.number));
    };
    // A simulator's step is refused for want of memory alone.
    let Ok(replies) = sim.take(&frame) else {
        return Err(LinesFault::Memory);
    };
    write_lines(alloc, &replies, writer)
}

/// Takes a byte: at the end of a line its frame is answered.
fn take_byte<W: Write>(
    alloc: Global,
    sim: &mut Sim,
    line: &mut Line,
    byte: u8,
    writer: &mut Counted<W>,
) -> Result<(), LinesFault> {
    if byte == b'\n' {
        answer_line(alloc, sim, line, writer)?;
        line.bytes.clear();
        line.number = line.number.saturating_add(1);
        return Ok(());
    }
    if line.bytes.len() == MOST_LINE {
        return Err(LinesFault::NoFrame(line.number));
    }
    match line.bytes.push(byte) {
        Ok(()) => Ok(()),
        Err(_) => Err(LinesFault::Memory),
    }
}

/// Answers frames in hexadecimal digits, a line each, with the replies of simulated devices, a line
/// each, as they come, and gives out all replies that are held at the end.
pub fn answer_lines<R: Read, W: Write>(
    alloc: Global,
    sim: &mut Sim,
    reader: &mut Counted<R>,
    writer: &mut Counted<W>,
) -> Result<(), LinesFault> {
    let mut piece = [0u8; PIECE];
    let mut line = Line {
        bytes: Vec::new(alloc),
        number: 1,
    };
    let mut taken = 0;
    'pieces: while taken < MOST_READ {
        let count = read_piece(reader, &mut piece, LinesFault::Read)?;
        if count == 0 {
            if !line.bytes.is_empty() {
                answer_line(alloc, sim, &line, writer)?;
            }
            let Ok(replies) = sim.rest() else {
                return Err(LinesFault::Memory);
            };
            return write_lines(alloc, &replies, writer);
        }
        taken += count;
        take_bytes(alloc, sim, &mut line, &piece[..count], writer)?;
    }
    Err(LinesFault::Noise)
}

fn take_bytes<W: Write>(
    alloc: Global,
    sim: &mut Sim,
    line: &mut Line,
    bytes: &[u8],
    writer: &mut Counted<W>,
) -> Result<(), LinesFault> {
    for byte in bytes {
        take_byte(alloc, sim, line, *byte, writer)?;
    }
    Ok(())
}

fn write_frames<W: Write>(replies: &[Frame], writer: &mut Counted<W>) -> Result<(), Failure> {
    for reply in replies {
        write_frame(writer, reply, Failure::new(Fault::Line, UNWRITTEN))?;
    }
    Ok(())
}

/// Answers each frame.
fn answer_frames<W: Write>(
    sim: &mut Sim,
    frames: &[Frame],
    writer: &mut Counted<W>,
) -> Result<(), Failure> {
    for frame in frames {
        let replies = sim.take(frame)?;
        write_frames(&replies, writer)?;
    }
    Ok(())
}

/// Answers the frames of a stream with the replies of simulated devices, as they come, and gives out
/// all replies that are held at its end. `Frames` at a bad header, `Line` where the stream fails, `Noise`
/// after 16,777,216 bytes.
pub fn answer_stream<R: Read, W: Write>(
    alloc: Global,
    sim: &mut Sim,
    reader: &mut Counted<R>,
    writer: &mut Counted<W>,
) -> Result<(), Failure> {
    let mut piece = [0u8; PIECE];
    let mut stream = FrameReader::new(alloc);
    let mut taken = 0;
    'pieces: while taken < MOST_READ {
        let count = read_piece(reader, &mut piece, Failure::new(Fault::Line, UNREAD))?;
        if count == 0 {
            let replies = sim.rest()?;
            return write_frames(&replies, writer);
        }
        taken += count;
        let fed = stream.feed(&piece[..count])?;
        answer_frames(sim, &fed.frames, writer)?;
        if let Some(fault) = fed.fault {
            return Err(Failure::new(Fault::Frames, Why::Frames(fault)));
        }
    }
    Err(Failure::new(Fault::Noise, TOO_MUCH))
}
