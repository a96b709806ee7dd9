//! What comes over a line is read until a frame answers.
ghost use Rattle.std.specs.Prelude.{◌≡◌, ◌≤◌, ◌<◌, [], IfOk, length, take};
ghost use Rattle.std.specs.Io.KnownBytes.{Consumes};
ghost use Rattle.mb_mbap.specs.Counted.{inner_of};
ghost use Rattle.line_source.specs.LineSources.{Hears, HearsReply, Tells};

use crate::waiting::Waiting;
use line_io::read_some;
use mb_mbap::{Counted, Frame, FrameReader};
use mb_pdu::{Reply, Span};
use std::io::Read;
use sunspec::SourceFault;

/// So many bytes are read for one reply at most.
const MOST_READ: usize = 65_536;

/// So many bytes are read at once at most.
const PIECE: usize = 4096;

/// Reads a piece of at most so many bytes, and looks at the frames that it completes, of which those behind an answer
/// wait. It answers with how many bytes were read.
fn read_on<R: Read>(
    query: &Frame,
    span: Span,
    waiting: &mut Waiting,
    stream: &mut FrameReader,
    most: usize,
    reader: &mut Counted<R>,
) -> Result<(usize, Option<Reply>), SourceFault>
    requires none { waiting.old ≡ [] }
    requires some { 0 < most }
    requires few { most ≤ PIECE }
    ensures some { IfOk result (λ r. (0 < r.0) × (r.0 ≤ most)) }
    ensures heard { IfOk result (λ r. Hears (λ frames. Tells query.now span r.1 frames waiting.new) stream.old stream.new
        (R.remaining (inner_of reader.old)) (R.remaining (inner_of reader.new)) r.0) }
{
    let mut piece = [0u8; PIECE];
    let count = read_some(reader, &mut piece, most, SourceFault)?;
    let Ok(fed) = stream.feed(&piece[..count]) else {
        return Err(SourceFault);
    };
    let fault = fed.fault;
    *waiting = Waiting::new(fed.frames);
    let reply = waiting.take_reply(query, span);
    if reply.is_none() && fault.is_some() {
        return Err(SourceFault);
    }
    Ok((count, reply))
}

/// Looks at the frames that wait, and reads until one answers.
pub(crate) fn await_reply<R: Read>(
    query: &Frame,
    span: Span,
    waiting: &mut Waiting,
    stream: &mut FrameReader,
    reader: &mut Counted<R>,
) -> Result<Reply, SourceFault>
    ensures { IfOk result (λ reply. HearsReply query.now span reply waiting.old waiting.new stream.old stream.new
        (R.remaining (inner_of reader.old)) (R.remaining (inner_of reader.new))) }
{
    if let Some(reply) = waiting.take_reply(query, span) {
        return Ok(reply);
    }
    let mut read = 0;
    'pieces: while read < MOST_READ {
        let most = PIECE.min(MOST_READ - read);
        let (count, reply) = read_on(query, span, waiting, stream, most, reader)?;
        if let Some(reply) = reply {
            return Ok(reply);
        }
        read += count;
    }
    Err(SourceFault)
}
