//! A query is written, and its reply awaited.
ghost use Rattle.std.specs.Prelude.{◌≡◌, ◌≤◌, IfOk, IfSome, OnOk, length};
ghost use Rattle.std.specs.Io.KnownBytes.{Appends};
ghost use Rattle.mb_mbap.specs.Counted.{inner_of};
ghost use Rattle.mb_mbap.specs.Stream.{spelled};
ghost use Rattle.mb_pdu.specs.Replies.{spells_reply};
ghost use Rattle.mb_pdu.specs.declared.request.Request.TheVariants.{ReadHolding};
ghost use Rattle.line_source.specs.LineSources.{HearsReply, query_of, reply_of};

use crate::hearing::await_reply;
use crate::waiting::Waiting;
use line_io::write_frame;
use mb_mbap::{Counted, Frame, FrameReader};
use mb_pdu::{Registers, Reply, Request, Span};
use std::io::{Read, Write};
use sunspec::SourceFault;

/// A device answers so that one of the registers isn't there (Modbus Application Protocol V1.1b3,
/// section 7: illegal data address).
const NOT_THERE: u8 = 2;

/// The query for registers.
pub(crate) fn query_for(transaction: u16, unit_id: u8, span: Span) -> Frame
    requires some { 1 ≤ span.quantity }
    requires few { span.quantity ≤ 125 }
    ensures { result ≡ query_of transaction unit_id span }
{
    Frame {
        transaction,
        unit_id,
        unit: Request::ReadHolding(span).encode(),
    }
}

/// What a reply says of the registers that were asked for.
fn found_in(reply: Reply) -> Result<Option<Registers>, SourceFault>
    ensures { IfOk result (λ found. reply ≡ reply_of found) }
{
    match reply {
        Reply::Registers(words) => Ok(Some(words)),
        Reply::Excepted(code) if code == NOT_THERE => Ok(None),
        _ => Err(SourceFault),
    }
}

/// Asks for registers, and tells what the first frame that answers says of them.
pub(crate) fn exchange<R: Read, W: Write>(
    query: &Frame,
    span: Span,
    waiting: &mut Waiting,
    stream: &mut FrameReader,
    reader: &mut Counted<R>,
    writer: &mut Counted<W>,
) -> Result<Option<Registers>, SourceFault>
    ensures asked { OnOk result (Appends (W.contents (inner_of writer.old)) (W.contents (inner_of writer.new)) (spelled query.now)) }
    ensures answered { IfOk result (λ found. HearsReply query.now span (reply_of found) waiting.old waiting.new stream.old stream.new
        (R.remaining (inner_of reader.old)) (R.remaining (inner_of reader.new))) }
{
    write_frame(writer, query, SourceFault)?;
    let reply = await_reply(query, span, waiting, stream, reader)?;
    found_in(reply)
}
