//! A source over a line.
ghost use Rattle.std.specs.Prelude.{◌≡◌, ◌+◌, ◌%◌, ◌≤◌, Option, Some, None, [], IfOk, IfSome, OnOk, length};
ghost use Rattle.std.specs.Io.KnownBytes.{Appends};
ghost use Rattle.mb_mbap.specs.Counted.{failures_after, inner_of};
ghost use Rattle.mb_mbap.specs.Stream.{spelled};
ghost use Rattle.line_source.specs.LineSources.{HearsReply, failed_of, held_by, next_of, next_query, reader_of, reply_of, span_of, unit_of, waiting_of, writer_of};
ghost use Rattle.sunspec.specs.Sources.{CountsFailures, Image, IsRead};

use crate::exchange::{exchange, query_for};
use crate::waiting::Waiting;
use mb_mbap::{Counted, FrameReader};
use mb_pdu::{Registers, Span};
use std::alloc::Global;
use std::io::{Read, Write};
use sunspec::{RegisterSource, SourceFault};

/// A device's holding registers over a line. Each read is one query of function 03, and the first
/// frame of the stream that answers it decides. Frames that don't answer are skipped, and those behind
/// the answer wait for the next read, so that answers don't depend on how the stream was cut. After a
/// fault bytes may be lost, so that what goes on takes a new connection and a new source.
#[derive(Drop)]
pub struct LineSource<R, W> {
    reader: Counted<R>,
    writer: Counted<W>,
    stream: FrameReader,
    waiting: Waiting,
    unit_id: u8,
    next: u16,
    failures: u64,
}

impl<R, W> LineSource<R, W> {
    /// A source at the start of a stream. Its first query has transaction 0.
    pub fn new(
        alloc: Global,
        unit_id: u8,
        reader: Counted<R>,
        writer: Counted<W>,
    ) -> LineSource<R, W>
        ensures reader { reader_of result ≡ reader }
        ensures writer { writer_of result ≡ writer }
        ensures held { held_by result ≡ Some [] }
        ensures waiting { waiting_of result ≡ [] }
        ensures unit { unit_of result ≡ unit_id }
        ensures next { next_of result ≡ 0 }
        ensures failures { failed_of result ≡ 0 }
    {
        LineSource {
            reader,
            writer,
            stream: FrameReader::new(alloc),
            waiting: Waiting::none(alloc),
            unit_id,
            next: 0,
            failures: 0,
        }
    }

    /// The reader and the writer.
    pub fn into_parts(self) -> (Counted<R>, Counted<W>)
        ensures reader { result.0 ≡ reader_of self }
        ensures writer { result.1 ≡ writer_of self }
    {
        (self.reader, self.writer)
    }
}

impl<R: Read, W: Write> RegisterSource for LineSource<R, W> {
    ghost image = { λ _. None };

    ghost failed = { λ source. failed_of source };

    fn read(&mut self, start: u16, quantity: u16) -> Result<Option<Registers>, SourceFault>
        requires some { 1 ≤ quantity }
        requires few { quantity ≤ 125 }
        ensures all { IfOk result (λ found. IfSome found (λ words. length words ≡ quantity)) }
        ensures known { (known : Image) → None ≡ Option.Some known
            → IfOk result (λ found. IsRead known start quantity found) }
        ensures counted { CountsFailures (failed_of self.old) (failed_of self.new) result }
        ensures next { next_of self.new ≡ (next_of self.old + 1) % 65536 }
        ensures unit { unit_of self.new ≡ unit_of self.old }
        ensures failures { failed_of self.new ≡ failures_after (failed_of self.old) result }
        ensures asked { OnOk result (Appends (W.contents (inner_of (writer_of self.old))) (W.contents (inner_of (writer_of self.new)))
            (spelled (next_query self.old (span_of start quantity)))) }
        ensures answered { IfOk result (λ found. HearsReply (next_query self.old (span_of start quantity)) (span_of start quantity) (reply_of found)
            (waiting_of self.old) (waiting_of self.new) (held_by self.old) (held_by self.new)
            (R.remaining (inner_of (reader_of self.old))) (R.remaining (inner_of (reader_of self.new)))) }
    {
        let span = Span { start, quantity };
        let query = query_for(self.next, self.unit_id, span);
        self.next = self.next.wrapping_add(1);
        match exchange(
            &query,
            span,
            &mut self.waiting,
            &mut self.stream,
            &mut self.reader,
            &mut self.writer,
        ) {
            Ok(found) => Ok(found),
            Err(fault) => {
                self.failures = self.failures.saturating_add(1);
                Err(fault)
            }
        }
    }

    fn failures(&self) -> u64 {
        self.failures
    }
}
