//! One request over a reader, and its answer over a writer.
ghost use Rattle.std.specs.Prelude.{◌≡◌, ◌<◌, IfErr, IfOk, IsErr, MatchResult, None, OnOk, Some, string_bytes};
ghost use Rattle.std.specs.Io.KnownBytes.{Appends};
ghost use Rattle.mb_mbap.specs.Counted.{HasRisen, ends_of, failures_of, inner_of};
ghost use Rattle.office_core.specs.Offices.{AccountsFor, AsItIs, Counts, keeper_of};
ghost use Rattle.office_http.specs.declared.heard.Heard.{Heard};
ghost use Rattle.office_http.specs.Heard.{meaning_of};
ghost use Rattle.office_core.specs.Following.{Follows, MayLeave, Stays};
ghost use Rattle.office_net.specs.Serving.{Answers, Breaks, Hears, IsCausedBy, Serves, Unanswered, written_for};

use crate::answering::respond;
use line_io::{read_piece, write};
use mb_mbap::Counted;
use office_core::Office;
use office_http::{Exchange, Heard, Routes, answer};
use poll_book::{Keeper, StoreFault};
use std::alloc::Global;
use std::io::{Read, Write};
use thiserror::Error;

/// So many bytes are read at once at most.
const PIECE: usize = 4096;

/// A connection was answered, or asked for nothing.
#[derive(Clone, Copy, Debug, PartialEq, Eq)]
pub struct Served;

/// Why a connection wasn't answered.
#[derive(Clone, Copy, Debug, PartialEq, Eq, Error)]
pub enum ServeFault {
    /// The reader failed. Nothing was written, and nothing happened.
    #[error("a request couldn't be read")]
    Read,
    /// The writer failed. What was asked for is done.
    #[error("an answer couldn't be written")]
    Write,
}

/// Reads until it is known what is asked for. `None` where memory was refused.
fn hear<R: Read>(alloc: Global, reader: &mut Counted<R>) -> Result<Option<Heard>, ServeFault>
    ensures hears { IfOk result (Hears (HasRisen (ends_of reader.old) (ends_of reader.new)) (R.remaining (inner_of reader.old)) (R.remaining (inner_of reader.new))) }
    ensures failed { IfErr result (λ fault. (fault ≡ ServeFault.Read) × HasRisen (failures_of reader.old) (failures_of reader.new)) }
{
    let mut exchange = Exchange::new(alloc, Routes::Basic);
    let mut piece = [0u8; PIECE];
    'pieces: loop {
        let count = read_piece(reader, &mut piece, ServeFault::Read)?;
        if count == 0 {
            return Ok(Some(exchange.end()));
        }
        match exchange.take(&piece[..count]) {
            Ok(None) => {}
            Ok(Some(asked)) => return Ok(Some(asked)),
            Err(_) => return Ok(None),
        }
    }
}

/// Does what was asked for, if it is known.
fn reply<K: Keeper>(
    alloc: Global,
    office: &mut Office<K>,
    heard: &Option<Heard>,
) -> Result<String, StoreFault>
    ensures known { K.is_clean (keeper_of office.new) → (asked : Heard) → heard.now ≡ Some asked → MatchResult result
        (λ text. Answers (Follows office.old) (Follows office.new) (MayLeave office.old) (MayLeave office.new) (meaning_of asked) (string_bytes text))
        (λ _. Unanswered (Follows office.old) (Follows office.new) (MayLeave office.old) (MayLeave office.new) (meaning_of asked)) }
    ensures accounts { AccountsFor AsItIs office.old office.new result }
    ensures unknown { K.is_clean (keeper_of office.new) → heard.now ≡ None → IsErr result × Stays (Follows office.old) (Follows office.new) (MayLeave office.old) (MayLeave office.new) }
{
    match heard {
        Some(asked) => respond(alloc, office, asked),
        None => Err(StoreFault::Memory),
    }
}

/// Writes an answer, or that there is none.
fn write_reply<W: Write>(
    writer: &mut Counted<W>,
    reply: &Result<String, StoreFault>,
) -> Result<(), ServeFault>
    ensures written { OnOk result (Appends (W.contents (inner_of writer.old)) (W.contents (inner_of writer.new)) (written_for reply.now)) }
    ensures failed { IfErr result (λ fault. (fault ≡ ServeFault.Write) × HasRisen (failures_of writer.old) (failures_of writer.new)) }
{
    match reply {
        Ok(text) => write(writer, text.as_bytes(), ServeFault::Write),
        Err(_) => write(writer, answer::unavailable(), ServeFault::Write),
    }
}

/// Reads one request of the basic routes, does what it asks for, and writes the answer: 503 where the
/// store or memory refused, and nothing where the reader ends at once. No more is read than until it is
/// known what is asked for, at most 274,431 bytes.
pub fn serve_one<K: Keeper, R: Read, W: Write>(
    alloc: Global,
    office: &mut Office<K>,
    reader: &mut Counted<R>,
    writer: &mut Counted<W>,
) -> Result<Served, ServeFault>
    ensures goes { K.is_clean (keeper_of office.new) → MatchResult result
        (λ _. Serves (Follows office.old) (Follows office.new) (MayLeave office.old) (MayLeave office.new) (HasRisen (ends_of reader.old) (ends_of reader.new))
        (R.remaining (inner_of reader.old)) (R.remaining (inner_of reader.new)) (W.contents (inner_of writer.old)) (W.contents (inner_of writer.new)))
        (λ fault. fault ≡ ServeFault.Write → Breaks (Follows office.old) (Follows office.new) (MayLeave office.old) (MayLeave office.new)
        (HasRisen (ends_of reader.old) (ends_of reader.new)) (R.remaining (inner_of reader.old)) (R.remaining (inner_of reader.new))) }
    ensures unread { IfErr result (λ fault. fault ≡ ServeFault.Read → (office.new ≡ office.old) × (writer.new ≡ writer.old)) }
    ensures cause { IfErr result (IsCausedBy (HasRisen (failures_of reader.old) (failures_of reader.new)) (HasRisen (failures_of writer.old) (failures_of writer.new))) }
    ensures counts { Counts office.old office.new }
{
    let heard = hear(alloc, reader)?;
    let reply = reply(alloc, office, &heard);
    write_reply(writer, &reply)?;
    Ok(Served)
}
