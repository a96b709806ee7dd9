//! A round over a reader and a writer.
ghost use Rattle.std.specs.Prelude.{◌≡◌, ◌≤◌, ◌<◌, ◌+◌, [], ℕ, All, List, IfErr, IfOk, IsSome, MatchResult, None, Some, OnOk, length};
ghost use Rattle.mb_mbap.specs.Counted.{HasRisen, ends_of, failures_of, inner_of};
ghost use Rattle.mb_mbap.specs.declared.fault.FrameFault.{FrameFault};
ghost use Rattle.mb_mbap.specs.declared.frame.Frame.{Frame};
ghost use Rattle.office_core.specs.History.{History};
ghost use Rattle.office_core.specs.Offices.{AccountsFor, keeper_of};
ghost use Rattle.office_net.specs.Faults.{HasCause, IsCaused, LineFailed, NoneFailed};
ghost use Rattle.office_core.specs.Following.{Follows, MayLeave};
ghost use Rattle.office_net.specs.Jobs.{AreJobs, CanBeDone};
ghost use Rattle.office_net.specs.Moves.{Start};
ghost use Rattle.office_net.specs.Rounds.{Breaks, BreaksIn, Cuts, Fed, Handles, IsCut, IsWhole, Polls, Stops, Takes};
ghost use Rattle.office_net.specs.Stages.{IsAfter, IsDone, IsWaiting, taken_of};

use crate::fault::PollFault;
use crate::machine::Poll;
use crate::planning::jobs_of;
use crate::round::Round;
use line_io::{read_some, write_frame};
use mb_mbap::{Counted, Frame, FrameFault, FrameReader};
use office_core::Office;
use office_core::laws::readable_points;
use poll_book::Keeper;
use poll_match::Conn;
use std::alloc::Global;
use std::io::{Read, Write};

/// So many bytes are read in a round at most, and of a line in a slot of a run, and of a session of the simulator.
pub const MOST_READ: usize = 16_777_216;

/// So many bytes are read at once at most.
const PIECE: usize = 4096;

/// Writes each query that may be sent.
fn send<K: Keeper, W: Write>(
    poll: &mut Poll,
    office: &mut Office<K>,
    writer: &mut Counted<W>,
) -> Result<(), PollFault>
    ensures goes { K.is_clean (keeper_of office.new) → MatchResult result
        (λ _. Handles office.old poll.old office.new poll.new [] (W.contents (inner_of writer.old)) (W.contents (inner_of writer.new)))
        (λ fault. Breaks office.old poll.old office.new poll.new [] [] (NoneFailed writer.old writer.new) (W.contents (inner_of writer.old)) (W.contents (inner_of writer.new)) fault) }
    ensures accounts { AccountsFor (IsCaused (HasRisen (failures_of writer.old) (failures_of writer.new))) office.old office.new result }
    ensures waits { OnOk result (IsWaiting poll.new) }
    ensures calm { OnOk result (failures_of writer.new ≡ failures_of writer.old) }
    ensures taken { taken_of poll.new ≡ taken_of poll.old }
{
    while let Some(query) = poll.next(office)? {
        write_frame(writer, &query, PollFault::Line)?;
    }
    Ok(())
}

/// Takes frames as they came, and writes each query that may be sent after each.
fn take_frames<K: Keeper, W: Write>(
    poll: &mut Poll,
    office: &mut Office<K>,
    frames: &[Frame],
    writer: &mut Counted<W>,
) -> Result<(), PollFault>
    requires few { taken_of poll.old + length frames.now ≤ 4294967295 }
    requires waits { IsWaiting poll.old }
    ensures goes { K.is_clean (keeper_of office.new) → MatchResult result
        (λ _. Handles office.old poll.old office.new poll.new frames.now (W.contents (inner_of writer.old)) (W.contents (inner_of writer.new)))
        (λ fault. BreaksIn (λ came coming. Breaks office.old poll.old office.new poll.new came coming (NoneFailed writer.old writer.new)
        (W.contents (inner_of writer.old)) (W.contents (inner_of writer.new)) fault) frames.now) }
    ensures accounts { AccountsFor (IsCaused (HasRisen (failures_of writer.old) (failures_of writer.new))) office.old office.new result }
    ensures waits { OnOk result (IsWaiting poll.new) }
    ensures calm { OnOk result (failures_of writer.new ≡ failures_of writer.old) }
    ensures taken { OnOk result (taken_of poll.new ≡ taken_of poll.old + length frames.now) }
{
    for frame in frames {
        poll.take(office, frame)?;
        send(poll, office, writer)?;
    }
    Ok(())
}

/// A stream that can't be read on is a fault, unless the round is done.
fn judge_stream(fault: Option<FrameFault>, poll: &Poll) -> Result<(), PollFault>
    ensures { MatchResult result (λ _. IsSome fault → IsDone poll.now) (λ e. (bad : FrameFault) × (fault ≡ Some bad) × (e ≡ PollFault.Frames bad)) }
{
    match fault {
        Some(fault) if !poll.is_done() => Err(PollFault::Frames(fault)),
        _ => Ok(()),
    }
}

/// Reads a piece, and takes the frames that it completes. So many bytes were read before, and so
/// many are it now.
fn read_on<K: Keeper, R: Read, W: Write>(
    poll: &mut Poll,
    office: &mut Office<K>,
    stream: &mut FrameReader,
    read: usize,
    reader: &mut Counted<R>,
    writer: &mut Counted<W>,
) -> Result<usize, PollFault>
    requires limit { read ≤ MOST_READ }
    requires fed { (bytes : List ℕ) × (frames : List Frame) × Fed stream.old poll.old read bytes frames }
    requires sound { IsSome stream.old }
    requires waits { IsWaiting poll.old }
    ensures takes { (bytes : List ℕ) (frames : List Frame) → Fed stream.old poll.old read bytes frames
        → IfOk result (λ now. Takes (λ came. K.is_clean (keeper_of office.new) → Handles office.old poll.old office.new poll.new came (W.contents (inner_of writer.old)) (W.contents (inner_of writer.new)))
        poll.new stream.new now bytes frames (R.remaining (inner_of reader.old)) (R.remaining (inner_of reader.new))) }
    ensures cuts { K.is_clean (keeper_of office.new) → (bytes : List ℕ) (frames : List Frame) → Fed stream.old poll.old read bytes frames
        → IfErr result (λ fault. Cuts (λ came coming. Breaks office.old poll.old office.new poll.new came coming (NoneFailed writer.old writer.new)
        (W.contents (inner_of writer.old)) (W.contents (inner_of writer.new)) fault)
        bytes frames (R.remaining (inner_of reader.old)) (R.remaining (inner_of reader.new)) fault) }
    ensures accounts { AccountsFor (HasCause (LineFailed reader.old reader.new writer.old writer.new)) office.old office.new result }
    ensures more { IfOk result (λ now. (read < now) × (now ≤ MOST_READ)) }
    ensures sound { OnOk result (stream.new ≡ None → IsDone poll.new) }
    ensures waits { OnOk result (IsWaiting poll.new) }
    ensures calm { OnOk result (failures_of writer.new ≡ failures_of writer.old) }
    ensures reader { OnOk result ((failures_of reader.new ≡ failures_of reader.old) × (ends_of reader.new ≡ ends_of reader.old)) }
{
    if read >= MOST_READ {
        return Err(PollFault::Noise);
    }
    let mut piece = [0u8; PIECE];
    let most = PIECE.min(MOST_READ - read);
    let count = read_some(reader, &mut piece, most, PollFault::Line)?;
    let fed = stream.feed(&piece[..count])?;
    take_frames(poll, office, &fed.frames, writer)?;
    judge_stream(fed.fault, poll)?;
    Ok(read + count)
}

/// Does the jobs of a round that begins, and takes every frame that comes until all queries are settled.
fn poll_jobs<K: Keeper, R: Read, W: Write>(
    alloc: Global,
    office: &mut Office<K>,
    mut poll: Poll,
    reader: &mut Counted<R>,
    writer: &mut Counted<W>,
) -> Result<Round, PollFault>
    requires { taken_of poll ≡ 0 }
    ensures goes { K.is_clean (keeper_of office.new)
        → (start : Start) → IsAfter start [] poll → Follows office.old start.before
        → AreJobs start.before start.conn start.jobs → All (CanBeDone start.before start.conn) start.jobs → MatchResult result
        (λ round. IsWhole (Follows office.new) (MayLeave office.old) (MayLeave office.new) start
        (R.remaining (inner_of reader.old)) (R.remaining (inner_of reader.new)) (W.contents (inner_of writer.old)) (W.contents (inner_of writer.new)) round)
        (λ fault. IsCut (Follows office.new) (MayLeave office.old) (MayLeave office.new) start
        (R.remaining (inner_of reader.old)) (R.remaining (inner_of reader.new)) (NoneFailed writer.old writer.new)
        (W.contents (inner_of writer.old)) (W.contents (inner_of writer.new)) fault) }
    ensures accounts { AccountsFor (HasCause (LineFailed reader.old reader.new writer.old writer.new)) office.old office.new result }
{
    let mut stream = FrameReader::new(alloc);
    let mut read = 0;
    send(&mut poll, office, writer)?;
    'pieces: while !poll.is_done() {
        read = read_on(&mut poll, office, &mut stream, read, reader, writer)?;
    }
    Ok(poll.round())
}

/// A poll round of a slot over a connection, which is open or the fault is `Closed`. It goes through
/// the devices of the connection's line in the site's order. Of each it sends the oldest order that
/// waits, and then asks the planned reads that cover a point without a reading in the slot, each
/// judged at its turn. At most as many queries are outstanding as the site says of the line
/// (`Line::outstanding`), and the next is written as soon as fewer are. Every frame that comes is
/// taken, until all queries are settled; what is read past the last whole frame is dropped, so each
/// round takes a new connection.
pub fn poll_round<K: Keeper, R: Read, W: Write>(
    alloc: Global,
    office: &mut Office<K>,
    conn: Conn,
    slot: u32,
    reader: &mut Counted<R>,
    writer: &mut Counted<W>,
) -> Result<Round, PollFault>
    ensures goes { K.is_clean (keeper_of office.new) → (before : History) → Follows office.old before → MatchResult result
        (λ round. Polls (Follows office.new) (MayLeave office.old) (MayLeave office.new) conn slot before
        (R.remaining (inner_of reader.old)) (R.remaining (inner_of reader.new)) (W.contents (inner_of writer.old)) (W.contents (inner_of writer.new)) round)
        (λ fault. Stops (Follows office.new) (MayLeave office.old) (MayLeave office.new) conn slot before
        (R.remaining (inner_of reader.old)) (R.remaining (inner_of reader.new)) (NoneFailed writer.old writer.new)
        (W.contents (inner_of writer.old)) (W.contents (inner_of writer.new)) fault) }
    ensures accounts { AccountsFor (HasCause (LineFailed reader.old reader.new writer.old writer.new)) office.old office.new result }
{
    readable_points();
    let Some(line) = office.line_of(conn) else {
        return Err(PollFault::Closed);
    };
    let site = office.site();
    let jobs = jobs_of(alloc, site, office.points(), line)?;
    let poll = Poll::new(conn, slot, site.outstanding(line), jobs);
    poll_jobs(alloc, office, poll, reader, writer)
}
