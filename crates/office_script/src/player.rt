//! Playing a script.
ghost use Rattle.std.specs.Prelude.{◌≡◌, ◌≢◌, ℕ, ◌<◌, ◌≤◌, ◌+◌, ◌⊎◌, ◌∷◌, ◌++◌, [], List, OnOk, IfErr, IfOk, IfSome, IsErrOf, length};
ghost use Rattle.std.specs.Io.KnownBytes.{Appends};
ghost use Rattle.mb_mbap.specs.Counted.{inner_of, failures_of, HasRisen};
ghost use Rattle.point_list.specs.Sites.{IsSound};
ghost use Rattle.office_core.specs.History.{History, Restart, tables};
ghost use Rattle.office_script.specs.Printing.{report_of};
ghost use Rattle.office_script.specs.Scripts.{Course, Step, from_line, outcome_of, output_of, step_of, steps_of};
ghost use Rattle.office_script.specs.Playing.{Follows, Leaves, Owes, TookFront, WroteFront};

use crate::acting::act;
use crate::command::event;
use crate::cutting::first_line;
use crate::input::{InputFault, SCRIPT_LIMIT, read_script};
use crate::opening::{Opening, open_script, skips};
use crate::printing::push_fault;
use crate::report::push_report;
use mb_mbap::Counted;
use office_core::Office;
use office_core::laws::fitting_tables;
use point_list::Site;
use poll_book::MemKeeper;
use std::alloc::{AllocError, Global};
use std::error::Error;
use std::fmt;
use std::io::{Read, Write};

/// How a script ended.
#[derive(Clone, Copy, Debug, PartialEq, Eq)]
pub enum Replayed {
    /// With the report.
    Done,
    /// At the line of this number, which is of another form.
    FaultLine(u32),
}

/// Why a script wasn't played to its end.
#[derive(Clone, Copy, Debug, PartialEq, Eq)]
pub enum ReplayFault {
    /// The reader failed, or the script has more than 67,108,864 bytes. Nothing was written.
    Read,
    /// The writer failed.
    Write,
    /// Memory was refused. What was written is a beginning of the script's output.
    Memory,
}

impl fmt::Display for Replayed {
    ghost use Rattle.std.specs.Prelude.{Some};
    ghost use Rattle.office_script.specs.Ends.{ending_text};

    ghost output = { λ ending. Some (ending_text ending) };

    fn fmt<W: fmt::Write>(&self, f: &mut fmt::Formatter<W>) -> fmt::Result {
        match *self {
            Replayed::Done => f.write_str("done"),
            Replayed::FaultLine(number) => write!(f, "fault line {number}"),
        }
    }
}

impl fmt::Display for ReplayFault {
    ghost use Rattle.std.specs.Prelude.{Some};
    ghost use Rattle.office_script.specs.Ends.{fault_text};

    ghost output = { λ fault. Some (fault_text fault) };

    fn fmt<W: fmt::Write>(&self, f: &mut fmt::Formatter<W>) -> fmt::Result {
        f.write_str(match self {
            ReplayFault::Read | ReplayFault::Write => "file",
            ReplayFault::Memory => "memory",
        })
    }
}

impl Error for ReplayFault {}

impl From<AllocError> for ReplayFault {
    ghost use Rattle.office_script.specs.declared.player.ReplayFault.TheVariants.{Memory};

    ghost from_gives = { λ _ fault. fault ≡ Memory };

    fn from(_: AllocError) -> ReplayFault {
        ReplayFault::Memory
    }
}

/// Whether a script goes on after a line.
#[derive(Clone, Copy)]
pub(crate) enum Played {
    On,
    Faulty,
}

/// From so many bytes on the output is written.
const PIECE: usize = 65536;

/// Plays one line.
fn play_line(
    alloc: Global,
    office: &mut Office<MemKeeper>,
    out: &mut Vec<u8>,
    line: &[u8],
    number: u32,
) -> Result<Played, AllocError>
    ensures { IfOk result (λ played. (done : List ℕ) (rest : List Step) (whole : Course)
        → Owes (Follows office.old) (done ++ out.old.items) number (step_of number line.now ∷ rest) whole
        → Leaves (Follows office.new) (done ++ out.new.items) number rest whole played) }
{
    if skips(line) {
        return Ok(Played::On);
    }
    match event(alloc, line, number)? {
        None => {
            push_fault(out, number)?;
            Ok(Played::Faulty)
        }
        Some(event) => {
            act(alloc, office, out, &event)?;
            Ok(Played::On)
        }
    }
}

/// Puts the report of an office behind what is pending.
fn report(alloc: Global, office: Office<MemKeeper>, out: &mut Vec<u8>) -> Result<(), AllocError>
    requires { (before : History) × Follows office before }
    ensures { OnOk result ((before : History) → Follows office before → out.new.items ≡ out.old.items ++ report_of (tables before)) }
{
    fitting_tables();
    let mut keeper = office.into_keeper();
    push_report(alloc, out, &mut keeper)
}

/// Writes all that is pending.
fn write_pending<W: Write>(writer: &mut Counted<W>, out: &mut Vec<u8>) -> Result<(), ReplayFault>
    ensures all { OnOk result (Appends (W.contents (inner_of writer.old)) (W.contents (inner_of writer.new)) out.old.items) }
    ensures empty { OnOk result (out.new.items ≡ []) }
    ensures calm { OnOk result (failures_of writer.new ≡ failures_of writer.old) }
    ensures write { IsErrOf result ReplayFault.Write → HasRisen (failures_of writer.old) (failures_of writer.new) }
    ensures no_other { IfErr result (λ fault. fault ≡ ReplayFault.Write) }
{
    match writer.write_all(out) {
        Ok(()) => {
            out.clear();
            Ok(())
        }
        Err(_) => Err(ReplayFault::Write),
    }
}

/// Writes what is pending once it fills a piece.
fn write_piece<W: Write>(writer: &mut Counted<W>, out: &mut Vec<u8>) -> Result<(), ReplayFault>
    ensures front { OnOk result (WroteFront (W.contents (inner_of writer.old)) (W.contents (inner_of writer.new)) out.old.items out.new.items) }
    ensures little { OnOk result (length out.new.items < PIECE) }
    ensures calm { OnOk result (failures_of writer.new ≡ failures_of writer.old) }
    ensures write { IsErrOf result ReplayFault.Write → HasRisen (failures_of writer.old) (failures_of writer.new) }
    ensures no_other { IfErr result (λ fault. fault ≡ ReplayFault.Write) }
{
    if out.len() < PIECE {
        return Ok(());
    }
    write_pending(writer, out)
}

/// Writes what is pending and the report of an office, with which a script is done.
fn write_report<W: Write>(
    alloc: Global,
    office: Office<MemKeeper>,
    out: &mut Vec<u8>,
    writer: &mut Counted<W>,
) -> Result<Replayed, ReplayFault>
    requires { (before : History) × Follows office before }
    ensures ending { IfOk result (λ ending. ending ≡ Replayed.Done) }
    ensures output { (before : History) → Follows office before
        → OnOk result (Appends (W.contents (inner_of writer.old)) (W.contents (inner_of writer.new)) (out.old.items ++ report_of (tables before))) }
    ensures nothing_written { IsErrOf result ReplayFault.Memory → writer.new ≡ writer.old }
    ensures write { IsErrOf result ReplayFault.Write → HasRisen (failures_of writer.old) (failures_of writer.new) }
    ensures no_read { IfErr result (λ fault. fault ≢ ReplayFault.Read) }
{
    report(alloc, office, out)?;
    write_pending(writer, out)?;
    Ok(Replayed::Done)
}

/// Plays the lines from line `first` on.
fn play<W: Write>(
    alloc: Global,
    start: Office<MemKeeper>,
    text: &[u8],
    first: u32,
    writer: &mut Counted<W>,
) -> Result<Replayed, ReplayFault>
    requires follows { (before : History) × Follows start before }
    requires short { first + length text.now ≤ SCRIPT_LIMIT + 1 }
    ensures ending { (before : History) → Follows start before → IfOk result (λ ending. ending ≡ (from_line before first (steps_of first text.now)).ending) }
    ensures output { (before : History) → Follows start before
        → OnOk result (Appends (W.contents (inner_of writer.old)) (W.contents (inner_of writer.new)) (from_line before first (steps_of first text.now)).text) }
    ensures memory { (before : History) → Follows start before → IsErrOf result ReplayFault.Memory
        → TookFront (W.contents (inner_of writer.old)) (W.contents (inner_of writer.new)) (from_line before first (steps_of first text.now)).text }
    ensures write { IsErrOf result ReplayFault.Write → HasRisen (failures_of writer.old) (failures_of writer.new) }
    ensures no_read { IfErr result (λ fault. fault ≢ ReplayFault.Read) }
{
    let mut office = start;
    let mut out = Vec::new(alloc);
    let mut rest = text;
    let mut number = first;
    while !rest.is_empty() {
        let (line, more) = first_line(rest);
        match play_line(alloc, &mut office, &mut out, line, number)? {
            Played::On => {}
            Played::Faulty => {
                write_pending(writer, &mut out)?;
                return Ok(Replayed::FaultLine(number));
            }
        }
        rest = more;
        number += 1;
        write_piece(writer, &mut out)?;
    }
    write_report(alloc, office, &mut out, writer)
}

/// An office of a site, before anything happened.
fn new_office(alloc: Global, site: Site) -> Result<Office<MemKeeper>, AllocError>
    requires { IsSound site }
    ensures { IfOk result (λ office. Follows office (Restart site ∷ [])) }
{
    match Office::new(alloc, MemKeeper::new(alloc), site) {
        Ok(office) => Ok(office),
        Err(_) => Err(AllocError),
    }
}

/// Plays a whole script.
fn perform<W: Write>(
    alloc: Global,
    script: &[u8],
    writer: &mut Counted<W>,
) -> Result<Replayed, ReplayFault>
    requires { length script.now ≤ SCRIPT_LIMIT }
    ensures ending { IfOk result (λ ending. ending ≡ outcome_of script.now) }
    ensures output { OnOk result (Appends (W.contents (inner_of writer.old)) (W.contents (inner_of writer.new)) (output_of script.now)) }
    ensures memory { IsErrOf result ReplayFault.Memory → TookFront (W.contents (inner_of writer.old)) (W.contents (inner_of writer.new)) (output_of script.now) }
    ensures write { IsErrOf result ReplayFault.Write → HasRisen (failures_of writer.old) (failures_of writer.new) }
    ensures no_read { IfErr result (λ fault. fault ≢ ReplayFault.Read) }
{
    match open_script(alloc, script)? {
        Opening::Ready { site, rest, number } => {
            let office = new_office(alloc, site)?;
            play(alloc, office, rest, number, writer)
        }
        Opening::Broken { number } => {
            let mut out = Vec::new(alloc);
            push_fault(&mut out, number)?;
            write_pending(writer, &mut out)?;
            Ok(Replayed::FaultLine(number))
        }
    }
}

/// Plays the script that the reader gives to a new office, and writes what it prints: the answers
/// line by line, and the report at the end. A line of another form ends the script with its number.
/// The whole script is read first.
pub fn replay<R: Read, W: Write>(
    alloc: Global,
    reader: &mut Counted<R>,
    writer: &mut Counted<W>,
) -> Result<Replayed, ReplayFault>
    ensures ending { IfOk result (λ ending. IfSome (R.remaining (inner_of reader.old)) (λ input. ending ≡ outcome_of input)) }
    ensures output { OnOk result (IfSome (R.remaining (inner_of reader.old)) (λ input.
        Appends (W.contents (inner_of writer.old)) (W.contents (inner_of writer.new)) (output_of input))) }
    ensures bound { OnOk result (IfSome (R.remaining (inner_of reader.old)) (λ input. length input ≤ SCRIPT_LIMIT)) }
    ensures read { IsErrOf result ReplayFault.Read → HasRisen (failures_of reader.old) (failures_of reader.new)
        ⊎ IfSome (R.remaining (inner_of reader.old)) (λ input. SCRIPT_LIMIT < length input) }
    ensures nothing_written { IsErrOf result ReplayFault.Read → writer.new ≡ writer.old }
    ensures memory { IsErrOf result ReplayFault.Memory → IfSome (R.remaining (inner_of reader.old)) (λ input.
        TookFront (W.contents (inner_of writer.old)) (W.contents (inner_of writer.new)) (output_of input)) }
    ensures write { IsErrOf result ReplayFault.Write → HasRisen (failures_of writer.old) (failures_of writer.new) }
{
    match read_script(alloc, reader) {
        Ok(script) => perform(alloc, &script, writer),
        Err(InputFault::Read) => Err(ReplayFault::Read),
        Err(InputFault::Memory) => Err(ReplayFault::Memory),
    }
}
