//! What is told of the run and its lines in OpenMetrics.
ghost use Rattle.std.specs.Prelude.{OnOk, string_bytes};
ghost use Rattle.office_pages.specs.Pieces.{Grows};

use crate::label_value::escape_label;
use crate::seen::{LineSeen, Tally};
use std::alloc::AllocError;

/// What is counted of each line.
#[derive(Clone, Copy)]
enum Count {
    Rounds,
    Cut,
    Queries,
    Readings,
    Exceptions,
    Refused,
}

impl Count {
    const ALL: [Count; 6] = [
        Count::Rounds,
        Count::Cut,
        Count::Queries,
        Count::Readings,
        Count::Exceptions,
        Count::Refused,
    ];

    /// The name of its family.
    fn family(self) -> &'static str {
        match self {
            Count::Rounds => "kimjolde_line_rounds",
            Count::Cut => "kimjolde_line_rounds_cut",
            Count::Queries => "kimjolde_line_queries",
            Count::Readings => "kimjolde_line_readings",
            Count::Exceptions => "kimjolde_line_exceptions",
            Count::Refused => "kimjolde_line_refused_frames",
        }
    }

    /// What it counts, in words.
    fn help(self) -> &'static str {
        match self {
            Count::Rounds =>
                "Rounds that ended uncut, with or without the readings of a silent device.",
            Count::Cut => "Rounds that were cut.",
            Count::Queries => "Queries that were sent.",
            Count::Readings => "Readings that were recorded.",
            Count::Exceptions => "Queries that were answered by an exception.",
            Count::Refused => "Frames that were refused, since they answered no query.",
        }
    }

    fn of(self, tally: &Tally) -> u64 {
        match self {
            Count::Rounds => tally.rounds,
            Count::Cut => tally.cut,
            Count::Queries => tally.queries,
            Count::Readings => tally.readings,
            Count::Exceptions => tally.exceptions,
            Count::Refused => tally.refused,
        }
    }
}

/// Adds the front of a sample of a line: its name and its label.
fn push_named(out: &mut String, name: &str, line: &LineSeen<'_>) -> Result<(), AllocError>
    ensures { OnOk result (Grows (string_bytes out.old) (string_bytes out.new)) }
{
    out.push_str(name)?;
    out.push_str("{line=\"")?;
    escape_label(out, line.name)?;
    out.push_str("\"} ")
}

/// Adds whether lines are up.
fn push_up(out: &mut String, lines: &[LineSeen<'_>]) -> Result<(), AllocError>
    ensures { OnOk result (Grows (string_bytes out.old) (string_bytes out.new)) }
{
    out.push_str(
        "# TYPE kimjolde_line_up gauge\n# HELP kimjolde_line_up Whether the line is up.\n",
    )?;
    for line in lines {
        push_named(out, "kimjolde_line_up", line)?;
        out.push_str(if line.is_up { "1\n" } else { "0\n" })?;
    }
    Ok(())
}

/// Adds what is counted of a line.
fn push_counted(out: &mut String, count: Count, line: &LineSeen<'_>) -> Result<(), AllocError>
    ensures { OnOk result (Grows (string_bytes out.old) (string_bytes out.new)) }
{
    let number = count.of(&line.tally);
    out.push_str(count.family())?;
    push_named(out, "_total", line)?;
    writeln!(out, "{number}")
}

/// Adds the family of a count.
fn push_count(out: &mut String, count: Count, lines: &[LineSeen<'_>]) -> Result<(), AllocError>
    ensures { OnOk result (Grows (string_bytes out.old) (string_bytes out.new)) }
{
    let (family, help) = (count.family(), count.help());
    writeln!(out, "# TYPE {family} counter\n# HELP {family} {help}")?;
    for line in lines {
        push_counted(out, count, line)?;
    }
    Ok(())
}

/// Adds how long a line's last round that ended uncut took, where one did.
fn push_last_round(out: &mut String, line: &LineSeen<'_>) -> Result<(), AllocError>
    ensures { OnOk result (Grows (string_bytes out.old) (string_bytes out.new)) }
{
    let Some(millis) = line.tally.last_round else {
        return Ok(());
    };
    let (seconds, rest) = (millis / 1_000, millis % 1_000);
    push_named(out, "kimjolde_line_last_round_seconds", line)?;
    writeln!(out, "{seconds}.{rest:03}")
}

/// Adds how long lines' last rounds took.
fn push_last_rounds(out: &mut String, lines: &[LineSeen<'_>]) -> Result<(), AllocError>
    ensures { OnOk result (Grows (string_bytes out.old) (string_bytes out.new)) }
{
    out.push_str("# TYPE kimjolde_line_last_round_seconds gauge\n")?;
    out.push_str("# UNIT kimjolde_line_last_round_seconds seconds\n")?;
    out.push_str(
        "# HELP kimjolde_line_last_round_seconds How long the last round that ended uncut took.\n",
    )?;
    for line in lines {
        push_last_round(out, line)?;
    }
    Ok(())
}

/// Adds how often the store refused.
fn push_store_faults(out: &mut String, store_faults: u64) -> Result<(), AllocError>
    ensures { OnOk result (Grows (string_bytes out.old) (string_bytes out.new)) }
{
    out.push_str("# TYPE kimjolde_store_faults counter\n")?;
    out.push_str("# HELP kimjolde_store_faults Calls that the store refused.\n")?;
    writeln!(out, "kimjolde_store_faults_total {store_faults}")
}

/// Adds all families of the run and of its lines.
pub fn push_office(
    out: &mut String,
    lines: &[LineSeen<'_>],
    store_faults: u64,
) -> Result<(), AllocError>
    ensures { OnOk result (Grows (string_bytes out.old) (string_bytes out.new)) }
{
    push_up(out, lines)?;
    for count in Count::ALL {
        push_count(out, count, lines)?;
    }
    push_last_rounds(out, lines)?;
    push_store_faults(out, store_faults)
}
