//! The command line, with what help says of each command.
ghost use Rattle.std.specs.Prelude.{◌≡◌, IfOk, false};
ghost use Rattle.clap.specs.declared.builder.command.Command.TheViews.{out-Command};
ghost use Rattle.office_words.specs.Line.{bare_line, answer_lines, device_lines, discover_line, help_line, list_lines, without_help, line_of, load_line, migrate_line, named, office_line, order_line, plan_line, poll_line, replay_line, report_line, run_line, serve_line, sim_line, store_lines, void_line, with_version, with_commands, with_lines};

use crate::builders::{
    with_caller, with_clock, with_door, with_key, with_office, with_option, with_place, with_site,
    with_spare, with_store, with_subcommand, with_timeout,
};
use clap::Command;
use std::alloc::{AllocError, Global};

/// What `--version` tells.
const VERSION: &str = "0.1.0";

/// What help says of `--timeout`.
const STORE_ALONE: &str =
    "How long to wait for the store while another process has it, 1 to 3600 seconds, as 10";

const POLLING: &str =
    "How long to wait for the store, for a connection and for each answer, 1 to 3600 seconds, as 10; the round ends after twelve times as long";

const SERVING: &str =
    "How long to wait for the store, and for a caller to read or to write, 1 to 3600 seconds, as 10";

const RUNNING: &str =
    "How long to wait for the store, for a connection and for each answer, 1 to 3600 seconds and less than a slot, as 5";

const DISCOVERING: &str =
    "How long to wait for a connection and for each answer, 1 to 3600 seconds, as 10; the search ends after twelve times as long";

const STATUSES: &str = "Faults go to standard error. Statuses:
  0  done, a printed refusal too
  2  `command`, `bad site`, `bad list`, `unknown` (a point, device or line), or a faulty line
  1  any other fault";

/// A command of this name, with its summary and the same with an example.
#[tactic(auto, unfolding(crate::specs::Line::line_of, crate::specs::Line::named))]
fn command<'a>(alloc: Global, name: &'a str, summary: &'a str, example: &'a str) -> Command<'a>
    ensures line { line_of result ≡ named name.entry.now }
    ensures plain { (out-Command result).has_globals ≡ false }
{
    Command::new(alloc, name)
        .about(summary)
        .long_about(example)
        .after_help(STATUSES)
}

#[tactic(auto, unfolding(crate::specs::Line::replay_line))]
fn replay<'a>(alloc: Global) -> Result<Command<'a>, AllocError>
    ensures line { IfOk result (λ c. line_of c ≡ replay_line) }
    ensures plain { IfOk result (λ c. (out-Command c).has_globals ≡ false) }
{
    let command = command(
        alloc,
        "replay",
        "Plays a script on standard input, and prints its answers and the tables at its end",
        "Plays a script on standard input, and prints its answers and the tables at its end.\n\nExample: office replay < day.txt",
    );
    Ok(command)
}

#[tactic(auto, unfolding(crate::specs::Line::load_line))]
fn load<'a>(alloc: Global) -> Result<Command<'a>, AllocError>
    ensures line { IfOk result (λ c. line_of c ≡ load_line) }
    ensures plain { IfOk result (λ c. (out-Command c).has_globals ≡ false) }
{
    let command = command(
        alloc,
        "load",
        "Loads a point list, all of it or nothing",
        "Loads a point list, all of it or nothing.\n\nExample: office load --store roof.db --site site.toml --caller ann --key l1 points.csv",
    );
    let command = with_office(alloc, command, STORE_ALONE)?;
    let command = with_caller(alloc, command)?;
    let command = with_key(alloc, command)?;
    let command = with_place(
        alloc,
        command,
        "list",
        "LIST",
        "The point list, as points.csv",
    )?;
    Ok(command)
}

#[tactic(auto, unfolding(crate::specs::Line::plan_line))]
fn plan<'a>(alloc: Global) -> Result<Command<'a>, AllocError>
    ensures line { IfOk result (λ c. line_of c ≡ plan_line) }
    ensures plain { IfOk result (λ c. (out-Command c).has_globals ≡ false) }
{
    let command = command(
        alloc,
        "plan",
        "Prints the reads that a point list needs",
        "Prints the reads that a point list needs.\n\nExample: office plan --site site.toml points.csv",
    );
    let command = with_site(alloc, command)?;
    let command = with_place(
        alloc,
        command,
        "list",
        "LIST",
        "The point list, as points.csv",
    )?;
    Ok(command)
}

#[tactic(auto, unfolding(crate::specs::Line::discover_line))]
fn discover<'a>(alloc: Global) -> Result<Command<'a>, AllocError>
    ensures line { IfOk result (λ c. line_of c ≡ discover_line) }
    ensures plain { IfOk result (λ c. (out-Command c).has_globals ≡ false) }
{
    let command = command(
        alloc,
        "discover",
        "Asks a SunSpec device which models it has and where, and prints a line for the site file",
        "Asks a SunSpec device which models it has and where, and prints a line for the site file.\n\nExample: office discover --site site.toml inverter",
    );
    let command = with_site(alloc, command)?;
    let command = with_timeout(alloc, command, DISCOVERING)?;
    let command = with_place(
        alloc,
        command,
        "device",
        "DEVICE",
        "The device, as the site file names it, as inverter",
    )?;
    Ok(command)
}

#[tactic(auto, unfolding(crate::specs::Line::poll_line))]
fn poll<'a>(alloc: Global) -> Result<Command<'a>, AllocError>
    ensures line { IfOk result (λ c. line_of c ≡ poll_line) }
    ensures plain { IfOk result (λ c. (out-Command c).has_globals ≡ false) }
{
    let command = command(
        alloc,
        "poll",
        "Asks the devices of a line for a slot, and records what they answer",
        "Asks the devices of a line for a slot, and records what they answer.\n\nExample: office poll --store roof.db --site site.toml --slot 12 roof",
    );
    let command = with_office(alloc, command, POLLING)?;
    let command = with_option(
        alloc,
        command,
        "slot",
        "SLOT",
        "The slot that readings are for, 0 to 4294967295, as 12",
    )?;
    let command = with_place(
        alloc,
        command,
        "line",
        "LINE",
        "The line, as the site file names it, as roof",
    )?;
    Ok(command)
}

#[tactic(auto, unfolding(crate::specs::Line::order_line))]
fn order<'a>(alloc: Global) -> Result<Command<'a>, AllocError>
    ensures line { IfOk result (λ c. line_of c ≡ order_line) }
    ensures plain { IfOk result (λ c. (out-Command c).has_globals ≡ false) }
{
    let command = command(
        alloc,
        "order",
        "Orders a setting, which waits until a poll sends it",
        "Orders a setting, which waits until a poll sends it.\n\nExample: office order --store roof.db --site site.toml --caller ann --key k1 lim -- -5",
    );
    let command = with_office(alloc, command, STORE_ALONE)?;
    let command = with_caller(alloc, command)?;
    let command = with_key(alloc, command)?;
    let command = with_place(
        alloc,
        command,
        "point",
        "POINT",
        "The setting, as the point list names it, as lim",
    )?;
    let command = with_place(
        alloc,
        command,
        "value",
        "VALUE",
        "The registers' number, which no scale changes: 80 sets 8.0 where the scale is -1; a negative one follows --, as -- -5",
    )?;
    Ok(command)
}

#[tactic(auto, unfolding(crate::specs::Line::void_line))]
fn void<'a>(alloc: Global) -> Result<Command<'a>, AllocError>
    ensures line { IfOk result (λ c. line_of c ≡ void_line) }
    ensures plain { IfOk result (λ c. (out-Command c).has_globals ≡ false) }
{
    let command = command(
        alloc,
        "void",
        "Takes a slot of a counter out of its total, for good; its reading stays",
        "Takes a slot of a counter out of its total, for good; its reading stays.\n\nExample: office void --store roof.db --site site.toml --caller ann --key v1 e 12",
    );
    let command = with_office(alloc, command, STORE_ALONE)?;
    let command = with_caller(alloc, command)?;
    let command = with_key(alloc, command)?;
    let command = with_place(
        alloc,
        command,
        "point",
        "POINT",
        "The counter, as the point list names it, as e",
    )?;
    let command = with_place(
        alloc,
        command,
        "slot",
        "SLOT",
        "The slot, 0 to 4294967295, as 12",
    )?;
    Ok(command)
}

#[tactic(auto, unfolding(crate::specs::Line::report_line))]
fn report<'a>(alloc: Global) -> Result<Command<'a>, AllocError>
    ensures line { IfOk result (λ c. line_of c ≡ report_line) }
    ensures plain { IfOk result (λ c. (out-Command c).has_globals ≡ false) }
{
    let command = command(
        alloc,
        "report",
        "Prints the readings of a point, and of a counter the total",
        "Prints the readings of a point, and of a counter the total.\n\nExample: office report --store roof.db --site site.toml e 0 23",
    );
    let command = with_office(alloc, command, STORE_ALONE)?;
    let command = with_place(
        alloc,
        command,
        "point",
        "POINT",
        "The point, as the point list names it, as e",
    )?;
    let command = with_place(alloc, command, "from", "FROM", "The first slot, as 0")?;
    let command = with_place(
        alloc,
        command,
        "to",
        "TO",
        "The last slot, FROM to FROM + 9999, as 23",
    )?;
    Ok(command)
}

#[tactic(auto, unfolding(crate::specs::Line::serve_line))]
fn serve<'a>(alloc: Global) -> Result<Command<'a>, AllocError>
    ensures line { IfOk result (λ c. line_of c ≡ serve_line) }
    ensures plain { IfOk result (λ c. (out-Command c).has_globals ≡ false) }
{
    let command = command(
        alloc,
        "serve",
        "Answers over HTTP on 127.0.0.1, one connection after the other",
        "Answers over HTTP on 127.0.0.1, one connection after the other.\n\nExample: office serve --store roof.db --site site.toml --port 8080",
    );
    let command = with_office(alloc, command, SERVING)?;
    let command = with_option(
        alloc,
        command,
        "port",
        "PORT",
        "The port, 0 to 65535, where 0 takes a free one, as 8080",
    )?;
    let command = with_spare(
        alloc,
        command,
        "count",
        "N",
        "How many connections, 0 to 4294967295, as 10; without it there is no end",
    )?;
    Ok(command)
}

#[tactic(auto, unfolding(crate::specs::Line::sim_line))]
fn sim<'a>(alloc: Global) -> Result<Command<'a>, AllocError>
    ensures line { IfOk result (λ c. line_of c ≡ sim_line) }
    ensures plain { IfOk result (λ c. (out-Command c).has_globals ≡ false) }
{
    let command = command(
        alloc,
        "sim",
        "Plays the devices of an image, on a port or on standard input and output",
        "Plays the devices of an image, on a port or on standard input and output.\n\nExample: office sim --image devices.toml --port 5020",
    );
    let command = with_option(
        alloc,
        command,
        "image",
        "FILE",
        "The image of the devices, as devices.toml",
    )?;
    let command = with_spare(
        alloc,
        command,
        "port",
        "PORT",
        "The port on 127.0.0.1, 0 to 65535, where 0 takes a free one, as 5020; without it there is a frame a line in hexadecimal digits",
    )?;
    Ok(command)
}

#[tactic(auto, unfolding(crate::specs::Line::migrate_line))]
fn migrate<'a>(alloc: Global) -> Result<Command<'a>, AllocError>
    ensures line { IfOk result (λ c. line_of c ≡ migrate_line) }
    ensures plain { IfOk result (λ c. (out-Command c).has_globals ≡ false) }
{
    let command = command(
        alloc,
        "migrate",
        "Moves a store of version 1 to version 2, whole or not at all",
        "Moves a store of version 1 to version 2, whole or not at all.\n\nExample: office migrate --store roof.db",
    );
    let command = with_store(alloc, command, "The file of the office, as roof.db")?;
    let command = with_timeout(alloc, command, STORE_ALONE)?;
    Ok(command)
}

#[tactic(auto, unfolding(crate::specs::Line::run_line))]
fn run<'a>(alloc: Global) -> Result<Command<'a>, AllocError>
    ensures line { IfOk result (λ c. line_of c ≡ run_line) }
    ensures plain { IfOk result (λ c. (out-Command c).has_globals ≡ false) }
{
    let command = command(
        alloc,
        "run",
        "Stays up: polls each slot by the clock, sends orders at once, and answers over HTTP",
        "Stays up: polls each slot by the clock, sends orders at once, and answers over HTTP, many callers at a time.\nIt ends where standard input does, if that is a pipe or a terminal.\n\nExample: office run --store roof.db --site site.toml --every 60",
    );
    let command = with_office(alloc, command, RUNNING)?;
    let command = with_clock(alloc, command)?;
    let command = with_door(alloc, command)?;
    Ok(command)
}

/// The commands for scripts and point lists after those that a command has.
fn with_list_commands<'a>(alloc: Global, command: Command<'a>) -> Result<Command<'a>, AllocError>
    ensures { IfOk result (λ c. line_of c ≡ with_lines (line_of command.entry) list_lines) }
{
    let command = with_subcommand(command, replay(alloc)?)?;
    let command = with_subcommand(command, load(alloc)?)?;
    let command = with_subcommand(command, plan(alloc)?)?;
    Ok(command)
}

/// The commands that ask devices after those that a command has.
fn with_device_commands<'a>(alloc: Global, command: Command<'a>) -> Result<Command<'a>, AllocError>
    ensures { IfOk result (λ c. line_of c ≡ with_lines (line_of command.entry) device_lines) }
{
    let command = with_subcommand(command, discover(alloc)?)?;
    let command = with_subcommand(command, poll(alloc)?)?;
    let command = with_subcommand(command, order(alloc)?)?;
    Ok(command)
}

/// The commands that tell and play after those that a command has.
fn with_answer_commands<'a>(alloc: Global, command: Command<'a>) -> Result<Command<'a>, AllocError>
    ensures { IfOk result (λ c. line_of c ≡ with_lines (line_of command.entry) answer_lines) }
{
    let command = with_subcommand(command, report(alloc)?)?;
    let command = with_subcommand(command, serve(alloc)?)?;
    let command = with_subcommand(command, sim(alloc)?)?;
    Ok(command)
}

/// The commands that put right what is stored, and the one that stays up, after those that a command has.
fn with_store_commands<'a>(alloc: Global, command: Command<'a>) -> Result<Command<'a>, AllocError>
    ensures { IfOk result (λ c. line_of c ≡ with_lines (line_of command.entry) store_lines) }
{
    let command = with_subcommand(command, void(alloc)?)?;
    let command = with_subcommand(command, migrate(alloc)?)?;
    let command = with_subcommand(command, run(alloc)?)?;
    Ok(command)
}

/// The commands after those that a command has.
#[tactic(auto, unfolding(crate::specs::Line::with_commands))]
fn with_commands<'a>(alloc: Global, command: Command<'a>) -> Result<Command<'a>, AllocError>
    ensures { IfOk result (λ c. line_of c ≡ with_commands (line_of command.entry)) }
{
    let command = with_list_commands(alloc, command)?;
    let command = with_device_commands(alloc, command)?;
    let command = with_answer_commands(alloc, command)?;
    let command = with_store_commands(alloc, command)?;
    Ok(command)
}

#[tactic(auto, unfolding(crate::specs::Line::line_of, crate::specs::Line::bare_line))]
fn bare<'a>(alloc: Global) -> Command<'a>
    ensures { line_of result ≡ bare_line }
{
    Command::new(alloc, "office")
        .about("Polls Modbus devices, and keeps what they say")
        .after_help(STATUSES)
        .no_binary_name(true)
        .subcommand_required(true)
}

#[tactic(auto, unfolding(crate::specs::Line::line_of, crate::specs::Line::without_help, crate::specs::Line::bare_line))]
fn without_help<'a>(alloc: Global) -> Command<'a>
    ensures { line_of result ≡ without_help bare_line }
{
    bare(alloc)
        .disable_help_flag(true)
        .disable_help_subcommand(true)
}

#[tactic(auto, unfolding(crate::specs::Line::line_of, crate::specs::Line::with_version, crate::specs::Line::bare_line))]
fn with_version<'a>(alloc: Global) -> Result<Command<'a>, AllocError>
    ensures { IfOk result (λ c. line_of c ≡ with_version bare_line) }
{
    bare(alloc).version(VERSION).bin_name("office")
}

/// The command line of the jobs, where no word asks for help.
#[tactic(auto, unfolding(crate::specs::Line::office_line))]
pub(crate) fn office_line<'a>(alloc: Global) -> Result<Command<'a>, AllocError>
    ensures { IfOk result (λ c. line_of c ≡ office_line) }
{
    with_commands(alloc, without_help(alloc))
}

/// The same, where words may ask for help and for the version.
#[tactic(auto, unfolding(crate::specs::Line::help_line))]
pub(crate) fn help_line<'a>(alloc: Global) -> Result<Command<'a>, AllocError>
    ensures { IfOk result (λ c. line_of c ≡ help_line) }
{
    let command = with_version(alloc)?;
    with_commands(alloc, command)
}
