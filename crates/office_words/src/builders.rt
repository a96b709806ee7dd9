//! Steps of building a command: an option or a place more, with what help says of it.
ghost use Rattle.std.specs.Prelude.{◌≡◌, ◌∷◌, [], IfOk, codes, false};
ghost use Rattle.clap.specs.declared.builder.command.Command.TheViews.{out-Command};
ghost use Rattle.office_words.specs.Line.{bind, every, line_of, option, place, port, preset, site, spare, store, timeout, with_line, with_value, with_values};

use clap::{Arg, Command};
use std::alloc::{AllocError, Global};

/// A command with one more `--name VALUE`, which must be there.
#[tactic(auto, unfolding(crate::specs::Line::line_of, crate::specs::Line::option, crate::specs::Line::with_value))]
pub(crate) fn with_option<'a>(
    alloc: Global,
    command: Command<'a>,
    name: &'a str,
    value: &'a str,
    help: &'a str,
) -> Result<Command<'a>, AllocError>
    requires { (out-Command command).has_globals ≡ false }
    ensures line { IfOk result (λ c. line_of c ≡ with_value (line_of command.entry) (option name.entry.now)) }
    ensures plain { IfOk result (λ c. (out-Command c).has_globals ≡ false) }
{
    command.arg(
        Arg::new(alloc, name)
            .long(name)
            .value_name(value)
            .help(help)
            .required(true),
    )
}

/// A command with one more `--name VALUE`, which may be missing.
#[tactic(auto, unfolding(crate::specs::Line::line_of, crate::specs::Line::spare, crate::specs::Line::with_value))]
pub(crate) fn with_spare<'a>(
    alloc: Global,
    command: Command<'a>,
    name: &'a str,
    value: &'a str,
    help: &'a str,
) -> Result<Command<'a>, AllocError>
    requires { (out-Command command).has_globals ≡ false }
    ensures line { IfOk result (λ c. line_of c ≡ with_value (line_of command.entry) (spare name.entry.now)) }
    ensures plain { IfOk result (λ c. (out-Command c).has_globals ≡ false) }
{
    command.arg(
        Arg::new(alloc, name)
            .long(name)
            .value_name(value)
            .help(help),
    )
}

/// A command with one more word at its place, which must be there.
#[tactic(auto, unfolding(crate::specs::Line::line_of, crate::specs::Line::place, crate::specs::Line::with_value))]
pub(crate) fn with_place<'a>(
    alloc: Global,
    command: Command<'a>,
    name: &'a str,
    value: &'a str,
    help: &'a str,
) -> Result<Command<'a>, AllocError>
    requires { (out-Command command).has_globals ≡ false }
    ensures line { IfOk result (λ c. line_of c ≡ with_value (line_of command.entry) (place name.entry.now)) }
    ensures plain { IfOk result (λ c. (out-Command c).has_globals ≡ false) }
{
    command.arg(
        Arg::new(alloc, name)
            .value_name(value)
            .help(help)
            .required(true),
    )
}

pub(crate) fn with_site<'a>(alloc: Global, command: Command<'a>) -> Result<Command<'a>, AllocError>
    requires { (out-Command command).has_globals ≡ false }
    ensures line { IfOk result (λ c. line_of c ≡ with_value (line_of command.entry) (option (codes "site"))) }
    ensures plain { IfOk result (λ c. (out-Command c).has_globals ≡ false) }
{
    with_option(
        alloc,
        command,
        "site",
        "FILE",
        "The site file, with lines and devices, as site.toml",
    )
}

pub(crate) fn with_caller<'a>(
    alloc: Global,
    command: Command<'a>,
) -> Result<Command<'a>, AllocError>
    requires { (out-Command command).has_globals ≡ false }
    ensures line { IfOk result (λ c. line_of c ≡ with_value (line_of command.entry) (option (codes "caller"))) }
    ensures plain { IfOk result (λ c. (out-Command c).has_globals ≡ false) }
{
    with_option(
        alloc,
        command,
        "caller",
        "NAME",
        "Who asks, 1 to 32 of A-Z a-z 0-9 _ -, as ann",
    )
}

pub(crate) fn with_key<'a>(alloc: Global, command: Command<'a>) -> Result<Command<'a>, AllocError>
    requires { (out-Command command).has_globals ≡ false }
    ensures line { IfOk result (λ c. line_of c ≡ with_value (line_of command.entry) (option (codes "key"))) }
    ensures plain { IfOk result (λ c. (out-Command c).has_globals ≡ false) }
{
    with_option(
        alloc,
        command,
        "key",
        "KEY",
        "The caller's name for this request, done once for a key, 1 to 64 of A-Z a-z 0-9 _ -, as k1",
    )
}

/// A command with one more `--name VALUE`, which has a value where it is missing.
#[tactic(auto, unfolding(crate::specs::Line::line_of, crate::specs::Line::preset, crate::specs::Line::with_value))]
pub(crate) fn with_preset<'a>(
    alloc: Global,
    command: Command<'a>,
    name: &'a str,
    value: &'a str,
    usual: &'a str,
    help: &'a str,
) -> Result<Command<'a>, AllocError>
    requires { (out-Command command).has_globals ≡ false }
    ensures line { IfOk result (λ c. line_of c
        ≡ with_value (line_of command.entry) (preset name.entry.now usual.entry.now)) }
    ensures plain { IfOk result (λ c. (out-Command c).has_globals ≡ false) }
{
    command.arg(
        Arg::new(alloc, name)
            .long(name)
            .value_name(value)
            .help(help)
            .default_value(usual),
    )
}

pub(crate) fn with_timeout<'a>(
    alloc: Global,
    command: Command<'a>,
    help: &'a str,
) -> Result<Command<'a>, AllocError>
    requires { (out-Command command).has_globals ≡ false }
    ensures line { IfOk result (λ c. line_of c
        ≡ with_value (line_of command.entry) (preset (codes "timeout") (codes "5"))) }
    ensures plain { IfOk result (λ c. (out-Command c).has_globals ≡ false) }
{
    with_preset(alloc, command, "timeout", "SECONDS", "5", help)
}

pub(crate) fn with_clock<'a>(alloc: Global, command: Command<'a>) -> Result<Command<'a>, AllocError>
    requires { (out-Command command).has_globals ≡ false }
    ensures line { IfOk result (λ c. line_of c ≡ with_value (line_of command.entry) every) }
    ensures plain { IfOk result (λ c. (out-Command c).has_globals ≡ false) }
{
    with_preset(
        alloc,
        command,
        "every",
        "SECONDS",
        "60",
        "The length of a slot, longer than the timeout, 86400 seconds at most; slot 0 began with 1970",
    )
}

/// A command with where callers come: an address and a port.
pub(crate) fn with_door<'a>(alloc: Global, command: Command<'a>) -> Result<Command<'a>, AllocError>
    requires { (out-Command command).has_globals ≡ false }
    ensures line { IfOk result (λ c. line_of c ≡ with_values (line_of command.entry) (bind ∷ port ∷ [])) }
    ensures plain { IfOk result (λ c. (out-Command c).has_globals ≡ false) }
{
    let command = with_preset(
        alloc,
        command,
        "bind",
        "ADDRESS",
        "127.0.0.1",
        "The IP address that callers reach",
    )?;
    with_preset(
        alloc,
        command,
        "port",
        "PORT",
        "8080",
        "The port, 0 to 65535, where 0 takes a free one",
    )
}

pub(crate) fn with_store<'a>(
    alloc: Global,
    command: Command<'a>,
    help: &'a str,
) -> Result<Command<'a>, AllocError>
    requires { (out-Command command).has_globals ≡ false }
    ensures line { IfOk result (λ c. line_of c ≡ with_value (line_of command.entry) (option (codes "store"))) }
    ensures plain { IfOk result (λ c. (out-Command c).has_globals ≡ false) }
{
    with_option(alloc, command, "store", "FILE", help)
}

/// A command with what each one in an office has: its store, its site and a timeout.
pub(crate) fn with_office<'a>(
    alloc: Global,
    command: Command<'a>,
    timeout_help: &'a str,
) -> Result<Command<'a>, AllocError>
    requires { (out-Command command).has_globals ≡ false }
    ensures line { IfOk result (λ c. line_of c ≡ with_values (line_of command.entry) (store ∷ site ∷ timeout ∷ [])) }
    ensures plain { IfOk result (λ c. (out-Command c).has_globals ≡ false) }
{
    let command = with_store(
        alloc,
        command,
        "The file of the office, made if it isn't there, as roof.db",
    )?;
    let command = with_site(alloc, command)?;
    let command = with_timeout(alloc, command, timeout_help)?;
    Ok(command)
}

/// A command with one more subcommand.
#[tactic(auto, unfolding(crate::specs::Line::line_of, crate::specs::Line::with_line))]
pub(crate) fn with_subcommand<'a>(
    command: Command<'a>,
    subcommand: Command<'a>,
) -> Result<Command<'a>, AllocError>
    requires { (out-Command subcommand).has_globals ≡ false }
    ensures { IfOk result (λ c. line_of c ≡ with_line (line_of command.entry) (line_of subcommand.entry)) }
{
    command.subcommand(subcommand)
}
