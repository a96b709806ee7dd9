//! The text that words ask for which ask for help.
ghost use Rattle.std.specs.Prelude.{IfNone, IfOk, IfSome};
ghost use Rattle.office_words.specs.Jobs.{AsksElse, AsksHelp, texts};

use crate::line;
use clap::error::ErrorKind;
use std::alloc::{AllocError, Global};

/// The text for standard output where the words after the program's name ask for help or for the
/// version, as `--help`, `help`, `order --help` or `--version`, and nothing where they don't. It is
/// to be asked where `read_words` refuses words.
pub fn help_of(alloc: Global, words: Vec<String>) -> Result<Option<String>, AllocError>
    ensures asked { IfOk result (λ text. IfSome text (λ _. AsksHelp (texts words))) }
    ensures not_asked { IfOk result (λ text. IfNone text (AsksElse (texts words))) }
{
    let command = line::help_line(alloc)?;
    match command.try_get_matches_from(words.as_slice()) {
        Ok(_) => Ok(None),
        Err(error) => match error.kind() {
            ErrorKind::DisplayHelp | ErrorKind::DisplayVersion => Ok(Some(error.to_string(alloc)?)),
            ErrorKind::OutOfMemory => Err(AllocError),
            _ => Ok(None),
        },
    }
}
