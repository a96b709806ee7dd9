//! Words to the job that they ask for.
ghost use Rattle.std.specs.Prelude.{◌≡◌, Err, IfOk, None, Some};
ghost use Rattle.office_words.specs.Jobs.{job_of, job_view, texts};

use crate::{Job, WordFault, commands, line};
use clap::error::ErrorKind;
use std::alloc::Global;

/// The job that the words after the program's name ask for. `Memory` comes only where memory was
/// refused.
pub fn read_words(alloc: Global, words: Vec<String>) -> Result<Job, WordFault>
    // A job is that of the command and its values, by the command line's matches of the words.
    ensures job { IfOk result (λ job. job_of (texts words) ≡ Some (job_view job)) }

    // Words are refused only where the command line refuses them, or a value isn't in its form.
    ensures words { result ≡ Err WordFault.Words → job_of (texts words) ≡ None }
{
    let command = line::office_line(alloc)?;
    match command.try_get_matches_from(words.as_slice()) {
        Ok(matches) => commands::job_in(alloc, &matches),
        Err(error) => match error.kind() {
            ErrorKind::OutOfMemory => Err(WordFault::Memory),
            _ => Err(WordFault::Words),
        },
    }
}
