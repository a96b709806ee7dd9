//! What comes of a case, as a text.
use case_pages::Trouble;
use std::alloc::{AllocError, Global};
use std::fmt::{Debug, Display};

/// From so many times on, an item that repeats stands once, with its count.
const MANY: usize = 8;

/// Why something was refused. Memory is asked for once more.
pub(crate) fn refusal<E: Display>(alloc: Global, error: &E) -> Result<String, Trouble> {
    let text = error.to_string(alloc)?;
    if text.as_str() == "memory" || text.as_str() == "out of memory" {
        return Err(Trouble::Memory);
    }
    Ok(text)
}

/// What a call gave, or why it was refused.
pub(crate) fn outcome<T: Debug + Drop, E: Display + Drop>(
    alloc: Global,
    told: Result<T, E>,
) -> Result<String, Trouble> {
    match told {
        Ok(value) => Ok(shown(alloc, &value)?),
        Err(error) => refusal(alloc, &error),
    }
}

/// An outcome, behind which something stands where something else holds than should.
pub(crate) fn unless(holds: bool, otherwise: &str, mut text: String) -> Result<String, Trouble> {
    if !holds {
        text.push_str(otherwise)?;
    }
    Ok(text)
}

/// A value as `Debug` shows it, but for items that repeat.
pub(crate) fn shown<T: Debug>(alloc: Global, value: &T) -> Result<String, AllocError> {
    counted(alloc, format!(in alloc; "{value:?}")?.as_str(), ", ")
}

/// Bytes in hexadecimal digits.
pub(crate) fn hex_text(alloc: Global, bytes: &[u8]) -> Result<String, AllocError> {
    let mut text = String::new(alloc);
    for byte in bytes {
        write!(text, "{byte:02X} ")?;
    }
    counted(alloc, text.trim_end(), " ")
}

/// A text of which an item that repeats stands once, with its count.
fn counted(alloc: Global, text: &str, between: &str) -> Result<String, AllocError> {
    let items: Vec<&str> = text.split(between).collect(alloc)?;
    let mut made = String::new(alloc);
    for run in items.chunk_by(|one, other| one == other) {
        push_run(&mut made, run, between)?;
    }
    Ok(made)
}

fn push_run(made: &mut String, run: &[&str], between: &str) -> Result<(), AllocError> {
    let count = run.len();
    let shown = if count < MANY { run } else { &run[..1] };
    for item in shown {
        if !made.is_empty() {
            made.push_str(between)?;
        }
        made.push_str(item)?;
    }
    if count >= MANY {
        write!(made, "*{count}")?;
    }
    Ok(())
}
