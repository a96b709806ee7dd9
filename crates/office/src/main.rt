//! `office`: a polling office for Modbus devices, from the command line.
#![tactic(auto)]

mod machine;
mod stores;

use crate::machine::Machine;
use office_commands::{Failure, Fault, Why, end_with, run};
use std::env;
use std::io::ErrorKind;
use std::process::ExitCode;

/// The words after the program's name. The system's may have any bytes, and words are texts.
fn words_of(rt: &HostRuntime) -> Result<Vec<String>, Failure> {
    match env::args(rt) {
        Ok(words) => Ok(words.skip(1).collect(rt.alloc())?),
        Err(error) if error.kind() == ErrorKind::OutOfMemory => Err(Failure::from(Fault::Memory)),
        Err(_) => Err(Failure::new(Fault::Command, Why::Words("a word isn't UTF-8"))),
    }
}

fn main(rt: HostRuntime) -> ExitCode {
    let mut machine = Machine(&rt);
    let status = match words_of(&rt) {
        Ok(words) => run(&mut machine, words),
        Err(failure) => end_with(&mut machine, &failure),
    };
    ExitCode::from(status)
}
