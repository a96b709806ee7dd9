//! What commands print that are typed into a page's console.
use crate::curl::{asked_by, shown};
use crate::cut::Bytes;
use crate::world::{World, is_absent};
use case_pages::Trouble;
use mb_map::Sim;
use office_commands::{Fault, run};
use office_words::{Errand, Job, WordFault, read_words};
use std::alloc::{AllocError, Global};
use std::str;

fn push_word(alloc: Global, words: &mut Vec<String>, word: &str) -> Result<(), AllocError> {
    words.push(String::from_str(alloc, word)?)?;
    Ok(())
}

fn push_words(alloc: Global, words: &mut Vec<String>, line: &str) -> Result<(), AllocError> {
    for word in line.split(' ') {
        if !word.is_empty() {
            push_word(alloc, words, word)?;
        }
    }
    Ok(())
}

/// The words of a line, with spaces between them. What stands in single quotes is one word.
pub(crate) fn words_of(alloc: Global, line: &str) -> Result<Vec<String>, AllocError> {
    let mut words = Vec::new(alloc);
    for (place, part) in line.split('\'').enumerate() {
        if place % 2 == 1 {
            push_word(alloc, &mut words, part)?;
        } else {
            push_words(alloc, &mut words, part)?;
        }
    }
    Ok(words)
}

pub(crate) fn text_of(bytes: &[u8]) -> &str {
    str::from_utf8(bytes).unwrap_or("bytes that are no text")
}

/// What the program prints for the words behind its name, and its status where that isn't 0.
pub(crate) fn office(world: &mut World<'_>, line: &str) -> Result<String, Trouble> {
    let alloc = world.rt.alloc();
    world.output = Vec::new(alloc);
    let status = run(world, words_of(alloc, line)?);
    let mut text = String::from_str(alloc, text_of(&world.output))?;
    if status != 0 {
        writeln!(text, "status {status}")?;
    }
    Ok(text)
}

/// The file of a page.
pub(crate) fn file(world: &World<'_>, name: &str) -> Result<Vec<u8>, Trouble> {
    match world.file(name) {
        Ok(bytes) => Ok(bytes),
        Err(failure) if failure.fault == Fault::Memory => Err(Trouble::Memory),
        Err(_) => Err(Trouble::Page("no file of this name")),
    }
}

/// Has an image's devices wait at a port of this machine.
fn simulate(world: &mut World<'_>, image: &str, port: u16) -> Result<(), Trouble> {
    let alloc = world.rt.alloc();
    let image = file(world, image)?;
    let Ok(sim) = Sim::from_toml(alloc, &image) else {
        return Err(Trouble::Page("an image that can't be read"));
    };
    let address = format!(in alloc; "127.0.0.1:{port}")?;
    match world.devices.try_borrow_mut() {
        Ok(mut devices) => Ok(devices.wait(address, sim)?),
        Err(_) => Err(Trouble::Page("devices in use")),
    }
}

/// Begins what goes on behind the next commands: devices, or a server, which answers each `curl` and has its store
/// open.
fn begin_job(world: &mut World<'_>, line: &str, job: &Job) -> Result<(), Trouble> {
    match job {
        Job::Sim {
            image,
            port: Some(port),
        } => simulate(world, image.as_str(), *port),
        Job::Office {
            store,
            errand: Errand::Serve { .. },
            ..
        } => {
            world.server = String::from_str(world.rt.alloc(), line)?;
            world.held = String::from_str(world.rt.alloc(), store.as_str())?;
            Ok(())
        }
        _ => Err(Trouble::Page("a command that doesn't go on")),
    }
}

fn begin(world: &mut World<'_>, line: &str) -> Result<(), Trouble> {
    let alloc = world.rt.alloc();
    match read_words(alloc, words_of(alloc, line)?) {
        Ok(job) => begin_job(world, line, &job),
        Err(WordFault::Memory) => Err(Trouble::Memory),
        Err(WordFault::Words) => Err(Trouble::Page("no command")),
    }
}

/// What the page's server answers to a request.
pub(crate) fn serve(world: &mut World<'_>, request: Vec<u8>) -> Result<String, Trouble> {
    let alloc = world.rt.alloc();
    world.request = request;
    let server = String::from_str(alloc, world.server.as_str())?;
    office(world, server.as_str())
}

fn curl(world: &mut World<'_>, line: &str) -> Result<String, Trouble> {
    let alloc = world.rt.alloc();
    let words = words_of(alloc, line)?;
    let request = asked_by(alloc, &words)?;
    let answer = serve(world, request)?;
    Ok(shown(alloc, &words, answer.as_str())?)
}

fn change_folder(world: &mut World<'_>, path: &str) -> Result<(), AllocError> {
    let former = world.folder.as_str();
    world.folder = format!(in world.rt.alloc(); "{former}{path}/")?;
    Ok(())
}

/// What a file has as standard input. A folder can be opened, and not be read.
fn input_of(world: &World<'_>, name: &str) -> Result<Bytes, Trouble> {
    match world.file(name) {
        Ok(bytes) => Ok(Bytes::new(bytes, world.play.cut, false)),
        Err(failure) => {
            if failure.fault == Fault::Memory {
                Err(Trouble::Memory)
            } else if is_absent(&failure) {
                Err(Trouble::Page("no file of this name"))
            } else {
                Ok(Bytes::new(Vec::new(world.rt.alloc()), world.play.cut, true))
            }
        }
    }
}

/// A line without an end, and whether it has that.
fn without<'l>(line: &'l str, end: &str) -> (&'l str, bool) {
    match line.strip_suffix(end) {
        Some(line) => (line, true),
        None => (line, false),
    }
}

/// What the program prints for words, behind which ` < ` and the file of its standard input may stand, and then
/// ` > /dev/full` and ` 2> /dev/full`, to which nothing can be written.
fn redirected(world: &mut World<'_>, line: &str) -> Result<String, Trouble> {
    let (line, errors_are_full) = without(line, " 2> /dev/full");
    let (line, output_is_full) = without(line, " > /dev/full");
    let (line, input) = match line.split_once(" < ") {
        Some((line, name)) => (line, input_of(world, name)?),
        None => (line, world.no_input()),
    };
    world.input = input;
    world.output_is_full = output_is_full;
    world.errors_are_full = errors_are_full;
    let told = office(world, line);
    world.output_is_full = false;
    world.errors_are_full = false;
    told
}

/// What a command prints: `cd` to a folder below, `office` with words, with a file as standard input behind ` < ` or a
/// full standard output or standard error, or going on behind the others with ` &` at its end, and `curl` of the server
/// that goes on.
pub(crate) fn typed(world: &mut World<'_>, command: &str) -> Result<String, Trouble> {
    let alloc = world.rt.alloc();
    if let Some(path) = command.strip_prefix("cd ") {
        change_folder(world, path)?;
        return Ok(String::new(alloc));
    }
    if let Some(line) = command.strip_prefix("curl ") {
        return curl(world, line);
    }
    let line = command
        .strip_prefix("office")
        .ok_or(Trouble::Page("a program other than office and curl"))?;
    if let Some(line) = line.strip_suffix(" &") {
        begin(world, line)?;
        return Ok(String::new(alloc));
    }
    redirected(world, line)
}
