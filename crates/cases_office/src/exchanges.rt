//! Requests over HTTP and their answers: lines `> ..` of a request, and below them lines `< ..` of its answer. The
//! lines of a head end with a carriage return and a line feed, unless a `\` ends them; those behind the head's empty
//! line are a body, and stand side by side.
use crate::console::{count_case, is_refused};
use crate::shell::{serve, text_of};
use crate::world::World;
use case_pages::{Block, Tally, Trouble, bytes_of};
use std::alloc::Global;

/// What is sent one way.
#[derive(Drop)]
struct Message {
    bytes: Vec<u8>,
    has_head: bool,
    lines: usize,
}

impl Message {
    fn new(alloc: Global) -> Message {
        Message {
            bytes: Vec::new(alloc),
            has_head: false,
            lines: 0,
        }
    }

    fn push_line(&mut self, alloc: Global, line: &str) -> Result<(), Trouble> {
        let (text, ends) = match line.strip_suffix('\\') {
            Some(text) => (text, false),
            None => (line, !self.has_head),
        };
        let bytes = bytes_of(alloc, text)?;
        self.bytes.extend_from_slice(&bytes)?;
        if ends {
            self.bytes.extend_from_slice(b"\r\n")?;
        }
        self.has_head = self.has_head || line.is_empty();
        self.lines = self.lines.saturating_add(1);
        Ok(())
    }
}

/// The text of a line behind its mark.
fn marked(line: &str, mark: char) -> Option<&str> {
    let text = line.strip_prefix(mark)?;
    Some(text.strip_prefix(' ').unwrap_or(text))
}

/// The message of the lines with this mark that a part of a block begins with, and what follows them.
fn message_of<'b>(alloc: Global, part: &'b str, mark: char) -> Result<(Message, &'b str), Trouble> {
    let mut message = Message::new(alloc);
    let mut passed = 0usize;
    for line in part.split_inclusive('\n') {
        let Some(text) = marked(line.trim_end(), mark) else {
            break;
        };
        message.push_line(alloc, text)?;
        passed = passed.saturating_add(line.len());
    }
    Ok((message, part.get(passed..).unwrap_or("")))
}

fn answer_to(world: &mut World<'_>, request: &[u8]) -> Result<String, Trouble> {
    serve(world, Vec::from_slice(world.rt.alloc(), request)?)
}

/// Whether an answer says that what is wanted to be made now was made before.
fn was_made(told: &str, wanted: &str) -> bool {
    let told = told.strip_prefix("HTTP/1.1 200 OK\r\n");
    told.is_some() && told == wanted.strip_prefix("HTTP/1.1 201 Created\r\n")
}

/// What a request is answered where memory or the store refuses.
const REFUSAL: &str =
    "HTTP/1.1 503 Service Unavailable\r\nContent-Type: application/json\r\nContent-Length: 17\r\nConnection: close\r\n\r\n{\"error\":\"store\"}";

/// What a request is told, told once more where the store or memory refused. It can be that only its answer was
/// refused.
fn told(world: &mut World<'_>, request: &[u8], wanted: &str) -> Result<String, Trouble> {
    let told = answer_to(world, request)?;
    if told.as_str() != REFUSAL && !is_refused(told.as_str()) {
        return Ok(told);
    }
    world.count_refusal();
    let again = answer_to(world, request)?;
    if was_made(again.as_str(), wanted) {
        return Ok(String::from_str(world.rt.alloc(), wanted)?);
    }
    Ok(again)
}

/// Plays the requests of a block, whose words behind `http ` are those of the office that serves.
pub(crate) fn play<R: Print>(
    world: &mut World<'_>,
    tally: &mut Tally<'_, R>,
    block: &Block<'_>,
    office: &str,
) -> Result<(), Trouble> {
    let alloc = world.rt.alloc();
    world.server = format!(in alloc; "serve {office} --port 80 --count 1")?;
    let mut rest = block.text;
    let mut line = block.line.saturating_add(1);
    for _ in 0..block.text.len() {
        if rest.is_empty() {
            break;
        }
        let (request, answered) = message_of(alloc, rest, '>')?;
        let (answer, behind) = message_of(alloc, answered, '<')?;
        if behind.len() == rest.len() {
            return Err(Trouble::Page("a line of neither a request nor an answer"));
        }
        let wanted = text_of(&answer.bytes);
        let told = told(world, &request.bytes, wanted)?;
        count_case(world, tally, line, told.as_str(), wanted)?;
        line = line
            .saturating_add(request.lines)
            .saturating_add(answer.lines);
        rest = behind;
    }
    Ok(())
}
