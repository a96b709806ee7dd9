//! Consoles: lines `$ office ..`, each with what it prints below it.
use crate::shell::typed;
use crate::world::World;
use case_pages::{Block, Tally, Trouble};

/// A line of what is wanted that stands for any lines.
const ANY_LINES: &str = "...";

/// Whether a text is one that is wanted, in which lines may be left out.
fn is_wanted(told: &str, wanted: &str) -> bool {
    let mut lines = told.lines();
    let mut skips = false;
    for line in wanted.lines() {
        if line == ANY_LINES {
            skips = true;
        } else if skips {
            skips = false;
            if !lines.any(|it| it == line) {
                return false;
            }
        } else if lines.next() != Some(line) {
            return false;
        }
    }
    skips || lines.next().is_none()
}

/// What a command is told where memory, or a store of the page, was refused.
const REFUSED: [&str; 3] = [
    "office: memory",
    "office: store memory",
    "office: store disk",
];

/// Whether memory or the store was refused, so that the command is to be typed again.
pub(crate) fn is_refused(told: &str) -> bool {
    told.lines().any(|line| REFUSED.contains(&line))
}

/// What a command prints, typed once more where memory or the store was refused.
fn told_by(world: &mut World<'_>, command: &str) -> Result<String, Trouble> {
    match typed(world, command) {
        Ok(told) if !is_refused(told.as_str()) => Ok(told),
        Ok(_) => {
            world.count_refusal();
            typed(world, command)
        }
        Err(Trouble::Memory) => typed(world, command),
        Err(trouble) => Err(trouble),
    }
}

/// Counts a case where a page is played first; else a case that differs is counted besides.
pub(crate) fn count_case<R: Print>(
    world: &World<'_>,
    tally: &mut Tally<'_, R>,
    line: usize,
    told: &str,
    wanted: &str,
) -> Result<(), Trouble> {
    if world.play.is_first() || told != wanted {
        tally.told(line, told, wanted)?;
    }
    Ok(())
}

/// Judges what the peer heard of a command that is done.
fn judge_peer<R: Print>(world: &World<'_>, tally: &mut Tally<'_, R>) -> Result<(), Trouble> {
    let Ok(mut devices) = world.devices.try_borrow_mut() else {
        return Err(Trouble::Page("a peer in use"));
    };
    let Some(heard) = devices.end() else {
        return Ok(());
    };
    match devices.wanted() {
        Some((wanted, line)) if !wanted.is_empty() => {
            count_case(world, tally, line, heard.as_str(), wanted)
        }
        _ => Ok(()),
    }
}

fn play_step<R: Print>(
    world: &mut World<'_>,
    tally: &mut Tally<'_, R>,
    line: usize,
    step: &str,
) -> Result<(), Trouble> {
    let Some((command, wanted)) = step.split_once('\n') else {
        return Err(Trouble::Page("a command without its line's end"));
    };
    let told = told_by(world, command)?;
    let told = if is_wanted(told.as_str(), wanted) {
        wanted
    } else {
        told.as_str()
    };
    count_case(world, tally, line, told, wanted)?;
    judge_peer(world, tally)
}

/// The part of a console from its next command on, without the `$ `, up to the command behind it, and what
/// follows.
fn next_step(text: &str) -> (&str, &str) {
    match text.find("\n$ ") {
        Some(place) => (
            text.get(..=place).unwrap_or(""),
            text.get(place..).unwrap_or("").trim_start(),
        ),
        None => (text, ""),
    }
}

pub(crate) fn play<R: Print>(
    world: &mut World<'_>,
    tally: &mut Tally<'_, R>,
    block: &Block<'_>,
) -> Result<(), Trouble> {
    let mut rest = block.text;
    let mut line = block.line.saturating_add(1);
    for _ in 0..block.text.len() {
        if rest.is_empty() {
            break;
        }
        let Some(text) = rest.strip_prefix("$ ") else {
            return Err(Trouble::Page("a console that doesn't begin with a command"));
        };
        let (step, behind) = next_step(text);
        play_step(world, tally, line, step)?;
        line = line.saturating_add(step.lines().count());
        rest = behind;
    }
    Ok(())
}
