//! Words of a command line that are drawn: those of a command, of which up to four are left out, put in or put in
//! another's place. They ask for a job, or are refused as words.
use office_words::{WordFault, read_words};
use std::alloc::{AllocError, Global};
use std::test::Fail;
use telling::{Trial, twice};
use workload_plant::Dice;

/// So many command lines are drawn.
const CASES: u32 = 2_000;

/// So many of them at least ask for a job, and so many at least are refused.
const LEAST: u32 = 400;

const SEED: u32 = 20_261_130;

/// Each asks for a job.
const LINES: &[&str] = &[
    "load --store f --site s --caller ann --key k1 list",
    "poll --store f --site s --slot 7 roof",
    "order --store f --site s --caller ann --key k1 lim -- -5",
    "void --store f --site s --caller ann --key v1 e 12",
    "report --store f --site s e 1 2",
    "serve --store f --site s --port 8080 --count 1 --timeout 9",
    "run --store f --site s --every 60 --timeout 5 --bind 127.0.0.1 --port 8080",
    "migrate --store f --timeout 9",
    "sim --image i --port 5020",
    "discover --site s m1",
    "plan --site s list",
    "replay",
];

/// What is put in: words of commands, values in their form and out of it, and what stands for none.
const WORDS: &[&str] = &[
    "load",
    "poll",
    "report",
    "serve",
    "help",
    "--help",
    "-h",
    "--",
    "-",
    "--store",
    "--site",
    "--caller",
    "--key",
    "--slot",
    "--port",
    "--count",
    "--timeout",
    "--every",
    "--bind",
    "--image",
    "--store=f",
    "--stor",
    "f",
    "ann",
    "7",
    "-5",
    "0",
    "3601",
    "65536",
    "4294967296",
    "",
    " ",
    "\u{FFFD}",
    "kW\u{B7}h",
];

fn words_of(alloc: Global, line: &str) -> Result<Vec<String>, AllocError> {
    let mut words = Vec::new(alloc);
    for word in line.split([' ']) {
        words.push(String::from_str(alloc, word)?)?;
    }
    Ok(words)
}

/// A place among so many.
fn place_among(dice: &mut Dice, count: usize) -> usize {
    dice.below(u32::try_from(count).unwrap_or(u32::MAX)) as usize
}

fn drawn_of<'a>(dice: &mut Dice, texts: &[&'a str]) -> &'a str {
    let place = place_among(dice, texts.len());
    texts.get(place).copied().unwrap_or("")
}

/// Leaves a word out, puts one in, or puts one in another's place.
fn change(alloc: Global, dice: &mut Dice, words: &mut Vec<String>) -> Result<(), AllocError> {
    let place = place_among(dice, words.len());
    if dice.below(3) > 0 && place < words.len() {
        words.remove(place);
    }
    if dice.below(3) > 0 && place <= words.len() {
        words.insert(place, String::from_str(alloc, drawn_of(dice, WORDS))?)?;
    }
    Ok(())
}

fn drawn(alloc: Global, dice: &mut Dice) -> Result<Vec<String>, AllocError> {
    let mut words = words_of(alloc, drawn_of(dice, LINES))?;
    for _ in 0..dice.below(5) {
        change(alloc, dice, &mut words)?;
    }
    Ok(words)
}

fn asks_for_a_job(alloc: Global, words: Vec<String>) -> Result<bool, AllocError> {
    match read_words(alloc, words) {
        Ok(_) => Ok(true),
        Err(WordFault::Words) => Ok(false),
        Err(WordFault::Memory) => Err(AllocError),
    }
}

fn is_drawn_job(alloc: Global, dice: &mut Dice) -> Result<bool, AllocError> {
    asks_for_a_job(alloc, drawn(alloc, dice)?)
}

fn draws(trial: &Trial<'_>) -> Result<(), AllocError> {
    for line in LINES {
        let words = words_of(trial.alloc(), line)?;
        trial.told(line, &asks_for_a_job(trial.alloc(), words)?, &true);
    }
    let mut dice = Dice::new(SEED);
    let mut jobs = 0u32;
    for _ in 0..CASES {
        if is_drawn_job(trial.alloc(), &mut dice)? {
            jobs = jobs.saturating_add(1);
        }
    }
    let are_both = jobs >= LEAST && CASES.saturating_sub(jobs) >= LEAST;
    trial.told(&("jobs", jobs), &are_both, &true);
    Ok(())
}

#[test]
fn drawn_words_ask_for_a_job_or_are_refused(rt: HostRuntime) -> Result<(), Fail> {
    Ok(twice!(rt, draws)?)
}
