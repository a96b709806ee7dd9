//! A fuzzer: for each reader so many inputs that are drawn from a seed. It ends at the first one that comes to anything
//! but a value or a named refusal, that takes more than a second, or after which an object isn't as it was.
ghost use Rattle.point_list.specs.Sites.{IsSound};

use crate::fuzz::dice::{Dice, drawn};
use crate::pace::{granted, refused, timed};
use office_core::Office;
use office_plays::builders::{TWO, office_after, shown, site};
use office_plays::steps::Happens::{self, Load};
use point_list::Site;
use poll_book::MemKeeper;
use std::alloc::{AllocError, Global};
use std::io;
use std::time::{Duration, SystemTime};

mod dice;
mod readers;
mod samples;

/// How many inputs each reader gets.
const CASES: u32 = 100_000;

/// So many requests come to one office.
const CALLS: u32 = 100;

/// What came of an input.
#[derive(Clone, Copy, Debug, PartialEq, Eq)]
pub enum Came {
    Value,
    Refused,
}

/// What ends the fuzzer.
#[derive(Clone, Copy, Debug)]
pub enum Trouble {
    Memory,
    /// What was wrong.
    Wrong(&'static str),
}

impl From<AllocError> for Trouble {
    fn from(_: AllocError) -> Trouble {
        Trouble::Memory
    }
}

/// What reads bytes.
#[derive(Clone, Copy, Debug)]
enum Reader {
    Request,
    Reply,
    Stream,
    List,
    Site,
    Image,
    Script,
}

const READERS: &[Reader] = &[
    Reader::Request,
    Reader::Reply,
    Reader::Stream,
    Reader::List,
    Reader::Site,
    Reader::Image,
    Reader::Script,
];

impl Reader {
    fn samples(self) -> &'static [&'static [u8]] {
        match self {
            Reader::Request => samples::REQUESTS,
            Reader::Reply => samples::REPLIES,
            Reader::Stream => samples::STREAMS,
            Reader::List => samples::LISTS,
            Reader::Site => samples::SITES,
            Reader::Image => samples::IMAGES,
            Reader::Script => samples::SCRIPTS,
        }
    }

    fn read(
        self,
        alloc: Global,
        dice: &mut Dice,
        known: &Site,
        bytes: &[u8],
    ) -> Result<Came, Trouble>
        requires { IsSound known.now }
    {
        match self {
            Reader::Request => readers::request(bytes),
            Reader::Reply => readers::reply(bytes),
            Reader::Stream => readers::stream(alloc, dice, bytes),
            Reader::List => readers::list(alloc, known, bytes),
            Reader::Site => readers::site_file(alloc, bytes),
            Reader::Image => readers::image(alloc, bytes),
            Reader::Script => readers::script(alloc, bytes),
        }
    }
}

/// How many inputs came to what, and the longest time that one took.
#[derive(Drop)]
struct Tally {
    values: u32,
    refused: u32,
    longest: Duration,
}

impl Tally {
    const NONE: Tally = Tally {
        values: 0,
        refused: 0,
        longest: Duration::ZERO,
    };

    /// Counts what came of an input, and ends with a fault where that was no value and no refusal, or came late.
    fn count(
        &mut self,
        rt: &HostRuntime,
        bytes: &[u8],
        came: Result<Came, Trouble>,
        took: Duration,
    ) -> io::Result<()> {
        self.longest = self.longest.max(took);
        if took > Duration::from_secs(1) {
            return told(rt, bytes, Trouble::Wrong("over a second"));
        }
        match came {
            Ok(Came::Value) => self.values = self.values.saturating_add(1),
            Ok(Came::Refused) => self.refused = self.refused.saturating_add(1),
            Err(trouble) => return told(rt, bytes, trouble),
        }
        Ok(())
    }

    fn print(&self, rt: &HostRuntime, name: &str) -> io::Result<()> {
        let Tally {
            values,
            refused,
            longest,
        } = self;
        let micros = longest.as_micros();
        println!(rt; "{name}: {values} values, {refused} refused, the longest {micros} us")
    }
}

/// Prints what was wrong and the input, and ends with a fault.
fn told(rt: &HostRuntime, bytes: &[u8], trouble: Trouble) -> io::Result<()> {
    println!(rt; "{trouble:?}: {bytes:?}")?;
    Err(io::Error::other("an input that comes to neither a value nor a refusal"))
}

/// Tries a reader on one input.
fn try_input(
    rt: &HostRuntime,
    dice: &mut Dice,
    known: &Site,
    reader: Reader,
    tally: &mut Tally,
) -> io::Result<()>
    requires { IsSound known.now }
{
    let bytes = drawn(rt.alloc(), dice, reader.samples())?;
    let (came, took) = timed!(rt, reader.read(rt.alloc(), dice, known, &bytes));
    tally.count(rt, &bytes, came, took)
}

fn try_reader(rt: &HostRuntime, dice: &mut Dice, known: &Site, reader: Reader) -> io::Result<()>
    requires { IsSound known.now }
{
    let mut tally = Tally::NONE;
    for _ in 0..CASES {
        try_input(rt, dice, known, reader, &mut tally)?;
    }
    tally.print(rt, format!(in rt.alloc(); "{reader:?}")?.as_str())
}

const KNOWN: &[Happens] = &[Load(
    "l0",
    "e,m1,holding,107,uint16,,,counter,\nlim,m1,holding,40,uint16,,,setting,\n",
)];

fn office_of(alloc: Global) -> io::Result<Office<MemKeeper>> {
    granted(office_after(alloc, MemKeeper::new(alloc), KNOWN).ok())
}

/// What an office keeps, as a text.
fn kept_by(alloc: Global, office: &mut Office<MemKeeper>) -> io::Result<String> {
    granted(shown(alloc, office).ok())
}

/// What is wrong with an office that was asked for something, if anything is: what it keeps is another, though the
/// answer says that nothing new is kept.
fn wrong_behind(answer: &[u8], before: &str, after: &str) -> Option<Trouble> {
    if before == after || readers::may_keep(answer) {
        return None;
    }
    Some(Trouble::Wrong("an office that isn't as before"))
}

/// What came of a request to an office.
fn call(
    rt: &HostRuntime,
    office: &mut Office<MemKeeper>,
    bytes: &[u8],
) -> io::Result<Result<Came, Trouble>> {
    let before = kept_by(rt.alloc(), office)?;
    let answer = match readers::answer(rt.alloc(), office, bytes) {
        Ok(answer) => answer,
        Err(trouble) => return Ok(Err(trouble)),
    };
    let after = kept_by(rt.alloc(), office)?;
    Ok(
        match wrong_behind(&answer, before.as_str(), after.as_str()) {
            Some(trouble) => Err(trouble),
            None if answer.starts_with(b"HTTP/1.1 2") => Ok(Came::Value),
            None => Ok(Came::Refused),
        },
    )
}

/// Tries an office on one request.
fn try_call(
    rt: &HostRuntime,
    dice: &mut Dice,
    office: &mut Office<MemKeeper>,
    tally: &mut Tally,
) -> io::Result<()> {
    let bytes = drawn(rt.alloc(), dice, samples::CALLS)?;
    let (came, took) = timed!(rt, call(rt, office, &bytes)?);
    tally.count(rt, &bytes, came, took)
}

fn try_office(rt: &HostRuntime, dice: &mut Dice, tally: &mut Tally) -> io::Result<()> {
    let mut office = office_of(rt.alloc())?;
    for _ in 0..CALLS {
        try_call(rt, dice, &mut office, tally)?;
    }
    Ok(())
}

fn try_offices(rt: &HostRuntime, dice: &mut Dice) -> io::Result<()> {
    let mut tally = Tally::NONE;
    for _ in 0..CASES / CALLS {
        try_office(rt, dice, &mut tally)?;
    }
    tally.print(rt, "Call")
}

/// The nanoseconds of the clock's second.
fn nanos(rt: &HostRuntime) -> io::Result<u64> {
    match SystemTime::now(rt)?.duration_since(SystemTime::UNIX_EPOCH) {
        Ok(time) => Ok(u64::from(time.subsec_nanos())),
        Err(_) => Ok(1),
    }
}

/// Tries each reader on inputs that follow from a seed, which it prints.
pub fn run(rt: &HostRuntime, given: Option<u64>) -> io::Result<()> {
    let seed = match given {
        Some(seed) => seed,
        None => nanos(rt)?,
    };
    println!(rt; "seed {seed}")?;
    let mut dice = Dice::new(seed);
    let Ok(known) = site(rt.alloc(), TWO) else {
        return Err(refused());
    };
    for reader in READERS {
        try_reader(rt, &mut dice, &known, *reader)?;
    }
    try_offices(rt, &mut dice)
}
