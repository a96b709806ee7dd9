//! The blocks of a page, in their order, in one world.
use crate::cut::Cut;
use crate::disks::Disk;
use crate::wire::Devices;
use crate::world::{Play, World};
use crate::{console, excerpts, exchanges, peers, requests, sources, words};
use case_pages::{Block, Outcomes, Player, Tally, Trouble, play_rows};
use office_http::Routes;
use std::alloc::Global;
use std::cell::RefCell;

#[derive(Clone, Copy)]
pub(crate) struct Pages<'a> {
    pub(crate) rt: &'a HostRuntime,
}

/// Rows whose outcome comes of the row alone: of a kind, which is a word behind a fence's `rows`.
#[derive(Clone, Copy)]
struct Rows<'a> {
    alloc: Global,
    kind: &'a str,
}

impl Outcomes for Rows<'_> {
    fn outcome(&mut self, input: &str) -> Result<String, Trouble> {
        match self.kind {
            "words" => words::job(self.alloc, input),
            "requests" => requests::request(self.alloc, Routes::Basic, input),
            "requests of run" => requests::request(self.alloc, Routes::Extended, input),
            "beginnings" => requests::beginnings(self.alloc, input),
            "source" => sources::reads(self.alloc, input),
            _ => Err(Trouble::Page("no rows of this kind")),
        }
    }
}

/// Plays rows. They are no bytes that come over a connection, so they are played once.
fn play_row_block<R: Print>(
    world: &mut World<'_>,
    tally: &mut Tally<'_, R>,
    block: &Block<'_>,
    kind: &str,
) -> Result<(), Trouble> {
    let alloc = world.rt.alloc();
    let (words, frame) = match kind.strip_prefix("replay ") {
        Some(frame) => ("replay", frame),
        None => (kind.strip_prefix("office ").unwrap_or(""), ""),
    };
    if !world.play.is_first() {
        return Ok(());
    }
    if words.is_empty() {
        return play_rows(tally, block, &mut Rows { alloc, kind });
    }
    world.words = String::from_str(alloc, words)?;
    world.frame = String::from_str(alloc, frame)?;
    play_rows(tally, block, world)
}

fn play_block<R: Print>(
    world: &mut World<'_>,
    tally: &mut Tally<'_, R>,
    block: &Block<'_>,
) -> Result<(), Trouble> {
    if let Some(disk) = block.words.strip_prefix("console") {
        world.disk = Disk::of(disk)?;
        return console::play(world, tally, block);
    }
    if let Some(address) = block.words.strip_prefix("peer ") {
        return peers::wait(world, block, address);
    }
    if let Some(kind) = block.words.strip_prefix("rows ") {
        return play_row_block(world, tally, block, kind);
    }
    if let Some(office) = block.words.strip_prefix("http ") {
        return exchanges::play(world, tally, block, office);
    }
    match block.words.strip_prefix("text of ") {
        Some(name) => excerpts::play(world, tally, block, name),
        None => Ok(()),
    }
}

/// What a play of a page came to: how many calls of its stores were made, and how often it was told that one was
/// refused.
#[derive(Clone, Copy)]
struct Played {
    calls: u32,
    refusals: u32,
}

/// Plays a page in a new world.
fn play_once<'x, R: Print>(
    rt: &'x HostRuntime,
    tally: &mut Tally<'_, R>,
    name: &str,
    page: &'x [Block<'x>],
    play: Play,
) -> Result<Played, Trouble> {
    let devices = RefCell::new(Devices::new(rt.alloc()));
    let mut world = World::new(rt, name, page, &devices, play)?;
    for block in page {
        play_block(&mut world, tally, block)?;
    }
    Ok(Played {
        calls: world.calls,
        refusals: world.refusals,
    })
}

/// Plays a page once for each call of its stores, which is refused, and counts the calls, and those of which that was
/// told just once, as one case.
fn play_refused<'x, R: Print>(
    rt: &'x HostRuntime,
    tally: &mut Tally<'_, R>,
    name: &str,
    page: &'x [Block<'x>],
    block: &Block<'_>,
    calls: u32,
) -> Result<(), Trouble> {
    let mut told_once = 0u32;
    for refused in 0..calls {
        let play = Play {
            refused,
            ..Play::FIRST
        };
        let played = play_once(rt, tally, name, page, play)?;
        told_once = told_once.saturating_add(u32::from(played.refusals == 1));
    }
    let told = format!(in rt.alloc(); "{calls} calls, {told_once} told once\n")?;
    tally.told(block.line, told.as_str(), block.text)
}

impl Player for Pages<'_> {
    /// Plays the page three times: with all that is read whole, cut in halves, and byte by byte; and where it says
    /// how many calls of its stores are refused, once more for each of them.
    fn play<R: Print>(
        &mut self,
        tally: &mut Tally<'_, R>,
        name: &str,
        page: &[Block<'_>],
    ) -> Result<(), Trouble> {
        let first = play_once(self.rt, tally, name, &*page, Play::FIRST)?;
        for cut in [Cut::Halves, Cut::Bytes] {
            let play = Play { cut, ..Play::FIRST };
            let _ = play_once(self.rt, tally, name, &*page, play)?;
        }
        for block in page {
            if block.words == "refusals" {
                play_refused(self.rt, tally, name, &*page, block, first.calls)?;
            }
        }
        Ok(())
    }
}
