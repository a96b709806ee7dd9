//! The pages that a program's arguments name.
use crate::{Block, Tally, Trouble, blocks_of};
use std::process::ExitCode;
use std::rt::{Env, Files};
use std::{env, fs};

/// What plays the blocks of pages.
pub trait Player {
    /// Plays a page of this name. A block of another kind is passed over: the number of a page's cases shows it.
    fn play<R: Print>(
        &mut self,
        tally: &mut Tally<'_, R>,
        name: &str,
        page: &[Block<'_>],
    ) -> Result<(), Trouble>;
}

/// Plays a page, prints its name and how many cases it has, and gives how many came out otherwise.
fn play_page<R: Files + Print + AllocGlobal, P: Player>(
    rt: &R,
    player: &mut P,
    name: &str,
) -> Result<u64, Trouble> {
    let text = fs::read_to_string(rt, name)?;
    let page = blocks_of(rt.alloc(), text.as_str())?;
    let mut tally = Tally::new(rt, name);
    player.play(&mut tally, name, &page)?;
    let cases = tally.cases();
    println!(rt; "{name} {cases}")?;
    Ok(tally.differences())
}

/// Plays the pages that the arguments name, and gives the program's status: 1 where a case came out otherwise or
/// a page can't be played.
pub fn play_pages<R: Env + Files + Print + AllocGlobal, P: Player>(
    rt: &R,
    player: &mut P,
) -> Result<ExitCode, Trouble> {
    let mut differences = 0u64;
    for name in env::args(rt)?.skip(1) {
        let name = name.as_str();
        match play_page(rt, player, name) {
            Ok(count) => differences = differences.saturating_add(count),
            Err(trouble) => {
                println!(rt; "{name}: {trouble}")?;
                differences = differences.saturating_add(1);
            }
        }
    }
    Ok(ExitCode::from(u8::from(differences > 0)))
}
