//! How much of a job is done, over which database, and how its digest is printed. What names the database's place opens
//! it and does no more: a proof that carries its files is a dear one.
use crate::reports::report;
use crate::rounds::poll;
use poll_book::Keeper;
use sqlite::{Alter, Connection, Files, Options};
use sqlite_disk::Memory;
use std::io;
use store_plays::kept;
use workload_plant::Digest;

#[derive(Clone, Copy)]
pub enum Size {
    /// As bench/run times it.
    Whole,
    /// A little.
    Small,
}

impl Size {
    /// So many, or as many as a little of it has.
    pub fn of(self, whole: u32, small: u32) -> u32 {
        match self {
            Size::Whole => whole,
            Size::Small => small,
        }
    }
}

#[derive(Clone, Copy)]
pub enum Task {
    Rounds(Size),
    Reports(Size),
}

/// All pages stay in the cache, and the log stays short: the memory in the place of a disk copies it at each sync.
const PAGES: Options = Options {
    cache_pages: 10_000,
    spill_pages: 10_000,
    checkpoint_frames: 100,
    seed: 7,
};

/// What there is; a job ends where there is nothing.
pub fn granted<T>(answer: Option<T>) -> io::Result<T> {
    match answer {
        Some(answer) => Ok(answer),
        None => Err(io::Error::other("it was refused")),
    }
}

pub fn print_digest(rt: &impl Print, job: &str, digest: &Digest) -> io::Result<()> {
    let number = digest.number();
    println!(rt; "{job} {number}")
}

fn done<K: Keeper + Drop>(rt: &HostRuntime, keeper: K, seed: u32, task: Task) -> io::Result<()> {
    match task {
        Task::Rounds(size) => poll(rt, keeper, seed, size),
        Task::Reports(size) => report(rt, keeper, seed, size),
    }
}

// A call over any keeper is dear where the keeper is a database's, so there is one.
fn done_over<S: Alter + Drop>(
    rt: &HostRuntime,
    connection: Connection<S>,
    seed: u32,
    task: Task,
) -> io::Result<()> {
    let keeper = granted(kept(connection, true).ok())?;
    done(rt, keeper, seed, task)
}

/// Does a task over a new database, a B-tree of pages and a log in memory.
pub fn done_in_pages(rt: &HostRuntime, seed: u32, task: Task) -> io::Result<()> {
    let files = Files {
        log: Memory::new(rt.alloc()),
        db: Memory::new(rt.alloc()),
    };
    match Connection::open_files(rt.alloc(), files, PAGES) {
        Ok(connection) => done_over(rt, connection, seed, task),
        Err(_) => Err(io::Error::other("it was refused")),
    }
}
