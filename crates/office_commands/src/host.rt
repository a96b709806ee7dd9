//! Where the files, the streams and the store of a command are.
ghost use Rattle.point_list.specs.Sites.{IsSound};

use crate::{Failure, Stay, Task};
use office_core::Office;
use point_list::Site;
use poll_book::Keeper;
use std::alloc::Global;
use std::fmt;
use std::io::{self, Read, Write};

/// What a command works on: the machine that the program runs on, or what a test has in its place.
pub trait Host {
    type Input: Read + Drop;
    /// What comes over a connection.
    type Reader: Read + Drop;
    /// What goes over a connection.
    type Writer: Write + Drop;

    fn alloc(&self) -> Global;

    /// Standard input.
    fn input(&mut self) -> Self::Input;

    /// Writes all of this to standard output.
    fn print(&mut self, bytes: &[u8]) -> io::Result<()>;

    /// Tells on standard error what ended a command.
    fn complain(&mut self, failure: &Failure) -> io::Result<()>;

    /// The whole of a file.
    fn read_file(&mut self, path: &str) -> Result<Vec<u8>, Failure>;

    /// Connects to the devices at a line's address. Connecting, each read and each write wait for so many seconds
    /// at most, and all reads and all writes for twelve times as many.
    fn connect(
        &mut self,
        address: &str,
        seconds: u16,
    ) -> Result<(Self::Reader, Self::Writer), Failure>;

    /// Waits for one connection on a port of this machine.
    fn accept(&mut self, port: u16) -> Result<(Self::Reader, Self::Writer), Failure>;

    /// Answers so many connections on a port of this machine, one after the other; without a count there is no
    /// end. Each read and each write wait for so many seconds at most.
    fn serve<K: Keeper>(
        &mut self,
        office: &mut Office<K>,
        port: u16,
        count: Option<u32>,
        seconds: u16,
    ) -> Result<(), Failure>;

    /// Keeps an office up, by `office_stay::stay_up`.
    fn stay_up<K: Keeper>(
        &mut self,
        office: &mut Office<K>,
        stay: &Stay<'_>,
    ) -> Result<(), Failure>;
}

/// What became of a store that was to be of today's version.
#[derive(Clone, Copy, Debug, PartialEq, Eq)]
pub enum Migration {
    /// It was of an earlier one.
    Done,
    /// It is as it was.
    Already,
}

impl fmt::Display for Migration {
    fn fmt<W: fmt::Write>(&self, f: &mut fmt::Formatter<W>) -> fmt::Result {
        f.write_str(match self {
            Migration::Done => "migrated",
            Migration::Already => "already",
        })
    }
}

/// A host that has stores too.
pub trait Stores: Host {
    /// Does a task in the office of a store over a site, by `work_in`. A store that another process has is waited for
    /// as long as the task says.
    fn work(&mut self, store: &str, site: Site, task: &Task<'_>) -> Result<(), Failure>
        requires { IsSound site };

    /// Moves a store of an earlier version to today's, whole or not at all. One that another process has is waited
    /// for as many seconds.
    fn migrate(&mut self, store: &str, seconds: u16) -> Result<Migration, Failure>;
}
