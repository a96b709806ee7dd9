//! What a page has in the place of a machine: its files, its stores in memory or in files, and its devices.
ghost use Rattle.point_list.specs.Sites.{IsSound};

use crate::cut::{Bytes, Cut};
use crate::databases::{connected, file_of, moved, worked_in};
use crate::disks::Disk;
use crate::wire::{Devices, End};
use case_pages::Block;
use mb_mbap::Counted;
use office_commands::{Failure, Fault, Host, Migration, Stay, Stores, Task, Why};
use office_core::Office;
use office_files::{busy, tries, work_with};
use office_net::serve_one;
use office_plays::refusing::Refusing;
use office_words::Errand;
use point_list::Site;
use poll_book::Keeper;
use sqlite::{Connection, FileStore, Files};
use sqlite_disk::Memory;
use std::alloc::{AllocError, Global};
use std::cell::RefCell;
use std::fs;
use std::io::{self, ErrorKind};

/// The system's number for a connection that is refused, `ECONNREFUSED`.
const REFUSED: i32 = 111;

/// Its number for a file that isn't there, `ENOENT`.
const ABSENT: i32 = 2;

/// A store in memory.
#[derive(Drop)]
struct Store {
    name: String,
    keeper: Refusing,
}

/// A store that is a file, of the page's folder or made by a command, and its log.
#[derive(Drop)]
struct Database {
    name: String,
    files: Files<Memory>,
}

/// How a page is played.
#[derive(Clone, Copy)]
pub(crate) struct Play {
    pub(crate) cut: Cut,
    /// The call of a store that is refused, counted from 0 over the page.
    pub(crate) refused: u32,
}

impl Play {
    /// All comes whole, and nothing is refused.
    pub(crate) const FIRST: Play = Play {
        cut: Cut::Whole,
        refused: u32::MAX,
    };

    /// Whether the page is played for the first time, which counts its cases.
    pub(crate) fn is_first(self) -> bool {
        self.cut == Cut::Whole && self.refused == u32::MAX
    }
}

/// A page's world, of which nothing was written yet.
#[derive(Drop)]
pub(crate) struct World<'a> {
    pub(crate) rt: &'a HostRuntime,
    pub(crate) blocks: &'a [Block<'a>],
    /// The folder of files that no block is, with a slash at its end.
    pub(crate) folder: String,
    pub(crate) devices: &'a RefCell<Devices>,
    pub(crate) play: Play,
    stores: Vec<Store>,
    databases: Vec<Database>,
    /// The disk of the stores that are made.
    pub(crate) disk: Disk,
    /// The store that a server of the page has open, which has no name where there is none.
    pub(crate) held: String,
    /// How many calls of stores were made.
    pub(crate) calls: u32,
    /// Standard input of the next command.
    pub(crate) input: Bytes,
    /// The words behind the program's name for which rows are standard inputs, and the file in which such an input
    /// stands in the place of `...`, which has no name where there is none.
    pub(crate) words: String,
    pub(crate) frame: String,
    /// The words of the office that serves, behind the program's name.
    pub(crate) server: String,
    /// The bytes of the request that is served next.
    pub(crate) request: Vec<u8>,
    /// What was written to standard output, to standard error, or to the caller of a request.
    pub(crate) output: Vec<u8>,
    /// Whether standard output is full.
    pub(crate) output_is_full: bool,
    /// Whether standard error is.
    pub(crate) errors_are_full: bool,
    /// How often it was told that memory or a store refused.
    pub(crate) refusals: u32,
}

/// The folder of a page.
fn folder_of(page: &str) -> &str {
    match page.rfind('/') {
        Some(place) => page.get(..=place).unwrap_or(""),
        None => "",
    }
}

/// Whether it is a file that isn't there.
pub(crate) fn is_absent(failure: &Failure) -> bool {
    match failure.why {
        Why::System(error) => error.kind() == ErrorKind::NotFound,
        _ => false,
    }
}

impl<'a> World<'a> {
    pub(crate) fn new(
        rt: &'a HostRuntime,
        page: &str,
        blocks: &'a [Block<'a>],
        devices: &'a RefCell<Devices>,
        play: Play,
    ) -> Result<World<'a>, AllocError> {
        let alloc = rt.alloc();
        Ok(World {
            rt,
            blocks,
            folder: String::from_str(alloc, folder_of(page))?,
            devices,
            play,
            stores: Vec::new(alloc),
            databases: Vec::new(alloc),
            disk: Disk::Sound,
            held: String::new(alloc),
            calls: 0,
            input: Bytes::new(Vec::new(alloc), play.cut, false),
            words: String::new(alloc),
            frame: String::new(alloc),
            server: String::new(alloc),
            request: Vec::new(alloc),
            output: Vec::new(alloc),
            output_is_full: false,
            errors_are_full: false,
            refusals: 0,
        })
    }

    /// A standard input that ends at once.
    pub(crate) fn no_input(&self) -> Bytes {
        Bytes::new(Vec::new(self.rt.alloc()), self.play.cut, false)
    }

    /// The file of a block, or else of the page's folder.
    pub(crate) fn file(&self, path: &str) -> Result<Vec<u8>, Failure> {
        let alloc = self.rt.alloc();
        for block in self.blocks {
            if block.file_name() == Some(path) {
                return Ok(Vec::from_slice(alloc, block.text.as_bytes())?);
            }
        }
        let folder = self.folder.as_str();
        let full = format!(in alloc; "{folder}{path}")?;
        match fs::read(self.rt, full) {
            Ok(bytes) => Ok(bytes),
            Err(error) if error.kind() == ErrorKind::OutOfMemory => {
                Err(Failure::from(Fault::Memory))
            }
            Err(error) => Err(Failure::new(Fault::File, Why::System(error)).of(alloc, path)),
        }
    }

    /// It was told that memory or a store refused.
    pub(crate) fn count_refusal(&mut self) {
        self.refusals = self.refusals.saturating_add(1);
    }

    /// Whether a server of the page has this store open.
    fn is_held(&self, store: &str) -> bool {
        !store.is_empty() && self.held.as_str() == store
    }

    /// Waits so many seconds, of which none passes here, for a store that a server of the page may have open.
    fn wait_for(&self, store: &str, seconds: u16) -> Result<(), Failure> {
        for _ in 0..tries(seconds) {
            if !self.is_held(store) {
                return Ok(());
            }
        }
        Err(busy())
    }

    /// The place of a store among those in memory, if it is one.
    fn kept(&self, name: &str) -> Option<usize> {
        self.stores.iter().position(|it| it.name.as_str() == name)
    }

    /// Takes the keeper of a store out of the world, a new one if there is none.
    fn take_keeper(&mut self, name: &str) -> Refusing {
        let mut keeper = match self.kept(name) {
            Some(place) if place < self.stores.len() => self.stores.remove(place).keeper,
            _ => self.disk.keeper(self.rt.alloc(), self.play.refused),
        };
        keeper.calls = self.calls;
        keeper
    }

    fn put_keeper(&mut self, name: String, keeper: Refusing) -> Result<(), AllocError> {
        self.calls = keeper.calls;
        Ok(self.stores.push(Store { name, keeper })?)
    }

    /// The bytes of a file, if there is one. What is there and can't be read, as a folder, can't be opened.
    fn stored(&self, name: &str) -> Result<Option<Vec<u8>>, Failure> {
        match self.file(name) {
            Ok(bytes) => Ok(Some(bytes)),
            Err(failure) => {
                if failure.fault == Fault::Memory {
                    Err(failure)
                } else if is_absent(&failure) {
                    Ok(None)
                } else {
                    Err(Failure::unopened(self.rt.alloc(), name))
                }
            }
        }
    }

    /// The place of a store among the databases, if it is a file that was made, or one of the page's folder.
    fn database(&mut self, name: &str) -> Result<Option<usize>, Failure> {
        let place = self
            .databases
            .iter()
            .position(|it| it.name.as_str() == name);
        if place.is_some() {
            return Ok(place);
        }
        match self.stored(name)? {
            Some(bytes) => Ok(Some(self.add_database(name, &bytes)?)),
            None => Ok(None),
        }
    }

    /// Whether a store that is no file yet would be one.
    fn makes_file(&self, name: &str) -> bool {
        matches!(self.disk, Disk::Files) && self.kept(name).is_none()
    }

    /// The place of a store that a task works in among the databases, if it is to be one.
    fn database_for_task(&mut self, name: &str) -> Result<Option<usize>, Failure> {
        let place = self.database(name)?;
        if place.is_none() && self.makes_file(name) {
            return Ok(Some(self.add_database(name, &[])?));
        }
        Ok(place)
    }

    /// Adds a store in a file of these bytes to the databases, and gives its place.
    fn add_database(&mut self, name: &str, bytes: &[u8]) -> Result<usize, AllocError> {
        let alloc = self.rt.alloc();
        let files = Files {
            log: file_of(alloc, &[])?,
            db: file_of(alloc, bytes)?,
        };
        let name = String::from_str(alloc, name)?;
        self.push_database(Database { name, files })?;
        Ok(self.databases.len().saturating_sub(1))
    }

    fn push_database(&mut self, database: Database) -> Result<(), AllocError> {
        Ok(self.databases.push(database)?)
    }

    /// The files of the database at a place are these from here on.
    fn put_files(&mut self, place: usize, files: Files<Memory>) {
        if let Some(database) = self.databases.get_mut(place) {
            database.files = files;
        }
    }
}

/// A file isn't there.
fn absent(alloc: Global, path: &str) -> Failure {
    let error = io::Error::from_raw_os_error(ABSENT);
    Failure::new(Fault::File, Why::System(error)).of(alloc, path)
}

/// Answers a request with the bytes that are given back.
fn answered<K: Keeper>(
    alloc: Global,
    office: &mut Office<K>,
    request: Vec<u8>,
    cut: Cut,
) -> Option<Vec<u8>> {
    let mut reader = Counted::new(Bytes::new(request, cut, false));
    let mut writer = Counted::new(Vec::new(alloc));
    match serve_one(alloc, office, &mut reader, &mut writer) {
        Ok(_) => Some(writer.into_inner()),
        Err(_) => None,
    }
}

/// The database at a place.
fn connected_at(world: &World<'_>, place: usize) -> Result<Connection<FileStore<Memory>>, Failure> {
    match world.databases.get(place) {
        Some(database) => connected(world.rt.alloc(), database.name.as_str(), &database.files),
        None => Err(Failure::from(Fault::File)),
    }
}

/// Does a task over the database at a place.
fn worked_at(
    world: &mut World<'_>,
    place: usize,
    site: Site,
    task: &Task<'_>,
) -> Result<(), Failure>
    requires { IsSound site }
{
    let connection = connected_at(world, place)?;
    let (done, store) = worked_in(world, connection, site, task);
    world.put_files(place, store.close());
    done
}

/// Moves the database at a place to today's version.
fn moved_at(world: &mut World<'_>, place: usize) -> Result<Migration, Failure> {
    let (done, store) = moved(connected_at(world, place)?);
    world.put_files(place, store.close());
    done
}

impl<'a> Host for World<'a> {
    type Input = Bytes;

    type Reader = End<'a>;

    type Writer = End<'a>;

    fn alloc(&self) -> Global {
        self.rt.alloc()
    }

    fn input(&mut self) -> Bytes {
        let none = self.no_input();
        std::mem::replace(&mut self.input, none)
    }

    fn print(&mut self, bytes: &[u8]) -> io::Result<()> {
        if self.output_is_full {
            return Err(io::Error::from(ErrorKind::StorageFull));
        }
        Ok(self.output.extend_from_slice(bytes)?)
    }

    fn complain(&mut self, failure: &Failure) -> io::Result<()> {
        if self.errors_are_full {
            return Err(io::Error::from(ErrorKind::StorageFull));
        }
        let text = format!(in self.rt.alloc(); "office: {failure}\n")?;
        Ok(self.output.extend_from_slice(text.as_bytes())?)
    }

    fn read_file(&mut self, path: &str) -> Result<Vec<u8>, Failure> {
        self.file(path)
    }

    fn connect(&mut self, address: &str, _seconds: u16) -> Result<(End<'a>, End<'a>), Failure> {
        let Ok(mut devices) = self.devices.try_borrow_mut() else {
            return Err(Failure::from(Fault::Line));
        };
        if devices.connect(address, self.play.cut)? {
            Ok((End(self.devices), End(self.devices)))
        } else {
            let refused = io::Error::from_raw_os_error(REFUSED);
            Err(Failure::new(Fault::Line, Why::System(refused)).of(self.alloc(), address))
        }
    }

    /// The peer at this port connects at once.
    fn accept(&mut self, port: u16) -> Result<(End<'a>, End<'a>), Failure> {
        let address = format!(in self.rt.alloc(); "127.0.0.1:{port}")?;
        self.connect(address.as_str(), 0)
    }

    /// A page has no clock, and no callers that come by themselves.
    fn stay_up<K: Keeper>(
        &mut self,
        _office: &mut Office<K>,
        _stay: &Stay<'_>,
    ) -> Result<(), Failure> {
        Err(Failure::from(Fault::Line))
    }

    /// Answers the request of the page.
    fn serve<K: Keeper>(
        &mut self,
        office: &mut Office<K>,
        _port: u16,
        _count: Option<u32>,
        _seconds: u16,
    ) -> Result<(), Failure> {
        let alloc = self.rt.alloc();
        let request = std::mem::replace(&mut self.request, Vec::new(alloc));
        let Some(answer) = answered(alloc, office, request, self.play.cut) else {
            return Err(Failure::from(Fault::Line));
        };
        self.output.extend_from_slice(&answer)?;
        Ok(())
    }
}

impl Stores for World<'_> {
    fn work(&mut self, store: &str, site: Site, task: &Task<'_>) -> Result<(), Failure> {
        let is_server = matches!(task.errand, Errand::Serve { .. });
        if !is_server {
            self.wait_for(store, task.timeout)?;
        }
        if let Some(place) = self.database_for_task(store)? {
            return worked_at(self, place, site, task);
        }
        let name = String::from_str(self.rt.alloc(), store)?;
        let keeper = self.take_keeper(store);
        let (done, keeper) = work_with(self, keeper, site, task);
        self.put_keeper(name, keeper)?;
        done
    }

    /// Stores that are no files are of today's version.
    fn migrate(&mut self, store: &str, seconds: u16) -> Result<Migration, Failure> {
        self.wait_for(store, seconds)?;
        if let Some(place) = self.database(store)? {
            return moved_at(self, place);
        }
        if self.makes_file(store) {
            return Err(absent(self.rt.alloc(), store));
        }
        Ok(Migration::Already)
    }
}
