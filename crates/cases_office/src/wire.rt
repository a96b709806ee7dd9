//! What waits at the addresses of a page, devices of images and a peer with a script, and a connection to it.
ghost use Rattle.std.specs.Prelude.{◌≤◌, IfOk, length};

use crate::cut::{Bytes, Cut};
use crate::peers::Script;
use mb_map::Sim;
use mb_mbap::{Frame, FrameReader};
use std::alloc::{AllocError, Global};
use std::cell::RefCell;
use std::io::{self, ErrorKind, Read, Write};

/// Devices that wait for a connection.
#[derive(Drop)]
struct Waiting {
    address: String,
    sim: Sim,
}

/// The connection that is open: to devices, or to the peer, and what came over it that wasn't read yet.
#[derive(Drop)]
struct Line {
    sim: Option<Sim>,
    stream: FrameReader,
    said: Bytes,
    /// The frames that the peer heard, a line each.
    heard: String,
    frames: usize,
}

/// All that waits for connections in a page. One connection is open at a time.
#[derive(Drop)]
pub(crate) struct Devices {
    alloc: Global,
    waiting: Vec<Waiting>,
    /// It takes any number of connections, and says the same over each.
    peer: Option<Script>,
    line: Option<Line>,
}

impl Devices {
    pub(crate) fn new(alloc: Global) -> Devices {
        Devices {
            alloc,
            waiting: Vec::new(alloc),
            peer: None,
            line: None,
        }
    }

    /// Has devices wait at an address.
    pub(crate) fn wait(&mut self, address: String, sim: Sim) -> Result<(), AllocError> {
        Ok(self.waiting.push(Waiting { address, sim })?)
    }

    /// Has a peer wait in the place of the former one.
    pub(crate) fn wait_with(&mut self, peer: Script) {
        self.peer = Some(peer);
    }

    /// The devices that waited longest at an address. They take one connection.
    fn take_devices(&mut self, address: &str) -> Option<Sim> {
        let place = self
            .waiting
            .iter()
            .position(|it| it.address.as_str() == address)?;
        if place >= self.waiting.len() {
            return None;
        }
        Some(self.waiting.remove(place).sim)
    }

    /// What the peer at an address says at once, and then; `None` where it waits at another one.
    fn greeting(&self, address: &str, cut: Cut) -> Result<Option<Bytes>, AllocError> {
        match &self.peer {
            Some(peer) if peer.address.as_str() == address => {
                let said = Vec::from_slice(self.alloc, peer.said_behind(0))?;
                Ok(Some(Bytes::new(said, cut, peer.fails)))
            }
            _ => Ok(None),
        }
    }

    fn open(&mut self, sim: Option<Sim>, said: Bytes) {
        self.line = Some(Line {
            sim,
            stream: FrameReader::new(self.alloc),
            said,
            heard: String::new(self.alloc),
            frames: 0,
        });
    }

    /// Connects to the peer at an address, or else to devices there; whether something waits there.
    pub(crate) fn connect(&mut self, address: &str, cut: Cut) -> Result<bool, AllocError> {
        if let Some(said) = self.greeting(address, cut)? {
            self.open(None, said);
            return Ok(true);
        }
        let Some(sim) = self.take_devices(address) else {
            return Ok(false);
        };
        self.open(Some(sim), Bytes::new(Vec::new(self.alloc), cut, false));
        Ok(true)
    }

    /// Ends the connection: the frames that the peer heard over it, if it was the peer's.
    pub(crate) fn end(&mut self) -> Option<String> {
        match self.line.take() {
            Some(
                Line {
                    sim: None,
                    heard,
                    ..
                },
            ) => Some(heard),
            _ => None,
        }
    }

    /// The frames that the peer is to hear, and the line of its block.
    pub(crate) fn wanted(&self) -> Option<(&str, usize)> {
        let peer = self.peer.as_ref()?;
        Some((peer.wanted.as_str(), peer.line))
    }

    fn hear(&mut self, bytes: &[u8]) -> io::Result<()> {
        let Some(line) = &mut self.line else {
            return Err(io::Error::from(ErrorKind::NotConnected));
        };
        let fed = line.stream.feed(bytes)?;
        for frame in &fed.frames {
            line.answer(&self.peer, frame)?;
        }
        Ok(())
    }

    fn say(&mut self, room: &mut [u8]) -> io::Result<usize>
        ensures { IfOk result (λ count. count ≤ length room.old) }
    {
        match &mut self.line {
            Some(line) => line.said.read(room),
            None => Err(io::Error::from(ErrorKind::NotConnected)),
        }
    }
}

fn memory() -> io::Error {
    io::Error::from(ErrorKind::OutOfMemory)
}

impl Line {
    /// Takes a frame, and says what the devices or the peer reply.
    fn answer(&mut self, peer: &Option<Script>, frame: &Frame) -> Result<(), AllocError> {
        if let Some(sim) = &mut self.sim {
            for reply in &sim.take(frame).map_err(|_| AllocError)? {
                self.said.add(reply.encode().as_bytes())?;
            }
            return Ok(());
        }
        self.frames = self.frames.saturating_add(1);
        for byte in frame.encode().as_bytes() {
            write!(self.heard, "{byte:02X} ")?;
        }
        self.heard.push_str("\n")?;
        if let Some(peer) = peer {
            self.said.add(peer.said_behind(self.frames))?;
        }
        Ok(())
    }
}

/// The office's end of the connection that is open. What has nothing more to say has ended.
#[derive(Clone, Copy)]
pub(crate) struct End<'a>(pub(crate) &'a RefCell<Devices>);

impl Read for End<'_> {
    ghost use Rattle.std.specs.Prelude.{None};

    ghost remaining = { λ _. None };

    fn read(&mut self, buf: &mut [u8]) -> io::Result<usize> {
        match self.0.try_borrow_mut() {
            Ok(mut devices) => devices.say(buf),
            Err(_) => Err(memory()),
        }
    }
}

impl Write for End<'_> {
    fn write(&mut self, buf: &[u8]) -> io::Result<usize> {
        match self.0.try_borrow_mut() {
            Ok(mut devices) => devices.hear(buf)?,
            Err(_) => return Err(memory()),
        }
        Ok(buf.len())
    }

    fn flush(&mut self) -> io::Result<()> {
        Ok(())
    }
}
