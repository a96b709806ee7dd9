//! The system's sockets and clocks.
ghost use Rattle.std.specs.Prelude.{◌≡◌, ◌/◌, ◌-◌, ◌^◌, IfOk, OnErr, OnOk, min, true, ⊤};
ghost use Rattle.std.specs.Duration.{as_nanos};
ghost use Rattle.run_beat.specs.Places.{no_sockets, with_socket};

use crate::address::{Address, addresses_of};
use crate::ports::Ports;
use crate::teller::Teller;
use crate::tokens::{INPUT, LISTENER, TOKENS, token_of};
use mio::net::{TcpListener, TcpStream};
use mio::unix::SourceFd;
use mio::{Events, Interest, Poll};
use run_beat::{Came, ClockTime, Connected, Moment, Sent, SocketFault, Sockets, Source};
use std::alloc::Global;
use std::io::{self, ErrorKind, Write};
use std::net::{Net, SocketAddr};
use std::os::fd::RawFd;
use std::rt::Clock;
use std::time::{Duration, Instant, SystemTime};

/// The descriptor of standard input (POSIX, `STDIN_FILENO`).
const STANDARD_INPUT: RawFd = 0;

/// After so many milliseconds at most, a caller that couldn't be accepted is tried again.
const RETRY_MILLIS: u64 = 1_000;

/// The sockets of an office's lines and callers, all over one `Poll`, standard error, and the clocks.
#[derive(Drop)]
pub struct System<'a, R, E> {
    rt: &'a R,
    begun: Instant,
    poll: Poll,
    teller: Teller<E>,
    events: Events,
    // A line's at its place.
    addresses: Vec<Address>,
    ports: Ports,
}

/// A span in whole milliseconds.
fn millis(span: Duration) -> u64
    ensures { result ≡ min (as_nanos span / 1000000) (2 ^ 64 - 1) }
{
    u64::try_from(span.as_millis()).unwrap_or(u64::MAX)
}

/// Has the end of standard input reported, where it has one.
fn watch_input(poll: &Poll) {
    // The system refuses what can't be waited for, as a file and `/dev/null`: that never ends.
    let _ = poll
        .registry()
        .register(&mut SourceFd(&STANDARD_INPUT), INPUT, Interest::READABLE);
}

impl<'a, R: Clock + Net, E: Write + Drop> System<'a, R, E> {
    ghost use Rattle.run_sockets.specs.Systems.{places_of};

    /// Listens for callers at an address, for a run that begins now and may connect to these
    /// addresses, each a host and port, a line's at its place. They are looked up, which waits. A line whose
    /// address nobody knows can't be connected to before it is known. The run is
    /// stopped by the end of standard input: where the writers of a pipe are gone, the peer of a
    /// socket sends no more, or a terminal is hung up. What it tells goes to `errors`, which is
    /// standard error.
    pub fn new(
        rt: &'a R,
        alloc: Global,
        listen: SocketAddr,
        addresses: Vec<String>,
        errors: E,
    ) -> io::Result<System<'a, R, E>>
        ensures { IfOk result (λ system. places_of system ≡ no_sockets) }
    {
        let poll = Poll::new(rt)?;
        let mut listener = TcpListener::bind(rt, listen)?;
        poll.registry()
            .register(&mut listener, LISTENER, Interest::READABLE)?;
        watch_input(&poll);
        let teller = Teller::new(&poll, errors);
        Ok(System {
            rt,
            begun: Instant::now(rt)?,
            poll,
            teller,
            events: Events::with_capacity(alloc, TOKENS)?,
            addresses: addresses_of(rt, alloc, addresses)?,
            ports: Ports::new(alloc, listener)?,
        })
    }

    /// Where it listens.
    pub fn address(&self) -> io::Result<SocketAddr> {
        self.ports.door.address()
    }

    /// Registers a connection, and puts it into its place.
    fn hold(&mut self, source: Source, mut stream: TcpStream) -> io::Result<()>
        ensures ok { OnOk result (places_of self.new ≡ with_socket source true (places_of self.old)) }
        ensures err { OnErr result (places_of self.new ≡ places_of self.old) }
    {
        let Some(token) = token_of(source) else {
            return Err(io::Error::from(ErrorKind::NotFound));
        };
        let both = Interest::READABLE | Interest::WRITABLE;
        self.poll.registry().register(&mut stream, token, both)?;
        // What is short is to go at once; where the system refuses that, it goes a little later.
        let _ = stream.set_nodelay(true);
        self.ports.put(source, stream);
        Ok(())
    }

    /// A line answers where it is.
    fn stay(&mut self, line: usize)
        ensures { self.new.ports ≡ self.old.ports }
    {
        if let Some(address) = self.addresses.get_mut(line) {
            address.stay();
        }
    }

    /// Begins to connect to a line.
    fn begin(&mut self, line: usize) -> io::Result<()>
        ensures ok { OnOk result (places_of self.new ≡ with_socket (Source.Line line) true (places_of self.old)) }
        ensures err { OnErr result (places_of self.new ≡ places_of self.old) }
    {
        let Some(address) = self.addresses.get_mut(line).and_then(Address::next) else {
            return Err(io::Error::from(ErrorKind::NotFound));
        };
        let stream = TcpStream::connect(self.rt, address)?;
        self.hold(Source::Line(line), stream)
    }
}

impl<R: Clock + Net, E: Write + Drop> Sockets for System<'_, R, E> {
    ghost use Rattle.run_sockets.specs.Systems.{is_ended, is_waited_at, places_of};

    ghost places = { places_of };

    ghost waiting = { is_waited_at };

    ghost stopped = { is_ended };

    // What a socket of the system holds isn't known.
    ghost acts = { λ _ _ _. ⊤ };

    ghost rests = { λ _. tt };

    ghost joins = { λ _ _ _ _ _ _ _. tt };

    fn now(&self) -> Result<Moment, SocketFault> {
        match self.begun.elapsed(self.rt) {
            Ok(elapsed) => Ok(Moment::new(millis(elapsed))),
            Err(_) => Err(SocketFault::Clock),
        }
    }

    fn clock(&self) -> Result<ClockTime, SocketFault> {
        let Ok(time) = SystemTime::now(self.rt) else {
            return Err(SocketFault::Clock);
        };
        match time.duration_since(SystemTime::UNIX_EPOCH) {
            Ok(since) => Ok(ClockTime::new(millis(since))),
            Err(_) => Err(SocketFault::Clock),
        }
    }

    fn wait(&mut self, most: u64) -> Result<(), SocketFault> {
        let most = if self.ports.door.is_stuck() {
            most.min(RETRY_MILLIS)
        } else {
            most
        };
        let most = Some(Duration::from_millis(most));
        if self.poll.poll(&mut self.events, most).is_err() {
            return Err(SocketFault::Wait);
        }
        self.ports.note_all(&self.events);
        self.ports.door.meet();
        Ok(())
    }

    fn is_stopped(&self) -> bool {
        self.ports.is_stopped
    }

    fn connect(&mut self, line: usize) -> Result<(), SocketFault> {
        match self.begin(line) {
            Ok(()) => Ok(()),
            Err(_) => Err(SocketFault::Connect),
        }
    }

    fn look_up(&mut self, line: usize) -> bool {
        match self.addresses.get_mut(line) {
            Some(address) => address.look_up(self.rt),
            None => false,
        }
    }

    fn connected(&self, line: usize) -> Connected {
        self.ports.connected(line)
    }

    fn has_caller(&self) -> bool {
        self.ports.door.has_caller()
    }

    fn accept(&mut self, caller: usize) -> bool {
        if !self.ports.is_free(caller) {
            return false;
        }
        match self.ports.door.take() {
            Some(stream) => self.hold(Source::Caller(caller), stream).is_ok(),
            None => false,
        }
    }

    fn read(&mut self, source: Source, piece: &mut [u8]) -> Came {
        let came = self.ports.read(source, piece);
        if let (Source::Line(line), Came::Bytes(_)) = (source, came) {
            self.stay(line);
        }
        came
    }

    fn write(&mut self, source: Source, bytes: &[u8]) -> Sent {
        self.ports.write(source, bytes)
    }

    fn tell(&mut self, bytes: &[u8]) -> Sent {
        self.teller
            .write(&self.poll, &mut self.ports.may_tell, bytes)
    }

    fn finish(&mut self, source: Source) {
        self.ports.finish(source);
    }

    fn close(&mut self, source: Source) {
        self.ports.close(source);
    }
}
