//! The machine that the program runs on: its files, its sockets, and the stores in its files.
ghost use Rattle.point_list.specs.Sites.{IsSound};

use crate::stores::{migrate_on, work_on};
use office_commands::{
    Failure, Fault, Host, Migration, Stay, Stores, Task, Timed, Why, addresses_of, connect,
    door_of, serve, take_next,
};
use office_core::Office;
use office_stay::stay_up;
use point_list::Site;
use poll_book::Keeper;
use run_sockets::System;
use std::alloc::Global;
use std::fs;
use std::io::{self, ErrorKind, StdinLock, Write};
use std::net::{SocketAddr, TcpListener, TcpStream};
use std::rt::Stderr;
use std::time::Duration;

#[derive(Drop)]
pub(crate) struct Machine<'a>(pub(crate) &'a HostRuntime);

fn seconds(count: u16) -> Duration {
    Duration::from_secs(u64::from(count))
}

/// Says where it listens. Where that can't be written, callers are answered all the same.
fn announce(rt: &HostRuntime, address: SocketAddr) {
    let _ = eprintln!(rt; "office: listening on {address}");
}

/// Listens on this host, and says so.
fn listen(rt: &HostRuntime, port: u16) -> Result<TcpListener, Failure> {
    let (listener, address) = match bound(rt, port) {
        Ok(bound) => bound,
        Err(error) => return Err(on_port(rt, error, port)),
    };
    announce(rt, address);
    Ok(listener)
}

fn bound(rt: &HostRuntime, port: u16) -> io::Result<(TcpListener, SocketAddr)> {
    let listener = TcpListener::bind(rt, ("127.0.0.1", port))?;
    let address = listener.local_addr()?;
    Ok((listener, address))
}

/// The sockets of an office that stays up: they listen already, which is said.
fn system_of<'a, K: Keeper>(
    rt: &'a HostRuntime,
    office: &Office<K>,
    stay: &Stay<'_>,
) -> Result<System<'a, HostRuntime, Stderr>, Failure> {
    let door = door_of(rt.alloc(), stay)?;
    let addresses = addresses_of(rt.alloc(), office.site())?;
    let system = match System::new(rt, rt.alloc(), door, addresses, rt.stderr()) {
        Ok(system) => system,
        Err(error) => return Err(Failure::of_line(error).of(rt.alloc(), stay.bind)),
    };
    let address = match system.address() {
        Ok(address) => address,
        Err(error) => return Err(Failure::of_line(error)),
    };
    announce(rt, address);
    Ok(system)
}

/// A port of this host failed.
fn on_port(rt: &HostRuntime, error: io::Error, port: u16) -> Failure {
    let failure = Failure::of_line(error);
    match format!(in rt.alloc(); "127.0.0.1:{port}") {
        Ok(address) => failure.of(rt.alloc(), address.as_str()),
        Err(_) => failure,
    }
}

/// Both ends of a stream to devices, which waits so many seconds for each answer.
fn device_ends(
    rt: &HostRuntime,
    stream: TcpStream,
    timeout: u16,
) -> io::Result<(Timed<'_, HostRuntime>, Timed<'_, HostRuntime>)> {
    let same = stream.try_clone()?;
    let reader = Timed::to_devices(rt, stream, timeout)?;
    let writer = Timed::to_devices(rt, same, timeout)?;
    Ok((reader, writer))
}

/// Both ends of a stream that waits as long as its peer likes.
fn endless_ends(
    rt: &HostRuntime,
    stream: TcpStream,
) -> io::Result<(Timed<'_, HostRuntime>, Timed<'_, HostRuntime>)> {
    let same = stream.try_clone()?;
    Ok((Timed::endless(rt, stream), Timed::endless(rt, same)))
}

impl<'a> Host for Machine<'a> {
    type Input = StdinLock<'static>;

    type Reader = Timed<'a, HostRuntime>;

    type Writer = Timed<'a, HostRuntime>;

    fn alloc(&self) -> Global {
        self.0.alloc()
    }

    fn input(&mut self) -> StdinLock<'static> {
        self.0.reader()
    }

    fn print(&mut self, bytes: &[u8]) -> io::Result<()> {
        io::writer(self.0).write_all(bytes)
    }

    fn complain(&mut self, failure: &Failure) -> io::Result<()> {
        eprintln!(self.0; "office: {failure}")
    }

    fn read_file(&mut self, path: &str) -> Result<Vec<u8>, Failure> {
        match fs::read(self.0, path) {
            Ok(bytes) => Ok(bytes),
            Err(error) if error.kind() == ErrorKind::OutOfMemory => {
                Err(Failure::from(Fault::Memory))
            }
            Err(error) => {
                Err(Failure::new(Fault::File, Why::System(error)).of(self.alloc(), path))
            }
        }
    }

    fn connect(
        &mut self,
        address: &str,
        timeout: u16,
    ) -> Result<(Self::Reader, Self::Writer), Failure> {
        let stream = match connect(self.0, address, seconds(timeout)) {
            Ok(stream) => stream,
            Err(failure) => return Err(failure.of(self.alloc(), address)),
        };
        match device_ends(self.0, stream, timeout) {
            Ok(ends) => Ok(ends),
            Err(error) => Err(Failure::of_line(error).of(self.alloc(), address)),
        }
    }

    fn accept(&mut self, port: u16) -> Result<(Self::Reader, Self::Writer), Failure> {
        let listener = listen(self.0, port)?;
        match endless_ends(self.0, take_next(&listener)?) {
            Ok(ends) => Ok(ends),
            Err(error) => Err(Failure::of_line(error)),
        }
    }

    fn serve<K: Keeper>(
        &mut self,
        office: &mut Office<K>,
        port: u16,
        count: Option<u32>,
        timeout: u16,
    ) -> Result<(), Failure> {
        let listener = listen(self.0, port)?;
        serve(self.0, office, &listener, count, seconds(timeout))
    }

    fn stay_up<K: Keeper>(
        &mut self,
        office: &mut Office<K>,
        stay: &Stay<'_>,
    ) -> Result<(), Failure> {
        let mut system = system_of(self.0, office, stay)?;
        stay_up(self.0.alloc(), office, &mut system, stay)
    }
}

impl Stores for Machine<'_> {
    fn work(&mut self, store: &str, site: Site, task: &Task<'_>) -> Result<(), Failure> {
        work_on(self, store, site, task)
    }

    fn migrate(&mut self, store: &str, timeout: u16) -> Result<Migration, Failure> {
        migrate_on(self.0, store, timeout)
    }
}
