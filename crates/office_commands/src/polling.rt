//! Polling a line.
use crate::{Failure, Fault, Why};
use mb_mbap::Counted;
use office_core::Office;
use office_net::{Round, poll_round};
use poll_book::Keeper;
use std::alloc::{AllocError, Global};
use std::io::{self, ErrorKind, Read, Write};
use std::net::{Net, SocketAddr, TcpStream, ToSocketAddrs};
use std::time::Duration;

/// A stream whose reads and writes wait for so long at most.
fn with_timeouts(stream: TcpStream, timeout: Duration) -> io::Result<TcpStream> {
    stream.set_nodelay(true)?;
    stream.set_read_timeout(Some(timeout))?;
    stream.set_write_timeout(Some(timeout))?;
    Ok(stream)
}

fn connect_to<N: Net<Stream = TcpStream>>(
    net: &N,
    address: &SocketAddr,
    timeout: Duration,
) -> io::Result<TcpStream> {
    let stream = TcpStream::connect_timeout(net, address, timeout)?;
    // The system may join a socket to itself at a port of its own where nobody listens.
    if stream.local_addr()? == stream.peer_addr()? {
        return Err(io::Error::from(ErrorKind::ConnectionRefused));
    }
    with_timeouts(stream, timeout)
}

/// Connects to a host and port as `127.0.0.1:1502`, where a host has several addresses to the first
/// that answers. Connecting to each, and each read and write after that, waits for `timeout` at most.
pub fn connect<N: Net<Stream = TcpStream>>(
    net: &N,
    address: &str,
    timeout: Duration,
) -> Result<TcpStream, Failure> {
    let found = match address.to_socket_addrs(net) {
        Ok(found) => found,
        Err(error) => return Err(Failure::of_line(error)),
    };
    let mut failure = Failure::new(Fault::Line, Why::Words("no host of this name"));
    for one in found {
        match connect_to(net, &one, timeout) {
            Ok(stream) => return Ok(stream),
            Err(error) => failure = Failure::of_line(error),
        }
    }
    Err(failure)
}

fn round_text(alloc: Global, round: &Round) -> Result<String, AllocError> {
    let Round {
        asked,
        recorded,
        excepted,
        refused,
    } = *round;
    format!(in alloc; "asked {asked} recorded {recorded} excepted {excepted} refused {refused}\n")
}

/// Polls the devices of a line for a slot over a connection to the line's address, and gives what is
/// printed: `asked A recorded B excepted C refused D`, the queries, the new readings, the exceptions
/// and the frames that answered none of the queries. What was recorded before a fault stays.
pub fn poll<K: Keeper, R: Read + Drop, W: Write + Drop>(
    alloc: Global,
    office: &mut Office<K>,
    line: &str,
    slot: u32,
    reader: R,
    writer: W,
) -> Result<String, Failure> {
    let conn = office.open_line(line)?;
    let (mut reader, mut writer) = (Counted::new(reader), Counted::new(writer));
    let round = poll_round(alloc, office, conn, slot, &mut reader, &mut writer)?;
    let text = round_text(alloc, &round)?;
    Ok(text)
}
