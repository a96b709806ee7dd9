//! Ends of connections on this host.
use office_commands::{Fault, connect};
use std::io::Write;
use std::net::{Shutdown, TcpListener, TcpStream};
use std::time::Duration;

/// A listener, and its address.
pub(crate) fn listen(rt: &HostRuntime) -> Result<(TcpListener, String), Fault> {
    let listener = TcpListener::bind(rt, ("127.0.0.1", 0u16)).map_err(|_| Fault::Line)?;
    let address = listener.local_addr().map_err(|_| Fault::Line)?;
    let address = format!(in rt.alloc(); "{address}")?;
    Ok((listener, address))
}

/// A stream to an address, whose reads and writes wait for a second at most.
pub(crate) fn connected(rt: &HostRuntime, address: &str) -> Result<TcpStream, Fault> {
    Ok(connect(rt, address, Duration::from_secs(1))?)
}

/// A stream to a device, and the device's end.
pub(crate) fn ends(rt: &HostRuntime) -> Result<(TcpStream, TcpStream), Fault> {
    let (listener, address) = listen(rt)?;
    let near = connected(rt, address.as_str())?;
    let (far, _) = listener.accept().map_err(|_| Fault::Line)?;
    Ok((near, far))
}

/// Writes all that an end of a connection has to say, after which it may end its side.
pub(crate) fn say(end: &TcpStream, bytes: &[u8], ends: bool) -> Result<(), Fault> {
    let mut writer = end;
    writer.write_all(bytes).map_err(|_| Fault::Line)?;
    if ends {
        end.shutdown(Shutdown::Write).map_err(|_| Fault::Line)?;
    }
    Ok(())
}
