//! Where callers come in.
ghost use Rattle.std.specs.Prelude.{◌≡◌, ◌&&◌, IsSome, None, false, is_none, is_some, true};

use mio::net::{TcpListener, TcpStream};
use std::io::{self, ErrorKind};
use std::net::SocketAddr;

/// A listener, and the caller that came first and wasn't taken yet. It is accepted ahead of its
/// turn, since nothing else tells whether one waits.
#[derive(Drop)]
pub(crate) struct Door {
    listener: TcpListener,
    // More may wait: so from an event until an accept that would have had to wait.
    may_accept: bool,
    first: Option<TcpStream>,
}

impl Door {
    /// A door at which nobody has come yet.
    pub(crate) fn new(listener: TcpListener) -> Door
        ensures calm { result.may_accept ≡ false }
        ensures first { result.first ≡ None }
    {
        Door {
            listener,
            may_accept: false,
            first: None,
        }
    }

    /// Where it listens.
    pub(crate) fn address(&self) -> io::Result<SocketAddr> {
        self.listener.local_addr()
    }

    /// Notes that callers came.
    pub(crate) fn note(&mut self)
        ensures noted { self.new.may_accept ≡ true }
        ensures same { self.new.first ≡ self.old.first }
    {
        self.may_accept = true;
    }

    /// Whether a caller waits.
    pub(crate) fn has_caller(&self) -> bool
        ensures { result ≡ is_some self.now.first }
    {
        self.first.is_some()
    }

    /// Whether a caller may wait that couldn't be accepted.
    pub(crate) fn is_stuck(&self) -> bool
        ensures { result ≡ (self.now.may_accept && is_none self.now.first) }
    {
        self.may_accept && self.first.is_none()
    }

    /// Accepts the next caller, unless one waits.
    pub(crate) fn meet(&mut self)
        ensures waits { IsSome self.old.first → self.new ≡ self.old }
        ensures calm { self.old.may_accept ≡ false → self.new ≡ self.old }
    {
        if self.first.is_some() || !self.may_accept {
            return;
        }
        match self.listener.accept() {
            Ok((stream, _)) => self.first = Some(stream),
            Err(error) if error.kind() == ErrorKind::WouldBlock => self.may_accept = false,
            // The caller is gone already, or the system has no socket left: `meet` tries again.
            Err(_) => {}
        }
    }

    /// Takes the caller that waits, and meets the next one.
    pub(crate) fn take(&mut self) -> Option<TcpStream>
        ensures { result ≡ self.old.first }
    {
        let first = self.first.take();
        self.meet();
        first
    }
}
