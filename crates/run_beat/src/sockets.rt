//! What turns need of the system.
ghost use Rattle.std.specs.Prelude.{◌≡◌, ◌<◌, ◌∷◌, ◌++◌, [], Bool, IfErr, IsTrue, List, OnErr, OnOk, false, true, length, if◌then◌else◌};
ghost use Rattle.run_beat.specs.Acts.{Act, Closes, Finishes, begun_so, read_so, taken_so, written_so};
ghost use Rattle.run_beat.specs.Counts.{CameWithin, SentWithin};
ghost use Rattle.run_beat.specs.Places.{Places, has_socket, with_socket};

use crate::times::{ClockTime, Moment};
use std::error::Error;
use std::fmt;

/// So many lines a site has at most.
pub const MOST_LINES: usize = 64;

/// Whose connection it is, by its place: a line's from 0 to `MOST_LINES` − 1, a caller's from 0 to
/// `MOST_CALLERS` − 1.
#[derive(Clone, Copy, Debug, PartialEq, Eq)]
pub enum Source {
    Line(usize),
    Caller(usize),
}

/// What a read gave.
#[derive(Clone, Copy, Debug, PartialEq, Eq)]
pub enum Came {
    /// So many bytes, one at least.
    Bytes(usize),
    /// Nothing for now.
    Nothing,
    /// The peer sends no more.
    Ended,
    /// There is no connection, or none any more.
    Failed,
}

/// What a write took.
#[derive(Clone, Copy, Debug, PartialEq, Eq)]
pub enum Sent {
    /// So many bytes, one at least.
    Bytes(usize),
    /// Nothing for now.
    Nothing,
    /// There is no connection, or none any more.
    Failed,
}

/// How a connection that was begun stands.
#[derive(Clone, Copy, Debug, PartialEq, Eq)]
pub enum Connected {
    Yes,
    NotYet,
    /// It was refused, or none was begun.
    Failed,
}

/// What the system refused.
#[derive(Clone, Copy, Debug, PartialEq, Eq)]
pub enum SocketFault {
    /// To tell the time: no turn is possible any more.
    Clock,
    /// To wait for sockets: no turn is possible any more.
    Wait,
    /// To begin a connection.
    Connect,
}

impl fmt::Display for SocketFault {
    fn fmt<W: fmt::Write>(&self, f: &mut fmt::Formatter<W>) -> fmt::Result {
        f.write_str(match self {
            SocketFault::Clock => "the clock can't be read",
            SocketFault::Wait => "the system can't wait for sockets",
            SocketFault::Connect => "no connection can be begun",
        })
    }
}

impl Error for SocketFault {}

/// The sockets of lines and callers, which never wait but in `wait`, and the clocks. Contracts see
/// which places have a socket, and what is done with them.
///
/// A source that has something stays so until `read` or `write` answers `Nothing`, and only what
/// comes after that ends a wait. So before it waits, a turn reads and writes until `Nothing`, or it
/// waits for 0 milliseconds.
pub trait Sockets {
    ghost places: { Self → Places };

    /// A caller waits to be taken.
    ghost waiting: { Self → Bool };

    /// The run is to end.
    ghost stopped: { Self → Bool };

    /// These acts, the newest first, may lead from the one to the other.
    ghost acts: { Self → List Act → Self → Type 0 };

    ghost rests: { (sockets : Self) → acts sockets [] sockets };

    ghost joins: { (one two three : Self) (first second : List Act) → acts one first two → acts two second three → acts one (second ++ first) three };

    /// The moment of the run.
    fn now(&self) -> Result<Moment, SocketFault>
        ensures { IfErr result (λ fault. fault ≡ SocketFault.Clock) };

    /// The time by the clock.
    fn clock(&self) -> Result<ClockTime, SocketFault>
        ensures { IfErr result (λ fault. fault ≡ SocketFault.Clock) };

    /// Waits until a source may have something, or a caller comes, or so many milliseconds have
    /// passed.
    fn wait(&mut self, most: u64) -> Result<(), SocketFault>
        ensures same { places self.new ≡ places self.old }
        ensures acts { acts self.old [] self.new }
        ensures stays { IsTrue (stopped self.old) → IsTrue (stopped self.new) }
        ensures err { IfErr result (λ fault. fault ≡ SocketFault.Wait) };

    /// Whether the run is to end: standard input has ended, where it is a pipe or a terminal. A
    /// file or `/dev/null` isn't watched.
    fn is_stopped(&self) -> bool
        ensures { result ≡ stopped self.now };

    /// Begins to connect to a line. A connection that it had is closed.
    fn connect(&mut self, line: usize) -> Result<(), SocketFault>
        ensures ok { OnOk result (places self.new ≡ with_socket (Source.Line line) true (places self.old)) }
        ensures err { OnErr result (places self.new ≡ places self.old) }
        ensures acts { acts self.old (begun_so line result) self.new }
        ensures fault { IfErr result (λ fault. fault ≡ SocketFault.Connect) };

    /// Looks up once more where a line is, if its address is a name, and waits until whoever knows names answers; tells
    /// whether it was a name. The next `connect` goes where the line is now, if that was answered.
    fn look_up(&mut self, line: usize) -> bool
        ensures same { places self.new ≡ places self.old }
        ensures acts { acts self.old [] self.new };

    /// How the connection to a line stands.
    fn connected(&self, line: usize) -> Connected
        ensures { has_socket (Source.Line line) (places self.now) ≡ false → result ≡ Connected.Failed };

    /// Whether a caller waits to be taken: its connection stands, and nothing of it was read. Where
    /// all places are taken, one is to be closed for it, and the next `accept` into that place takes
    /// it.
    fn has_caller(&self) -> bool
        ensures { result ≡ waiting self.now };

    /// Takes the caller that waits into a place. It takes none where nobody waits, where the place
    /// has a socket or isn't there, or where the system refuses; then the place stays as it is.
    fn accept(&mut self, caller: usize) -> bool
        ensures waited { IsTrue result → waiting self.old ≡ true }
        ensures places { places self.new ≡ (if result then with_socket (Source.Caller caller) true (places self.old) else places self.old) }
        ensures acts { acts self.old (taken_so caller result) self.new }
        ensures free { IsTrue result → has_socket (Source.Caller caller) (places self.old) ≡ false };

    /// Reads once, into a piece of one byte or more.
    fn read(&mut self, source: Source, piece: &mut [u8]) -> Came
        requires { 0 < length piece.old }
        ensures within { CameWithin (length piece.new) result }
        ensures none { has_socket source (places self.old) ≡ false → result ≡ Came.Failed }
        ensures acts { acts self.old (read_so source piece.new result) self.new }
        ensures same { places self.new ≡ places self.old };

    /// Writes once, of one byte or more.
    fn write(&mut self, source: Source, bytes: &[u8]) -> Sent
        requires { 0 < length bytes.now }
        ensures within { SentWithin (length bytes.now) result }
        ensures none { has_socket source (places self.old) ≡ false → result ≡ Sent.Failed }
        ensures acts { acts self.old (written_so source bytes.now result) self.new }
        ensures same { places self.new ≡ places self.old };

    /// Tells the peer that no more is written.
    fn finish(&mut self, source: Source)
        ensures same { places self.new ≡ places self.old }
        ensures acts { acts self.old (Finishes source ∷ []) self.new };

    /// Writes once to standard error, of one byte or more, as far as it takes them without waiting.
    fn tell(&mut self, bytes: &[u8]) -> Sent
        requires { 0 < length bytes.now }
        ensures within { SentWithin (length bytes.now) result }
        ensures acts { acts self.old [] self.new }
        ensures same { places self.new ≡ places self.old };

    /// Closes a connection, if there is one.
    fn close(&mut self, source: Source)
        ensures places { places self.new ≡ with_socket source false (places self.old) }
        ensures acts { acts self.old (Closes source ∷ []) self.new };
}
