//! The open connections and their queries.
ghost use Rattle.std.specs.Prelude.{◌≡◌, ℕ, [], IfOk, IfErr, OnOk, OnErr, IfSome, IfNone, Some, None, true, ◌==◌, if◌then◌else◌};
ghost use Rattle.poll_match.specs.Briefs.{FindsBriefly};
ghost use Rattle.poll_match.specs.Queries.{is_valid};
ghost use Rattle.poll_match.specs.Window.{Changes, IsLeastOf, IsNextFrame, KeepsQuery, LeastIn, Names, closed, fresh, greater, greatest_of, held, lesser, line_of, made_of, next_refusal, place, refusal, with_answer, with_query};

use crate::asked::Asked;
use crate::brief::FoundBrief;
use crate::conn::Conn;
use crate::connection::Connection;
use crate::error::MatchError;
use mb_mbap::Frame;
use mb_pdu::Reply;
use std::alloc::Global;
use std::marker::Model;

/// The query that a frame answers, and the reply that it brings.
#[derive(Clone, Debug, PartialEq, Eq, Drop)]
pub struct Found {
    /// Its number among the queries of its connection, from 0.
    pub number: u32,
    pub asked: Asked,
    pub reply: Reply,
}

/// The open connections with their queries. Query number n of a connection, counted from 0, carries
/// transaction n modulo 65,536; a frame's transaction names the one query with that remainder among
/// the last 65,536 of its connection. Contracts see the open connections, and of each its line, how
/// many queries it made, and the last 65,536 of them.
#[derive(Debug, Drop)]
pub struct Matcher {
    alloc: Global,
    connections: Vec<Connection>,
}

impl Model for Matcher {
    ghost use Rattle.std.specs.Prelude.{◌≡◌, List, true};
    ghost use Rattle.poll_match.specs.Window.{Open, are_apart};

    ghost Value = { List Open };

    ghost view = { λ m. m.connections.items };

    ghost invariant = { λ m. are_apart m.connections.items ≡ true };
}

/// The place of a connection.
fn place_of(connections: &[Connection], conn: Conn) -> Option<usize>
    ensures { result ≡ place conn connections.now }
{
    connections.iter().position(|c| c.conn() == conn)
}

/// The lesser of a number and the least so far.
fn lesser(least: Option<u32>, number: u32) -> u32
    ensures { result ≡ lesser least number }
{
    match least {
        Some(least) if least <= number => least,
        _ => number,
    }
}

/// The least so far, or the number of this connection where it is of the line and less.
fn least_with(least: Option<u32>, connection: &Connection, line: u16) -> Option<u32>
    ensures { result ≡ (if connection.now.line == line then Some (lesser least connection.now.number) else least) }
{
    if connection.line() == line {
        Some(lesser(least, connection.conn().number()))
    } else {
        least
    }
}

/// The least number of the connections of a line.
fn least_of(connections: &[Connection], line: u16) -> Option<u32>
    ensures { LeastIn line connections.now result }
{
    let mut least = None;
    for connection in connections {
        least = least_with(least, connection, line);
    }
    least
}

fn greater(a: u32, b: u32) -> u32
    ensures { result ≡ greater a b }
{
    if a <= b { b } else { a }
}

/// The greatest number of these connections.
fn greatest_in(connections: &[Connection]) -> u32
    ensures { result ≡ greatest_of connections.now }
{
    let mut greatest = 0;
    for connection in connections {
        greatest = greater(greatest, connection.conn().number());
    }
    greatest
}

impl Matcher {
    /// No connection is open.
    pub fn new(alloc: Global) -> Matcher
        ensures { result ≡ [] }
    {
        Matcher {
            alloc,
            connections: Vec::new(alloc),
        }
    }

    /// Opens a connection of a line, which mustn't be open, and takes the memory of all queries that
    /// will be kept of it. It refuses for memory alone, and then nothing has changed.
    pub fn open(&mut self, conn: Conn, line: u16) -> Result<(), MatchError>
        requires { held conn self.old ≡ None }
        ensures ok { OnOk result (Changes conn (fresh conn line) self.old self.new) }
        ensures memory { IfErr result (λ e. e ≡ MatchError.Memory) }
        ensures err { OnErr result (self.new ≡ self.old) }
    {
        let Ok(connection) = Connection::new(self.alloc, conn, line) else {
            return Err(MatchError::Memory);
        };
        if self.connections.push(connection).is_err() {
            return Err(MatchError::Memory);
        }
        Ok(())
    }

    /// Closes a connection; one that isn't open stays so.
    pub fn close(&mut self, conn: Conn)
        ensures { Changes conn closed self.old self.new }
    {
        self.connections.retain(|c| c.conn() != conn);
    }

    /// Closes all connections.
    pub fn close_all(&mut self)
        ensures { self.new ≡ [] }
    {
        self.connections.clear();
    }

    /// The line of an open connection.
    pub fn line_of(&self, conn: Conn) -> Option<u16>
        ensures { result ≡ line_of (held conn self.now) }
    {
        match place_of(&self.connections, conn) {
            Some(place) => Some(self.connections[place].line()),
            None => None,
        }
    }

    /// How many queries an open connection made.
    pub fn made(&self, conn: Conn) -> Option<u32>
        ensures { result ≡ made_of (held conn self.now) }
    {
        match place_of(&self.connections, conn) {
            Some(place) => Some(self.connections[place].made()),
            None => None,
        }
    }

    /// The greatest number of an open connection, 0 where none is open.
    pub fn greatest(&self) -> u32
        ensures { result ≡ greatest_of self.now }
    {
        greatest_in(&self.connections)
    }

    /// The open connection of a line of least number.
    pub fn conn_of(&self, line: u16) -> Option<Conn>
        ensures found { IfSome result (IsLeastOf line self.now) }
        ensures none { IfNone result ((conn : ℕ) → line_of (held conn self.now) ≡ Some line → ⊥) }
    {
        match least_of(&self.connections, line) {
            Some(number) => Some(Conn::new(number)),
            None => None,
        }
    }

    /// Makes the next query of a connection, and gives the frame that carries it. It refuses with
    /// `NoConnection`, then `Exhausted` after 4,294,967,295 queries; then nothing has changed. It
    /// takes no memory.
    pub fn next_query(&mut self, conn: Conn, asked: Asked) -> Result<Frame, MatchError>
        requires { is_valid asked ≡ true }
        ensures frame { IfOk result (λ frame. IsNextFrame asked (held conn self.old) frame) }
        ensures next { OnOk result (Changes conn (with_query asked) self.old self.new) }
        ensures accepted { OnOk result (next_refusal (held conn self.old) ≡ None) }
        ensures refused { IfErr result (λ e. next_refusal (held conn self.old) ≡ Some e) }
        ensures err { OnErr result (self.new ≡ self.old) }
    {
        match place_of(&self.connections, conn) {
            Some(place) => self.connections[place].next_query(asked),
            None => Err(MatchError::NoConnection),
        }
    }

    /// The query that a frame answers, or the first refusal that holds: `NoConnection`, `NoQuery`,
    /// `WrongUnit`, `Repeat`, `WrongReply`. It takes no memory. What it finds can be settled.
    pub fn find(&self, conn: Conn, frame: &Frame) -> Result<Found, MatchError>
        ensures refused { IfErr result (λ e. refusal (held conn self.now) frame.now ≡ Some e) }
        ensures accepted { OnOk result (refusal (held conn self.now) frame.now ≡ None) }
        ensures found { IfOk result (λ f. Names (held conn self.now) frame.now f.number f.asked f.reply) }
        ensures kept { IfOk result (λ f. KeepsQuery (held conn self.now) f.number) }
    {
        match place_of(&self.connections, conn) {
            Some(place) => self.connections[place].find(frame),
            None => Err(MatchError::NoConnection),
        }
    }

    /// As `find`, without room for 2,000 bits: of a frame that names a query of coils or discrete inputs it tells
    /// `None`, whatever the frame brings. Else it finds what `find` finds, or the same refusal. It takes no memory.
    pub fn find_brief(&self, conn: Conn, frame: &Frame) -> Result<Option<FoundBrief>, MatchError>
        ensures { FindsBriefly (held conn self.now) frame.now result }
    {
        match place_of(&self.connections, conn) {
            Some(place) => self.connections[place].find_brief(frame),
            None => Err(MatchError::NoConnection),
        }
    }

    /// Marks a query as answered. The connection is open, and the number is that of one of its last
    /// 65,536 queries. It takes no memory.
    pub fn settle(&mut self, conn: Conn, number: u32)
        requires { KeepsQuery (held conn self.old) number }
        ensures { Changes conn (with_answer number) self.old self.new }
    {
        if let Some(place) = place_of(&self.connections, conn) {
            self.connections[place].settle(number);
        }
    }
}
