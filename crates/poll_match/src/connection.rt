//! An open connection with its queries.
ghost use Rattle.std.specs.Prelude.{◌≡◌, ◌≤◌, ◌<◌, ◌-◌, [], IfOk, OnOk, OnErr, IfErr, Some, None, true};
ghost use Rattle.mb_pdu.specs.Replies.{spells_reply};
ghost use Rattle.poll_match.specs.Briefs.{FindsBriefly};
ghost use Rattle.poll_match.specs.Queries.{CanBeAsked, is_valid, request_of};
ghost use Rattle.poll_match.specs.Window.{IsKept, IsNextFrame, Names, next_refusal, numbered, query_at, query_refusal, refusal, with_next, with_settled};

use crate::asked::{Asked, Matched};
use crate::brief::{FoundBrief, brief_reply_to};
use crate::conn::Conn;
use crate::error::MatchError;
use crate::matcher::Found;
use circular_buffer::HeapCircularBuffer;
use mb_mbap::Frame;
use mb_pdu::Reply;
use std::alloc::{AllocError, Global};
use std::marker::Model;

/// How many queries of a connection are kept.
const KEPT: u32 = 65_536;

/// An open connection with its last queries, in a ring that holds as many from the start.
#[derive(Debug, Drop)]
pub(crate) struct Connection {
    conn: Conn,
    line: u16,
    made: u32,
    queries: HeapCircularBuffer<Matched>,
}

impl Model for Connection {
    ghost use Rattle.poll_match.specs.Window.{Open};

    ghost Value = { Open };

    ghost use Rattle.poll_match.specs.ConnectionFields.{connection_view, IsConnection};

    ghost view = { connection_view };

    ghost invariant = { IsConnection };
}

/// The number of the oldest of so many queries that is kept.
fn first_number(made: u32) -> u32
    ensures { result ≡ made - KEPT }
{
    made.saturating_sub(KEPT)
}

/// Of so many queries the kept one whose number has this remainder.
fn numbered(transaction: u16, made: u32) -> Option<u32>
    ensures { result ≡ numbered transaction made }
{
    let first = first_number(made);
    let number = first + (u32::from(transaction) + 65_536 - first % 65_536) % 65_536;
    if number < made { Some(number) } else { None }
}

/// The reply to a query that a frame brings, or the first refusal that holds.
fn reply_to(query: &Matched, frame: &Frame) -> Result<Reply, MatchError>
    requires { CanBeAsked query.now.asked }
    ensures refused { IfErr result (λ e. query_refusal query.now frame.now ≡ Some e) }
    ensures accepted { IfOk result (λ _. query_refusal query.now frame.now ≡ None) }
    ensures reply { IfOk result (λ reply. spells_reply (request_of query.now.asked) reply frame.now.unit) }
{
    if frame.unit_id != query.asked.unit_id() {
        return Err(MatchError::WrongUnit);
    }
    if query.settled {
        return Err(MatchError::Repeat);
    }
    match Reply::decode(&query.asked.request(), frame.unit.as_bytes()) {
        Ok(reply) => Ok(reply),
        Err(_) => Err(MatchError::WrongReply),
    }
}

impl Connection {
    /// A connection of a line that made no query. It takes all the memory that it will ever take.
    pub(crate) fn new(alloc: Global, conn: Conn, line: u16) -> Result<Connection, AllocError>
        ensures { IfOk result (λ c. c ≡ record { number = conn; line = line; made = 0; last = [] }) }
    {
        let queries = HeapCircularBuffer::with_capacity(alloc, KEPT as usize)?;
        Ok(Connection {
            conn,
            line,
            made: 0,
            queries,
        })
    }

    pub(crate) fn conn(&self) -> Conn
        ensures { result ≡ self.now.number }
    {
        self.conn
    }

    pub(crate) fn line(&self) -> u16
        ensures { result ≡ self.now.line }
    {
        self.line
    }

    /// How many queries it made.
    pub(crate) fn made(&self) -> u32
        ensures value { result ≡ self.now.made }
        ensures few { self.now.made ≤ 4294967295 }
    {
        self.made
    }

    /// The kept query of a number.
    fn query_at(&self, number: u32) -> Option<Matched>
        ensures { result ≡ query_at self.now number }
    {
        let place = number.checked_sub(first_number(self.made))?;
        self.queries.get(place as usize).copied()
    }

    /// Keeps the next query, in the place of the oldest where the ring is full.
    fn push(&mut self, asked: Asked)
        requires room { self.old.made < 4294967295 }
        requires valid { is_valid asked ≡ true }
        ensures { self.new ≡ with_next asked self.old }
    {
        let _ = self.queries.push_back(Matched {
            asked,
            settled: false,
        });
        self.made += 1;
    }

    /// Makes the next query, and gives the frame that carries it.
    pub(crate) fn next_query(&mut self, asked: Asked) -> Result<Frame, MatchError>
        requires { is_valid asked ≡ true }
        ensures frame { IfOk result (λ frame. IsNextFrame asked (Some self.old) frame) }
        ensures next { OnOk result (self.new ≡ with_next asked self.old) }
        ensures accepted { OnOk result (next_refusal (Some self.old) ≡ None) }
        ensures refused { IfErr result (λ e. next_refusal (Some self.old) ≡ Some e) }
        ensures err { OnErr result (self.new ≡ self.old) }
        ensures number { self.new.number ≡ self.old.number }
    {
        let made = self.made();
        if made >= u32::MAX {
            return Err(MatchError::Exhausted);
        }
        self.push(asked);
        Ok(Frame {
            transaction: (made % 65536) as u16,
            unit_id: asked.unit_id(),
            unit: asked.unit(),
        })
    }

    /// The query that a frame answers, or the first refusal that holds.
    pub(crate) fn find(&self, frame: &Frame) -> Result<Found, MatchError>
        ensures refused { IfErr result (λ e. refusal (Some self.now) frame.now ≡ Some e) }
        ensures accepted { OnOk result (refusal (Some self.now) frame.now ≡ None) }
        ensures found { IfOk result (λ f. Names (Some self.now) frame.now f.number f.asked f.reply) }
        ensures kept { IfOk result (λ f. IsKept self.now f.number) }
    {
        let Some(number) = numbered(frame.transaction, self.made) else {
            return Err(MatchError::NoQuery);
        };
        let Some(query) = self.query_at(number) else {
            return Err(MatchError::NoQuery);
        };
        let reply = reply_to(&query, frame)?;
        Ok(Found {
            number,
            asked: query.asked,
            reply,
        })
    }

    /// The query that a frame answers, with a reply without bits. Of one that reads bits nothing is told.
    pub(crate) fn find_brief(&self, frame: &Frame) -> Result<Option<FoundBrief>, MatchError>
        ensures { FindsBriefly (Some self.now) frame.now result }
    {
        let Some(number) = numbered(frame.transaction, self.made) else {
            return Err(MatchError::NoQuery);
        };
        let Some(query) = self.query_at(number) else {
            return Err(MatchError::NoQuery);
        };
        if query.asked.reads_bits() {
            return Ok(None);
        }
        let reply = brief_reply_to(&query, frame)?;
        Ok(Some(FoundBrief {
            number,
            asked: query.asked,
            reply,
        }))
    }

    /// Marks a kept query as answered.
    pub(crate) fn settle(&mut self, number: u32)
        requires { IsKept self.old number }
        ensures { self.new ≡ with_settled number self.old }
    {
        let place = number - first_number(self.made);
        if let Some(query) = self.queries.get_mut(place as usize) {
            query.settled = true;
        }
    }
}
