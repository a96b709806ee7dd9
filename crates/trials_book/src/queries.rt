//! Connections and queries as the Messaging Guide matches them. What a reply to one query is told the
//! scripts show.
use mb_mbap::Frame;
use mb_pdu::{Span, Unit};
use poll_match::{Asked, Conn, MatchError, Matcher};
use read_planner::Read;
use std::test::Fail;
use telling::{Trial, twice};

/// Makes a read of so many holding registers. A quantity that is past its limits is told as an error.
fn ask(matcher: &mut Matcher, slot: u32, quantity: u16) -> Result<Frame, MatchError> {
    let span = Span {
        start: 107,
        quantity,
    };
    let read = Read { function: 3, span };
    if !read.is_valid() {
        return Err(MatchError::WrongReply);
    }
    let asked = Asked::Read {
        unit_id: 17,
        device: 0,
        slot,
        read,
        known: 1,
    };
    matcher.next_query(Conn::new(1), asked)
}

fn open(matcher: &mut Matcher, conn: Conn, line: u16) -> Result<(), MatchError> {
    if matcher.line_of(conn).is_some() {
        return Err(MatchError::Exhausted);
    }
    matcher.open(conn, line)
}

/// The number that a reply of one register with this transaction names, or the refusal. It settles its query
/// where that is wanted.
fn named(matcher: &mut Matcher, transaction: u16, settles: bool) -> Result<u32, MatchError> {
    let unit = Unit::from_bytes(&[3, 2, 0xFD, 0xE8]).ok_or(MatchError::WrongReply)?;
    let reply = Frame {
        transaction,
        unit_id: 17,
        unit,
    };
    let found = matcher.find(Conn::new(1), &reply)?;
    if settles {
        matcher.settle(Conn::new(1), found.number);
    }
    Ok(found.number)
}

fn is_edge(trial: &Trial<'_>, matcher: &mut Matcher) -> Result<(), MatchError> {
    for slot in 0..65_536 {
        ask(matcher, slot, 1)?;
    }
    // After 65,535 later queries the reply to query 0 still names it.
    trial.told(&0, &named(matcher, 0, false), &Ok(0));
    // After one more, of two registers, its transaction names that one.
    let sent = ask(matcher, 65_536, 2)?;
    trial.told(&65_536, &sent.transaction, &0);
    let late = Err(MatchError::WrongReply);
    trial.told(&0, &named(matcher, 0, false), &late);
    // A query that is answered is remembered, and the one behind it still waits.
    trial.told(&"settled", &named(matcher, 1, true), &Ok(1));
    let again = Err(MatchError::Repeat);
    trial.told(&1, &named(matcher, 1, false), &again);
    trial.told(&2, &named(matcher, 2, false), &Ok(2));
    trial.told(&"made", &matcher.made(Conn::new(1)), &Some(65_537));
    Ok(())
}

fn edge(trial: &Trial<'_>) -> Result<(), MatchError> {
    let mut matcher = Matcher::new(trial.alloc());
    open(&mut matcher, Conn::new(1), 0)?;
    is_edge(trial, &mut matcher)
}

#[test]
fn the_edge_of_the_window(rt: HostRuntime) -> Result<(), Fail> {
    Ok(twice!(rt, edge)?)
}

/// Expects how connections go with lines, and closes them.
fn are_closed(trial: &Trial<'_>, matcher: &mut Matcher) {
    trial.told(&"line of 3", &matcher.line_of(Conn::new(3)), &Some(0));
    for (line, conn) in [(0, Some(1)), (1, Some(2)), (2, None)] {
        trial.told(&line, &matcher.conn_of(line), &conn.map(Conn::new));
    }
    matcher.close(Conn::new(1));
    matcher.close(Conn::new(9));
    trial.told(&"line 0", &matcher.conn_of(0), &Some(Conn::new(3)));
    trial.told(&"line of 1", &matcher.line_of(Conn::new(1)), &None);
    matcher.close_all();
    trial.told(&"line of 2", &matcher.line_of(Conn::new(2)), &None);
}

fn connections(trial: &Trial<'_>) -> Result<(), MatchError> {
    let mut matcher = Matcher::new(trial.alloc());
    for (number, line) in [(1u32, 0u16), (2, 1), (3, 0)] {
        open(&mut matcher, Conn::new(number), line)?;
    }
    are_closed(trial, &mut matcher);
    Ok(())
}

#[test]
fn connections_open_and_close(rt: HostRuntime) -> Result<(), Fail> {
    Ok(twice!(rt, connections)?)
}

/// Where an allocation is refused an opening is told `Memory`, and nothing has changed.
fn refusals(trial: &Trial<'_>) -> Result<(), MatchError> {
    let mut matcher = Matcher::new(trial.alloc());
    if let Err(error) = open(&mut matcher, Conn::new(1), 4) {
        trial.told(&"open", &error, &MatchError::Memory);
        open(&mut matcher, Conn::new(1), 4)?;
    }
    let told = (matcher.line_of(Conn::new(1)), matcher.made(Conn::new(1)));
    trial.told(&"opened", &told, &(Some(4), Some(0)));
    // A query takes no memory.
    let asked = ask(&mut matcher, 1, 1).err();
    trial.told(&"asked", &asked, &None);
    trial.told(&"made", &matcher.made(Conn::new(1)), &Some(1));
    Ok(())
}

#[test]
fn refused_memory_is_told(rt: HostRuntime) -> Result<(), Fail> {
    Ok(twice!(rt, refusals)?)
}
