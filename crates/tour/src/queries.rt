//! `poll_match`: which query a late reply answers.
ghost use Rattle.std.specs.Prelude.{◌≡◌, true};
ghost use Rattle.poll_match.specs.Queries.{is_valid};

use anyhow::Result;
use mb_mbap::Frame;
use mb_pdu::{Span, Unit};
use poll_match::{Asked, Conn, MatchError, Matcher};
use read_planner::Read;

/// A query of slot `slot` for one register.
fn asked(slot: u32) -> Asked
    ensures { is_valid result ≡ true }
{
    let span = Span {
        start: 107,
        quantity: 1,
    };
    let read = Read { function: 3, span };
    Asked::Read {
        unit_id: 17,
        device: 0,
        slot,
        read,
        known: 1,
    }
}

fn tell(rt: &HostRuntime, matcher: &mut Matcher, conn: Conn, transaction: u16) -> Result<()> {
    let Some(unit) = Unit::from_bytes(&[0x03, 0x02, 0x02, 0x2B]) else {
        return Ok(());
    };
    let frame = Frame {
        transaction,
        unit_id: 17,
        unit,
    };
    match matcher.find(conn, &frame) {
        Ok(found) => {
            matcher.settle(conn, found.number);
            println!(rt; "transaction {transaction} answers query {}", found.number)?;
        }
        Err(error) => println!(rt; "transaction {transaction}: {error}")?,
    }
    Ok(())
}

fn open(matcher: &mut Matcher, conn: Conn) -> Result<(), MatchError> {
    if matcher.line_of(conn).is_none() {
        matcher.open(conn, 0)?;
    }
    matcher.next_query(conn, asked(1))?;
    matcher.next_query(conn, asked(2))?;
    Ok(())
}

pub(crate) fn show(rt: &HostRuntime) -> Result<()> {
    let conn = Conn::new(1);
    let mut matcher = Matcher::new(rt.alloc());
    open(&mut matcher, conn)?;
    // The second reply comes first, and then twice; a third query there was none.
    for transaction in [1, 0, 0, 2] {
        tell(rt, &mut matcher, conn, transaction)?;
    }
    Ok(())
}
