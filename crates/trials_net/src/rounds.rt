//! Rounds that hear all in one piece, or noise without end, whose writes fail, or whose connection is closed.
use crate::noise::Noise;
use mb_mbap::Counted;
use office_core::{Office, OfficeError};
use office_net::{PollFault, Round, poll_round};
use office_plays::builders::office_after;
use office_plays::steps::Happens::{self, Load, Order};
use poll_book::MemKeeper;
use poll_match::Conn;
use std::alloc::Global;
use std::test::Fail;
use telling::{Incoming, Outgoing, Trial, twice};

/// A setting, which is ordered to be 80, and a counter.
const HAPPENINGS: &[Happens] = &[
    Load(
        "l1",
        "lim,m1,holding,40,uint16,,,setting,\ne,m1,holding,107,uint16,,,counter,\n",
    ),
    Order("k1", "lim", 80),
];

fn office_of(alloc: Global) -> Result<Office<MemKeeper>, OfficeError> {
    office_after(alloc, MemKeeper::new(alloc), HAPPENINGS)
}

/// How a round ends over these replies, of which a read gives 5,000 bytes at most, and of whose writes so many succeed.
fn ended(
    alloc: Global,
    office: &mut Office<MemKeeper>,
    conn: Conn,
    replies: &[u8],
    writes: usize,
) -> Result<Round, PollFault> {
    let mut reader = Counted::new(Incoming::new(replies, 5000, true));
    let mut writer = Counted::new(Outgoing::new(alloc, writes));
    poll_round(alloc, office, conn, 5, &mut reader, &mut writer)
}

/// An exception to the read of the counter, the setting's register, both once more, the order's reply, and the
/// counter's register.
const REPLIES: &[u8] = &[
    0, 2, 0, 0, 0, 3, 17, 0x83, 2, 0, 1, 0, 0, 0, 5, 17, 3, 2, 0, 80, 0, 2, 0, 0, 0, 3, 17, 0x83,
    2, 0, 1, 0, 0, 0, 5, 17, 3, 2, 0, 80, 0, 0, 0, 0, 0, 6, 17, 6, 0, 40, 0, 80, 0, 2, 0, 0, 0, 5,
    17, 3, 2, 2, 0x2B,
];

/// All come in one piece, so the last is taken too, though the round is settled by then.
fn one_piece_is_taken_whole(
    trial: &Trial<'_>,
    office: &mut Office<MemKeeper>,
) -> Result<(), OfficeError> {
    let conn = office.open_line("roof")?;
    let round = Round {
        asked: 3,
        recorded: 1,
        excepted: 1,
        refused: 3,
    };
    let told = ended(trial.alloc(), office, conn, REPLIES, 1000);
    trial.told(&"one piece", &told, &Ok(round));
    Ok(())
}

fn writers_fail(trial: &Trial<'_>, office: &mut Office<MemKeeper>) -> Result<(), OfficeError> {
    for writes in 0..3 {
        let conn = office.open_line("roof")?;
        let told = ended(trial.alloc(), office, conn, &[], writes);
        trial.told(&writes, &told, &Err(PollFault::Line));
    }
    Ok(())
}

fn closed_connections_are_told(
    trial: &Trial<'_>,
    office: &mut Office<MemKeeper>,
) -> Result<(), OfficeError> {
    let never = ended(trial.alloc(), office, Conn::new(7), &[], 1000);
    trial.told(&"never opened", &never, &Err(PollFault::Closed));
    let former = office.open_line("roof")?;
    let _ = office.open_line("roof")?;
    let closed = ended(trial.alloc(), office, former, &[], 1000);
    trial.told(&"closed", &closed, &Err(PollFault::Closed));
    Ok(())
}

fn noise_ends_a_round(
    trial: &Trial<'_>,
    office: &mut Office<MemKeeper>,
) -> Result<(), OfficeError> {
    let conn = office.open_line("roof")?;
    let mut reader = Counted::new(Noise);
    let mut writer = Counted::new(Vec::new(trial.alloc()));
    let ended = poll_round(trial.alloc(), office, conn, 5, &mut reader, &mut writer);
    trial.told(&"noise", &ended, &Err(PollFault::Noise));
    Ok(())
}

/// What breaks off changes nothing for the round that doesn't.
fn break_off(trial: &Trial<'_>, office: &mut Office<MemKeeper>) -> Result<(), OfficeError> {
    closed_connections_are_told(trial, office)?;
    writers_fail(trial, office)?;
    noise_ends_a_round(trial, office)?;
    one_piece_is_taken_whole(trial, office)
}

fn all(trial: &Trial<'_>) -> Result<(), OfficeError> {
    break_off(trial, &mut office_of(trial.alloc())?)
}

#[test]
fn rounds_break_off(rt: HostRuntime) -> Result<(), Fail> {
    Ok(twice!(rt, all)?)
}
