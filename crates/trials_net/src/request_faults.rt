//! Readers and writers of requests that fail at each call in turn.
use mb_mbap::Counted;
use office_core::{Office, OfficeError};
use office_net::{ServeFault, Served, serve_one};
use office_plays::builders::{MEMORY, office_after, shown};
use office_plays::steps::Happens::{self, Load};
use office_plays::steps::state;
use poll_book::{MemKeeper, OrderState};
use std::alloc::Global;
use std::test::Fail;
use telling::{Incoming, Outgoing, Trial, twice};

/// An order, of 85 bytes.
const ORDER: &[u8] =
    b"PUT /callers/ann/orders/k1 HTTP/1.1\r\nContent-Length: 26\r\n\r\n{\"point\":\"lim\",\"value\":80}";

/// Its answer, of 124 bytes.
const ANSWER: &[u8] =
    b"HTTP/1.1 201 Created\r\nContent-Type: application/json\r\nContent-Length: 29\r\nConnection: close\r\n\r\n{\"order\":1,\"state\":\"waiting\"}";

const SETTING: &[Happens] = &[Load("l1", "lim,m1,holding,40,uint16,,,setting,\n")];

/// Each read and each write takes so many bytes at most: six reads and nine writes.
const MOST: usize = 15;

/// How the order ends where so many reads and writes succeed, and what its caller is sent.
fn ordered(
    alloc: Global,
    office: &mut Office<MemKeeper>,
    reads: usize,
    writes: usize,
) -> Result<(Result<Served, ServeFault>, usize), OfficeError> {
    let incoming = Incoming {
        reads,
        ..Incoming::new(ORDER, MOST, false)
    };
    let mut reader = Counted::new(incoming);
    let mut writer = Counted::new(Outgoing::with_room(alloc, 1000, MOST, writes)?);
    let how = serve_one(alloc, office, &mut reader, &mut writer);
    let sent = writer.into_inner().sent;
    // Another answer is told as an error: it can be of memory refused to the request.
    if !ANSWER.starts_with(&sent) {
        return Err(MEMORY);
    }
    Ok((how, sent.len()))
}

/// An office whose setting can be ordered.
fn office_of(alloc: Global) -> Result<Office<MemKeeper>, OfficeError> {
    office_after(alloc, MemKeeper::new(alloc), SETTING)
}

fn readers_fail(trial: &Trial<'_>, office: &mut Office<MemKeeper>) -> Result<(), OfficeError> {
    let before = shown(trial.alloc(), office)?;
    for reads in 0..6 {
        let ended = ordered(trial.alloc(), office, reads, usize::MAX)?;
        trial.told(&reads, &ended, &(Err(ServeFault::Read), 0));
        trial.told(&reads, &shown(trial.alloc(), office)?, &before);
    }
    Ok(())
}

/// Expects how the order ends where so many writes succeed, and that it is there then. No more is read than it.
fn is_ended(
    trial: &Trial<'_>,
    office: &mut Office<MemKeeper>,
    writes: usize,
    how: Result<Served, ServeFault>,
) -> Result<(), OfficeError> {
    let ended = ordered(trial.alloc(), office, 6, writes)?;
    let sent = ANSWER.len().min(writes.saturating_mul(MOST));
    trial.told(&writes, &ended, &(how, sent));
    trial.told(&writes, &state(office, 1)?, &Some(OrderState::Waiting));
    Ok(())
}

fn a_writer_fails(trial: &Trial<'_>, writes: usize) -> Result<(), OfficeError> {
    let mut office = office_of(trial.alloc())?;
    is_ended(trial, &mut office, writes, Err(ServeFault::Write))
}

/// Readers that fail, and then one that doesn't.
fn readers(trial: &Trial<'_>) -> Result<(), OfficeError> {
    let mut office = office_of(trial.alloc())?;
    readers_fail(trial, &mut office)?;
    is_ended(trial, &mut office, 9, Ok(Served))
}

fn all(trial: &Trial<'_>) -> Result<(), OfficeError> {
    readers(trial)?;
    for writes in 0..9 {
        a_writer_fails(trial, writes)?;
    }
    Ok(())
}

#[test]
fn readers_and_writers_of_requests_fail(rt: HostRuntime) -> Result<(), Fail> {
    Ok(twice!(rt, all)?)
}
