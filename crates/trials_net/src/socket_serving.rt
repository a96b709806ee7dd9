//! Callers over sockets, who wrote beforehand and are served one after the other.
use crate::sockets::{connected, listen, say};
use office_commands::{Fault, serve};
use office_core::Office;
use office_plays::builders::office_after;
use office_plays::refusing::Refusing;
use office_plays::steps::Happens::{self, Load};
use poll_book::{MemKeeper, StoreFault};
use std::alloc::Global;
use std::io;
use std::net::{TcpListener, TcpStream};
use std::test::Fail;
use std::time::Duration;
use telling::{Trial, twice};

const ORDER: &str =
    "PUT /callers/ann/orders/k1 HTTP/1.1\r\nContent-Length: 26\r\n\r\n{\"point\":\"lim\",\"value\":80}";

/// What a caller wrote, whether it ended its side then, and what it is told: one is silent, and one
/// is in the middle of its request.
const CALLERS: &[(&str, bool, &str)] = &[
    ("", false, ""),
    ("GET /points/lim", false, ""),
    ("", true, ""),
    (
        "GET /points/lim",
        true,
        "HTTP/1.1 400 Bad Request\r\nContent-Type: application/json\r\nContent-Length: 23\r\nConnection: close\r\n\r\n{\"error\":\"bad request\"}",
    ),
    (
        ORDER,
        true,
        "HTTP/1.1 200 OK\r\nContent-Type: application/json\r\nContent-Length: 29\r\nConnection: close\r\n\r\n{\"order\":1,\"state\":\"waiting\"}",
    ),
];

const SETTING: &[Happens] = &[Load("l1", "lim,m1,holding,40,uint16,,,setting,\n")];

/// A caller that wrote this.
fn caller(rt: &HostRuntime, address: &str, bytes: &str, ends: bool) -> Result<TcpStream, Fault> {
    let end = connected(rt, address)?;
    say(&end, bytes.as_bytes(), ends)?;
    Ok(end)
}

/// Callers who closed at once, of whom the second ordered before, and then the others.
fn callers(rt: &HostRuntime, address: &str) -> Result<Vec<TcpStream>, Fault> {
    drop(caller(rt, address, "", false)?);
    drop(caller(rt, address, ORDER, false)?);
    let mut callers = Vec::with_capacity(rt.alloc(), CALLERS.len())?;
    for (bytes, ends, _) in CALLERS {
        let _ = callers.push(caller(rt, address, bytes, *ends)?);
    }
    Ok(callers)
}

/// Another status ends the attempt: memory can be refused to this request, or to an order before it.
fn assert_answer(
    trial: &Trial<'_>,
    end: &TcpStream,
    bytes: &str,
    expected: &str,
) -> Result<(), Fault> {
    let answer = io::read_to_string(trial.alloc(), end).map_err(|_| Fault::Line)?;
    if !expected.starts_with(answer.as_str().get(..12).unwrap_or("")) {
        return Err(Fault::Memory);
    }
    trial.told(&bytes, &answer.as_str(), &expected);
    Ok(())
}

fn assert_served(
    trial: &Trial<'_>,
    office: &mut Office<MemKeeper>,
    listener: &TcpListener,
    callers: &[TcpStream],
) -> Result<(), Fault> {
    let second = Duration::from_secs(1);
    serve(trial.runtime(), office, listener, Some(7), second)?;
    for (end, (bytes, _, expected)) in callers.iter().zip(CALLERS) {
        assert_answer(trial, end, bytes, expected)?;
    }
    Ok(())
}

fn all(trial: &Trial<'_>) -> Result<(), Fault> {
    let rt = trial.runtime();
    let mut office = office_after(rt.alloc(), MemKeeper::new(rt.alloc()), SETTING)?;
    let (listener, address) = listen(rt)?;
    let callers = callers(rt, address.as_str())?;
    assert_served(trial, &mut office, &listener, &callers)
}

#[test]
fn each_connection_is_served(rt: HostRuntime) -> Result<(), Fail> {
    Ok(twice!(rt, all)?)
}

const COUNTER: &[Happens] = &[Load("l1", "e,m1,holding,107,uint16,,,counter,\n")];

const TOTAL: &str = "GET /points/e/total HTTP/1.1\r\n\r\n";

const REFUSED: &str =
    "HTTP/1.1 503 Service Unavailable\r\nContent-Type: application/json\r\nContent-Length: 17\r\nConnection: close\r\n\r\n{\"error\":\"store\"}";

const GIVEN: &str =
    "HTTP/1.1 200 OK\r\nContent-Type: application/json\r\nContent-Length: 25\r\nConnection: close\r\n\r\n{\"point\":\"e\",\"total\":\"0\"}";

/// How many calls an office makes before it is asked for anything.
fn calls_before(alloc: Global) -> Result<u32, Fault> {
    let keeper = Refusing::from(alloc, u32::MAX, StoreFault::Disk);
    Ok(office_after(alloc, keeper, COUNTER)?.into_keeper().calls)
}

/// Two callers ask for a total over a keeper that refuses calls: how serving ends, and what the first one is told.
fn assert_totals(
    trial: &Trial<'_>,
    keeper: Refusing,
    ended: Result<(), Fault>,
    told: &[&str],
) -> Result<(), Fault> {
    let rt = trial.runtime();
    let mut office = office_after(rt.alloc(), keeper, COUNTER)?;
    let (listener, address) = listen(rt)?;
    let callers = [
        caller(rt, address.as_str(), TOTAL, true)?,
        caller(rt, address.as_str(), TOTAL, true)?,
    ];
    let done = serve(rt, &mut office, &listener, Some(2), Duration::from_secs(1));
    trial.told(&"ended", &done.map_err(|failure| failure.fault), &ended);
    for (end, expected) in callers.iter().zip(told) {
        assert_answer(trial, end, TOTAL, expected)?;
    }
    Ok(())
}

/// A file that failed once is asked on, and one that fails again ends it.
fn broken(trial: &Trial<'_>) -> Result<(), Fault> {
    let before = calls_before(trial.alloc())?;
    let once = Refusing::new(trial.alloc(), before, StoreFault::Disk);
    assert_totals(trial, once, Ok(()), &[REFUSED, GIVEN])?;
    let for_good = Refusing::from(trial.alloc(), before, StoreFault::Disk);
    let ended = Err(Fault::Store(StoreFault::Disk));
    assert_totals(trial, for_good, ended, &[REFUSED])
}

#[test]
fn serving_ends_where_the_store_is_broken(rt: HostRuntime) -> Result<(), Fail> {
    Ok(twice!(rt, broken)?)
}
