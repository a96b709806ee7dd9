//! Poll rounds over sockets, whose devices answered beforehand.
use crate::sockets::{connected, ends, listen, say};
use office_commands::{Fault, poll};
use office_core::Office;
use office_plays::builders::office_after;
use office_plays::steps::Happens::{self, Load};
use poll_book::{MemKeeper, StoreFault};
use std::io::Read;
use std::net::TcpStream;
use std::test::Fail;
use telling::{Trial, twice};

const QUERY: [u8; 12] = [0, 0, 0, 0, 0, 6, 17, 3, 0, 107, 0, 1];

/// What the device wrote, whether it ended its side then, and what is printed.
const CASES: &[(&[u8], bool, Result<&str, Fault>)] = &[
    (
        &[0, 0, 0, 0, 0, 5, 17, 3, 2, 0, 80],
        false,
        Ok("asked 1 recorded 1 excepted 0 refused 0\n"),
    ),
    (&[0, 0, 0, 0, 0, 5, 17, 3, 2, 0], true, Err(Fault::Line)),
    // Nothing comes for a second.
    (&[], false, Err(Fault::Line)),
];

const COUNTER: &[Happens] = &[Load("l1", "e,m1,holding,107,uint16,,,counter,\n")];

/// The query that came to the device.
fn heard(far: &TcpStream) -> Result<[u8; 12], Fault> {
    let mut query = [0; 12];
    let mut reader = far;
    reader.read_exact(&mut query).map_err(|_| Fault::Line)?;
    Ok(query)
}

fn assert_poll(
    trial: &Trial<'_>,
    office: &mut Office<MemKeeper>,
    slot: u32,
    (bytes, closes, expected): &(&[u8], bool, Result<&str, Fault>),
) -> Result<(), Fault> {
    let (near, far) = ends(trial.runtime())?;
    say(&far, bytes, *closes)?;
    let printed = poll(trial.alloc(), office, "roof", slot, &near, &near);
    let told = match &printed {
        Ok(text) => Ok(text.as_str()),
        Err(failure) => Err(failure.fault),
    };
    if told == Err(Fault::Memory) || told == Err(Fault::Store(StoreFault::Memory)) {
        return Err(Fault::Memory);
    }
    trial.told(bytes, &told, expected);
    trial.told(bytes, &heard(&far)?, &QUERY);
    Ok(())
}

fn assert_polls(trial: &Trial<'_>) -> Result<(), Fault> {
    let keeper = MemKeeper::new(trial.alloc());
    let mut office = office_after(trial.alloc(), keeper, COUNTER)?;
    for (slot, case) in (0u32..).zip(CASES) {
        assert_poll(trial, &mut office, slot, case)?;
    }
    Ok(())
}

/// How connecting ends, without the stream.
fn fault_of(rt: &HostRuntime, address: &str) -> Option<Fault> {
    connected(rt, address).err()
}

fn assert_heard(trial: &Trial<'_>) -> Result<(), Fault> {
    let rt = trial.runtime();
    let (listener, address) = listen(rt)?;
    trial.told(&"heard", &fault_of(rt, address.as_str()), &None);
    drop(listener);
    for address in [address.as_str(), "127.0.0.1", "127.0.0.1:65536", ""] {
        trial.told(&address, &fault_of(rt, address), &Some(Fault::Line));
    }
    Ok(())
}

fn all(trial: &Trial<'_>) -> Result<(), Fault> {
    assert_polls(trial)?;
    assert_heard(trial)
}

#[test]
fn lines_are_polled_over_sockets(rt: HostRuntime) -> Result<(), Fail> {
    Ok(twice!(rt, all)?)
}
