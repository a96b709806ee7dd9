//! Worked examples, each lived through twice, where a call whose memory is refused is made once more. Under
//! `rt try --fail-alloc 1..` each allocation in turn is refused, once: both lives end in the same.
use crate::pace::{granted, refused};
use mb_mbap::Counted;
use office_core::{Office, OfficeError};
use office_net::{poll_round, serve_one};
use office_plays::builders::{MEMORY, office_after, office_over, shown};
use office_plays::steps::Happens::{self, Arrive, Ask, Load, Open, Order, Send};
use office_plays::steps::take_happening;
use office_script::replay;
use poll_book::{Keeper, MemKeeper};
use std::alloc::{AllocError, Global};
use std::io;

/// What a call gives, or what it gives when it is made once more.
macro_rules! again {
    ($call:expr) => {
        match $call {
            Err(_) => $call,
            done => done,
        }
    };
}

/// Three gauges in one read, its reply again, and the same with other data.
const GAUGES: &[Happens] = &[
    Load(
        "l1",
        "a,m1,holding,107,uint16,,,gauge,\nb,m1,holding,108,uint16,,,gauge,\nc,m1,holding,109,uint16,,,gauge,\n",
    ),
    Open("roof"),
    Ask(1, "m1", 1, (3, 107, 3)),
    Arrive(1, 0, 17, &[3, 6, 0x02, 0x2B, 0, 0, 0, 100]),
    Arrive(1, 0, 17, &[3, 6, 0x02, 0x2B, 0, 0, 0, 100]),
    Arrive(1, 0, 17, &[3, 6, 0, 1, 0, 2, 0, 3]),
];

/// An order behind another, of which the first meets a busy device.
const ORDERS: &[Happens] = &[
    Load("l1", "lim,m1,holding,40,uint16,,,setting,\n"),
    Order("k1", "lim", 80),
    Order("k2", "lim", 90),
    Open("roof"),
    Send(1, 1),
    Arrive(1, 0, 17, &[0x86, 6]),
    Send(1, 2),
    Send(1, 1),
    Arrive(1, 1, 17, &[6, 0, 40, 0, 80]),
    Send(1, 1),
    Send(1, 2),
];

/// A counter with a reading, and a setting.
const KNOWN: &[Happens] = &[
    Load(
        "list",
        "e,m1,holding,107,uint16,,,counter,\nlim,m1,holding,40,uint16,,,setting,\n",
    ),
    Open("roof"),
    Ask(1, "m1", 0, (3, 107, 1)),
    Arrive(1, 0, 17, &[3, 2, 0, 80]),
];

/// Requests for an order, the same again, with another value, out of range, and for a point that is unknown.
const REQUESTS: &[&str] = &[
    "PUT /callers/ann/orders/k1 HTTP/1.1\r\nContent-Length: 26\r\n\r\n{\"point\":\"lim\",\"value\":80}",
    "PUT /callers/ann/orders/k1 HTTP/1.1\r\nContent-Length: 26\r\n\r\n{\"point\":\"lim\",\"value\":80}",
    "PUT /callers/ann/orders/k1 HTTP/1.1\r\nContent-Length: 26\r\n\r\n{\"point\":\"lim\",\"value\":81}",
    "PUT /callers/ann/orders/k2 HTTP/1.1\r\nContent-Length: 29\r\n\r\n{\"point\":\"lim\",\"value\":65535}",
    "PUT /callers/ann/orders/k3 HTTP/1.1\r\nContent-Length: 25\r\n\r\n{\"point\":\"zz\",\"value\":80}",
];

/// A late reading by which a counter went round once more.
const SCRIPT: &str =
    "device m1 roof 17\npoint e,m1,holding,107,uint16,,,counter,\nopen roof\nask 1 m1 1 3 107 1\nask 1 m1 3 3 107 1\nask 1 m1 2 3 107 1\nreply 1 00 00 00 00 00 05 11 03 02 FD E8\nreply 1 00 01 00 00 00 05 11 03 02 01 F4\nreply 1 00 01 00 00 00 05 11 03 02 01 F4\nreply 1 00 02 00 00 00 05 11 03 02 FA 00\n";

/// The reply to the one read of a round.
const REPLY: &[u8] = &[0, 0, 0, 0, 0, 9, 17, 3, 6, 0x02, 0x2B, 0, 0, 0, 100];

fn lived(alloc: Global, all: &[Happens]) -> Result<String, OfficeError> {
    let mut office = again!(office_over(alloc, MemKeeper::new(alloc)))?;
    for happens in all {
        again!(take_happening(alloc, &mut office, happens))?;
    }
    again!(shown(alloc, &mut office))
}

/// A request is served. A 503 says that memory was refused, before the event or behind it.
fn served<K: Keeper>(
    alloc: Global,
    office: &mut Office<K>,
    request: &str,
) -> Result<(), OfficeError> {
    let mut reader = Counted::new(request.as_bytes());
    let mut writer = Counted::new(Vec::new(alloc));
    match serve_one(alloc, office, &mut reader, &mut writer) {
        Ok(_) if !writer.into_inner().starts_with(b"HTTP/1.1 503") => Ok(()),
        _ => Err(MEMORY),
    }
}

fn asked(alloc: Global) -> Result<String, OfficeError> {
    let mut office = again!(office_after(alloc, MemKeeper::new(alloc), KNOWN))?;
    for request in REQUESTS {
        again!(served(alloc, &mut office, request))?;
    }
    again!(shown(alloc, &mut office))
}

fn played(alloc: Global) -> Result<Vec<u8>, AllocError> {
    let mut reader = Counted::new(SCRIPT.as_bytes());
    let mut writer = Counted::new(Vec::new(alloc));
    match replay(alloc, &mut reader, &mut writer) {
        Ok(_) => Ok(writer.into_inner()),
        Err(_) => Err(AllocError),
    }
}

/// A round over a new connection, on which the reply waits.
fn polled<K: Keeper>(alloc: Global, office: &mut Office<K>) -> Result<(), OfficeError> {
    let conn = office.open_line("roof")?;
    let mut reader = Counted::new(REPLY);
    let mut writer = Counted::new(Vec::new(alloc));
    match poll_round(alloc, office, conn, 2, &mut reader, &mut writer) {
        Ok(_) => Ok(()),
        Err(_) => Err(MEMORY),
    }
}

fn rounded(alloc: Global) -> Result<String, OfficeError> {
    let mut office = again!(office_over(alloc, MemKeeper::new(alloc)))?;
    for happens in GAUGES {
        again!(take_happening(alloc, &mut office, happens))?;
    }
    again!(polled(alloc, &mut office))?;
    again!(shown(alloc, &mut office))
}

/// Whether two lives came to the same.
fn are_same(one: &[u8], other: &[u8]) -> io::Result<()> {
    if one == other { Ok(()) } else { Err(refused()) }
}

/// Lives through happenings twice.
fn live(alloc: Global, all: &[Happens]) -> io::Result<()> {
    let one = granted(lived(alloc, all).ok())?;
    let other = granted(lived(alloc, all).ok())?;
    are_same(one.as_bytes(), other.as_bytes())
}

fn ask(alloc: Global) -> io::Result<()> {
    let one = granted(asked(alloc).ok())?;
    let other = granted(asked(alloc).ok())?;
    are_same(one.as_bytes(), other.as_bytes())
}

fn poll(alloc: Global) -> io::Result<()> {
    let one = granted(rounded(alloc).ok())?;
    let other = granted(rounded(alloc).ok())?;
    are_same(one.as_bytes(), other.as_bytes())
}

fn play(alloc: Global) -> io::Result<()> {
    let one = granted(again!(played(alloc)).ok())?;
    let other = granted(again!(played(alloc)).ok())?;
    are_same(&one, &other)
}

pub fn run(rt: &HostRuntime) -> io::Result<()> {
    let alloc = rt.alloc();
    live(alloc, GAUGES)?;
    live(alloc, ORDERS)?;
    ask(alloc)?;
    poll(alloc)?;
    play(alloc)
}
