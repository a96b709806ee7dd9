//! Orders over 243 devices, a few of them waiting at a time: each is ordered, sent and settled by the device's echo. The
//! devices have their settings alone, or some forty points more each.
use crate::work::{Size, granted, print_digest};
use mb_mbap::Frame;
use office_core::{Arrival, Office, RequestAnswer};
use office_plays::builders::{HEADER, begun, named};
use poll_book::{MemKeeper, Outcome};
use poll_match::Conn;
use std::alloc::{AllocError, Global};
use std::io;
use workload_plant::{Dice, Digest, Plant};

/// So many orders wait at a time.
const WAITING: u32 = 8;

/// The points of all devices in turn, the setting of each behind its others.
fn list(alloc: Global, plant: &Plant) -> Result<String, AllocError> {
    let mut text = String::from_str(alloc, HEADER)?;
    for device in 0..plant.devices {
        plant.push_points(alloc, &mut text, "", device)?;
        plant.push_setting(&mut text, "", device)?;
    }
    Ok(text)
}

// The calls of an office stand in functions that promise nothing of them.

fn load(office: &mut Office<MemKeeper>, list: &str) -> Option<RequestAnswer> {
    let (caller, key) = named("list").ok()?;
    office.load(&caller, &key, list.as_bytes()).ok()
}

/// The order of a value for a device's setting, under the key of its number.
fn order(
    alloc: Global,
    office: &mut Office<MemKeeper>,
    number: u32,
    device: u32,
    value: u32,
) -> Option<RequestAnswer> {
    let key = format!(in alloc; "order-{number}").ok()?;
    let point = format!(in alloc; "meter-{device}.limit").ok()?;
    let (caller, key) = named(key.as_str()).ok()?;
    office
        .order(&caller, &key, point.as_str(), i128::from(value))
        .ok()
}

fn send(office: &mut Office<MemKeeper>, conn: Conn, number: u32) -> Option<Frame> {
    office.send_order(conn, number).ok()
}

fn arrive(office: &mut Office<MemKeeper>, conn: Conn, frame: &Frame) -> Option<Arrival> {
    office.arrive(conn, frame).ok()
}

fn conns(alloc: Global, office: &mut Office<MemKeeper>, lines: u32) -> Option<Vec<Conn>> {
    let mut conns = Vec::new(alloc);
    for line in 0..lines {
        let name = format!(in alloc; "line-{line}").ok()?;
        conns.push(office.open_line(name.as_str()).ok()?).ok()?;
    }
    Some(conns)
}

// Of an order that is accepted its number, and no text, so that little of the time is the benchmark's own.
fn add_answer(alloc: Global, digest: &mut Digest, answer: &RequestAnswer) -> Option<()> {
    match answer {
        RequestAnswer::Kept {
            first: true,
            outcome: Outcome::Ordered(number),
        } => digest.add_number(u64::from(*number)),
        _ => digest.add_value(alloc, answer).ok()?,
    }
    Some(())
}

fn add_arrival(digest: &mut Digest, arrival: Arrival) {
    match arrival {
        Arrival::Settled => digest.add(&[0]),
        Arrival::Recorded(count) => digest.add(&count.to_be_bytes()),
        Arrival::Excepted(code) => digest.add(&[1, code]),
    }
}

/// The order of a number is sent to its device, whose echo settles it.
fn settle(
    digest: &mut Digest,
    office: &mut Office<MemKeeper>,
    conn: Conn,
    number: u32,
) -> Option<()> {
    let sent = send(office, conn, number)?;
    digest.add(sent.encode().as_bytes());
    add_arrival(digest, arrive(office, conn, &sent)?);
    Some(())
}

/// The device of the order of a number: no two that wait have the same.
fn device_of(plant: &Plant, number: u32) -> u32 {
    number.wrapping_mul(7).wrapping_add(plant.seed % 100) % plant.devices.max(1)
}

/// Orders so many, and settles each when so many more wait.
fn carry_out(
    alloc: Global,
    digest: &mut Digest,
    office: &mut Office<MemKeeper>,
    plant: &Plant,
    count: u32,
) -> Option<()> {
    let conns = conns(alloc, office, plant.lines)?;
    let mut dice = Dice::new(plant.seed);
    for before in 0..count {
        let number = before + 1;
        let device = device_of(plant, number);
        let answer = order(alloc, office, number, device, dice.below(10_000))?;
        add_answer(alloc, digest, &answer)?;
        if number > WAITING {
            let due = number - WAITING;
            let line = plant.line_of(device_of(plant, due));
            settle(digest, office, *conns.get(line as usize)?, due)?;
        }
    }
    Some(())
}

/// An office that knows the points.
fn office_of(alloc: Global, digest: &mut Digest, plant: &Plant) -> Option<Office<MemKeeper>> {
    let site = plant.site(alloc).ok()?;
    let mut office = begun(alloc, MemKeeper::new(alloc), site.as_str())
        .ok()?
        .ok()?;
    let answer = load(&mut office, list(alloc, plant).ok()?.as_str())?;
    add_answer(alloc, digest, &answer)?;
    Some(office)
}

/// So many orders over devices with so many points beside their settings.
fn ordered(rt: &HostRuntime, name: &str, seed: u32, points: u32, count: u32) -> io::Result<()> {
    let plant = Plant {
        lines: 5,
        devices: 243,
        points,
        seed,
    };
    let mut digest = Digest::new();
    let mut office = granted(office_of(rt.alloc(), &mut digest, &plant))?;
    digest.add_number(office.points().len() as u64);
    granted(carry_out(rt.alloc(), &mut digest, &mut office, &plant, count))?;
    print_digest(rt, name, &digest)
}

pub fn carried_out(rt: &HostRuntime, seed: u32, size: Size) -> io::Result<()> {
    ordered(rt, "orders", seed, 0, size.of(300_000, 500))
}

pub fn on_full_site(rt: &HostRuntime, seed: u32, size: Size) -> io::Result<()> {
    ordered(rt, "settings", seed, size.of(40, 4), size.of(120_000, 500))
}
