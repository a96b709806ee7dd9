//! Lists of 10,000 points, some of them by model: each is loaded into a new office, once more under another key, and once
//! more with a wrong row near its end; then what a round of each line has to do is planned.
use crate::work::{Size, granted, print_digest};
use office_core::{Office, RequestAnswer};
use office_net::{LineJob, jobs_of};
use office_plays::builders::{HEADER, begun, named};
use poll_book::{MemKeeper, PointRow};
use std::alloc::{AllocError, Global};
use std::io;
use workload_plant::{Dice, Digest, Plant};

/// A list of the points of all devices in turn, and one more for each of them by model.
fn list(alloc: Global, plant: &Plant, dice: &mut Dice) -> Result<String, AllocError> {
    let mut text = String::from_str(alloc, HEADER)?;
    for device in 0..plant.devices {
        plant.push_points(alloc, &mut text, "", device)?;
        let offset = dice.below(48);
        writeln!(
            text,
            "meter-{device}.model,meter-{device},holding,m103+{offset},uint16,,,gauge,"
        )?;
    }
    Ok(text)
}

/// The answer to a list under a key.
fn load(office: &mut Office<MemKeeper>, key: &str, list: &str) -> Option<RequestAnswer> {
    let (caller, key) = named(key).ok()?;
    office.load(&caller, &key, list.as_bytes()).ok()
}

fn add_load(
    alloc: Global,
    digest: &mut Digest,
    office: &mut Office<MemKeeper>,
    key: &str,
    list: &str,
) -> Option<()> {
    let answer = load(office, key, list)?;
    digest.add_value(alloc, &answer).ok()
}

fn add_job(digest: &mut Digest, job: &LineJob) {
    match job {
        LineJob::Order { device } => {
            digest.add(&[0]);
            digest.add(device.as_bytes());
        }
        LineJob::Read { device, read } => {
            digest.add(&[1]);
            digest.add(device.as_bytes());
            digest.add(&[read.function]);
            digest.add(&read.span.start.to_be_bytes());
            digest.add(&read.span.quantity.to_be_bytes());
        }
    }
}

fn add_plans(
    alloc: Global,
    digest: &mut Digest,
    office: &Office<MemKeeper>,
    lines: u32,
) -> Option<()> {
    for line in 0..lines {
        let line = u16::try_from(line).ok()?;
        let jobs = jobs_of(alloc, office.site(), office.points(), line).ok()?;
        for job in &jobs {
            add_job(digest, job);
        }
    }
    Some(())
}

// Field by field and not as a text, so that little of the time is the benchmark's own.
fn add_point(digest: &mut Digest, row: &PointRow) {
    let point = &row.point;
    digest.add(&row.number.to_be_bytes());
    digest.add(point.name.as_bytes());
    digest.add(&point.address.to_be_bytes());
    digest.add(point.device.as_bytes());
    digest.add(&[point.table as u8, point.role as u8, point.order as u8]);
    let kind = point.kind.row();
    digest.add(&[kind.code]);
    digest.add(&kind.registers.to_be_bytes());
    digest.add(&point.scale.to_be_bytes());
    digest.add_number(point.roll);
}

/// The list with one row more, of which the scale is wrong, behind which a right one stands.
fn wrong(alloc: Global, list: &str) -> Result<String, AllocError> {
    let mut text = String::from_str(alloc, list)?;
    text.push_str("wrong,meter-0,holding,900,uint16,,11,gauge,\n")?;
    text.push_str("right,meter-0,holding,901,uint16,,,gauge,\n")?;
    Ok(text)
}

fn add_office(alloc: Global, digest: &mut Digest, plant: &Plant, dice: &mut Dice) -> Option<()> {
    let list = list(alloc, plant, dice).ok()?;
    let site = plant.site(alloc).ok()?;
    let mut office = begun(alloc, MemKeeper::new(alloc), site.as_str())
        .ok()?
        .ok()?;
    add_load(alloc, digest, &mut office, "first", list.as_str())?;
    add_load(alloc, digest, &mut office, "second", list.as_str())?;
    let wrong = wrong(alloc, list.as_str()).ok()?;
    add_load(alloc, digest, &mut office, "third", wrong.as_str())?;
    add_plans(alloc, digest, &office, plant.lines)?;
    for row in office.points() {
        add_point(digest, row);
    }
    Some(())
}

/// Sites of 243 devices on 64 lines.
pub fn loaded(rt: &HostRuntime, seed: u32, size: Size) -> io::Result<()> {
    let mut digest = Digest::new();
    let mut dice = Dice::new(seed);
    let plant = Plant {
        lines: size.of(64, 4),
        devices: size.of(243, 12),
        points: 40,
        seed,
    };
    for _ in 0..size.of(30, 2) {
        granted(add_office(rt.alloc(), &mut digest, &plant, &mut dice))?;
    }
    print_digest(rt, "lists", &digest)
}
