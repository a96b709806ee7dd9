//! Rounds of the lines of a plant, slot after slot. One line is away for a while: its rounds end without a reply, and are
//! polled later, many slots at once. A few slots of a counter are voided in between.
use crate::work::{Size, granted, print_digest};
use mb_mbap::Counted;
use office_core::{Office, RequestAnswer};
use office_net::{LineJob, jobs_of, poll_round};
use office_plays::builders::{HEADER, begun, named};
use poll_book::{Keeper, PointRow, ReadingRow, ShownReading};
use poll_match::Conn;
use std::alloc::{AllocError, Global};
use std::io;
use std::ops::Range;
use workload_plant::{Dice, Digest, Plant, image, reply_bytes};

/// The line that is away.
const AWAY: u32 = 2;

/// The connections of a plant's lines.
#[derive(Drop)]
pub struct Lines {
    alloc: Global,
    plant: Plant,
    conns: Vec<Conn>,
    // How many queries each connection made.
    asked: Vec<u32>,
}

fn list(alloc: Global, plant: &Plant) -> Result<String, AllocError> {
    let mut text = String::from_str(alloc, HEADER)?;
    for device in 0..plant.devices {
        plant.push_points(alloc, &mut text, "", device)?;
    }
    Ok(text)
}

// The calls of an office stand in functions that promise nothing of them.

fn load<K: Keeper>(office: &mut Office<K>, list: &str) -> Option<RequestAnswer> {
    let (caller, key) = named("list").ok()?;
    office.load(&caller, &key, list.as_bytes()).ok()
}

fn void<K: Keeper>(
    office: &mut Office<K>,
    key: &str,
    point: &str,
    slot: u32,
) -> Option<RequestAnswer> {
    let (caller, key) = named(key).ok()?;
    office.void(&caller, &key, point, slot).ok()
}

fn opened<K: Keeper>(office: &mut Office<K>, line: &str) -> Option<Conn> {
    office.open_line(line).ok()
}

fn total<K: Keeper>(office: &mut Office<K>, point: &str) -> Option<u128> {
    office.total(point).ok()?
}

fn kept_points<K: Keeper>(alloc: Global, keeper: &mut K) -> Option<Vec<PointRow>> {
    keeper.points(alloc).ok()
}

fn kept_readings<K: Keeper>(
    alloc: Global,
    keeper: &mut K,
    point: &PointRow,
) -> Option<Vec<ShownReading>> {
    keeper.readings(alloc, point, 0, u32::MAX).ok()
}

fn jobs<K: Keeper>(alloc: Global, office: &Office<K>, line: u32) -> Option<Vec<LineJob>> {
    jobs_of(
        alloc,
        office.site(),
        office.points(),
        u16::try_from(line).ok()?,
    )
    .ok()
}

/// Adds what a round over these bytes tells and writes.
fn add_round<K: Keeper>(
    alloc: Global,
    office: &mut Office<K>,
    digest: &mut Digest,
    conn: Conn,
    slot: u32,
    bytes: &[u8],
) -> Option<()> {
    let mut reader = Counted::new(bytes);
    let mut writer = Counted::new(Vec::new(alloc));
    let told = poll_round(alloc, office, conn, slot, &mut reader, &mut writer);
    digest.add_value(alloc, &told).ok()?;
    digest.add(&writer.into_inner());
    Some(())
}

/// An office of a plant over an empty keeper, which knows its points.
pub fn office_of<K: Keeper + Drop>(
    alloc: Global,
    keeper: K,
    digest: &mut Digest,
    plant: &Plant,
) -> Option<Office<K>> {
    let site = plant.site(alloc).ok()?;
    let mut office = begun(alloc, keeper, site.as_str()).ok()?.ok()?;
    let answer = load(&mut office, list(alloc, plant).ok()?.as_str())?;
    digest.add_value(alloc, &answer).ok()?;
    Some(office)
}

/// The number of the device that a job's device is named by.
fn device_of(plant: &Plant, line: u32, job: u32) -> u32 {
    line.wrapping_add(plant.lines.wrapping_mul(job / 2))
}

/// The replies to a round's reads of a line, as bytes: each device has two.
fn replies(
    alloc: Global,
    plant: &Plant,
    jobs: &[LineJob],
    line: u32,
    slot: u32,
    asked: &mut u32,
) -> Option<Vec<u8>> {
    let mut bytes = Vec::new(alloc);
    let mut reads = 0u32;
    for job in jobs {
        let LineJob::Read { read, .. } = job else {
            continue;
        };
        let device = device_of(plant, line, reads);
        reads = reads.wrapping_add(1);
        let words = image(alloc, plant, device, slot).ok()?;
        let words = words.get(read.span.start as usize..)?;
        let words = words.get(..read.span.quantity as usize)?;
        let unit = (plant.unit_of(device) & 0xFF) as u8;
        let transaction = (*asked & 0xFFFF) as u16;
        *asked = asked.wrapping_add(1);
        let frame = reply_bytes(alloc, transaction, unit, words).ok()?;
        bytes.extend_from_slice(&frame).ok()?;
    }
    Some(bytes)
}

impl Lines {
    pub fn open<K: Keeper>(alloc: Global, plant: Plant, office: &mut Office<K>) -> Option<Lines> {
        let mut conns = Vec::new(alloc);
        let mut asked = Vec::new(alloc);
        for line in 0..plant.lines {
            let name = format!(in alloc; "line-{line}").ok()?;
            conns.push(opened(office, name.as_str())?).ok()?;
            asked.push(0u32).ok()?;
        }
        Some(Lines {
            alloc,
            plant,
            conns,
            asked,
        })
    }

    /// A round of a line in a slot.
    fn poll<K: Keeper>(
        &mut self,
        office: &mut Office<K>,
        digest: &mut Digest,
        line: u32,
        slot: u32,
        jobs: &[LineJob],
    ) -> Option<()> {
        let conn = *self.conns.get(line as usize)?;
        let asked = self.asked.get_mut(line as usize)?;
        let bytes = replies(self.alloc, &self.plant, jobs, line, slot, asked)?;
        add_round(self.alloc, office, digest, conn, slot, &bytes)
    }

    /// Rounds of a line in these slots.
    pub fn poll_slots<K: Keeper>(
        &mut self,
        office: &mut Office<K>,
        digest: &mut Digest,
        line: u32,
        slots: Range<u32>,
    ) -> Option<()> {
        let jobs = jobs(self.alloc, office, line)?;
        for slot in slots {
            self.poll(office, digest, line, slot, &jobs)?;
        }
        Some(())
    }

    /// Rounds of all lines in a slot, but of the one that is away.
    fn poll_others<K: Keeper>(
        &mut self,
        office: &mut Office<K>,
        digest: &mut Digest,
        slot: u32,
    ) -> Option<()> {
        for line in 0..self.plant.lines {
            if line != AWAY {
                self.poll_slots(office, digest, line, slot..slot.wrapping_add(1))?;
            }
        }
        Some(())
    }
}

fn void_some<K: Keeper>(
    alloc: Global,
    office: &mut Office<K>,
    digest: &mut Digest,
    plant: &Plant,
    count: u32,
    slots: u32,
) -> Option<()> {
    let mut dice = Dice::new(plant.seed);
    for number in 0..count {
        let device = dice.below(plant.devices);
        let key = format!(in alloc; "void-{number}").ok()?;
        let point = format!(in alloc; "meter-{device}.p1").ok()?;
        let answer = void(office, key.as_str(), point.as_str(), dice.below(slots))?;
        digest.add_value(alloc, &answer).ok()?;
    }
    Some(())
}

fn add_totals<K: Keeper>(
    alloc: Global,
    office: &mut Office<K>,
    digest: &mut Digest,
    plant: &Plant,
) -> Option<()> {
    for device in 0..plant.devices {
        let point = format!(in alloc; "meter-{device}.p1").ok()?;
        let total = total(office, point.as_str())?;
        digest.add(&total.to_be_bytes());
    }
    Some(())
}

fn add_reading(digest: &mut Digest, reading: &ReadingRow) {
    digest.add(&reading.point.to_be_bytes());
    digest.add(&reading.slot.to_be_bytes());
    for word in reading.words.as_slice() {
        digest.add(&word.to_be_bytes());
    }
    digest.add(&[u8::from(reading.counted)]);
}

/// All readings that a keeper has: of a slot that is voided none counts.
fn add_readings<K: Keeper>(alloc: Global, keeper: &mut K, digest: &mut Digest) -> Option<()> {
    for point in &kept_points(alloc, keeper)? {
        for shown in &kept_readings(alloc, keeper, point)? {
            add_reading(digest, &shown.reading);
        }
    }
    Some(())
}

/// All lines but one for so many slots; then that one, its later half first.
fn live<K: Keeper>(
    office: &mut Office<K>,
    lines: &mut Lines,
    digest: &mut Digest,
    slots: u32,
) -> Option<()> {
    for slot in 0..slots {
        lines.poll_others(office, digest, slot)?;
    }
    void_some(lines.alloc, office, digest, &lines.plant, 4, slots)?;
    lines.poll_slots(office, digest, AWAY, slots / 2..slots)?;
    lines.poll_slots(office, digest, AWAY, 0..slots / 2)?;
    add_totals(lines.alloc, office, digest, &lines.plant)
}

pub fn poll<K: Keeper + Drop>(
    rt: &HostRuntime,
    keeper: K,
    seed: u32,
    size: Size,
) -> io::Result<()> {
    let plant = Plant {
        lines: 5,
        devices: size.of(25, 5),
        points: size.of(40, 8),
        seed,
    };
    let mut digest = Digest::new();
    let mut office = granted(office_of(rt.alloc(), keeper, &mut digest, &plant))?;
    let mut lines = granted(Lines::open(rt.alloc(), plant, &mut office))?;
    granted(live(&mut office, &mut lines, &mut digest, size.of(100, 4)))?;
    let mut keeper = office.into_keeper();
    granted(add_readings(rt.alloc(), &mut keeper, &mut digest))?;
    print_digest(rt, "rounds", &digest)
}
