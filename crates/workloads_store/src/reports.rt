//! Reports of windows of a point's readings, of many points and lengths, over a database that was polled for long.
use crate::rounds::{Lines, office_of};
use crate::work::{Size, granted, print_digest};
use mb_mbap::Counted;
use office_core::Office;
use office_report::write_report;
use poll_book::Keeper;
use std::alloc::Global;
use std::io;
use workload_plant::{Dice, Digest, Plant};

/// The report of a point in the slots from one on, and so many more.
fn told<K: Keeper>(
    alloc: Global,
    office: &mut Office<K>,
    point: &str,
    from: u32,
    more: u32,
) -> Option<Vec<u8>> {
    let to = from.saturating_add(more);
    let mut writer = Counted::new(Vec::new(alloc));
    match write_report(alloc, office, point, from, to, &mut writer) {
        Ok(true) => Some(writer.into_inner()),
        _ => None,
    }
}

/// So many reports of windows of these slots.
fn tell<K: Keeper>(
    alloc: Global,
    office: &mut Office<K>,
    digest: &mut Digest,
    plant: &Plant,
    slots: u32,
    count: u32,
) -> Option<()> {
    let mut dice = Dice::new(plant.seed);
    for _ in 0..count {
        let place = dice.below(plant.points);
        let point = format!(in alloc; "meter-0.p{place}").ok()?;
        let from = dice.below(slots);
        let report = told(alloc, office, point.as_str(), from, dice.below(slots))?;
        digest.add(&report);
    }
    Some(())
}

pub fn report<K: Keeper + Drop>(
    rt: &HostRuntime,
    keeper: K,
    seed: u32,
    size: Size,
) -> io::Result<()> {
    let plant = Plant {
        lines: 1,
        devices: 1,
        points: size.of(40, 8),
        seed,
    };
    let slots = size.of(500, 6);
    let mut digest = Digest::new();
    let mut office = granted(office_of(rt.alloc(), keeper, &mut digest, &plant))?;
    let mut lines = granted(Lines::open(rt.alloc(), plant, &mut office))?;
    granted(lines.poll_slots(&mut office, &mut digest, 0, 0..slots))?;
    granted(tell(
        rt.alloc(),
        &mut office,
        &mut digest,
        &plant,
        slots,
        size.of(2_000, 20),
    ))?;
    print_digest(rt, "reports", &digest)
}
