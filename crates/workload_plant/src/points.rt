//! The points of a device, where they lie, and what its registers show in a slot.
use crate::plant::Plant;
use std::alloc::{AllocError, Global};

/// A kind of point, by the columns of a point list.
#[derive(Clone, Copy)]
pub(crate) struct Kind {
    pub(crate) registers: u32,
    pub(crate) text: &'static str,
    pub(crate) length: &'static str,
    // The columns of scale, role and roll.
    pub(crate) meaning: &'static str,
    counts: bool,
    // The greatest value, after which a counter begins again at 0.
    roll: u64,
}

/// What each device has first.
const SERIAL: Kind = Kind {
    registers: 8,
    text: "string",
    length: "8",
    meaning: ",gauge,",
    counts: false,
    roll: 0,
};

fn counter(registers: u32, text: &'static str, meaning: &'static str, roll: u64) -> Kind {
    Kind {
        registers,
        text,
        length: "",
        meaning,
        counts: true,
        roll,
    }
}

fn gauge(registers: u32, text: &'static str, meaning: &'static str) -> Kind {
    Kind {
        registers,
        text,
        length: "",
        meaning,
        counts: false,
        roll: 0xFFFF,
    }
}

/// Where each device has its setting, one holding register.
pub const SETTING: u16 = 1_000;

/// Between the two blocks of a device so many registers are nobody's.
const GAP: u32 = 30;

/// Half of a device's points are counters, of which one kind begins again at 10,000.
pub(crate) fn kind_of(place: u32) -> Kind {
    if place == 0 {
        return SERIAL;
    }
    match place % 8 {
        0 => gauge(1, "uint16", ",gauge,"),
        1 => counter(2, "acc32", "-1,counter,", 0xFFFF_FFFF),
        2 => gauge(1, "int16", "-1,gauge,"),
        3 => counter(4, "acc64", ",counter,", 0xFFFF_FFFF_FFFF_FFFF),
        4 => counter(1, "uint16", ",counter,9999", 9_999),
        5 => gauge(2, "uint32", ",gauge,"),
        6 => gauge(1, "int16", "-3,gauge,"),
        _ => counter(2, "acc32", ",counter,", 0xFFFF_FFFF),
    }
}

/// Where each point of so many lies.
pub(crate) fn addresses(alloc: Global, points: u32) -> Result<Vec<u32>, AllocError> {
    let mut addresses = Vec::new(alloc);
    let mut next = 0u32;
    for place in 0..points {
        if place == points / 2 {
            next = next.wrapping_add(GAP);
        }
        addresses.push(next)?;
        next = next.wrapping_add(kind_of(place).registers);
    }
    Ok(addresses)
}

/// A run of registers that one read asks for.
#[derive(Clone, Copy)]
pub struct Block {
    pub start: u16,
    pub quantity: u16,
}

/// The block of the points of these places.
fn block_of(addresses: &[u32], from: u32, to: u32) -> Block {
    let start = addresses.get(from as usize).copied().unwrap_or(0);
    let last = to.saturating_sub(1);
    let end = addresses
        .get(last as usize)
        .copied()
        .unwrap_or(0)
        .wrapping_add(kind_of(last).registers);
    Block {
        start: (start & 0xFFFF) as u16,
        quantity: (end.wrapping_sub(start) & 0xFFFF) as u16,
    }
}

/// The two blocks of a device's points.
pub fn blocks(alloc: Global, points: u32) -> Result<[Block; 2], AllocError> {
    let addresses = addresses(alloc, points)?;
    let half = points / 2;
    Ok([
        block_of(&addresses, 0, half),
        block_of(&addresses, half, points),
    ])
}

/// What a point shows in a slot: a counter goes on by steps of its own, and a gauge as it likes.
fn value(plant: &Plant, device: u32, place: u32, slot: u32) -> u64 {
    let kind = kind_of(place);
    let own = device
        .wrapping_mul(64)
        .wrapping_add(place)
        .wrapping_add(plant.seed)
        .wrapping_mul(0x9E37_79B1);
    if kind.counts {
        let step = u64::from(own % 97 + 1);
        let count = u64::from(own % 9_000).wrapping_add(step.wrapping_mul(u64::from(slot)));
        return count % kind.roll.saturating_add(1).max(1);
    }
    u64::from(own.wrapping_add(slot.wrapping_mul(7_919)) >> 17)
}

/// The registers of a device in a slot, from address 0 to the end of its points.
pub fn image(alloc: Global, plant: &Plant, device: u32, slot: u32) -> Result<Vec<u16>, AllocError> {
    let mut words = Vec::new(alloc);
    for place in 0..plant.points {
        if place == plant.points / 2 {
            for _ in 0..GAP {
                words.push(0u16)?;
            }
        }
        let registers = kind_of(place).registers;
        let number = value(plant, device, place, slot);
        for register in 0..registers {
            let behind = registers.wrapping_sub(register).wrapping_sub(1);
            let shift = behind.wrapping_mul(16);
            let word = if shift < 64 { number >> shift } else { 0x4142 };
            words.push((word & 0xFFFF) as u16)?;
        }
    }
    Ok(words)
}
