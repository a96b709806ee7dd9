//! Plans of generated points, beside an exhaustive search for the least number of reads.
use mb_pdu::Table;
use point_list::{Label, Name, Point, Role};
use read_planner::{can_be_read, plan};
use std::alloc::{AllocError, Global};
use std::test::Fail;
use sunspec::{PointType, WordOrder};
use telling::{Trial, twice};

/// A point's table, its first address and its type.
type Spot = (Table, u16, PointType);

/// Numbers that look random.
#[derive(Drop)]
struct Dice(u32);

impl Dice {
    /// A number below so many.
    fn roll(&mut self, sides: u16) -> u16 {
        self.0 = self.0.wrapping_mul(1664525).wrapping_add(1013904223);
        (self.0 / 65536) as u16 % sides.max(1)
    }
}

/// A point of holding registers, from address 0 to 219.
fn spot(dice: &mut Dice) -> Spot {
    let address = dice.roll(220);
    let kind = match dice.roll(8) {
        0..=2 => PointType::Int16,
        3 => PointType::Int32,
        4 => PointType::Int64,
        5 => PointType::Str(20),
        6 => PointType::Str(60),
        _ => PointType::Str(125),
    };
    (Table::Holding, address, kind)
}

/// A point's first address and the one after its last.
type Extent = (u32, u32);

fn extent((_, address, kind): Spot) -> Extent {
    let start = u32::from(address);
    (start, start + u32::from(kind.registers()))
}

fn is_taken(extents: &[Extent], address: u32) -> bool {
    extents
        .iter()
        .any(|(start, end)| *start <= address && address < *end)
}

/// Whether a read of registers may be from this start up to this end.
fn is_allowed(extents: &[Extent], start: u32, end: u32, gap: u16) -> bool {
    let mut missing = 0u16;
    for address in start..end {
        missing = if is_taken(extents, address) {
            0
        } else {
            missing.saturating_add(1)
        };
        if missing > gap {
            return false;
        }
    }
    start < end && end.saturating_sub(start) <= 125
}

/// Which of these lie whole in a read: one bit each.
fn held(extents: &[Extent], from: u32, to: u32) -> u8 {
    let mut mask = 0;
    let mut bit = 1u8;
    for (start, end) in extents {
        if from <= *start && *end <= to {
            mask |= bit;
        }
        bit = bit.wrapping_mul(2);
    }
    mask
}

/// What each allowed read holds that begins with a start and ends with an end of these. A read of
/// another start or end holds no more than the one that is cut to what it holds.
fn choices(alloc: Global, extents: &[Extent], gap: u16) -> Result<Vec<u8>, AllocError> {
    let mut masks = Vec::new(alloc);
    for (start, _) in extents {
        for (_, end) in extents {
            if is_allowed(extents, *start, *end, gap) {
                masks.push(held(extents, *start, *end))?;
            }
        }
    }
    Ok(masks)
}

/// The least number of choices that hold all of six.
fn least_of(masks: &[u8]) -> usize {
    let mut least = [usize::MAX; 64];
    least[0] = 0;
    for have in 0..64u8 {
        for mask in masks {
            let with = least[have as usize].saturating_add(1);
            if let Some(so_far) = least.get_mut((have | *mask) as usize) {
                *so_far = with.min(*so_far);
            }
        }
    }
    least[63]
}

fn least_number(alloc: Global, extents: &[Extent], gap: u16) -> Result<usize, AllocError> {
    Ok(least_of(choices(alloc, extents, gap)?.as_slice()))
}

fn point((table, address, kind): Spot) -> Option<Point> {
    Some(Point {
        name: Name::new(b"p")?,
        device: Label::new(b"d")?,
        table,
        address,
        kind,
        scale: 0,
        role: Role::Gauge,
        roll: 0,
        order: WordOrder::Big,
    })
}

fn planned(alloc: Global, points: &[Point], gap: u16) -> Result<Option<usize>, AllocError> {
    if !points.iter().all(|point| can_be_read(point)) {
        return Ok(None);
    }
    Ok(Some(plan(alloc, points, gap)?.len()))
}

/// How many reads six points get.
fn planned_number(alloc: Global, spots: &[Spot], gap: u16) -> Result<Option<usize>, AllocError> {
    let points: Vec<Point> = spots.iter().filter_map(|spot| point(*spot)).collect(alloc)?;
    planned(alloc, points.as_slice(), gap)
}

fn search(trial: &Trial<'_>) -> Result<(), AllocError> {
    let mut dice = Dice(2026);
    for set in 0..400 {
        let spots = [
            spot(&mut dice),
            spot(&mut dice),
            spot(&mut dice),
            spot(&mut dice),
            spot(&mut dice),
            spot(&mut dice),
        ];
        let gap = dice.roll(30);
        let extents = spots.map(extent);
        let least = least_number(trial.alloc(), &extents, gap)?;
        let told = planned_number(trial.alloc(), &spots, gap)?;
        trial.told(&(set, spots, gap), &told, &Some(least));
    }
    Ok(())
}

#[test]
fn no_search_finds_fewer(rt: HostRuntime) -> Result<(), Fail> {
    Ok(twice!(rt, search)?)
}
