//! The stored total of a counter whose readings arrive in any order, and of one of which a reading is taken out, in
//! memory and in a database.
use mb_pdu::Registers;
use office_core::OfficeError;
use office_plays::builders::office_after;
use office_plays::steps::Happens::{self, Load};
use point_list::Items;
use poll_book::{
    Change, Keeper, MemKeeper, PointRow, ReadingRow, StoreFault, TotalRow, VoidRow, reply_change,
};
use std::alloc::Global;
use std::test::Fail;
use store_plays::stored;
use telling::{Trial, twice};

/// Counters that begin again behind 99, behind 65535 and behind 2^32 - 1. Their 0 doesn't count.
const COUNTERS: &[Happens] = &[Load(
    "l1",
    "a,m1,holding,107,acc32,,,counter,99\nb,m1,holding,109,acc32,,,counter,65535\nc,m1,holding,111,acc32,,,counter,\n",
)];

/// A slot and the value in it.
type Arrival = (u32, u16);

/// The place of a counter, its readings, in how many orders they may arrive, and the total then.
const CASES: &[(usize, &[Arrival], usize, u128)] = &[
    (0, &[], 1, 0),
    (0, &[(5, 20)], 1, 0),
    (0, &[(5, 20), (1, 90)], 2, 30),
    (0, &[(5, 20), (1, 90), (3, 95)], 6, 30),
    (0, &[(5, 20), (1, 90), (3, 95), (2, 10)], 24, 130),
    (0, &[(5, 20), (1, 90), (3, 95), (2, 10), (4, 20)], 120, 130),
    (0, &[(5, 20), (1, 90), (3, 95), (4, 20)], 24, 30),
    (0, &[(1, 90), (2, 150), (3, 20)], 6, 30),
    (1, &[(1, 700)], 1, 0),
    (1, &[(1, 65000), (3, 500)], 2, 1036),
    (1, &[(1, 65000), (3, 500), (2, 65500)], 6, 1036),
    (1, &[(1, 65000), (3, 500), (2, 64000)], 6, 66572),
    (2, &[(1, 100), (2, 0), (3, 150)], 6, 50),
];

/// Keeps a reading of a point as a reply brings it.
fn keep<K: Keeper>(
    alloc: Global,
    keeper: &mut K,
    point: &PointRow,
    (slot, value): Arrival,
) -> Result<(), StoreFault> {
    let registers = Registers::from_slice(&[0, value]).ok_or(StoreFault::Other)?;
    let change = reply_change(alloc, keeper, &[(*point, registers)], slot)?;
    keeper.apply(&change)
}

/// The total of the counter at a place after its readings arrived in the order of a number.
fn total_after<K: Keeper>(
    alloc: Global,
    keeper: &mut K,
    (place, readings): (usize, &[Arrival]),
    mut order: usize,
) -> Result<u128, OfficeError> {
    let points = keeper.points(alloc)?;
    let point = points.get(place).ok_or(OfficeError::NoRead)?;
    let mut left = Vec::from_slice(alloc, readings)?;
    for _ in readings {
        if left.is_empty() {
            break;
        }
        let at = order % left.len();
        order /= left.len();
        keep(alloc, keeper, point, left.swap_remove(at))?;
    }
    Ok(keeper.total(point)?)
}

/// The same over an empty keeper.
fn total_over<K: Keeper + Drop>(
    alloc: Global,
    keeper: K,
    case: (usize, &[Arrival]),
    order: usize,
) -> Result<u128, OfficeError> {
    let mut keeper = office_after(alloc, keeper, COUNTERS)?.into_keeper();
    total_after(alloc, &mut keeper, case, order)
}

fn totals(trial: &Trial<'_>) -> Result<(), OfficeError> {
    let alloc = trial.alloc();
    for (place, readings, orders, total) in CASES {
        for order in 0..*orders {
            let case = (*place, *readings);
            let kept = total_over(alloc, MemKeeper::new(alloc), case, order)?;
            let stored = total_over(alloc, stored(alloc)?, case, order)?;
            trial.told(&(case, order), &(kept, stored), &(*total, *total));
        }
    }
    Ok(())
}

#[test]
fn a_stored_total_is_the_same_in_each_order(rt: HostRuntime) -> Result<(), Fail> {
    Ok(twice!(rt, totals)?)
}

/// A reading and a total.
fn change_of(alloc: Global, reading: ReadingRow, total: TotalRow) -> Result<Change, StoreFault> {
    Ok(Change {
        readings: Items::from_vec(vec![in alloc; reading]?),
        totals: Items::from_vec(vec![in alloc; total]?),
        ..Change::none(alloc)
    })
}

/// Takes a reading of a counter out of its total: the slot is voided, and there are the same registers with another mark,
/// and the total without it.
fn take_out<K: Keeper>(
    alloc: Global,
    keeper: &mut K,
    point: &PointRow,
    slot: u32,
    total: u128,
) -> Result<(), OfficeError> {
    let kept = keeper.reading(point, slot)?.ok_or(OfficeError::NoRead)?;
    let reading = ReadingRow {
        point: point.number,
        slot,
        words: kept.words,
        counted: false,
    };
    let total = TotalRow {
        point: point.number,
        total,
    };
    let change = Change {
        void: Some(VoidRow {
            point: point.number,
            slot,
        }),
        ..change_of(alloc, reading, total)?
    };
    Ok(keeper.apply(&change)?)
}

/// What a keeper tells of the first counter once one of its readings was taken out: the values round that slot,
/// the reading, and the total, also with one more reading.
fn told_without<K: Keeper>(alloc: Global, keeper: &mut K) -> Result<String, OfficeError> {
    let points = keeper.points(alloc)?;
    let point = points.first().ok_or(OfficeError::NoRead)?;
    for arrival in [(1, 90), (2, 10), (3, 95), (5, 20)] {
        keep(alloc, keeper, point, arrival)?;
    }
    take_out(alloc, keeper, point, 2, 30)?;
    let mut text = String::new(alloc);
    let before = keeper.before(point, 3)?;
    let after = keeper.after(point, 1)?;
    let rows = keeper.readings(alloc, point, 2, 2)?;
    write!(text, "{before:?} {after:?} {rows:?}")?;
    keep(alloc, keeper, point, (4, 20))?;
    write!(text, " {}", keeper.total(point)?)?;
    Ok(text)
}

fn told_over<K: Keeper + Drop>(alloc: Global, keeper: K) -> Result<String, OfficeError> {
    let mut keeper = office_after(alloc, keeper, COUNTERS)?.into_keeper();
    told_without(alloc, &mut keeper)
}

const WITHOUT: &str =
    "Some(90) Some(95) [ShownReading { reading: ReadingRow { point: 1, slot: 2, words: [0, 10], counted: false }, voided: true }] 30";

fn without(trial: &Trial<'_>) -> Result<(), OfficeError> {
    let alloc = trial.alloc();
    let kept = told_over(alloc, MemKeeper::new(alloc))?;
    let stored = told_over(alloc, stored(alloc)?)?;
    trial.told(&"kept", &kept.as_str(), &WITHOUT);
    trial.told(&"stored", &stored.as_str(), &WITHOUT);
    Ok(())
}

#[test]
fn a_reading_that_is_taken_out_of_its_total_stays(rt: HostRuntime) -> Result<(), Fail> {
    Ok(twice!(rt, without)?)
}
