//! Readings of one change, as many as one statement adds, fewer and more, in memory and in a database: new ones, and
//! ones whose mark is written over.
use office_core::OfficeError;
use office_plays::builders::office_after;
use office_plays::steps::Happens::{self, Load};
use point_list::Items;
use poll_book::{Change, Keeper, MemKeeper, PointRow, ReadingRow, StoreFault, Words};
use std::alloc::Global;
use std::test::Fail;
use store_plays::stored;
use telling::{Trial, twice};

/// Counters of one register.
const COUNTERS: &[Happens] = &[Load(
    "l1",
    "a,m1,holding,200,uint16,,,counter,\nb,m1,holding,201,uint16,,,counter,\nc,m1,holding,202,uint16,,,counter,\nd,m1,holding,203,uint16,,,counter,\ne,m1,holding,204,uint16,,,counter,\nf,m1,holding,205,uint16,,,counter,\ng,m1,holding,206,uint16,,,counter,\nh,m1,holding,207,uint16,,,counter,\ni,m1,holding,208,uint16,,,counter,\nj,m1,holding,209,uint16,,,counter,\nk,m1,holding,210,uint16,,,counter,\nl,m1,holding,211,uint16,,,counter,\n",
)];

/// From which counter to which there are readings, without a mark; how many of the first counters a change has
/// readings of, with a mark; and what there is then, `+` with a mark.
const CASES: &[(usize, usize, usize, &str)] = &[
    (0, 0, 0, "............"),
    (0, 0, 1, "+..........."),
    (0, 0, 4, "++++........"),
    (0, 0, 5, "+++++......."),
    (0, 0, 6, "++++++......"),
    (0, 0, 10, "++++++++++.."),
    (0, 0, 12, "++++++++++++"),
    (0, 1, 5, "+++++......."),
    (4, 5, 5, "+++++......."),
    (1, 3, 5, "+++++......."),
    (0, 5, 5, "+++++......."),
    (2, 9, 5, "+++++----..."),
    (0, 1, 11, "+++++++++++."),
    (5, 8, 12, "++++++++++++"),
    (11, 12, 12, "++++++++++++"),
    (0, 12, 12, "++++++++++++"),
];

/// Readings of these points in a slot.
fn change_of(alloc: Global, points: &[PointRow], counted: bool) -> Result<Change, StoreFault> {
    let mut readings = Vec::new(alloc);
    for point in points {
        readings.push(ReadingRow {
            point: point.number,
            slot: 3,
            words: Words::new(alloc, &[700])?,
            counted,
        })?;
    }
    Ok(Change {
        readings: Items::from_vec(readings),
        ..Change::none(alloc)
    })
}

/// Puts the readings of the points from one place to another.
fn put<K: Keeper>(
    alloc: Global,
    keeper: &mut K,
    (from, to): (usize, usize),
    counted: bool,
) -> Result<(), OfficeError> {
    let points = keeper.points(alloc)?;
    let points = points.get(from..to).ok_or(OfficeError::NoRead)?;
    Ok(keeper.apply(&change_of(alloc, points, counted)?)?)
}

/// Whether each point has a reading, and one that counts, as its mark has it.
fn marks<K: Keeper>(alloc: Global, keeper: &mut K) -> Result<String, OfficeError> {
    let mut text = String::new(alloc);
    for point in &keeper.points(alloc)? {
        let has_reading = keeper.has_reading(point, 3)?;
        let counts = keeper.before(point, 4)?.is_some();
        text.push(match (has_reading, counts) {
            (false, _) => '.',
            (true, false) => '-',
            (true, true) => '+',
        })?;
    }
    Ok(text)
}

fn marks_after<K: Keeper + Drop>(
    alloc: Global,
    keeper: K,
    before: (usize, usize),
    count: usize,
) -> Result<String, OfficeError> {
    let mut keeper = office_after(alloc, keeper, COUNTERS)?.into_keeper();
    put(alloc, &mut keeper, before, false)?;
    put(alloc, &mut keeper, (0, count), true)?;
    marks(alloc, &mut keeper)
}

fn readings(trial: &Trial<'_>) -> Result<(), OfficeError> {
    let alloc = trial.alloc();
    for (from, to, count, then) in CASES {
        let before = (*from, *to);
        let kept = marks_after(alloc, MemKeeper::new(alloc), before, *count)?;
        let stored = marks_after(alloc, stored(alloc)?, before, *count)?;
        trial.told(&("kept", before, *count), &kept.as_str(), then);
        trial.told(&("stored", before, *count), &stored.as_str(), then);
    }
    Ok(())
}

#[test]
fn readings_of_a_change_are_all_kept(rt: HostRuntime) -> Result<(), Fail> {
    Ok(twice!(rt, readings)?)
}
