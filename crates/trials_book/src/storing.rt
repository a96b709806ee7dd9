//! Points and their readings in a keeper. The calls of the keeper stand in functions without
//! clauses: a test needs none of their promises, and each would be a fact in each of its goals.
use mb_pdu::{Registers, Table};
use point_list::{Label, Name, Point, Role};
use poll_book::{
    Change, Keeper, MemKeeper, Neighbours, PointRow, ShownReading, StoreFault, Words, reply_change,
    void_one,
};
use std::alloc::{AllocError, Global};
use std::fmt::Debug;
use sunspec::{PointType, WordOrder};
use telling::Trial;

/// Expects a value as `Debug` shows it.
pub(crate) fn shows<T: Debug>(
    trial: &Trial<'_>,
    value: &T,
    expected: &str,
) -> Result<(), AllocError> {
    let alloc = trial.alloc();
    let text = format!(in alloc; "{value:?}")?;
    trial.told(&"shown", &text.as_str(), &expected);
    Ok(())
}

/// A point of a device.
pub(crate) fn point(
    number: u32,
    device: &str,
    kind: PointType,
    (role, roll): (Role, u64),
) -> Result<PointRow, StoreFault> {
    let (Some(name), Some(device)) = (Name::new(b"energy"), Label::new(device.as_bytes())) else {
        return Err(StoreFault::Other);
    };
    Ok(PointRow {
        number,
        point: Point {
            name,
            device,
            table: Table::Holding,
            address: 107,
            kind,
            scale: 0,
            role,
            roll,
            order: WordOrder::Big,
        },
    })
}

pub(crate) fn apply(keeper: &mut MemKeeper, change: &Change) -> Result<(), StoreFault> {
    keeper.apply(change)
}

/// The registers of a point in a slot.
pub(crate) fn words(
    keeper: &mut MemKeeper,
    point: &PointRow,
    slot: u32,
) -> Result<Option<Words>, StoreFault> {
    Ok(keeper.reading(point, slot)?.map(|reading| reading.words))
}

pub(crate) fn readings(
    alloc: Global,
    keeper: &mut MemKeeper,
    point: &PointRow,
    from: u32,
    to: u32,
) -> Result<Vec<ShownReading>, StoreFault> {
    keeper.readings(alloc, point, from, to)
}

/// Records these registers of the point in the slot, and says how many readings were new.
pub(crate) fn store(
    alloc: Global,
    keeper: &mut MemKeeper,
    point: &PointRow,
    slot: u32,
    words: &[u16],
) -> Result<usize, StoreFault> {
    let Some(registers) = Registers::from_slice(words) else {
        return Err(StoreFault::Other);
    };
    let change = reply_change(alloc, keeper, &[(*point, registers)], slot)?;
    apply(keeper, &change)?;
    Ok(change.readings.as_slice().len())
}

/// Voids a slot of the point, and says how many readings were taken out of its total.
pub(crate) fn void(
    alloc: Global,
    keeper: &mut MemKeeper,
    point: &PointRow,
    slot: u32,
) -> Result<usize, StoreFault> {
    let change = void_one(alloc, keeper, point, slot)?;
    apply(keeper, &change)?;
    Ok(change.readings.as_slice().len())
}
