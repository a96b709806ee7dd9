//! All that a keeper holds, as text.
use crate::builders::named;
use office_core::OfficeError;
use poll_book::{Keeper, PointRow, StoreFault};
use std::alloc::Global;

/// Slots are looked at below so many for whether they are voided.
const VOIDED: u32 = 4;

// The calls of a keeper stand in functions that promise nothing of them.

fn points<K: Keeper>(alloc: Global, keeper: &mut K) -> Result<Vec<PointRow>, StoreFault> {
    keeper.points(alloc)
}

fn last_order<K: Keeper>(keeper: &mut K) -> Result<u32, StoreFault> {
    keeper.orders()
}

fn add_point<K: Keeper>(
    text: &mut String,
    keeper: &mut K,
    point: &PointRow,
) -> Result<(), OfficeError> {
    let rows = keeper.readings(*text.allocator(), point, 0, u32::MAX)?;
    let total = keeper.total(point)?;
    Ok(writeln!(text, "{point:?} {rows:?} {total}")?)
}

fn is_voided<K: Keeper>(keeper: &mut K, point: &PointRow, slot: u32) -> Result<bool, StoreFault> {
    keeper.voided(point, slot)
}

/// Which of the first slots of a point are voided.
fn add_voided<K: Keeper>(
    text: &mut String,
    keeper: &mut K,
    point: &PointRow,
) -> Result<(), OfficeError> {
    for slot in 0..VOIDED {
        if is_voided(keeper, point, slot)? {
            writeln!(text, "{} voided {slot}", point.number)?;
        }
    }
    Ok(())
}

fn add_order<K: Keeper>(text: &mut String, keeper: &mut K, number: u32) -> Result<(), OfficeError> {
    let order = keeper.setting(number)?;
    Ok(writeln!(text, "{number} {order:?}")?)
}

fn add_oldest<K: Keeper>(
    text: &mut String,
    keeper: &mut K,
    device: &str,
) -> Result<(), OfficeError> {
    let oldest = keeper.oldest_waiting(device)?;
    Ok(writeln!(text, "{device} {oldest:?}")?)
}

fn add_request<K: Keeper>(text: &mut String, keeper: &mut K, key: &str) -> Result<(), OfficeError> {
    let (caller, key) = named(key)?;
    let request = keeper.request(*text.allocator(), &caller, &key)?;
    Ok(writeln!(text, "{request:?}")?)
}

fn add_counts<K: Keeper>(text: &mut String, keeper: &mut K) -> Result<(), OfficeError> {
    let (voids, connections) = (keeper.voids()?, keeper.connections()?);
    Ok(writeln!(text, "{voids} voids, {connections} connections")?)
}

/// What a keeper tells of each point, of its first slots, of each order, of the requests under these keys, how
/// many slots are voided, and of its last connection.
pub fn text_of<K: Keeper>(
    alloc: Global,
    keeper: &mut K,
    keys: &[&str],
) -> Result<String, OfficeError> {
    let mut text = String::new(alloc);
    for point in &points(alloc, keeper)? {
        add_point(&mut text, keeper, point)?;
        add_voided(&mut text, keeper, point)?;
    }
    for number in 0..=last_order(keeper)? {
        add_order(&mut text, keeper, number)?;
    }
    for device in ["m1", "m2"] {
        add_oldest(&mut text, keeper, device)?;
    }
    for key in keys {
        add_request(&mut text, keeper, key)?;
    }
    add_counts(&mut text, keeper)?;
    Ok(text)
}
