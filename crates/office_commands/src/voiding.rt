//! Voids of slots.
use crate::Failure;
use office_core::Office;
use office_report::request_text;
use poll_book::{Caller, Keeper, Key};
use std::alloc::Global;

/// Takes a slot of a counter out of its total, under a caller's key, and gives what is printed: `voided SLOT`,
/// `refused TEXT`, or `key reused` where another request had the key. A request that was made before is answered
/// as it was then.
pub fn void<K: Keeper>(
    alloc: Global,
    office: &mut Office<K>,
    caller: &Caller,
    key: &Key,
    point: &str,
    slot: u32,
) -> Result<String, Failure> {
    let told = office.void(caller, key, point, slot)?;
    let mut text = request_text(alloc, &told)?;
    text.push_str("\n")?;
    Ok(text)
}
