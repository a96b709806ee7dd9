//! Orders of settings.
use crate::Failure;
use office_core::Office;
use office_report::request_text;
use poll_book::{Caller, Keeper, Key};
use std::alloc::Global;

/// Orders that a point is set to a value, under a caller's key, and gives what is printed: `order N`
/// with the order's number, `refused TEXT`, or `key reused` where another request had the key. A
/// request that was made before is answered as it was then.
pub fn order<K: Keeper>(
    alloc: Global,
    office: &mut Office<K>,
    caller: &Caller,
    key: &Key,
    point: &str,
    value: i128,
) -> Result<String, Failure> {
    let told = office.order(caller, key, point, value)?;
    let mut text = request_text(alloc, &told)?;
    text.push_str("\n")?;
    Ok(text)
}
