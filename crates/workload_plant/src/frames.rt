//! What devices answer, as bytes.
use std::alloc::{AllocError, Global};

/// The unit of a reply to a read of holding registers (function 03).
pub fn reply_unit(alloc: Global, words: &[u16]) -> Result<Vec<u8>, AllocError> {
    let mut bytes = Vec::new(alloc);
    bytes.push(3u8)?;
    bytes.push(((words.len() as u64).wrapping_mul(2) & 0xFF) as u8)?;
    for word in words {
        bytes.extend_from_slice(&word.to_be_bytes())?;
    }
    Ok(bytes)
}

/// A frame around a unit.
fn frame_bytes(
    alloc: Global,
    transaction: u16,
    unit_id: u8,
    unit: &[u8],
) -> Result<Vec<u8>, AllocError> {
    let mut bytes = Vec::new(alloc);
    bytes.extend_from_slice(&transaction.to_be_bytes())?;
    bytes.extend_from_slice(&[0, 0])?;
    let length = ((unit.len() as u64).wrapping_add(1) & 0xFFFF) as u16;
    bytes.extend_from_slice(&length.to_be_bytes())?;
    bytes.push(unit_id)?;
    bytes.extend_from_slice(unit)?;
    Ok(bytes)
}

/// The frame of a reply to a read of holding registers.
pub fn reply_bytes(
    alloc: Global,
    transaction: u16,
    unit_id: u8,
    words: &[u16],
) -> Result<Vec<u8>, AllocError> {
    let unit = reply_unit(alloc, words)?;
    frame_bytes(alloc, transaction, unit_id, &unit)
}

/// The frame by which a device answers the write of one register, which is that of the query.
pub fn echo_bytes(
    alloc: Global,
    transaction: u16,
    unit_id: u8,
    address: u16,
    value: u16,
) -> Result<Vec<u8>, AllocError> {
    let [high, low] = address.to_be_bytes();
    let [first, second] = value.to_be_bytes();
    frame_bytes(alloc, transaction, unit_id, &[6, high, low, first, second])
}
