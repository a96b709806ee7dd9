//! Bytes in hexadecimal digits.
use anyhow::Result;
use std::alloc::Global;

/// `03 00 6B` for three bytes.
pub(crate) fn shown(alloc: Global, bytes: &[u8]) -> Result<String> {
    let mut text = String::new(alloc);
    for (place, byte) in bytes.iter().enumerate() {
        let space = if place == 0 { "" } else { " " };
        let digits = format!(in alloc; "{space}{byte:02X}")?;
        text.push_str(digits.as_str())?;
    }
    Ok(text)
}
