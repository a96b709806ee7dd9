//! `sunspec`: what registers mean, their text, and the registers of a number.
use anyhow::{Result, bail};
use std::alloc::Global;
use sunspec::{PointType, Value, read_value, shown_text, to_registers};

/// What registers mean, if they can be registers of the type.
fn value_of(kind: &PointType, words: &[u16]) -> Option<Value> {
    if kind.is_sized() && kind.has_registers(words) {
        Some(read_value(kind, words))
    } else {
        None
    }
}

/// The text of registers, if they can be registers of the type.
fn text_of(alloc: Global, kind: &PointType, words: &[u16], scale: i32) -> Result<Option<String>> {
    if !kind.is_sized() || !kind.has_registers(words) {
        bail!("no registers of the type");
    }
    Ok(shown_text(alloc, kind, words, scale)?)
}

pub(crate) fn show(rt: &HostRuntime) -> Result<()> {
    let alloc = rt.alloc();
    let Some(value) = value_of(&PointType::Int32, &[0xFFFF, 0xFF38]) else {
        bail!("no registers of an int32");
    };
    println!(rt; "{value:?}")?;
    // An energy in Wh with the scale factor -1.
    let text = text_of(alloc, &PointType::Acc32, &[0x0001, 0x86A1], -1)?;
    println!(rt; "{text:?}")?;
    let missing = text_of(alloc, &PointType::Uint16, &[0xFFFF], 0)?;
    println!(rt; "{missing:?}")?;
    let words = to_registers(&PointType::Int16, -350)?;
    println!(rt; "{words:?}")?;
    println!(rt; "{:?}", to_registers(&PointType::Int16, -32_768).err())?;
    Ok(())
}
