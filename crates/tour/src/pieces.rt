//! `line_io`: pieces and a frame over a counted reader and writer, each call with the fault that it is to have.
use crate::bytes::shown;
use anyhow::{Result, bail};
use line_io::{read_piece, read_some, write_frame};
use mb_mbap::{Counted, Frame};
use mb_pdu::Unit;

fn read(rt: &HostRuntime) -> Result<()> {
    let bytes: &[u8] = &[0x00, 0x01, 0x00];
    let mut reader = Counted::new(bytes);
    let mut piece = [0u8; 2];
    for _ in 0..2 {
        if let Ok(count) = read_piece(&mut reader, &mut piece, "failed") {
            let text = shown(rt.alloc(), &piece[..count])?;
            println!(rt; "read {text}")?;
        }
    }
    let ended = read_some(&mut reader, &mut piece, 2, "ended");
    println!(rt; "then {ended:?}, {} ends", reader.ends())?;
    Ok(())
}

fn write(rt: &HostRuntime) -> Result<()> {
    let Some(unit) = Unit::from_bytes(&[0x83, 0x02]) else {
        bail!("no unit");
    };
    let frame = Frame {
        transaction: 1,
        unit_id: 17,
        unit,
    };
    let mut writer = Counted::new(Vec::new(rt.alloc()));
    let written = write_frame(&mut writer, &frame, "failed");
    let text = shown(rt.alloc(), &writer.into_inner())?;
    println!(rt; "wrote {text}: {written:?}")?;
    Ok(())
}

pub(crate) fn show(rt: &HostRuntime) -> Result<()> {
    read(rt)?;
    write(rt)
}
