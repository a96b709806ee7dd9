//! `line_source`: a device's registers over a reader and a writer, here bytes in memory.
use crate::bytes::shown;
use anyhow::Result;
use line_source::LineSource;
use mb_mbap::Counted;
use sunspec::RegisterSource;

/// A late reply to nothing, and then the reply.
const REPLIES: &[u8] = &[
    0x00, 0x07, 0x00, 0x00, 0x00, 0x03, 0x11, 0x83, 0x02, 0x00, 0x00, 0x00, 0x00, 0x00, 0x07, 0x11,
    0x03, 0x04, 0x53, 0x75, 0x6E, 0x53,
];

pub(crate) fn show(rt: &HostRuntime) -> Result<()> {
    let alloc = rt.alloc();
    let (reader, writer) = (Counted::new(REPLIES), Counted::new(Vec::new(alloc)));
    let mut device = LineSource::new(alloc, 17, reader, writer);
    let told = device.read(40_000, 2)?;
    println!(rt; "{told:?}")?;
    let (_, writer) = device.into_parts();
    let query = shown(alloc, &writer.into_inner())?;
    println!(rt; "asked by {query}")?;
    Ok(())
}
