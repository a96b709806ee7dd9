//! `office_net`: a poll round of a line, over a reader and a writer, here bytes in memory; and a report of what it
//! recorded (`office_report`).
use crate::bytes::shown;
use crate::offices::{load, office};
use anyhow::Result;
use mb_mbap::Counted;
use office_core::Office;
use office_net::poll_round;
use office_report::write_report;
use poll_book::Keeper;

/// The device's reply, which was there beforehand.
const REPLY: &[u8] = &[
    0x00, 0x00, 0x00, 0x00, 0x00, 0x05, 0x11, 0x03, 0x02, 0x02, 0x2B,
];

fn poll<K: Keeper>(rt: &HostRuntime, office: &mut Office<K>) -> Result<()> {
    let alloc = rt.alloc();
    let conn = office.open_line("roof")?;
    let (mut reader, mut writer) = (Counted::new(REPLY), Counted::new(Vec::new(alloc)));
    let round = poll_round(alloc, office, conn, 1, &mut reader, &mut writer)?;
    println!(rt; "{round:?}")?;
    let queries = shown(alloc, &writer.into_inner())?;
    println!(rt; "written {queries}")?;
    Ok(())
}

fn report<K: Keeper>(rt: &HostRuntime, office: &mut Office<K>) -> Result<()> {
    let mut writer = Counted::new(Vec::new(rt.alloc()));
    let is_known = write_report(rt.alloc(), office, "energy", 1, 9, &mut writer)?;
    let text = String::from_utf8(writer.into_inner())?;
    println!(rt; "known {is_known}")?;
    print!(rt; "{text}")?;
    Ok(())
}

pub(crate) fn show(rt: &HostRuntime) -> Result<()> {
    let mut office = office(rt.alloc())?;
    load(&mut office)?;
    poll(rt, &mut office)?;
    report(rt, &mut office)
}
