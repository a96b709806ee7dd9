//! `office_core`: an office, from a list to a total.
use crate::bytes::shown;
use crate::lists::site;
use anyhow::Result;
use mb_mbap::Frame;
use mb_pdu::{Span, Unit};
use office_core::Office;
use poll_book::{Caller, Keeper, Key, MemKeeper};
use poll_match::Conn;
use read_planner::Read;
use std::alloc::Global;

const LIST: &[u8] = b"name,device,table,address,type,length,scale,role,roll\n\
    energy,meter,holding,107,uint16,,,counter,\n";

/// An office of the site over a keeper in memory.
pub(crate) fn office(alloc: Global) -> Result<Office<MemKeeper>> {
    match Office::new(alloc, MemKeeper::new(alloc), site(alloc)?) {
        Ok(office) => Ok(office),
        Err((error, _)) => Err(error.into()),
    }
}

/// Loads the list of one counter under a key.
pub(crate) fn load<K: Keeper>(office: &mut Office<K>) -> Result<()> {
    let caller = "ann".parse::<Caller>()?;
    let key = "l1".parse::<Key>()?;
    office.load(&caller, &key, LIST)?;
    Ok(())
}

fn ask<K: Keeper>(rt: &HostRuntime, office: &mut Office<K>, conn: Conn, slot: u32) -> Result<()> {
    let span = Span {
        start: 107,
        quantity: 1,
    };
    let query = office.ask(conn, "meter", slot, Read { function: 3, span })?;
    let query = shown(rt.alloc(), query.encode().as_bytes())?;
    println!(rt; "slot {slot} is asked by {query}")?;
    Ok(())
}

fn reply<K: Keeper>(
    rt: &HostRuntime,
    office: &mut Office<K>,
    conn: Conn,
    transaction: u16,
    value: u16,
) -> Result<()> {
    let [high, low] = value.to_be_bytes();
    let bytes: &[u8] = &[0x03, 0x02, high, low];
    let frame = Frame {
        transaction,
        unit_id: 17,
        unit: Unit::try_from(bytes)?,
    };
    let arrival = office.arrive(conn, &frame);
    println!(rt; "{value}: {arrival:?}")?;
    Ok(())
}

fn play<K: Keeper>(rt: &HostRuntime, office: &mut Office<K>) -> Result<()> {
    load(office)?;
    let conn = office.open_line("roof")?;
    ask(rt, office, conn, 1)?;
    ask(rt, office, conn, 2)?;
    // The reply of slot 2 comes first, and that of slot 1 twice.
    reply(rt, office, conn, 1, 500)?;
    reply(rt, office, conn, 0, 65_000)?;
    reply(rt, office, conn, 0, 65_000)?;
    let total = office.total("energy")?;
    println!(rt; "total {total:?}")?;
    Ok(())
}

pub(crate) fn show(rt: &HostRuntime) -> Result<()> {
    play(rt, &mut office(rt.alloc())?)
}
