//! `office_http` and `office_net`: what the bytes of a connection ask for, and an exchange over a reader and a writer.
use crate::offices::{load, office};
use anyhow::Result;
use mb_mbap::Counted;
use office_core::Office;
use office_http::{Exchange, Routes};
use office_net::serve_one;
use poll_book::Keeper;

const REQUEST: &[u8] = b"GET /points/energy/total HTTP/1.1\r\n\r\n";

fn hear(rt: &HostRuntime) -> Result<()> {
    let mut exchange = Exchange::new(rt.alloc(), Routes::Basic);
    for piece in REQUEST.chunks(20) {
        let asked = exchange.take(piece)?;
        println!(rt; "{asked:?}")?;
    }
    Ok(())
}

fn serve<K: Keeper>(rt: &HostRuntime, office: &mut Office<K>) -> Result<()> {
    let (mut reader, mut writer) = (Counted::new(REQUEST), Counted::new(Vec::new(rt.alloc())));
    serve_one(rt.alloc(), office, &mut reader, &mut writer)?;
    let answer = String::from_utf8(writer.into_inner())?;
    println!(rt; "{}", answer.as_str().lines().last().unwrap_or(""))?;
    Ok(())
}

pub(crate) fn show(rt: &HostRuntime) -> Result<()> {
    hear(rt)?;
    let mut office = office(rt.alloc())?;
    load(&mut office)?;
    serve(rt, &mut office)
}
