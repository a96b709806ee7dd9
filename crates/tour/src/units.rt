//! `mb_pdu`: a request from its bytes, the reply to it, and the bytes of a reply.
use crate::bytes::shown;
use anyhow::Result;
use mb_pdu::{Reply, Request};

/// Read three holding registers from 107 on.
const REQUEST: &[u8] = &[0x03, 0x00, 0x6B, 0x00, 0x03];

const REPLY: &[u8] = &[0x03, 0x06, 0x02, 0x2B, 0x00, 0x00, 0x00, 0x64];

pub(crate) fn show(rt: &HostRuntime) -> Result<()> {
    let request = Request::decode(REQUEST)?;
    println!(rt; "asks {request:?}")?;
    let reply = Reply::decode(&request, REPLY)?;
    println!(rt; "told {reply:?}")?;
    let busy = Reply::Excepted(6).encode(&request);
    let busy = shown(rt.alloc(), busy.as_bytes())?;
    println!(rt; "a busy device says {busy}")?;
    // A byte count that isn't that of the quantity.
    let error = Reply::decode(&request, &[0x03, 0x05, 0x02, 0x2B, 0x00, 0x00, 0x00]).err();
    println!(rt; "and these bytes are {error:?}")?;
    Ok(())
}
