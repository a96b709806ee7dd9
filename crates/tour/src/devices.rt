//! `mb_map`: a device that answers from its tables, and the simulator of a file.
use crate::bytes::shown;
use anyhow::{Result, bail};
use mb_map::{Mapping, Sim};
use mb_mbap::Frame;
use mb_pdu::{Request, Span, Unit};

const IMAGE: &[u8] =
    b"script = [\"twice\"]\n[[unit]]\nid = 17\nholding_start = 107\nholding = [555, 0, 100]\n";

/// The spelling of a request, which only a valid one has.
fn spelled(request: &Request) -> Result<Unit> {
    if !request.is_valid() {
        bail!("the request isn't valid");
    }
    Ok(request.encode())
}

fn read(start: u16) -> Result<Unit> {
    spelled(&Request::ReadHolding(Span { start, quantity: 1 }))
}

fn show_mapping(rt: &HostRuntime) -> Result<()> {
    // Two holding registers from 5 on, and no other cell.
    let mut device = Mapping::new_start_address(rt.alloc(), 0, 0, 0, 0, 5, 2, 0, 0)?;
    let write = Request::WriteRegister {
        address: 6,
        value: 8,
    };
    let written = device.reply(&spelled(&write)?);
    let outside = device.reply(&read(7)?);
    let written = shown(rt.alloc(), written.as_bytes())?;
    let outside = shown(rt.alloc(), outside.as_bytes())?;
    println!(rt; "written {written}, outside {outside}")?;
    Ok(())
}

pub(crate) fn show(rt: &HostRuntime) -> Result<()> {
    show_mapping(rt)?;
    let mut sim = Sim::from_toml(rt.alloc(), IMAGE)?;
    let query = Frame {
        transaction: 1,
        unit_id: 17,
        unit: read(107)?,
    };
    let replies = sim.take(&query)?;
    let Some(reply) = replies.first() else {
        bail!("no reply");
    };
    let bytes = shown(rt.alloc(), reply.encode().as_bytes())?;
    println!(rt; "{} times {bytes}", replies.len())?;
    Ok(())
}
