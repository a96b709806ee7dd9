//! `sunspec`: which models a device has, over any source of registers.
ghost use Rattle.std.specs.Prelude.{◌≡◌, ◌≤◌, IfSome, length};

use anyhow::Result;
use mb_pdu::Registers;
use sunspec::{RegisterSource, SourceFault, discover};

/// The marker, a model 103 of two registers, and the end.
const IMAGE: [u16; 7] = [0x5375, 0x6E53, 103, 2, 2_300, 498, 0xFFFF];

/// A device whose registers begin at 40000.
#[derive(Drop)]
struct Device;

fn registers_in(place: u16, quantity: u16) -> Option<Registers>
    requires { 1 ≤ quantity }
    ensures { IfSome result (λ words. length words ≡ quantity) }
{
    let (place, quantity) = (usize::from(place), usize::from(quantity));
    if place > 7 || quantity > 7 - place {
        return None;
    }
    Registers::from_slice(&IMAGE[place..place + quantity])
}

impl RegisterSource for Device {
    ghost use Rattle.std.specs.Prelude.{None};

    // What is read of it is nothing that a contract speaks of.
    ghost image = { λ _. None };

    ghost failed = { λ _. 0 };

    fn read(&mut self, start: u16, quantity: u16) -> Result<Option<Registers>, SourceFault> {
        Ok(match start.checked_sub(40_000) {
            Some(place) => registers_in(place, quantity),
            None => None,
        })
    }

    fn failures(&self) -> u64 {
        0
    }
}

pub(crate) fn show(rt: &HostRuntime) -> Result<()> {
    let chain = discover(rt.alloc(), &mut Device)?;
    println!(rt; "base {} end {}", chain.base, chain.end)?;
    for model in chain.models.as_slice() {
        println!(rt;
            "model {} at {} length {}",
            model.id, model.address, model.length
        )?;
    }
    Ok(())
}
