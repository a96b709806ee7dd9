//! Sources of registers.
ghost use Rattle.std.specs.Prelude.{◌≡◌, ◌≤◌, ℕ, Option, IfOk, IfSome, length};
ghost use Rattle.sunspec.specs.Sources.{CountsFailures, Image, IsRead};

use mb_pdu::Registers;
use thiserror::Error;

/// A read failed, so that nothing is known of the registers.
#[derive(Clone, Copy, Debug, PartialEq, Eq, Error)]
#[error("the source failed")]
pub struct SourceFault;

/// Where holding registers are read from: a device over a line, or an image of one.
pub trait RegisterSource {
    /// The registers that it is known to have, if they are known. No read changes them.
    ghost image: { Self → Option Image };

    /// How many reads failed.
    ghost failed: { Self → ℕ };

    /// The registers from an address on, 1 to 125 of them; `None` where one of them isn't there, as
    /// a device says by exception 02.
    fn read(&mut self, start: u16, quantity: u16) -> Result<Option<Registers>, SourceFault>
        requires some { 1 ≤ quantity }
        requires few { quantity ≤ 125 }
        ensures all { IfOk result (λ found. IfSome found (λ words. length words ≡ quantity)) }
        ensures known { (known : Image) → image self.old ≡ Option.Some known
            → IfOk result (λ found. IsRead known start quantity found) }
        ensures same { image self.new ≡ image self.old }
        ensures counted { CountsFailures (failed self.old) (failed self.new) result };

    /// How many reads failed, up to the greatest count.
    fn failures(&self) -> u64
        ensures { result ≡ failed self.now };
}
