//! The digest of what an office answers.
use std::alloc::{AllocError, Global};
use std::fmt::Debug;

/// FNV-1a of 64 bits (Fowler, Noll, Vo) over all that was added.
#[derive(Drop)]
pub struct Digest(u64);

impl Digest {
    pub fn new() -> Digest {
        Digest(0xCBF2_9CE4_8422_2325)
    }

    pub fn add(&mut self, bytes: &[u8]) {
        for byte in bytes {
            self.0 = (self.0 ^ u64::from(*byte)).wrapping_mul(0x0000_0100_0000_01B3);
        }
    }

    pub fn add_number(&mut self, number: u64) {
        self.add(&number.to_be_bytes());
    }

    /// A value, as its `Debug` writes it.
    pub fn add_value<T: Debug>(&mut self, alloc: Global, value: &T) -> Result<(), AllocError> {
        let text = format!(in alloc; "{value:?}")?;
        self.add(text.as_bytes());
        Ok(())
    }

    pub fn number(&self) -> u64 {
        self.0
    }
}
