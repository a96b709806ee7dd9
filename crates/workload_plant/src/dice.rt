//! Numbers that follow from a seed.

/// An xorshift generator with a product (Vigna, An experimental exploration of Marsaglia's xorshift generators).
#[derive(Drop)]
pub struct Dice(u64);

impl Dice {
    /// Each seed below 2^32 has numbers of its own.
    pub fn new(seed: u32) -> Dice {
        Dice((u64::from(seed) + 1).wrapping_mul(0x9E37_79B9_7F4A_7C15))
    }

    fn next(&mut self) -> u64 {
        self.0 ^= self.0 >> 12;
        self.0 ^= self.0.wrapping_mul(1 << 25);
        self.0 ^= self.0 >> 27;
        self.0.wrapping_mul(0x2545_F491_4F6C_DD1D)
    }

    /// A number below a limit, or 0.
    pub fn below(&mut self, limit: u32) -> u32 {
        (self.next() >> 32) as u32 % limit.max(1)
    }

    /// Whether something comes about that does once in so many times.
    pub fn once_in(&mut self, times: u32) -> bool {
        self.below(times) == 0
    }
}
