//! What workloads share: a plant of devices with points of mixed types, whose registers, faults and orders follow from a
//! seed, and the digest of what an office answers.
#![tactic(auto)]

mod dice;
mod digest;
mod frames;
mod plant;
mod points;

pub use dice::Dice;
pub use digest::Digest;
pub use frames::{echo_bytes, reply_bytes, reply_unit};
pub use plant::{Plant, UNIT};
pub use points::{Block, SETTING, blocks, image};
