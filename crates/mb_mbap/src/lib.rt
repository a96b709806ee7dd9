//! Frames with the MBAP header (Modbus Messaging on TCP/IP V1.0b, section 3.1.3), both ways:
//! a frame as bytes, and the frames of a stream in whatever pieces it comes.
//! Beside them `Counted`, a reader or writer that counts its faults.
//!
//! `crates/tour/src/frames.rt` is a short example.
#![tactic(auto)]

mod counted;
mod decoding;
mod fault;
mod frame;
mod held;
mod judging;
pub mod laws;
mod reader;

pub use counted::Counted;
pub use fault::FrameFault;
pub use frame::{Frame, FrameBytes};
pub use reader::{Fed, FrameReader};
