//! A Modbus device as a program sees it: its four tables, what it answers to a request, and a
//! simulator that drops, repeats and delays its replies by a script.
//!
//! `crates/tour/src/devices.rt` is a short example.
#![tactic(auto)]

mod cells;
mod device;
mod devices;
mod error;
mod held;
mod image;
mod image_error;
pub mod laws;
mod mapping;
mod queue;
mod sim;
mod step;

pub use error::MapError;
pub use image_error::{ImageError, ImageFault, ImagePlace};
pub use mapping::Mapping;
pub use mb_pdu::Table;
pub use sim::Sim;
pub use step::Step;
pub use toml_members::{MemberError, MemberFault};
