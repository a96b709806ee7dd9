//! Values of SunSpec points: what registers mean, the registers of a number, and exact texts; and the
//! chain of models that a device says.
//!
//! `crates/tour/src/values.rt` and `chains.rt` there are short examples.
#![tactic(auto)]

mod chain;
mod common_model;
pub mod digits;
mod discovery;
mod encode;
mod error;
mod fixed_text;
pub mod laws;
mod point_type;
mod scaled;
mod shown;
mod source;
mod value;
mod word_order;

pub use chain::{Chain, Common, Model};
pub use common_model::common;
pub use discovery::discover;
pub use encode::{to_ordered, to_registers};
pub use error::SunError;
pub use fixed_text::{FixedText, ShortText};
pub use point_type::{Content, PointType, PointTypeError, Row};
pub use scaled::scaled_text;
pub use shown::{printable, shown_ordered, shown_text, value_text};
pub use source::{RegisterSource, SourceFault};
pub use value::{Value, read_number, read_ordered, read_value};
pub use word_order::{WordOrder, WordOrderError};
