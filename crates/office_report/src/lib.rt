//! What is told of an office as text: readings and totals of points, reports of them, and what requests are
//! answered.
//!
//! `crates/tour/src/rounds.rt` is a short example.
#![tactic(auto)]

mod fault;
mod outcome;
mod report;
mod texts;
mod writing;

pub use fault::ReportFault;
pub use outcome::request_text;
pub use texts::{reading_text, total_text};
pub use writing::{report_of, write_report};
