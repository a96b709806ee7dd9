//! The tables of an office in a database of SQLite.
//!
//! The program `office` opens a store's file in `crates/office/src/stores.rt`.
#![tactic(auto)]

mod apply;
mod ask;
mod blank;
mod ends;
mod error;
mod from_row;
mod keeper;
pub mod laws;
mod making;
mod migrating;
mod numbers;
mod points;
mod readings;
mod requests;
mod run;
mod settings;
mod shown;
mod swaps;
mod totals;
mod values;
mod voids;
mod waiting;
mod write_numbers;
mod write_points;
mod write_readings;
mod write_requests;
mod write_settings;
mod write_totals;
mod write_voids;

pub use blank::is_blank;
pub use error::StoreError;
pub use keeper::SqlKeeper;
pub use making::create;
pub use migrating::{Migrated, migrate};
