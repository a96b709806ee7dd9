//! The office of a store that is a database: its tables are made, worked in and moved, it is waited for, and a file
//! that isn't opened is judged. Opening and closing are left to who calls: all here is generic over where the store
//! lies, since a proof that carries its files is a dear one.
//!
//! `crates/office/src/stores.rt` opens a file, and `crates/cases_office/src/databases.rt` files in memory.
#![tactic(auto)]

mod judging;
mod waiting;
mod working;

pub use judging::{begins_as_database, file_failure};
pub use waiting::{busy, is_busy, pause, tries};
pub use working::{migrate_over, work_over, work_with};
