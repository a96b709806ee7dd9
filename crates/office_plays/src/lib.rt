//! What tests of offices play with: what happens to an office, as a constant can say it, a keeper that
//! refuses, and a keeper's tables as text.
#![tactic(auto)]

pub mod builders;
pub mod refusing;
pub mod steps;
pub mod tables;
