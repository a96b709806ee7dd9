//! Tests of an office that data can't say: memory that is refused, a keeper that refuses, the edge of the window of
//! queries, voided slots, and generated histories beside a slow model, which works out each answer and each table anew
//! from all that happened, over a keeper in memory and over a database.
#![tactic(auto)]

#[cfg(test)]
mod draws;
#[cfg(test)]
mod edge;
#[cfg(test)]
mod events;
#[cfg(test)]
mod faults;
#[cfg(test)]
mod histories;
#[cfg(test)]
mod memory;
#[cfg(test)]
mod model;
#[cfg(test)]
mod voids;
