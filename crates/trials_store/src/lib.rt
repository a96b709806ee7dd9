//! What an office over a database keeps: which databases and sites open, what a stop at each write leaves, also where
//! tables of version 1 are moved; files that are full, that fail once, and that have a damaged byte or several places
//! that are drawn; rows that no office writes; readings that are written together; the totals that are stored; voids
//! behind a change that is refused, the questions for voids, and the look-ups that are counted.
#![tactic(auto)]

#[cfg(test)]
mod bad_rows;
#[cfg(test)]
mod damage;
#[cfg(test)]
mod disks;
#[cfg(test)]
mod drawn_damage;
#[cfg(test)]
mod look_ups;
#[cfg(test)]
mod migrating;
#[cfg(test)]
mod opening;
#[cfg(test)]
mod plays;
#[cfg(test)]
mod stops;
#[cfg(test)]
mod together;
#[cfg(test)]
mod totals;
#[cfg(test)]
mod void_questions;
#[cfg(test)]
mod voids;
