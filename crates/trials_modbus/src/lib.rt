//! Tests of units, frames, lists, sites and plans that no page of `cases_modbus` can show: laws, values at their
//! limits, readers and writers that fail, refused memory, and generated plans beside a search. Nothing stands on this
//! crate.
#![tactic(auto)]

#[cfg(test)]
mod counting;
#[cfg(test)]
mod limits;
#[cfg(test)]
mod lists;
#[cfg(test)]
mod searching;
#[cfg(test)]
mod simulators;
#[cfg(test)]
mod sites;
#[cfg(test)]
mod streams;
#[cfg(test)]
mod texts;
