//! Tests of an office that stays up, in a small world with a clock of its own, and of what it shows (`shown_`). Nothing
//! stands on this crate.
#![tactic(auto)]

#[cfg(test)]
mod ahead;
#[cfg(test)]
mod arrivals;
#[cfg(test)]
mod busy;
#[cfg(test)]
mod callers;
#[cfg(test)]
mod clocks;
#[cfg(test)]
mod floods;
#[cfg(test)]
mod gateways;
#[cfg(test)]
mod guest;
#[cfg(test)]
mod lines;
#[cfg(test)]
mod orders;
#[cfg(test)]
mod pages;
#[cfg(test)]
mod reports;
#[cfg(test)]
mod scenes;
#[cfg(test)]
mod shown_names;
#[cfg(test)]
mod shown_points;
#[cfg(test)]
mod shown_texts;
#[cfg(test)]
mod stores;
#[cfg(test)]
mod wire;
#[cfg(test)]
mod world;
