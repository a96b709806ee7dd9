//! Tests of queries and their replies, of what a keeper in memory gives back, of orders, requests and
//! voids in it, and of the values on either side of a slot.
#![tactic(auto)]

#[cfg(test)]
mod keeping;
#[cfg(test)]
mod neighbours;
#[cfg(test)]
mod orders;
#[cfg(test)]
mod queries;
#[cfg(test)]
mod requests;
#[cfg(test)]
mod storing;
#[cfg(test)]
mod texts;
#[cfg(test)]
mod voids;
