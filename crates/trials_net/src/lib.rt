//! Tests of the office at its lines and its callers that data can't say: readers, writers, stores and memory that
//! fail, noise, and sockets. Nothing stands on this crate.
#![tactic(auto)]

#[cfg(test)]
mod command_faults;
#[cfg(test)]
mod drawn_words;
#[cfg(test)]
mod drills;
#[cfg(test)]
mod noise;
#[cfg(test)]
mod reports;
#[cfg(test)]
mod request_faults;
#[cfg(test)]
mod rounds;
#[cfg(test)]
mod simulators;
#[cfg(test)]
mod socket_polls;
#[cfg(test)]
mod socket_serving;
#[cfg(test)]
mod sockets;
#[cfg(test)]
mod source_faults;
