//! Tests of scripts that no page can show: readers and writers that fail, refused memory, the greatest script.
#![tactic(auto)]

#[cfg(test)]
mod playing;
#[cfg(test)]
mod streams;
