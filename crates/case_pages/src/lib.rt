//! Cases that are written as data: pages of Markdown whose fenced blocks hold them. A program of the gate reads
//! the pages that its arguments name, plays each, goes on after a difference, and prints how many cases each
//! page has.
#![tactic(auto)]

mod block;
mod escapes;
mod pages;
mod rows;
mod tally;
mod trouble;

pub use block::{Block, blocks_of, file_of};
pub use escapes::{bytes_of, hex_of, pieces_of};
pub use pages::{Player, play_pages};
pub use rows::{Outcomes, play_rows};
pub use tally::Tally;
pub use trouble::Trouble;
