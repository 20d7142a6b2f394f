//! Which rows of a history looked at a key: an index from keys to the numbers of rows.
#![tactic(auto)]

mod numbers;
mod readers;

pub use readers::Readers;
