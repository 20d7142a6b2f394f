//! The program's command-line arguments.
#![tactic(auto)]

mod words;

pub use words::{ArgumentError, Arguments, arguments_of};

#[cfg(test)]
mod tests;
