//! The command line of `unitroot`: what its words ask for.
#![tactic(auto)]

mod asked;
mod building;
mod commands;
mod given;
mod help;
mod options;
mod reading;
mod refusals;
mod words_error;

pub use asked::{
    AddedAs, Asked, Command, How, Listed, LogAsked, Output, PresetMode, RowsOf, UnitsVerb, Wait,
};
pub use reading::read_words;
pub use words_error::WordsError;
