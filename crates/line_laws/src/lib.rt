//! How lines are read, as relations: laws that compare what the readers compute with what the
//! manual pages say.
#![tactic(auto)]

mod laws;

pub use laws::{install_lines_are_read, lines_are_joined, preset_lines_are_read};
