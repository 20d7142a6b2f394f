//! Tests of `slot_commands`, `install_commands` and `states`, from outside: with tests of its own a
//! crate would be proved twice. Each is a text of rows, and `questions` says what a row checks.
#![tactic(auto)]

#[cfg(test)]
mod lines;
#[cfg(test)]
mod of_install_commands;
#[cfg(test)]
mod of_slot_commands;
#[cfg(test)]
mod of_states;
#[cfg(test)]
mod outcomes;
#[cfg(test)]
mod questions;
#[cfg(test)]
mod readings;
