//! Tests of `unit_lists`, from outside: with tests of its own a crate would be proved twice.
#![tactic(auto)]

#[cfg(test)]
mod lists;
#[cfg(test)]
mod presets;
#[cfg(test)]
mod statuses;
#[cfg(test)]
mod trees;
