//! Tests of `kept_history`, from outside: with tests of its own a crate would be proved twice.
#![tactic(auto)]

#[cfg(test)]
mod of_kept_history;
