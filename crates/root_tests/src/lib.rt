//! Tests of the libraries of `unitroot`, from outside: with tests of its own a crate would be
//! proved twice.
#![tactic(auto)]

#[cfg(test)]
mod of_root_runs;
#[cfg(test)]
mod of_root_words;
