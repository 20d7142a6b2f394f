//! Tests of `partial_runs`, from outside: with tests of its own it would be proved twice.
#![tactic(auto)]

#[cfg(test)]
mod comparing;
#[cfg(test)]
mod large;
#[cfg(test)]
mod root;
#[cfg(test)]
mod small;
