//! Tests of `undo_orders`, from outside: with tests of its own it would be proved twice.
#![tactic(auto)]

#[cfg(test)]
mod histories;
#[cfg(test)]
mod large;
#[cfg(test)]
mod orders;
