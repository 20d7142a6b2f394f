//! Tests of `shared_admin`, from outside: with tests of its own a crate would be proved twice.
#![tactic(auto)]

#[cfg(test)]
mod closing;
#[cfg(test)]
mod events;
#[cfg(test)]
mod keeping;
#[cfg(test)]
mod large;
#[cfg(test)]
mod locked;
#[cfg(test)]
mod sharing;
