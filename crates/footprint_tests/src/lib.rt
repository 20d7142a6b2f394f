//! Tests of `footprint` and `readers`, from outside: with tests of its own a crate would be proved
//! twice.
#![tactic(auto)]

#[cfg(test)]
mod changes;
#[cfg(test)]
mod keys;
#[cfg(test)]
mod of_footprint;
#[cfg(test)]
mod of_readers;
