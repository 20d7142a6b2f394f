//! Tests of `sessions`, from outside: with tests of its own a crate would be proved twice.
#![tactic(auto)]

#[cfg(test)]
mod checking;
#[cfg(test)]
mod commands;
#[cfg(test)]
mod desk;
#[cfg(test)]
mod keeping;
#[cfg(test)]
mod large;
#[cfg(test)]
mod running;
#[cfg(test)]
mod scripts;
#[cfg(test)]
mod serving;
