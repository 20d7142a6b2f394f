//! Tests of `history`, from outside: with tests of its own a crate would be proved twice.
#![tactic(auto)]

#[cfg(test)]
mod bench;
#[cfg(test)]
mod index;
#[cfg(test)]
mod kinds;
#[cfg(test)]
mod large;
#[cfg(test)]
mod operations;
#[cfg(test)]
mod scripts;
#[cfg(test)]
mod texts;
#[cfg(test)]
mod watching;
