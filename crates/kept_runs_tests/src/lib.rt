//! Tests of the libraries of histories that last, from outside: with tests of its own a crate would
//! be proved twice.
#![tactic(auto)]

#[cfg(test)]
mod of_kept_log;
#[cfg(test)]
mod of_kept_rows;
#[cfg(test)]
mod of_kept_runs;
#[cfg(test)]
mod of_kept_texts;
#[cfg(test)]
mod words;
