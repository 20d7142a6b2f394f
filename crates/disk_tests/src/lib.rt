//! Tests of `tree_steps` and `disk`, as a crate of their own: a crate that has tests is proved a
//! second time for them.
#![tactic(auto)]

#[cfg(test)]
mod of_disk;
#[cfg(test)]
mod of_tree_steps;
#[cfg(test)]
mod slots;
