//! Tests of `name_lists`, `link_tree` and `load_path`, from outside: with tests of its own a crate
//! would be proved twice.
#![tactic(auto)]

#[cfg(test)]
mod of_link_tree;
#[cfg(test)]
mod of_load_path;
#[cfg(test)]
mod of_name_lists;
#[cfg(test)]
mod rows;
