//! Tests of `install_section` and `preset_rules`, from outside: with tests of its own a crate would
//! be proved twice.
#![tactic(auto)]

#[cfg(test)]
mod looking;
#[cfg(test)]
mod of_install_section;
#[cfg(test)]
mod of_preset_rules;
#[cfg(test)]
mod trees;
