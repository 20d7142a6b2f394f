//! Tests of `unit_name`, `unit_file`, `byte_streams` and `unit_paths`, from outside: with tests of
//! its own a crate would be proved twice.
#![tactic(auto)]

#[cfg(test)]
mod keeping;
#[cfg(test)]
mod of_byte_streams;
#[cfg(test)]
mod of_rows;
#[cfg(test)]
mod of_unit_file;
#[cfg(test)]
mod of_unit_name;
#[cfg(test)]
mod of_unit_paths;
#[cfg(test)]
mod texts;
