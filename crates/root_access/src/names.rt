//! The names of units that words stand for.

use crate::failure::Failure;
use root_runs::{Suffix, named};
use std::alloc::Global;
use unit_name::{NameError, UnitName};

/// The name that a word stands for.
pub fn name_of(alloc: Global, word: &str) -> Result<UnitName, Failure> {
    let name = named(alloc, word.as_bytes(), Suffix::Service)?;
    match UnitName::parse(alloc, &name) {
        Ok(name) => Ok(name),
        Err(NameError::Bad(_)) => Err(Failure::bad_word(alloc, "bad name", word)?),
        Err(NameError::OutOfMemory) => Err(Failure::OutOfMemory),
    }
}
