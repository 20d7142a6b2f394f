//! The commands that install units, from their lines.
use crate::lines::{arguments, has_verb, have_verbs, scope_and_units, units};
use crate::questions::{OfLine, asked, no_such_verb};
use install_commands::{Check, Disable, Enable, Preset, Reenable};
use sample_rows::Row;
use std::alloc::{AllocError, Global};
use two_operations::Then;

impl OfLine for Check {
    fn of_line(alloc: Global, line: &[u8]) -> Result<Check, AllocError> {
        let units = units(alloc, arguments(line))?;
        Ok(Check { units })
    }
}

impl OfLine for Enable {
    fn of_line(alloc: Global, line: &[u8]) -> Result<Enable, AllocError> {
        let (scope, units) = scope_and_units(alloc, line)?;
        Ok(Enable { scope, units })
    }
}

impl OfLine for Disable {
    fn of_line(alloc: Global, line: &[u8]) -> Result<Disable, AllocError> {
        let (scope, units) = scope_and_units(alloc, line)?;
        Ok(Disable { scope, units })
    }
}

impl OfLine for Reenable {
    fn of_line(alloc: Global, line: &[u8]) -> Result<Reenable, AllocError> {
        let (scope, units) = scope_and_units(alloc, line)?;
        Ok(Reenable { scope, units })
    }
}

impl OfLine for Preset {
    fn of_line(alloc: Global, line: &[u8]) -> Result<Preset, AllocError> {
        let (scope, units) = scope_and_units(alloc, line)?;
        Ok(Preset { scope, units })
    }
}

fn answer_of_two(alloc: Global, row: &Row, inventory: &[u8]) -> Result<Vec<u8>, AllocError> {
    if have_verbs(&row.one, b"enable", b"enable") {
        asked::<Then<Enable, Enable>>(alloc, row, inventory)
    } else if have_verbs(&row.one, b"enable", b"disable") {
        asked::<Then<Enable, Disable>>(alloc, row, inventory)
    } else if have_verbs(&row.one, b"disable", b"disable") {
        asked::<Then<Disable, Disable>>(alloc, row, inventory)
    } else {
        no_such_verb(alloc)
    }
}

fn answer_of_one(alloc: Global, row: &Row, inventory: &[u8]) -> Result<Vec<u8>, AllocError> {
    if has_verb(&row.one, b"check") {
        asked::<Check>(alloc, row, inventory)
    } else if has_verb(&row.one, b"enable") {
        asked::<Enable>(alloc, row, inventory)
    } else if has_verb(&row.one, b"disable") {
        asked::<Disable>(alloc, row, inventory)
    } else if has_verb(&row.one, b"reenable") {
        asked::<Reenable>(alloc, row, inventory)
    } else if has_verb(&row.one, b"preset") {
        asked::<Preset>(alloc, row, inventory)
    } else {
        no_such_verb(alloc)
    }
}

/// The answer to a row about one of the commands, or two of them, one after the other.
pub(super) fn answer_in(alloc: Global, row: &Row, inventory: &[u8]) -> Result<Vec<u8>, AllocError> {
    if row.one.contains(&b',') {
        answer_of_two(alloc, row, inventory)
    } else {
        answer_of_one(alloc, row, inventory)
    }
}
