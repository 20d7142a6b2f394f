//! The texts of refusals.

use crate::lines::is;
use footprint::{Refusal, Subject};
use sample_rows::Row;
use sample_values::{name, path};
use std::alloc::{AllocError, Global};
use unit_script::push_refusal;

/// A path, which begins with `/`, or a unit.
fn subject(alloc: Global, text: &[u8]) -> Result<Subject, AllocError> {
    if text.starts_with(b"/") {
        Ok(Subject::Path(path(alloc, text)?))
    } else {
        Ok(Subject::Unit(name(alloc, text)?))
    }
}

/// The refusal of one path.
fn of_path(alloc: Global, kind: &[u8], text: &[u8]) -> Result<Refusal, AllocError> {
    let path = path(alloc, text)?;
    if is(kind, b"dangling") {
        return Ok(Refusal::Dangling(path));
    }
    if is(kind, b"not a slot") {
        return Ok(Refusal::NotASlot(path));
    }
    if is(kind, b"absent") {
        return Ok(Refusal::Absent(path));
    }
    if is(kind, b"exists") {
        return Ok(Refusal::Exists(path));
    }
    if is(kind, b"clash") {
        return Ok(Refusal::Clash(path));
    }
    Err(AllocError)
}

/// The refusal of one unit, or of two.
fn of_units(alloc: Global, row: &Row) -> Result<Refusal, AllocError> {
    let unit = name(alloc, &row.one)?;
    if row.two.is_empty() {
        return Ok(Refusal::NeedsInstance(unit));
    }
    Ok(Refusal::IsAlias {
        unit,
        real: name(alloc, &row.two)?,
    })
}

/// The refusal of a row.
fn refusal(alloc: Global, row: &Row) -> Result<Refusal, AllocError> {
    if is(&row.kind, b"not found") {
        return Ok(Refusal::NotFound(subject(alloc, &row.one)?));
    }
    if is(&row.kind, b"masked") {
        return Ok(Refusal::Masked(subject(alloc, &row.one)?));
    }
    if is(&row.kind, b"bad type") {
        return Ok(Refusal::BadType(subject(alloc, &row.one)?));
    }
    if is(&row.kind, b"too many") {
        return Ok(Refusal::TooMany);
    }
    if is(&row.kind, b"needs instance") || is(&row.kind, b"is alias") {
        return of_units(alloc, row);
    }
    of_path(alloc, &row.kind, &row.one)
}

/// The text of the copy of a refusal.
pub(crate) fn said(alloc: Global, row: &Row) -> Result<Vec<u8>, AllocError> {
    let mut out = Vec::new(alloc);
    let refusal = Box::new(alloc, refusal(alloc, row)?)?;
    let copy = Box::new(alloc, refusal.copy()?)?;
    if push_refusal(&mut out, &copy).is_err() {
        if !out.is_empty() {
            return Vec::from_slice(alloc, b"a part was left");
        }
        push_refusal(&mut out, &copy)?;
    }
    Ok(out)
}
