//! Refusals of each kind.

use footprint::{Refusal, Subject};
use sample_rows::Row;
use sample_values::{name, path};
use std::alloc::{AllocError, Global};

/// Whether a word is this one. (A `match` on words is expensive: it looks at them byte by byte.)
pub(crate) fn is(word: &[u8], wanted: &[u8]) -> bool {
    word == wanted
}

/// A path, which begins with `/`, or a unit.
fn subject(alloc: Global, text: &[u8]) -> Result<Subject, AllocError> {
    if text.starts_with(b"/") {
        Ok(Subject::Path(path(alloc, text)?))
    } else {
        Ok(Subject::Unit(name(alloc, text)?))
    }
}

/// The refusal of one path.
fn of_path(alloc: Global, kind: &[u8], text: &[u8]) -> Result<Refusal, AllocError> {
    let path = path(alloc, text)?;
    if is(kind, b"dangling") {
        return Ok(Refusal::Dangling(path));
    }
    if is(kind, b"not-a-slot") {
        return Ok(Refusal::NotASlot(path));
    }
    if is(kind, b"absent") {
        return Ok(Refusal::Absent(path));
    }
    if is(kind, b"exists") {
        return Ok(Refusal::Exists(path));
    }
    Ok(Refusal::Clash(path))
}

/// The refusal of one unit, or of two.
fn of_units(alloc: Global, row: &Row) -> Result<Refusal, AllocError> {
    let unit = name(alloc, &row.one)?;
    if row.two.is_empty() {
        return Ok(Refusal::NeedsInstance(unit));
    }
    Ok(Refusal::IsAlias {
        unit,
        real: name(alloc, &row.two)?,
    })
}

/// The refusal of a row.
pub(crate) fn refusal(alloc: Global, row: &Row) -> Result<Refusal, AllocError> {
    if is(&row.kind, b"not-found") {
        return Ok(Refusal::NotFound(subject(alloc, &row.one)?));
    }
    if is(&row.kind, b"masked") {
        return Ok(Refusal::Masked(subject(alloc, &row.one)?));
    }
    if is(&row.kind, b"bad-type") {
        return Ok(Refusal::BadType(subject(alloc, &row.one)?));
    }
    if is(&row.kind, b"too-many") {
        return Ok(Refusal::TooMany);
    }
    if is(&row.kind, b"needs-instance") || is(&row.kind, b"alias") {
        return of_units(alloc, row);
    }
    of_path(alloc, &row.kind, &row.one)
}
