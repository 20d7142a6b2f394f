//! Which rows looked at what a row changed, and which row blocks its undo or hinders its redo: as a
//! history looks it up, and as a walk over its rows finds it.

use footprint::{Operation, touches};
use history::{History, Row, RowReply};
use link_tree::{Change, push_decimal};
use sample_steps::{Step, push_numbered};
use std::alloc::{AllocError, Global};

/// Adds a word for a row: `1:read-by:1,2:blocked-by:2`, `1:read-by:1`, `1:unread` or
/// `1:unread:hindered-by:3`.
fn push_found(
    out: &mut Vec<u8>,
    n: u32,
    readers: &[u32],
    blocker: Option<u32>,
    hindrance: Option<u32>,
) -> Result<(), AllocError> {
    if n > 1 {
        out.extend_from_slice(b" ")?;
    }
    push_decimal(out, n as usize)?;
    push_readers(out, readers)?;
    if let Some(by) = blocker {
        push_numbered(out, b":blocked-by", by)?;
    }
    match hindrance {
        Some(by) => push_numbered(out, b":hindered-by", by),
        None => Ok(()),
    }
}

fn push_readers(out: &mut Vec<u8>, readers: &[u32]) -> Result<(), AllocError> {
    let mut before = b":read-by:".as_slice();
    for reader in readers {
        out.extend_from_slice(before)?;
        push_decimal(out, *reader as usize)?;
        before = b",";
    }
    if readers.is_empty() {
        return out.extend_from_slice(b":unread");
    }
    Ok(())
}

/// The rows that the history lists as those that looked at what a row changed.
fn listed_readers<O: Operation>(
    alloc: Global,
    history: &History<O>,
    row: &Row<O>,
) -> Result<Vec<u32>, AllocError> {
    let mut readers = Vec::new(alloc);
    for change in row.changes.as_slice() {
        readers.extend_from_slice(&history.readers(alloc, change)?)?;
    }
    Ok(readers)
}

/// Adds a word for each row, as the history looks it up.
pub(crate) fn push_index<O: Operation>(
    alloc: Global,
    history: &History<O>,
    out: &mut Vec<u8>,
) -> Result<(), AllocError> {
    let mut n = 0u32;
    for row in history.rows() {
        n = n.wrapping_add(1);
        let readers = listed_readers(alloc, history, row)?;
        push_found(out, n, &readers, history.blocker(n), history.hindrance(n))?;
    }
    Ok(())
}

/// Whether a row is a survivor that looked at what a change touches.
fn has_looked(row: &Row<Step>, change: &Change) -> bool {
    row.survives()
        && row
            .reading
            .as_slice()
            .iter()
            .any(|observation| touches(change, &observation.key))
}

/// The rows that looked at what a row changed.
fn walked_readers(
    alloc: Global,
    rows: &[Row<Step>],
    changed: &Row<Step>,
) -> Result<Vec<u32>, AllocError> {
    let mut readers = Vec::new(alloc);
    for change in changed.changes.as_slice() {
        let mut n = 0u32;
        for row in rows {
            n = n.wrapping_add(1);
            if has_looked(row, change) {
                readers.push(n)?;
            }
        }
    }
    Ok(readers)
}

/// The first later survivor that looked at what a row changed.
fn walked_blocker(rows: &[Row<Step>], n: u32, changed: &Row<Step>) -> Option<u32> {
    let mut m = 0u32;
    for row in rows {
        m = m.wrapping_add(1);
        let changes = changed.changes.as_slice();
        if m > n && changed.survives() && changes.iter().any(|change| has_looked(row, change)) {
            return Some(m);
        }
    }
    None
}

/// Whether row k is undone after these rows.
fn is_undone(rows: &[Row<Step>], k: u32) -> bool {
    let mut undone = false;
    for row in rows {
        match row.reply {
            RowReply::Undid(n) => undone = undone || n == k,
            RowReply::Redid(n) => undone = undone && n != k,
            RowReply::Answered(_) | RowReply::UndoRefused(_) | RowReply::RedoRefused(_) => {}
        }
    }
    undone
}

/// Whether a change of one row touches what another one looked at.
fn is_seen(changed: &Row<Step>, by: &Row<Step>) -> bool {
    changed.changes.as_slice().iter().any(|change| {
        by.reading
            .as_slice()
            .iter()
            .any(|observation| touches(change, &observation.key))
    })
}

/// The first row that hinders a redo of row n, which row u undid: an earlier command that is undone
/// now and was not just before row u, or the reverse, and changed what row n looked at; or a
/// later survivor that looked at what row n changed.
fn walked_hindrance(rows: &[Row<Step>], n: u32, undone: &Row<Step>) -> Option<u32> {
    let u = undone.undone_by? as usize;
    let before = rows.get(..u.checked_sub(1)?)?;
    let mut m = 0u32;
    for row in rows {
        m = m.wrapping_add(1);
        let flipped = row.is_command() && is_undone(rows, m) != is_undone(before, m);
        let is_in_the_way = if m < n {
            flipped && is_seen(row, undone)
        } else {
            m > n && row.survives() && is_seen(undone, row)
        };
        if is_in_the_way {
            return Some(m);
        }
    }
    None
}

/// Whether a walk over all rows finds what the history looks up.
pub(crate) fn agrees(alloc: Global, history: &History<Step>) -> Result<bool, AllocError> {
    let rows = history.rows();
    let mut n = 0u32;
    for row in rows {
        n = n.wrapping_add(1);
        let listed = listed_readers(alloc, history, row)?;
        let are_same = listed == walked_readers(alloc, rows, row)?;
        if !are_same
            || history.blocker(n) != walked_blocker(rows, n, row)
            || history.hindrance(n) != walked_hindrance(rows, n, row)
        {
            return Ok(false);
        }
    }
    Ok(true)
}
