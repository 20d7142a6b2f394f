//! Taking back a row together with the later rows that depend on it.

use history::{History, Operator};
use kept_rows::push_line;
use link_tree::push_decimal;
use root_histories::{Context, KeptRoot};
use std::alloc::{AllocError, Global};
use undo_orders::{ToUndoError, rows_to_undo};
use unit_script::Action;

fn push_undo(text: &mut Vec<u8>, operator: &Operator, row: u32) -> Result<(), AllocError> {
    let mut number = Vec::new(*text.allocator());
    push_decimal(&mut number, row as usize)?;
    push_line(text, operator, &[b"undo".as_slice(), number.as_slice()])
}

/// The lines of the undos of rows, one after another.
fn undo_lines(alloc: Global, operator: &Operator, rows: &[u32]) -> Result<Vec<u8>, AllocError> {
    let mut text = Vec::new(alloc);
    for row in rows {
        push_undo(&mut text, operator, *row)?;
    }
    Ok(text)
}

/// Numbers with commas between them.
fn push_numbers(text: &mut Vec<u8>, rows: &[u32]) -> Result<(), AllocError> {
    let mut before = "";
    for row in rows {
        text.extend_from_slice(before.as_bytes())?;
        push_decimal(text, *row as usize)?;
        before = ", ";
    }
    Ok(())
}

/// Says which rows are undone before a row, if there are any. The row itself is the last of all.
fn note_later(
    cx: Context<'_>,
    root: &mut KeptRoot<'_>,
    row: u32,
    rows: &[u32],
) -> Result<(), AllocError> {
    let [later @ .., _row] = rows else {
        return Ok(());
    };
    if later.is_empty() {
        return Ok(());
    }
    let alloc = cx.rt.alloc();
    let mut numbers = Vec::new(alloc);
    push_numbers(&mut numbers, later)?;
    let numbers = String::from_utf8_lossy(alloc, &numbers)?;
    let are = if cx.asked.how.dry_run {
        "would be"
    } else {
        "are"
    };
    let which = if later.len() == 1 { "row" } else { "rows" };
    let line = format!(in alloc; "{which} {numbers} {are} undone before row {row}")?;
    root.notes.say(line.as_str())
}

/// The lines that undo a row and, before it, all rows that must be undone first. If the row can't be
/// undone whatever is undone before, its own undo is refused and says why.
pub fn lines_with_later(
    cx: Context<'_>,
    root: &mut KeptRoot<'_>,
    history: &History<Action>,
    operator: &Operator,
    row: u32,
) -> Result<Vec<u8>, AllocError> {
    let alloc = cx.rt.alloc();
    match rows_to_undo(alloc, history, row) {
        Ok(rows) => {
            note_later(cx, root, row, &rows)?;
            undo_lines(alloc, operator, &rows)
        }
        Err(ToUndoError::NoSuchRow | ToUndoError::NotACommand | ToUndoError::AlreadyUndone(_)) => {
            undo_lines(alloc, operator, &[row])
        }
        Err(ToUndoError::OutOfMemory) => Err(AllocError),
    }
}
