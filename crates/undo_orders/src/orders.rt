//! The rows that must be undone so that a row can be, from the last one to the first.
ghost use Rattle.std.specs.Prelude.{◌≡◌, ◌≤◌, ◌&&◌, IfOk, IfErr, length, is_some};
ghost use Rattle.std.specs.List.{list_any};
ghost use Rattle.tree_access.specs.Keys.{touches};
ghost use Rattle.history.specs.Rows.{row_at, meets, survivor};
ghost use Rattle.undo_orders.specs.ToUndo.{IsSurvivor, AreToUndo, TellsWhy, IsToldBy, row_meets, some_meets};

use footprint::{Observation, Operation, touches};
use history::{History, Row};
use link_tree::Change;
use std::alloc::{AllocError, Global};

/// Why no rows are named whose undo would let a row be undone.
#[derive(Clone, Copy, Debug, PartialEq, Eq)]
pub enum ToUndoError {
    /// No row has this number.
    NoSuchRow,
    /// The row isn't an accepted command.
    NotACommand,
    /// The row is already undone, by this row.
    AlreadyUndone(u32),
    OutOfMemory,
}

/// The rows that must be undone so that row n (rows count from 1) is undone, from the last one to
/// the first: row n, and with each row every later survivor that looked at what that row changed.
/// Undone in this order, each is accepted.
///
/// The error is that of row n if it isn't a command or is already undone, else `OutOfMemory`. The
/// time is at most proportional to the number of rows after n, times the number of rows that are
/// named.
pub fn rows_to_undo<O: Operation>(
    alloc: Global,
    history: &History<O>,
    n: u32,
) -> Result<Vec<u32>, ToUndoError>
    ensures ok { IfOk result (λ numbers. AreToUndo O.asks history.now.rows n numbers.items) }
    ensures err { IfErr result (TellsWhy O.asks history.now.rows n) }
{
    let rows = history.rows();
    match refusal(rows, n) {
        Some(error) => Err(error),
        None => match gather(alloc, rows, n) {
            Ok(numbers) => Ok(numbers),
            Err(AllocError) => Err(ToUndoError::OutOfMemory),
        },
    }
}

/// Why row n can't be undone, whatever is undone before.
fn refusal<O: Operation>(rows: &[Row<O>], n: u32) -> Option<ToUndoError>
    ensures { IsToldBy O.asks rows.now n result }
{
    let place = n as usize;
    if place == 0 || place > rows.len() {
        return Some(ToUndoError::NoSuchRow);
    }
    let row = &rows[place - 1];
    if row.is_command() {
        match row.undone_by {
            Some(by) => Some(ToUndoError::AlreadyUndone(by)),
            None => None,
        }
    } else {
        Some(ToUndoError::NotACommand)
    }
}

/// The rows that must be undone so that the surviving row n is, from the last one to the first.
fn gather<O: Operation>(alloc: Global, rows: &[Row<O>], n: u32) -> Result<Vec<u32>, AllocError>
    requires few { length rows.now ≤ 1000000 }
    requires survives { IsSurvivor O.asks rows.now n }
    ensures { IfOk result (λ numbers. AreToUndo O.asks rows.now n numbers.items) }
{
    let mut numbers = Vec::new(alloc);
    numbers.push(n)?;
    for place in n as usize..rows.len() {
        if blocks_one(&rows[place], rows, &numbers) {
            numbers.push(place as u32 + 1)?;
        }
    }
    numbers.reverse();
    Ok(numbers)
}

/// Whether a row survives, and looked at what one of the rows of these numbers changed.
fn blocks_one<O: Operation>(row: &Row<O>, rows: &[Row<O>], numbers: &[u32]) -> bool
    ensures { result ≡ (is_some (survivor O.asks row.now) && some_meets rows.now numbers.now row.now.reading) }
{
    row.survives() && some_meets(rows, numbers, row.reading.as_slice())
}

/// Whether a change of one of the rows of these numbers touches a key of the reading.
fn some_meets<O: Operation>(rows: &[Row<O>], numbers: &[u32], reading: &[Observation]) -> bool
    ensures { result ≡ some_meets rows.now numbers.now reading.now }
{
    numbers.iter().any(|n| row_meets(rows, *n, reading))
}

/// Whether a change of row n touches a key of the reading.
fn row_meets<O: Operation>(rows: &[Row<O>], n: u32, reading: &[Observation]) -> bool
    ensures { result ≡ row_meets (row_at rows.now n) reading.now }
{
    let place = n as usize;
    if place == 0 || place > rows.len() {
        return false;
    }
    meets(rows[place - 1].changes.as_slice(), reading)
}

/// Whether one of the changes touches a key of the reading.
fn meets(changes: &[Change], reading: &[Observation]) -> bool
    ensures { result ≡ meets changes.now reading.now }
{
    reading
        .iter()
        .any(|observation| is_touched(changes, observation))
}

/// Whether a change touches the key of an observation.
fn is_touched(changes: &[Change], observation: &Observation) -> bool
    ensures { result ≡ list_any (λ change. touches change observation.now.key) changes.now }
{
    changes
        .iter()
        .any(|change| touches(change, &observation.key))
}
