//! What holds of rows that come later: each function does nothing, and its contract is the law.
ghost use Rattle.later_rows.specs.Laws.{LaterReadersBlock, LaterReadersHinder, OtherRowsLeaveFree, RowsHoldOnAnotherTree};

use footprint::Operation;

/// If the undo of a row was free, it is refused once a later row has looked at what that row changed:
/// the refusal names such a later row.
pub fn later_readers_block<O: Operation>()
    ensures { LaterReadersBlock O.asks }
{}

/// If the redo of an undone row was free, it is refused once a later row has looked at what that row
/// changed: the refusal names such a later row.
pub fn later_readers_hinder<O: Operation>()
    ensures { LaterReadersHinder O.asks }
{}

/// If no later row has looked at what a row changes, its undo and its redo stay free.
pub fn other_rows_leave_free<O: Operation>()
    ensures { OtherRowsLeaveFree O.asks }
{}

/// On a first tree that differs only in what no row looked at, the same calls result in the same rows.
pub fn rows_hold_on_another_tree<O: Operation>()
    ensures { RowsHoldOnAnotherTree O.asks O.meaning }
{}
