//! What holds for the rows that must be undone: each function does nothing, and its contract is the
//! law.
ghost use Rattle.undo_orders.specs.Laws.{OrderIsAccepted, EachIsNecessary};

use footprint::Operation;

/// If the rows that must be undone are undone one after another, by whatever operators, no undo is
/// refused. Then each of these rows is undone, and all other rows survive as before.
pub fn order_is_accepted<O: Operation>()
    ensures { OrderIsAccepted O.asks }
{}

/// No smaller set is enough: whatever undos are called, if the row is undone after them, each of
/// the rows that must be undone is undone.
pub fn each_is_necessary<O: Operation>()
    ensures { EachIsNecessary O.asks }
{}
