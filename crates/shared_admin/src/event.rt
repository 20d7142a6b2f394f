//! What happens to a history that is shared, and what results from it.

use footprint::Key;
use history::Operator;

/// Something that happens to a shared history. There are sixteen slots, from 0 to 15, each of which
/// may keep a snapshot and a plan.
#[derive(Debug, Drop)]
pub enum Event<O> {
    /// The slot keeps a snapshot of the current history. A plan in the slot is unchanged.
    Snap(u8),
    /// The slot keeps a plan of the operation, made on its snapshot, instead of the plan that it
    /// had. If it has no snapshot, nothing happens.
    Plan(u8, O),
    /// The operator commits the slot's plan. The slot drops the plan, whether or not a row is made.
    Commit(u8, Operator),
    /// The operator calls an operation on the current tree.
    Call(Operator, O),
    /// The operator undoes the row of this number, unless that is refused.
    Undo(Operator, u32),
    /// The operator redoes the row of this number, which was undone, unless that is refused.
    Redo(Operator, u32),
}

/// The result of an event.
#[derive(Debug, Drop)]
pub enum EventReply {
    /// A snapshot was taken.
    Taken,
    /// A plan was made.
    Planned,
    /// The slot had no snapshot to plan on, or no plan to commit.
    Nothing,
    /// The row of this number was made. The row has the answer, which may be a refusal.
    Committed(u32),
    /// The tree differs from what the plan looked at, at this key first. No row was made.
    Stale(Key),
    /// The history has as many rows as it may have. No row was made.
    Full,
}
