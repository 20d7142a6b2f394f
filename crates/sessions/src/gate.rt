//! The point at which a session may be paused.
ghost use Rattle.std.specs.Prelude.{◌≤◌};

use history::Operator;

/// What a session calls after it has planned an operation and before it commits the plan, and once
/// before an undo or a redo. No lock is held during the call, so other sessions continue meanwhile.
///
/// Its arguments are the operator, the number of the session's call, from 1 on, and the number of
/// the attempt, from 1 on: a stale plan is made again, so an operation may take up to four
/// attempts. An undo or a redo takes one.
pub trait Gate {
    fn between(&self, operator: Operator, call: u64, attempt: u8)
        requires call { 1 ≤ call }
        requires attempt { (1 ≤ attempt) × (attempt ≤ 4) };
}
