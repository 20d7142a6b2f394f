//! What holds for all operations and keys: each function does nothing, and its contract is the law.
ghost use Rattle.footprint.specs.Laws.{AgreeAfterChanges, ComesToTheSame, IsTakenBack, LeftAllAtOnce, MayChangePlaces, RefusedAtTheLeast};

use crate::operation::Operation;

/// Trees that agree on a key still agree on it after the same changes, whatever else differs
/// between them.
pub fn trees_agree_after_the_same_changes()
    ensures { AgreeAfterChanges }
{}

/// An operation answers, changes and sees the same in trees that agree on the keys of its reading.
pub fn outcomes_follow_from_what_is_seen<A: Operation>()
    ensures { ComesToTheSame A.meaning }
{}

/// The inverse changes undo what an operation changes, and the result is exactly the tree before.
pub fn operations_are_taken_back<A: Operation>()
    ensures { IsTakenBack A.meaning }
{}

/// Two commands, one right after the other, can be swapped if neither makes a change that touches a
/// key at which the other looks.
pub fn commands_may_change_places<A: Operation, B: Operation>()
    ensures { MayChangePlaces A.meaning B.meaning }
{}

/// Links that are wanted all at once are refused exactly if something is in the way of one of them,
/// and the refusal names the least such path. Otherwise each of them is made, and all other entries
/// stay.
pub fn all_at_once_is_refused_at_the_least_path()
    ensures refused { RefusedAtTheLeast }
    ensures left { LeftAllAtOnce }
{}
