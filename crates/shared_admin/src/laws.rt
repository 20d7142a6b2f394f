//! What holds for all events on all histories: the functions do nothing, and their contracts are
//! the laws.
ghost use Rattle.shared_admin.specs.Laws.{PlansCommitAsCalls, EventsHaveOneOutcome};

use footprint::Operation;

/// A plan, whatever tree it was made on, is committed exactly if the current tree agrees with all
/// that it looked at. Then the event does what a call of the plan's operation at that moment would
/// do, and the operation has the outcome that the plan says; otherwise the plan is stale.
pub fn plans_commit_as_calls<O: Operation>()
    ensures { PlansCommitAsCalls O.asks O.meaning }
{}

/// The same events on the same tree result in the same history and the same replies.
pub fn events_have_one_outcome<O: Operation>()
    ensures { EventsHaveOneOutcome O.asks O.meaning }
{}
