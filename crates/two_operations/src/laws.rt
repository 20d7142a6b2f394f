//! What holds for all operations in one: the function does nothing, and its contract is the law.
ghost use Rattle.footprint.specs.Laws.{IsTakenBack};
ghost use Rattle.two_operations.specs.Then.{then_meaning};
ghost use Rattle.two_operations.specs.Laws.{ThenAnswers, ThenInSteps, ThenLeads};

use footprint::Operation;

/// Two operations combined by `then` are what they are alone: if accepted, they leave the tree that
/// the second leaves after the first. If the changes of the first touch no key of the second, the
/// answer of both is that of the second alone. Their changes are undone in one step. For three
/// operations the grouping doesn't matter, except for notices: if the second is a question and is
/// combined with the first, the notices of the first are lost.
pub fn then_is_one_after_the_other<A: Operation, B: Operation, C: Operation>()
    ensures leads { ThenLeads A.meaning B.meaning }
    ensures answers { ThenAnswers A.meaning B.meaning }
    ensures taken_back { IsTakenBack (then_meaning A.meaning B.meaning) }
    ensures in_steps { ThenInSteps A.meaning B.meaning C.meaning }
{}
