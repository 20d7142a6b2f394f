//! What holds of calls on a part of a tree: the function does nothing, and its contract is the law.
ghost use Rattle.partial_trees.specs.Laws.{RowsAreTheSame, ChangesAreTheSame, AgreementLasts};

use footprint::Operation;

/// If a part of a tree, or any other tree, agrees with the whole tree on every key at which calls
/// on the part looked, the same calls on the whole tree have the same rows: the same replies,
/// changes, readings and marks. Calls are operations, undos and redos. They change the same in all;
/// the whole tree with these changes is what the calls leave of it. On each of these keys the two
/// trees agree afterwards as well.
pub fn rows_are_those_of_the_whole<O: Operation>()
    ensures rows { RowsAreTheSame O.asks O.meaning }
    ensures changes { ChangesAreTheSame O.asks O.meaning }
    ensures agreement { AgreementLasts O.asks O.meaning }
{}
