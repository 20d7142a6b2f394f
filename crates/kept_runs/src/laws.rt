//! What holds of runs on kept roots: the function does nothing, and its contract is the law.
ghost use Rattle.kept_runs.specs.Laws.{RunsAreWhole};

/// A run on a kept root that first commits what others did and then its calls: the text on the
/// disk has the old rows, those of others and those of the calls, and leads to their tree. Whatever
/// fails on the way, and whenever: while what others did is committed, recovery leaves the text
/// before or that one, and the root as it was; after that, that one with its tree, or the last one
/// with its own.
pub fn runs_on_kept_roots_are_whole()
    ensures { RunsAreWhole }
{}
