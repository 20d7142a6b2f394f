//! What holds of a root with a history that is found in any state: a run may have been cut short,
//! and others may have changed anything since. Each function does nothing, and its contract is the
//! law.
ghost use Rattle.kept_laws.specs.Laws.{RecoveriesMend, MendedInOneWay, UnsyncedRootsMend, FoundRunsAreWhole, KeptPathsAreRight, RunsWithRowsAreWhole};

/// However often recovery is killed or the power fails, the recovery that ends leaves the promised
/// history, or the old one if none is promised. Each path that had the old tree's entry has that of
/// the tree of this history, and what others changed is left.
pub fn recoveries_mend()
    ensures { RecoveriesMend }
{}

/// There is one way to mend what is found: the recovery that ends leaves what the first would have
/// left.
pub fn roots_are_mended_in_one_way()
    ensures { MendedInOneWay }
{}

/// Whatever was done to a root, by runs that were killed and by others, and whatever part of it is
/// not on the disk yet: however often recovery is killed or the power fails, the recovery that ends
/// mends what a power failure may have left of that.
pub fn unsynced_roots_mend()
    ensures { UnsyncedRootsMend }
{}

/// A run first finishes what it finds, then writes what others did, and then makes its steps.
/// Whatever fails, and whenever: the recovery that ends leaves what the first one would have left,
/// or the history with what others did and its tree, or the new one with its own.
pub fn found_runs_are_whole()
    ensures { FoundRunsAreWhole }
{}

/// After any number of runs, each of them whole or cut short, and whatever others change at other
/// paths in between: recovery leaves a root at rest, and a path that others leave alone has what the
/// history says.
pub fn kept_paths_are_right()
    ensures { KeptPathsAreRight }
{}

/// A run of the program on whatever it finds: recovery, then the rows of what others did, if they
/// did something, then the rows of its calls. With the rows of others the history has what recovery
/// left, there is a row for each call, and whatever fails, and whenever: the recovery that ends leaves
/// what the first one would have left, or the history with the rows of others, or the one with all
/// rows, each with its own tree.
pub fn runs_with_rows_are_whole()
    ensures { RunsWithRowsAreWhole }
{}
