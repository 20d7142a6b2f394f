//! What holds of kept histories: each function does nothing, and its contract is the law.
ghost use Rattle.kept_history.specs.Laws.{RunsAreWhole, WritesAreWhole, WithdrawalsAreWhole, Acknowledged, WithdrawnLasts, Promised, AlwaysAtRest, RecoveryMends};

/// Whenever a run is killed or the power fails, and however often that happens to its recovery: the
/// recovery that ends leaves the old history with the old tree, or the new one with the new tree.
pub fn runs_are_whole()
    ensures { RunsAreWhole }
{}

/// The same of a run that only writes the history, since the root is already as the new one says.
pub fn writes_are_whole()
    ensures { WritesAreWhole }
{}

/// The same of a run that takes its first steps back.
pub fn withdrawals_are_whole()
    ensures { WithdrawalsAreWhole }
{}

/// What a run has done when it returns lasts, whatever fails next.
pub fn acknowledged_runs_last()
    ensures { Acknowledged }
{}

/// Once a run has taken its steps back and returned, the old history with the old tree lasts.
pub fn withdrawn_runs_last()
    ensures { WithdrawnLasts }
{}

/// Once `history.next` is synced, whatever fails, recovery leaves the new history with the new
/// tree.
pub fn runs_are_promised()
    ensures { Promised }
{}

/// After any number of runs, each of them whole or cut short, a root is at rest with the tree of
/// its history.
pub fn roots_are_always_at_rest()
    ensures { AlwaysAtRest }
{}

/// If somebody else has changed what is at a path, recovery leaves that.
pub fn recovery_mends()
    ensures { RecoveryMends }
{}
