//! How a history reaches a disk.
ghost use Rattle.std.specs.Prelude.{◌≡◌, [], true, IfOk, OnOk};
ghost use Rattle.unit_script.specs.Machine.{replay};
ghost use Rattle.tree_steps.specs.Steps.{steps_between};
ghost use Rattle.kept_history.specs.Doing.{Runs, Leaves, WereSeen, failures_after_run};
ghost use Rattle.kept_history.specs.Finishing.{Finishes, FinishesAll, IsFinished, AreForeign, failures_after_finish};
ghost use Rattle.kept_runs.specs.Disks.{RunsWhole, WritesWhole, Recovers};

use crate::kept::Kept;
use kept_history::{FinishError, KeptDisk, RunError, finish, run, run_between};
use link_tree::{Change, Tree};
use std::alloc::Global;

/// Finishes a run that was promised, from the history on the disk to the next one. The steps are
/// returned that were not made, since somebody else has changed what is there.
///
/// # Errors
///
/// - `DiskFailed`: the disk failed, or out of memory.
/// - `NotMade`: a step that was due could not be made.
///
/// The run is still promised then.
pub fn recover<D: KeptDisk>(
    alloc: Global,
    disk: &mut D,
    old: &Kept,
    new: &Kept,
) -> Result<Vec<Change>, FinishError>
    ensures recovers { old.now.is_written ≡ true → new.now.is_written ≡ true → OnOk result (Recovers (D.holds disk.old) (D.done disk.old) (D.done disk.new) old.now.text.bytes.items new.now.text.bytes.items) }
    ensures finishes { Finishes (D.holds disk.old) (D.done disk.old) (D.done disk.new) result (replay old.now.history.first old.now.history.rows) (replay new.now.history.first new.now.history.rows) }
    ensures all { IfOk result (λ foreign. FinishesAll (D.holds disk.old) (D.holds disk.new) foreign.items (replay old.now.history.first old.now.history.rows) (replay new.now.history.first new.now.history.rows)) }
    ensures made { OnOk result (IsFinished (D.holds disk.old) (D.holds disk.new) (replay old.now.history.first old.now.history.rows) (replay new.now.history.first new.now.history.rows)) }
    ensures foreign { IfOk result (λ foreign. AreForeign (D.holds disk.old) foreign.items (replay old.now.history.first old.now.history.rows) (replay new.now.history.first new.now.history.rows)) }
    ensures counted { D.failures disk.new ≡ failures_after_finish (D.failures disk.old) result }
{
    finish(alloc, disk, old.history.tree(), new.history.tree())
}

/// Makes a run: the text of the history replaces the one on the disk, and the steps are made from
/// the tree of that to the history's own. The history must be written: `Kept::is_written`.
///
/// # Errors
///
/// - `Refused`: before anything was written, this step was not from what is at its path.
/// - `NotPromised`: the new history could not be written.
/// - `Withdrawn`: this step could not be made. All is as it was.
/// - `Unfinished`, `HalfWithdrawn`: the disk failed in the middle. `recover` leaves the new history
///   with the new tree, unless the old history with the old tree is still there.
pub fn commit<D: KeptDisk>(
    alloc: Global,
    disk: &mut D,
    old: &Tree,
    kept: &Kept,
) -> Result<(), RunError>
    ensures whole { kept.now.is_written ≡ true → RunsWhole (D.done disk.old) (D.done disk.new) old.now kept.now.text.bytes.items }
    ensures runs { Runs (D.done disk.old) (D.done disk.new) result kept.now.text.bytes.items (steps_between old.now (replay kept.now.history.first kept.now.history.rows)) }
    ensures leaves { Leaves (D.holds disk.old) (D.holds disk.new) result (steps_between old.now (replay kept.now.history.first kept.now.history.rows)) }
    ensures looked { WereSeen (D.holds disk.old) result (steps_between old.now (replay kept.now.history.first kept.now.history.rows)) }
    ensures counted { D.failures disk.new ≡ failures_after_run (D.failures disk.old) result }
{
    run_between(alloc, disk, kept.text.bytes(), old, kept.history.tree())
}

/// Makes a run without steps, which has rows of what others did: the root already has the tree of
/// the history. The errors are those of `commit`, without those of steps.
pub fn commit_others<D: KeptDisk>(alloc: Global, disk: &mut D, kept: &Kept) -> Result<(), RunError>
    ensures whole { WritesWhole (D.done disk.old) (D.done disk.new) kept.now.text.bytes.items }
    ensures runs { Runs (D.done disk.old) (D.done disk.new) result kept.now.text.bytes.items [] }
    ensures leaves { Leaves (D.holds disk.old) (D.holds disk.new) result [] }
    ensures counted { D.failures disk.new ≡ failures_after_run (D.failures disk.old) result }
{
    run(alloc, disk, kept.text.bytes(), &[])
}
