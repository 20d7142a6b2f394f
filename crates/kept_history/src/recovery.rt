//! What a run does first: it finishes one that was cut short.
ghost use Rattle.std.specs.Prelude.{◌≡◌, [], ◌∷◌, IfOk, IfSome, OnOk};
ghost use Rattle.std.specs.Option.{option_map};
ghost use Rattle.disk.specs.Disks.{failures_after};
ghost use Rattle.disk.specs.Applied.{after_steps};
ghost use Rattle.disk.specs.Events.{SyncHistory, Clear};
ghost use Rattle.kept_history.specs.Recovery.{finishing};
ghost use Rattle.kept_history.specs.Doing.{Does};
ghost use Rattle.kept_history.specs.Finishing.{AreAllSorted, HasCause, Finishes, FinishesAll, IsFinished, AreForeign, failures_after_finish};
ghost use Rattle.kept_history.specs.Sorting.{WasFound, SortsOne};

use crate::kept_disk::KeptDisk;
use crate::running::end_run;
use disk::{DiskError, StepError, make_all};
use link_tree::{Change, Entry, Tree, TreePath};
use std::alloc::{AllocError, Global};
use thiserror::Error;
use tree_steps::steps_between;

/// Why a run was not finished. It is still promised: the next run finishes it.
#[derive(Clone, Copy, Debug, PartialEq, Eq, Hash, Error)]
pub enum FinishError {
    #[error("{0}")]
    DiskFailed(DiskError),
    /// A step could not be made.
    #[error("{0}")]
    NotMade(StepError),
}

impl From<AllocError> for FinishError {
    ghost use Rattle.disk.specs.declared.error.DiskError.TheVariants as disks;
    ghost use Rattle.kept_history.specs.declared.recovery.FinishError.TheVariants as finishes;

    ghost from_gives = { λ _ e. e ≡ finishes.DiskFailed disks.OutOfMemory };

    fn from(_e: AllocError) -> FinishError {
        FinishError::DiskFailed(DiskError::OutOfMemory)
    }
}

impl From<DiskError> for FinishError {
    ghost use Rattle.kept_history.specs.declared.recovery.FinishError.TheVariants as finishes;

    ghost from_gives = { λ why e. e ≡ finishes.DiskFailed why };

    fn from(why: DiskError) -> FinishError {
        FinishError::DiskFailed(why)
    }
}

/// The steps of a run that was cut short, by what is at their paths.
#[derive(Debug, Drop)]
pub(crate) struct Sorted {
    /// Still to be made.
    due: Vec<Change>,
    /// Somebody else has changed what is there.
    foreign: Vec<Change>,
}

/// Whether an entry, or none, is at a path. Something odd is neither.
#[tactic(auto, using(crate::proofs::Finishing::found_there, crate::proofs::Finishing::found_other, crate::proofs::Finishing::found_odd))]
fn is_there<D: KeptDisk>(
    alloc: Global,
    disk: &mut D,
    path: &TreePath,
    entry: &Option<Entry>,
) -> Result<bool, DiskError>
    ensures there { IfOk result (λ there. WasFound (D.holds disk.old) path.now entry.now there) }
    ensures kept { D.holds disk.new ≡ D.holds disk.old }
    ensures done { D.done disk.new ≡ D.done disk.old }
    ensures counted { D.failures disk.new ≡ failures_after (D.failures disk.old) result }
{
    match disk.check(alloc, path, entry) {
        Ok(()) => Ok(true),
        Err(StepError::Changed) => Ok(false),
        Err(StepError::Odd) => Ok(false),
        Err(StepError::Failed) => Err(DiskError::Failed),
        Err(StepError::OutOfMemory) => Err(DiskError::OutOfMemory),
    }
}

/// Adds a step to those that are due, or to those that somebody else has changed, or to none if it
/// was made.
#[tactic(auto, using(crate::proofs::Finishing::adds_due, crate::proofs::Finishing::adds_foreign, crate::proofs::Finishing::adds_none))]
fn sort_step<D: KeptDisk>(
    alloc: Global,
    disk: &mut D,
    sorted: &mut Sorted,
    step: &Change,
) -> Result<(), DiskError>
    ensures sorted { OnOk result (IfSome (D.holds disk.old) (λ h. SortsOne h sorted.old.due.items sorted.old.foreign.items sorted.new.due.items sorted.new.foreign.items step.now)) }
    ensures kept { D.holds disk.new ≡ D.holds disk.old }
    ensures done { D.done disk.new ≡ D.done disk.old }
    ensures counted { D.failures disk.new ≡ failures_after (D.failures disk.old) result }
{
    if is_there(alloc, disk, &step.path, &step.before)? {
        sorted.due.push(step.copy()?)?;
    } else if !is_there(alloc, disk, &step.path, &step.after)? {
        sorted.foreign.push(step.copy()?)?;
    }
    Ok(())
}

/// Looks at the path of each step.
fn sort_steps<D: KeptDisk>(
    alloc: Global,
    disk: &mut D,
    steps: &[Change],
) -> Result<Sorted, DiskError>
    ensures sorted { IfOk result (λ sorted. AreAllSorted (D.holds disk.old) steps.now sorted.due.items sorted.foreign.items) }
    ensures kept { D.holds disk.new ≡ D.holds disk.old }
    ensures done { D.done disk.new ≡ D.done disk.old }
    ensures counted { D.failures disk.new ≡ failures_after (D.failures disk.old) result }
{
    let mut sorted = Sorted {
        due: Vec::new(alloc),
        foreign: Vec::new(alloc),
    };
    for step in steps {
        sort_step(alloc, disk, &mut sorted, step)?;
    }
    Ok(sorted)
}

/// Syncs what was found, and removes what is left over.
fn begin_recovery<D: KeptDisk>(disk: &mut D, steps: &[Change]) -> Result<(), DiskError>
    ensures kept { D.holds disk.new ≡ D.holds disk.old }
    ensures done { Does (D.done disk.old) (D.done disk.new) result (SyncHistory ∷ Clear steps.now ∷ []) }
    ensures counted { D.failures disk.new ≡ failures_after (D.failures disk.old) result }
{
    disk.sync_history()?;
    disk.clear(steps)
}

/// Makes the steps that are due, and ends the run.
fn finish_steps<D: KeptDisk>(
    alloc: Global,
    disk: &mut D,
    steps: &[Change],
    due: &[Change],
) -> Result<(), FinishError>
    ensures done { Does (D.done disk.old) (D.done disk.new) result (finishing steps.now due.now) }
    ensures made { OnOk result (D.holds disk.new ≡ option_map (after_steps due.now) (D.holds disk.old)) }
    ensures stops { HasCause (D.holds disk.old) result due.now }
    ensures counted { D.failures disk.new ≡ failures_after_finish (D.failures disk.old) result }
{
    match begin_recovery(disk, steps) {
        Ok(()) => match make_all(alloc, disk, due) {
            Ok(()) => match end_run(disk, steps) {
                Ok(()) => Ok(()),
                Err(why) => Err(FinishError::DiskFailed(why)),
            },
            Err(stop) => Err(FinishError::NotMade(stop.why)),
        },
        Err(why) => Err(FinishError::DiskFailed(why)),
    }
}

/// Finishes a run that was cut short, from the trees of the old and of the new history. It looks at
/// the paths of the steps between them. The steps that are due are made, and then the new history
/// replaces the old one. The steps are returned that are not made, since somebody else has changed
/// what is there: a path with something odd counts as such. If there is no `history.next`, no run
/// was promised, and `KeptDisk::sync_history` is all of recovery.
///
/// # Errors
///
/// - `DiskFailed`: the disk failed, or out of memory.
/// - `NotMade`: a step that was due could not be made.
pub fn finish<D: KeptDisk>(
    alloc: Global,
    disk: &mut D,
    old: &Tree,
    new: &Tree,
) -> Result<Vec<Change>, FinishError>
    ensures finishes { Finishes (D.holds disk.old) (D.done disk.old) (D.done disk.new) result old.now new.now }
    ensures all { IfOk result (λ foreign. FinishesAll (D.holds disk.old) (D.holds disk.new) foreign.items old.now new.now) }
    ensures made { OnOk result (IsFinished (D.holds disk.old) (D.holds disk.new) old.now new.now) }
    ensures foreign { IfOk result (λ foreign. AreForeign (D.holds disk.old) foreign.items old.now new.now) }
    ensures counted { D.failures disk.new ≡ failures_after_finish (D.failures disk.old) result }
{
    let steps = steps_between(alloc, old, new)?;
    let sorted = sort_steps(alloc, disk, &steps)?;
    finish_steps(alloc, disk, &steps, &sorted.due)?;
    Ok(sorted.foreign)
}
