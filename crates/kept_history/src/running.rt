//! A run on a root with a kept history.
ghost use Rattle.std.specs.Prelude.{◌≡◌, ◌≤◌, [], ◌∷◌, ◌++◌, ℕ, List, length, take, Option, map as list_map, IfErr, OnOk};
ghost use Rattle.std.specs.Option.{option_map};
ghost use Rattle.disk.specs.Disks.{Held, failures_after};
ghost use Rattle.disk.specs.Steps.{failures_after_step};
ghost use Rattle.disk.specs.Applied.{WereMade, after_steps};
ghost use Rattle.tree_steps.specs.Steps.{steps_between};
ghost use Rattle.disk.specs.Events.{Event, Promise, Commit, Withdraw, Make, SyncHistory, way_back, with_events};
ghost use Rattle.kept_history.specs.Runs.{ending};
ghost use Rattle.kept_history.specs.Doing.{Does, Runs, Leaves, NeverHalfSince, WereSeen, failures_after_run};

use crate::kept_disk::KeptDisk;
use disk::{DiskError, StepError, Stop, look_at_all, make_all, take_all_back};
use link_tree::{Change, Tree};
use std::alloc::{AllocError, Global};
use thiserror::Error;
use tree_steps::steps_between;

/// Why a run was not made. Steps count from 0.
#[derive(Clone, Copy, Debug, PartialEq, Eq, Hash, Error)]
pub enum RunError {
    /// This step can't be made. Nothing was written.
    #[error("step {step}: {why}")]
    Refused {
        step: usize,
        why: StepError,
    },
    /// `history.next` could not be written. The root and the history are as they were.
    #[error("history not written: {0}")]
    NotPromised(DiskError),
    /// This step was not made. Those before it have been taken back, and `history.next` has been
    /// removed: the root and the history are as they were.
    #[error("step {step}: {why}")]
    Withdrawn {
        step: usize,
        why: StepError,
    },
    /// A sync or a rename failed after `history.next` was written: the next run finishes this one,
    /// or finds the old history with the old tree.
    #[error("promised, the next run finishes it: {0}")]
    Unfinished(DiskError),
    /// This step was not made, and then a step before it could not be taken back, or `history.next`
    /// could not be removed: the next run finishes this one, or finds the old history with the old
    /// tree.
    #[error("step {step}: {why}; promised, the next run finishes it: {back}")]
    HalfWithdrawn {
        step: usize,
        why: StepError,
        back: StepError,
    },
}

impl From<AllocError> for RunError {
    ghost use Rattle.disk.specs.declared.error.DiskError.TheVariants as disks;
    ghost use Rattle.kept_history.specs.declared.running.RunError.TheVariants as runs;

    ghost from_gives = { λ _ e. e ≡ runs.NotPromised disks.OutOfMemory };

    fn from(_e: AllocError) -> RunError {
        RunError::NotPromised(DiskError::OutOfMemory)
    }
}

/// Syncs steps that were taken back, and removes the new history.
fn end_withdrawal<D: KeptDisk>(disk: &mut D, steps: &[Change]) -> Result<(), DiskError>
    ensures kept { D.holds disk.new ≡ D.holds disk.old }
    ensures done { Does (D.done disk.old) (D.done disk.new) result (ending Withdraw steps.now) }
    ensures counted { D.failures disk.new ≡ failures_after (D.failures disk.old) result }
{
    disk.sync_back(steps)?;
    disk.withdraw()?;
    disk.sync_history()
}

/// Syncs steps that were made, and lets the new history replace the old one.
pub(crate) fn end_run<D: KeptDisk>(disk: &mut D, steps: &[Change]) -> Result<(), DiskError>
    ensures kept { D.holds disk.new ≡ D.holds disk.old }
    ensures done { Does (D.done disk.old) (D.done disk.new) result (ending Commit steps.now) }
    ensures counted { D.failures disk.new ≡ failures_after (D.failures disk.old) result }
{
    disk.sync_steps(steps)?;
    disk.commit()?;
    disk.sync_history()
}

/// Takes the steps back that were made, and removes the new history.
fn withdraw<D: KeptDisk>(alloc: Global, disk: &mut D, steps: &[Change]) -> Result<(), StepError>
    ensures back { OnOk result ((old : Option Held) → WereMade old (D.holds disk.old) steps.now → D.holds disk.new ≡ old) }
    ensures left { IfErr result (λ why. (n : ℕ) × (n ≤ length steps.now) × ((old : Option Held) → WereMade old (D.holds disk.old) steps.now → D.holds disk.new ≡ option_map (after_steps (take n steps.now)) old)) }
    ensures done { Does (D.done disk.old) (D.done disk.new) result (list_map Make (way_back steps.now) ++ ending Withdraw steps.now) }
    ensures counted { D.failures disk.new ≡ failures_after_step (D.failures disk.old) result }
{
    match take_all_back(alloc, disk, steps) {
        Ok(()) => match end_withdrawal(disk, steps) {
            Ok(()) => Ok(()),
            Err(why) => Err(StepError::from(why)),
        },
        Err(left) => Err(left.why),
    }
}

/// Makes the steps of a run that is promised, and ends it.
fn make_promised<D: KeptDisk>(alloc: Global, disk: &mut D, steps: &[Change]) -> Result<(), RunError>
    ensures runs { (text : List ℕ) (before : Option (List Event)) → D.done disk.old ≡ with_events before (Promise text ∷ SyncHistory ∷ []) → Runs before (D.done disk.new) result text steps.now }
    ensures leaves { Leaves (D.holds disk.old) (D.holds disk.new) result steps.now }
    ensures counted { D.failures disk.new ≡ failures_after_run (D.failures disk.old) result }
{
    match make_all(alloc, disk, steps) {
        Ok(()) => match end_run(disk, steps) {
            Ok(()) => Ok(()),
            Err(why) => Err(RunError::Unfinished(why)),
        },
        Err(Stop { step, why }) => match withdraw(alloc, disk, &steps[..step]) {
            Ok(()) => Err(RunError::Withdrawn { step, why }),
            Err(back) => Err(RunError::HalfWithdrawn { step, why, back }),
        },
    }
}

/// Writes and syncs the new history, makes the steps, and ends the run.
fn promise_and_make<D: KeptDisk>(
    alloc: Global,
    disk: &mut D,
    text: &[u8],
    steps: &[Change],
) -> Result<(), RunError>
    ensures runs { Runs (D.done disk.old) (D.done disk.new) result text.now steps.now }
    ensures leaves { Leaves (D.holds disk.old) (D.holds disk.new) result steps.now }
    ensures counted { D.failures disk.new ≡ failures_after_run (D.failures disk.old) result }
{
    match disk.promise(text) {
        Ok(()) => match disk.sync_history() {
            Ok(()) => make_promised(alloc, disk, steps),
            Err(why) => Err(RunError::Unfinished(why)),
        },
        Err(why) => Err(RunError::NotPromised(why)),
    }
}

/// Makes a run. First all paths are looked at. Then the text of the new history is written next to
/// the old one, the steps are made, and the new history replaces the old one. If a step can't be
/// made, those before it are taken back.
///
/// # Errors
///
/// - `Refused`: before anything was written, this step was not from what is at its path.
/// - `NotPromised`: the new history could not be written.
/// - `Withdrawn`: this step could not be made. All is as it was.
/// - `Unfinished`, `HalfWithdrawn`: the disk failed in the middle. `finish` leaves the new history
///   with the new tree, unless the old history with the old tree is still there.
pub fn run<D: KeptDisk>(
    alloc: Global,
    disk: &mut D,
    text: &[u8],
    steps: &[Change],
) -> Result<(), RunError>
    ensures runs { Runs (D.done disk.old) (D.done disk.new) result text.now steps.now }
    ensures leaves { Leaves (D.holds disk.old) (D.holds disk.new) result steps.now }
    ensures looked { WereSeen (D.holds disk.old) result steps.now }
    ensures counted { D.failures disk.new ≡ failures_after_run (D.failures disk.old) result }
{
    match look_at_all(alloc, disk, steps) {
        Ok(()) => promise_and_make(alloc, disk, text, steps),
        Err(Stop { step, why }) => Err(RunError::Refused { step, why }),
    }
}

/// Makes a run whose history leads from one tree to another. The errors are those of `run`.
pub fn run_between<D: KeptDisk>(
    alloc: Global,
    disk: &mut D,
    text: &[u8],
    old: &Tree,
    new: &Tree,
) -> Result<(), RunError>
    // Whenever it ends, or is cut short: no failure leaves a half.
    ensures whole { NeverHalfSince (D.done disk.old) (D.done disk.new) old.now new.now text.now }
    ensures runs { Runs (D.done disk.old) (D.done disk.new) result text.now (steps_between old.now new.now) }
    ensures leaves { Leaves (D.holds disk.old) (D.holds disk.new) result (steps_between old.now new.now) }
    ensures looked { WereSeen (D.holds disk.old) result (steps_between old.now new.now) }
    ensures counted { D.failures disk.new ≡ failures_after_run (D.failures disk.old) result }
{
    let steps = steps_between(alloc, old, new)?;
    run(alloc, disk, text, &steps)
}
