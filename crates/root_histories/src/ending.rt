//! How a run on a root with a history ends.
ghost use Rattle.std.specs.Prelude.{◌≡◌, Bool, Err, IfErr};
ghost use Rattle.root_histories.specs.Endings.{is_of_nothing, Ends, IsAfter, IsOfRun, IsOfStepAt, IsOfStop, IsPromised, IsUnsynced, IsUnsyncedBack};
ghost use Rattle.root_access.specs.declared.failure.Failure.TheVariants as failures;
ghost use Rattle.root_histories.specs.declared.ending.Stop.TheVariants as stops;

use crate::kept_root::KeptRoot;
use disk::{CaptureError, StepError};
use kept_history::{FinishError, RunError};
use real_roots::{RealDisk, Trouble, Troubles};
use root_access::{Context, Failure, Reason, capture_failure, read_trouble};
use std::alloc::{AllocError, AllocFailed, Global};

/// Why a run on a root with a history stopped. What the system reported is known to the disk, which
/// is asked for it in the end.
#[derive(Drop)]
pub enum Stop {
    Failed(Failure),
    Uncaptured(CaptureError),
    /// The run wasn't made, or not wholly. The path is that of the step that failed, if one did.
    Unmade(RunError, Option<String>),
    /// A run that was cut short could not be finished.
    Unfinished(FinishError),
    /// What comes before the calls was done, and may not last: no call was made.
    NotBegun,
}

impl From<Failure> for Stop {
    ghost from_gives = { λ failure stop. stop ≡ stops.Failed failure };

    fn from(failure: Failure) -> Stop {
        Stop::Failed(failure)
    }
}

impl From<AllocError> for Stop {
    ghost from_gives = { λ _ stop. stop ≡ stops.Failed failures.OutOfMemory };

    fn from(_e: AllocError) -> Stop {
        Stop::Failed(Failure::OutOfMemory)
    }
}

impl<T: Drop> From<AllocFailed<T>> for Stop {
    ghost from_gives = { λ _ stop. stop ≡ stops.Failed failures.OutOfMemory };

    fn from(_e: AllocFailed<T>) -> Stop {
        Stop::Failed(Failure::OutOfMemory)
    }
}

impl From<CaptureError> for Stop {
    ghost from_gives = { λ e stop. stop ≡ stops.Uncaptured e };

    fn from(e: CaptureError) -> Stop {
        Stop::Uncaptured(e)
    }
}

/// Why a step was not made, if all is as it was.
fn step_failure(
    alloc: Global,
    disk: &mut RealDisk<'_>,
    why: StepError,
    path: Option<String>,
) -> Failure
    ensures { IsOfStepAt path why result }
{
    match why {
        StepError::Changed | StepError::Odd => match path {
            Some(path) => Failure::At(path, Reason::Changed),
            None => Failure::OutOfMemory,
        },
        StepError::Failed => read_trouble(alloc, disk),
        StepError::OutOfMemory => Failure::OutOfMemory,
    }
}

/// What the system reported last, after a colon.
fn reason_of(alloc: Global, disk: &mut RealDisk<'_>) -> Result<String, AllocError> {
    match disk.take_trouble() {
        Some(trouble) => format!(in alloc; ": {trouble}"),
        None => Ok(String::new(alloc)),
    }
}

/// The run is promised.
fn promised(alloc: Global, disk: &mut RealDisk<'_>) -> Failure
    ensures { IsPromised result }
{
    Failure::Promised(reason_of(alloc, disk).unwrap_or(String::new(alloc)))
}

/// All was done, and may not last.
fn unsynced(disk: &mut RealDisk<'_>) -> Failure
    ensures { IsUnsynced result }
{
    match disk.take_trouble() {
        Some(trouble) => Failure::Unsynced(trouble),
        None => Failure::OutOfMemory,
    }
}

/// Why a step was not made, and its path.
fn step_text(
    alloc: Global,
    why: StepError,
    trouble: Option<Trouble>,
    path: Option<String>,
) -> Result<String, AllocError> {
    match why {
        StepError::Failed => match trouble {
            Some(trouble) => format!(in alloc; "{trouble}"),
            None => String::from_str(alloc, "the system's error is not known"),
        },
        StepError::Changed | StepError::Odd => match path {
            Some(path) => format!(in alloc; "{path}: changed meanwhile"),
            None => String::from_str(alloc, "changed meanwhile"),
        },
        StepError::OutOfMemory => String::from_str(alloc, "out of memory"),
    }
}

/// All was taken back since a step failed, and that may not last.
fn unsynced_back(alloc: Global, disk: RealDisk<'_>, why: StepError, path: Option<String>) -> Failure
    ensures { IsUnsyncedBack result }
{
    let Troubles { last, before } = disk.into_troubles();
    let Some(trouble) = last else {
        return Failure::OutOfMemory;
    };
    match step_text(alloc, why, before, path) {
        Ok(step) => Failure::ReversedUnsynced(trouble, step),
        Err(AllocError) => Failure::NotSettledBack(trouble),
    }
}

/// Why a run was not made, or not wholly.
fn unmade_failure(
    alloc: Global,
    disk: RealDisk<'_>,
    is_ending: bool,
    error: RunError,
    path: Option<String>,
) -> Failure
    ensures { IsOfRun is_ending error path result }
{
    let mut disk = disk;
    match error {
        RunError::Refused { why, .. } | RunError::Withdrawn { why, .. } => {
            step_failure(alloc, &mut disk, why, path)
        }
        RunError::NotPromised(why) => step_failure(alloc, &mut disk, StepError::from(why), path),
        RunError::Unfinished(_) if is_ending => unsynced(&mut disk),
        RunError::HalfWithdrawn { why, .. } if is_ending => unsynced_back(alloc, disk, why, path),
        RunError::Unfinished(_) | RunError::HalfWithdrawn { .. } => promised(alloc, &mut disk),
    }
}

/// Whether a run that failed so has changed nothing, by the status of its failure.
pub fn is_of_nothing(failure: &Failure) -> bool
    ensures { result ≡ is_of_nothing failure.now }
{
    let status = failure.status();
    status == 1 || status == 4
}

/// Removes the directories that were made for nothing. Returns the failure of the run, or why they
/// can't be removed.
pub fn after_nothing(disk: &mut RealDisk<'_>, failure: Failure) -> Failure
    ensures { IsAfter failure result }
{
    if !is_of_nothing(&failure) {
        return failure;
    }
    match disk.settle_back() {
        Ok(()) => failure,
        Err(trouble) => Failure::NotSettledBack(trouble),
    }
}

/// Why a run failed. The history is unlocked.
fn failure_of(alloc: Global, root: KeptRoot<'_>, stop: Stop) -> Failure
    ensures { (ending : Bool) × IsOfStop ending stop result }
{
    let is_ending = root.disk.is_ending();
    let mut disk = root.disk.into_disk();
    match stop {
        Stop::Failed(failure) => after_nothing(&mut disk, failure),
        Stop::Uncaptured(e) => capture_failure(alloc, &mut disk, e),
        Stop::Unmade(error, path) => unmade_failure(alloc, disk, is_ending, error, path),
        Stop::Unfinished(_) if is_ending => unsynced(&mut disk),
        Stop::Unfinished(_) => promised(alloc, &mut disk),
        Stop::NotBegun => read_trouble(alloc, &mut disk),
    }
}

/// Ends a run on a root with a history, which is unlocked.
pub fn end(cx: Context<'_>, root: KeptRoot<'_>, ended: Result<u8, Stop>) -> Result<u8, Failure>
    ensures { Ends ended result }
{
    let mut root = root;
    root.notes.print(cx.rt);
    match ended {
        Ok(status) => Ok(status),
        Err(stop) => Err(failure_of(cx.rt.alloc(), root, stop)),
    }
}

/// The root's disk alone, once a run that was cut short is finished. The history is unlocked.
pub fn disk_after<'a>(
    cx: Context<'_>,
    root: KeptRoot<'a>,
    begun: Result<(), Stop>,
) -> Result<RealDisk<'a>, Failure>
    ensures { IfErr result (λ failure. Ends begun (Err failure)) }
{
    let mut root = root;
    root.notes.print(cx.rt);
    match begun {
        Ok(()) => Ok(root.disk.into_disk()),
        Err(stop) => Err(failure_of(cx.rt.alloc(), root, stop)),
    }
}
