//! A root directory: what is in it, and the changes that are made in it.
ghost use Rattle.std.specs.Prelude.{length, IfErr};
ghost use Rattle.root_access.specs.Failures.{HasReason, IsHalfDone, SaysHowMany, IsNotSettled};
ghost use Rattle.root_access.specs.declared.failure.Reason.TheVariants as reasons;

use crate::failure::{Failure, Reason, at, capture_failure, shown_path, step_failure};
use disk::{ApplyError, StepError, apply, capture};
use link_tree::{Change, PathError, Tree, TreePath};
use real_roots::{Hold, Patience, RealDisk, Trouble, Troubles};
use root_words::{Asked, Command, Wait};
use std::alloc::{AllocError, Global};
use std::time::Duration;
use tree_steps::steps_between;

/// How a command holds a root: several runs that change nothing may hold one at once.
pub fn hold_of(asked: &Asked) -> Hold {
    match &asked.command {
        Command::GetDefault | Command::IsEnabled(_) | Command::Status(_) => Hold::Shared,
        Command::ListUnitFiles(_) | Command::ListDependencies { .. } => Hold::Shared,
        Command::Capture { .. } | Command::Diff(_) => Hold::Shared,
        Command::Log(_) | Command::Show(_) => Hold::Shared,
        _ if asked.how.dry_run => Hold::Shared,
        Command::Units { .. } | Command::PresetAll { .. } | Command::Link { .. } => Hold::Alone,
        Command::Add { .. } | Command::SetDefault(_) | Command::Place(_) => Hold::Alone,
        Command::Remove(_) | Command::Run { .. } | Command::Apply(_) => Hold::Alone,
        Command::Undo { .. } | Command::Redo(_) | Command::Keep { .. } => Hold::Alone,
        Command::Recover | Command::Forget => Hold::Alone,
    }
}

pub fn patience_of(wait: Wait) -> Patience {
    match wait {
        Wait::No => Patience::None,
        Wait::Seconds(seconds) => Patience::AtMost(Duration::from_secs(u64::from(seconds))),
        Wait::Forever => Patience::Endless,
    }
}

/// Takes a root for this run.
pub fn take_root<'a>(
    rt: &'a HostRuntime,
    asked: &Asked,
    root: &str,
) -> Result<RealDisk<'a>, Failure> {
    match RealDisk::take(rt, root, hold_of(asked), patience_of(asked.wait), asked.max) {
        Ok(disk) => Ok(disk),
        Err(trouble) => Err(Failure::Root(trouble)),
    }
}

/// Captures what is at all slots, at these paths, and where links lead from there.
pub fn captured_in(
    alloc: Global,
    disk: &mut RealDisk<'_>,
    paths: &[TreePath],
) -> Result<Tree, Failure> {
    match capture(alloc, disk, paths) {
        Ok(tree) => Ok(tree),
        Err(e) => Err(capture_failure(alloc, disk, e)),
    }
}

/// The paths of `--with`.
pub fn paths_of(alloc: Global, texts: &[String]) -> Result<Vec<TreePath>, Failure> {
    let mut paths = Vec::new(alloc);
    for text in texts {
        match TreePath::parse(alloc, text.as_str().as_bytes()) {
            Ok(path) => paths.push(path)?,
            Err(PathError::BadPath) => {
                return Err(Failure::bad_word(alloc, "bad path", text.as_str())?);
            }
            Err(PathError::OutOfMemory) => return Err(Failure::OutOfMemory),
        }
    }
    Ok(paths)
}

/// Appends the text of an error, after a semicolon.
fn push_reason(
    alloc: Global,
    text: &mut String,
    trouble: &Option<Trouble>,
) -> Result<(), AllocError> {
    if let Some(trouble) = trouble {
        let reason = format!(in alloc; "; {trouble}")?;
        text.push_str(reason.as_str())?;
    }
    Ok(())
}

/// What failed, and why that could not be reversed.
fn reasons_of(alloc: Global, troubles: &Troubles) -> Result<String, AllocError> {
    let mut text = String::new(alloc);
    push_reason(alloc, &mut text, &troubles.before)?;
    push_reason(alloc, &mut text, &troubles.last)?;
    Ok(text)
}

/// Some steps are made, and the one of this number can't be reversed. What is made is written to
/// the disk, as far as that can be done. It is reported even if there is no memory for the step's
/// path.
fn half_done(
    alloc: Global,
    disk: RealDisk<'_>,
    steps: &[Change],
    made: usize,
    number: usize,
) -> Failure
    ensures { IsHalfDone made (length steps.now) result }
{
    let mut disk = disk;
    disk.settle_half();
    let path = match steps.get(number) {
        Some(change) => shown_path(alloc, &change.path).unwrap_or(String::new(alloc)),
        None => String::new(alloc),
    };
    let reasons = reasons_of(alloc, &disk.into_troubles()).unwrap_or(String::new(alloc));
    Failure::HalfDone(made, steps.len(), path, reasons)
}

/// Why a step was not made, if those before it were reversed. Then the directories that were made
/// are removed.
fn taken_back(
    alloc: Global,
    disk: RealDisk<'_>,
    steps: &[Change],
    step: usize,
    why: StepError,
) -> Failure {
    let mut disk = disk;
    if let Err(trouble) = disk.settle_back() {
        return Failure::NotSettledBack(trouble);
    }
    match steps.get(step) {
        Some(change) => step_failure(alloc, disk, change, why),
        None => Failure::OutOfMemory,
    }
}

/// Why the steps were not made.
fn apply_failure(alloc: Global, disk: RealDisk<'_>, steps: &[Change], e: ApplyError) -> Failure
    ensures { SaysHowMany e (length steps.now) result }
{
    match e {
        ApplyError::TakenBack { step, why } => taken_back(alloc, disk, steps, step, why),
        ApplyError::HalfDone { step, made, .. } => half_done(alloc, disk, steps, made, step),
    }
}

/// Writes what was made to the disk. If that fails, all is made, but may not last.
fn settle(disk: RealDisk<'_>, steps: &[Change]) -> Result<(), Failure>
    ensures { IfErr result (λ failure. IsNotSettled (length steps.now) failure) }
{
    let mut disk = disk;
    match disk.settle() {
        Ok(()) => Ok(()),
        Err(trouble) => Err(Failure::NotSettled(trouble, steps.len())),
    }
}

/// Makes the steps from one tree, which was captured in the root, to another, all or none.
pub fn make_tree(
    alloc: Global,
    disk: RealDisk<'_>,
    before: &Tree,
    after: &Tree,
) -> Result<(), Failure> {
    let steps = steps_between(alloc, before, after)?;
    let mut disk = disk;
    match apply(alloc, &mut disk, &steps) {
        Ok(()) => settle(disk, &steps),
        Err(e) => Err(apply_failure(alloc, disk, &steps, e)),
    }
}

/// Nothing may be changed at this path, since it is the vendor's.
pub fn forbidden(alloc: Global, change: Option<&Change>) -> Failure
    ensures { HasReason reasons.Vendor result }
{
    match change {
        Some(change) => at(alloc, &change.path, Reason::Vendor),
        None => Failure::OutOfMemory,
    }
}
