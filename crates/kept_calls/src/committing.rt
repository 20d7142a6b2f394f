//! How a history reaches the disk.
ghost use Rattle.std.specs.Prelude.{◌≡◌, IfErr};
ghost use Rattle.kept_calls.specs.Runs.{failed_step, IsOfMaking, IsOfWriting};

use kept_history::RunError;
use link_tree::Tree;
use root_histories::{Kept, KeptRoot, Stop, commit, commit_others, shown_path};
use std::alloc::{AllocError, Global};
use tree_steps::steps_between;

/// The step that failed, if one did.
fn failed_step(error: RunError) -> Option<usize>
    ensures { result ≡ failed_step error }
{
    match error {
        RunError::Refused { step, .. } | RunError::Withdrawn { step, .. } => Some(step),
        RunError::HalfWithdrawn { step, .. } => Some(step),
        RunError::NotPromised(_) | RunError::Unfinished(_) => None,
    }
}

/// The path of the step that failed.
fn failed_path(
    alloc: Global,
    old: &Tree,
    kept: &Kept,
    error: RunError,
) -> Result<Option<String>, AllocError> {
    let Some(step) = failed_step(error) else {
        return Ok(None);
    };
    let steps = steps_between(alloc, old, kept.history().tree())?;
    match steps.get(step) {
        Some(change) => Ok(Some(shown_path(alloc, &change.path)?)),
        None => Ok(None),
    }
}

/// Writes a history to the disk, before calls are made. The root already is as it says.
pub fn write_to(alloc: Global, root: &mut KeptRoot<'_>, kept: &Kept) -> Result<(), Stop>
    ensures { IfErr result IsOfWriting }
{
    match commit_others(alloc, &mut root.disk, kept) {
        Ok(()) => Ok(()),
        Err(_) if root.disk.is_ending() => Err(Stop::NotBegun),
        Err(error) => Err(Stop::Unmade(error, None)),
    }
}

/// Writes a history to the disk, and makes the steps from a tree to its own, all or none.
pub fn commit_to(
    alloc: Global,
    root: &mut KeptRoot<'_>,
    old: &Tree,
    kept: &Kept,
) -> Result<(), Stop>
    ensures { IfErr result IsOfMaking }
{
    match commit(alloc, &mut root.disk, old, kept) {
        Ok(()) => Ok(()),
        Err(error) => Err(Stop::Unmade(
            error,
            failed_path(alloc, old, kept, error).unwrap_or(None),
        )),
    }
}
