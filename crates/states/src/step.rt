//! The links by which units depend on one another.
ghost use Rattle.std.specs.Prelude.{◌≡◌, IfOk, Some, None, if◌then◌else◌};
ghost use Rattle.std.specs.Option.{option_copied};
ghost use Rattle.unit_paths.specs.Paths.{is_root};
ghost use Rattle.unit_paths.specs.Slots.{slot_of};
ghost use Rattle.load_path.specs.RealNames.{named};
ghost use Rattle.states.specs.Dependencies.{ending_of, named_step, step_from, is_other_link, step_at, turned};

use link_tree::{Entry, Slot, TreePath, is_null_link, last_part};
use std::alloc::{AllocError, Global};
use unit_name::{NameError, UnitName};

/// A step from a unit to one on which it depends by a link; in reverse, from a unit to one that
/// depends on it.
#[derive(Debug, Drop)]
pub(crate) struct Step {
    pub(crate) from: UnitName,
    pub(crate) to: UnitName,
}

/// The ending of the name of the directory that contains a path, if the path is the slot of a
/// dependency.
fn ending_of(path: &TreePath) -> Option<&'static [u8]>
    ensures { option_copied result ≡ ending_of (slot_of path.now) }
{
    match Slot::dependency_of(path) {
        Some(dependency) => Some(dependency.ending().as_bytes()),
        None => None,
    }
}

/// The text as a name, if it is one.
fn parse_name(alloc: Global, text: &[u8]) -> Result<Option<UnitName>, AllocError>
    ensures { IfOk result (λ name. name ≡ named text.now) }
{
    match UnitName::parse(alloc, text) {
        Ok(name) => Ok(Some(name)),
        Err(NameError::Bad(_)) => Ok(None),
        Err(NameError::OutOfMemory) => Err(AllocError),
    }
}

/// The step from one unit to another, if both texts are names.
fn named_step(alloc: Global, from: &[u8], to: &[u8]) -> Result<Option<Step>, AllocError>
    ensures { IfOk result (λ step. step ≡ named_step from.now to.now) }
{
    let Some(from) = parse_name(alloc, from)? else {
        return Ok(None);
    };
    let Some(to) = parse_name(alloc, to)? else {
        return Ok(None);
    };
    Ok(Some(Step { from, to }))
}

/// The step from the unit whose directory contains a link, by the directory's name and this ending.
/// The directory isn't the root.
#[tactic(auto, unfolding(unit_paths::specs::Paths::name_at))]
fn step_from(
    alloc: Global,
    directory: &[u8],
    ending: Option<&[u8]>,
    to: &[u8],
) -> Result<Option<Step>, AllocError>
    ensures { IfOk result (λ step. step ≡ step_from (if is_root directory.now then None else Some directory.now) (option_copied ending.entry) to.now) }
{
    let (Some(ending), [_, ..]) = (ending, directory) else {
        return Ok(None);
    };
    let name = last_part(directory);
    let len = name.len().saturating_sub(ending.len());
    named_step(alloc, &name[..len], to)
}

/// Whether an entry is a link, and not one to `/dev/null`.
fn is_other_link(path: &TreePath, entry: &Entry) -> bool
    ensures { result ≡ is_other_link path.now entry.now }
{
    match entry {
        Entry::File(_) => false,
        Entry::Link(_) => !is_null_link(path, entry),
    }
}

impl Step {
    /// The step from the unit `OF` to the unit `NAME` by a link at `DIR/OF.wants/NAME`,
    /// `DIR/OF.requires/NAME` or `DIR/OF.upholds/NAME`; `None` if an entry is no such link, or
    /// leads to `/dev/null`.
    #[tactic(auto, unfolding(crate::specs::Dependencies::step_at))]
    pub(crate) fn at(
        alloc: Global,
        path: &TreePath,
        entry: &Entry,
    ) -> Result<Option<Step>, AllocError>
        ensures { IfOk result (λ step. step ≡ step_at path.now entry.now) }
    {
        if !is_other_link(path, entry) {
            return Ok(None);
        }
        step_from(alloc, path.directory(), ending_of(path), path.file_name())
    }

    /// The same step; in reverse, the opposite one.
    pub(crate) fn turn(self, reverse: bool) -> Step
        ensures { result ≡ turned reverse self }
    {
        if reverse {
            Step {
                from: self.to,
                to: self.from,
            }
        } else {
            self
        }
    }
}
