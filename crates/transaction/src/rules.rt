//! What commands leave at a path, given what is there.
ghost use Rattle.std.specs.Prelude.{◌≡◌, IfOk};
ghost use Rattle.std.specs.Option.{option_copied};
ghost use Rattle.link_tree.specs.declared.entry.Entry.TheVariants as entries;
ghost use Rattle.tree_access.specs.Placing.{wanted_at};
ghost use Rattle.tree_access.specs.Rules.{leads_alike, link_at, relink_at};
ghost use Rattle.transaction.specs.Runs.{Gives};

use crate::stop::Stop;
use footprint::Refusal;
use link_tree::{Entry, Target, TargetError, TreePath, canonical};
use std::alloc::{AllocError, Global};

/// A link with this path as its target.
fn link_to(alloc: Global, path: &TreePath) -> Result<Entry, AllocError>
    ensures { IfOk result (λ entry. entry ≡ entries.Link path.now) }
{
    match Entry::link(alloc, path.text()) {
        Ok(entry) => Ok(entry),
        Err(TargetError::BadTarget) => unreachable!(),
        Err(TargetError::OutOfMemory) => Err(AllocError),
    }
}

/// Whether links at this path with these targets lead to the same path.
fn leads_alike(
    alloc: Global,
    path: &TreePath,
    one: &Target,
    other: &TreePath,
) -> Result<bool, AllocError>
    ensures { IfOk result (λ alike. alike ≡ leads_alike path.now one.now other.now) }
{
    let one = canonical(alloc, path, one.text())?;
    let other = canonical(alloc, path, other.text())?;
    match (one, other) {
        (Some(one), Some(other)) => Ok(one.text() == other.text()),
        _ => Ok(false),
    }
}

/// A link to be made to `target`: if nothing is at the path it is made, and a link that leads to
/// the same path stays. Anything else is in the way (`Exists`).
pub fn link_at(
    alloc: Global,
    target: &TreePath,
    path: &TreePath,
    there: Option<&Entry>,
) -> Result<Option<Entry>, Stop>
    ensures { Gives (link_at target.now path.now (option_copied there.entry)) result }
{
    match there {
        None => Ok(Some(link_to(alloc, target)?)),
        Some(Entry::Link(other)) if leads_alike(alloc, path, other, target)? => {
            Ok(Some(Entry::Link(other.copy()?)))
        }
        Some(_) => Err(Stop::Refused(Refusal::Exists(path.copy()?))),
    }
}

/// The same, but any other link is replaced: only a file is in the way.
pub fn relink_at(
    alloc: Global,
    target: &TreePath,
    path: &TreePath,
    there: Option<&Entry>,
) -> Result<Option<Entry>, Stop>
    ensures { Gives (relink_at target.now path.now (option_copied there.entry)) result }
{
    match there {
        None => Ok(Some(link_to(alloc, target)?)),
        Some(Entry::File(_)) => Err(Stop::Refused(Refusal::Exists(path.copy()?))),
        Some(Entry::Link(other)) => {
            if leads_alike(alloc, path, other, target)? {
                Ok(Some(Entry::Link(other.copy()?)))
            } else {
                Ok(Some(link_to(alloc, target)?))
            }
        }
    }
}

/// What a wanted link leaves at its path: the result of `link_at` to the file if one is wanted; if
/// the path must be empty, nothing, whatever is there.
pub(crate) fn wanted_at(
    alloc: Global,
    file: Option<&TreePath>,
    path: &TreePath,
    there: Option<&Entry>,
) -> Result<Option<Entry>, Stop>
    ensures { Gives (wanted_at (option_copied file.entry) path.now (option_copied there.entry)) result }
{
    match file {
        Some(file) => link_at(alloc, file, path, there),
        None => Ok(None),
    }
}
