//! Trees, and changes of them.
ghost use Rattle.std.specs.Prelude.{◌≡◌, All, true};
ghost use Rattle.std.specs.FinMap as map;
ghost use Rattle.unit_paths.specs.Slots.{is_slot};
ghost use Rattle.link_tree.specs.Trees.{AreFrom};

use link_tree::{Change, Entry, Slot, TargetError, Tree, TreePath};
use std::alloc::{AllocError, Global};

/// The empty tree.
pub(crate) fn empty(alloc: Global) -> Result<Box<Tree>, AllocError> {
    Ok(Box::new(alloc, Tree::empty(alloc)?)?)
}

/// A link with this target, or nothing if that is empty.
fn link(alloc: Global, target: &[u8]) -> Result<Option<Entry>, AllocError> {
    match Entry::link(alloc, target) {
        Ok(entry) => Ok(Some(entry)),
        Err(TargetError::BadTarget) => Ok(None),
        Err(TargetError::OutOfMemory) => Err(AllocError),
    }
}

/// Makes the entry at a slot such a link, or removes it.
pub(crate) fn set_link(
    alloc: Global,
    tree: &mut Tree,
    slot: &TreePath,
    target: &[u8],
) -> Result<(), AllocError> {
    if Slot::of(slot).is_none() {
        return Err(AllocError);
    }
    tree.set(slot, link(alloc, target)?)
}

/// The change of the entry at a path to such a link, or to nothing.
pub(crate) fn change(
    alloc: Global,
    tree: &Tree,
    path: TreePath,
    target: &[u8],
) -> Result<Change, AllocError> {
    let before = match tree.get(&path) {
        Some(entry) => Some(entry.copy()?),
        None => None,
    };
    Ok(Change {
        path,
        before,
        after: link(alloc, target)?,
    })
}

/// Whether the change is at a slot, and from the entry that is there.
fn is_from(tree: &Tree, change: &Change) -> bool
    ensures slot { result ≡ true → is_slot change.now.path ≡ true }
    ensures from { result ≡ true → map.get tree.now change.now.path ≡ change.now.before }
{
    Slot::of(&change.path).is_some()
        && match (tree.get(&change.path), &change.before) {
            (Some(there), Some(before)) => there.same(before),
            (None, None) => true,
            _ => false,
        }
}

/// Whether the changes are at most three at slots, each at another, and from the entries that are
/// there.
pub(crate) fn are_from(tree: &Tree, changes: &[Change]) -> bool
    ensures slots { result ≡ true → All (λ change. is_slot change.path ≡ true) changes.now }
    ensures from { result ≡ true → AreFrom tree.now changes.now }
{
    match changes {
        [] => true,
        [one] => is_from(tree, one),
        [one, two] => is_from(tree, one) && is_from(tree, two) && one.path != two.path,
        [one, two, three] => {
            is_from(tree, one)
                && is_from(tree, two)
                && is_from(tree, three)
                && one.path != two.path
                && one.path != three.path
                && two.path != three.path
        }
        _ => false,
    }
}

/// The tree with these changes, made in place on a copy, or not.
pub(crate) fn changed(
    alloc: Global,
    tree: &Tree,
    changes: &[Change],
    in_place: bool,
) -> Result<Box<Tree>, AllocError> {
    if !are_from(tree, changes) {
        return Err(AllocError);
    }
    if !in_place {
        return Ok(Box::new(alloc, tree.with_changes(changes)?)?);
    }
    let mut made = Box::new(alloc, tree.copy()?)?;
    made.make_changes(changes)?;
    Ok(made)
}
