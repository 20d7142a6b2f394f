//! Slots of trees.
use link_tree::{Entry, Slot, Tree, TreePath};
use std::alloc::AllocError;

/// Puts an entry at a slot. A path that is no slot is reported as `AllocError`.
pub(crate) fn set(tree: &mut Tree, slot: &TreePath, entry: Entry) -> Result<(), AllocError> {
    if Slot::of(slot).is_none() {
        return Err(AllocError);
    }
    tree.set(slot, Some(entry))
}
