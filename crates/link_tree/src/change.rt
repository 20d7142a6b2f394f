//! What commands change in a tree, path by path.
ghost use Rattle.std.specs.Prelude.{◌≡◌, IfOk};
ghost use Rattle.link_tree.specs.Trees.{taken_back};

use crate::entry::Entry;
use std::alloc::AllocError;
use unit_paths::TreePath;

/// What a command changes at one path: the entry before (or none) is replaced by the entry after
/// (or none).
#[derive(Debug, Drop)]
pub struct Change {
    pub path: TreePath,
    pub before: Option<Entry>,
    pub after: Option<Entry>,
}

impl Change {
    /// An equal change.
    pub fn copy(&self) -> Result<Change, AllocError>
        ensures { IfOk result (λ change. change ≡ self.now) }
    {
        Ok(Change {
            path: self.path.copy()?,
            before: copy_of(&self.before)?,
            after: copy_of(&self.after)?,
        })
    }

    /// The change that undoes this one.
    pub fn taken_back(&self) -> Result<Change, AllocError>
        ensures { IfOk result (λ change. change ≡ taken_back self.now) }
    {
        Ok(Change {
            path: self.path.copy()?,
            before: copy_of(&self.after)?,
            after: copy_of(&self.before)?,
        })
    }
}

/// An equal entry, or none.
pub fn copy_of(entry: &Option<Entry>) -> Result<Option<Entry>, AllocError>
    ensures { IfOk result (λ copy. copy ≡ entry.now) }
{
    match entry {
        Some(entry) => Ok(Some(entry.copy()?)),
        None => Ok(None),
    }
}
