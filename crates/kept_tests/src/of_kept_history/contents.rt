//! What is on a disk, and one change of it.
use super::names::{Names, Naming};
use link_tree::{Entry, Slot, Tree, TreePath, copy_of};
use std::alloc::AllocError;

/// A directory, which is synced by itself.
#[derive(Clone, Copy, PartialEq, Eq)]
pub(crate) enum Directory {
    History,
    Units,
    Wants,
    Local,
}

impl Directory {
    /// Those of the root.
    pub(crate) const IN_ROOT: [Directory; 3] = [
        Directory::Units,
        Directory::Wants,
        Directory::Local,
    ];

    pub(crate) fn of(path: &TreePath) -> Directory {
        if path.directory().ends_with(b".wants") {
            Directory::Wants
        } else if path.directory().starts_with(b"/usr/local") {
            Directory::Local
        } else {
            Directory::Units
        }
    }

    pub(crate) fn bit(self) -> u32 {
        match self {
            Directory::History => 1,
            Directory::Units => 2,
            Directory::Wants => 4,
            Directory::Local => 8,
        }
    }
}

/// What is in the directory of the history and in the root.
#[derive(Drop)]
pub(crate) struct Contents {
    pub(crate) names: Names,
    pub(crate) tree: Tree,
    /// The bits of the directories in which a file is left under a name that is no entry's.
    pub(crate) leftovers: u32,
}

/// A change by one system call.
#[derive(Drop)]
pub(crate) enum Change {
    Name(Naming),
    /// A file is made under a name that is no entry's.
    Leave,
    /// That file is removed.
    Discard,
    /// It is renamed to a path.
    Rename(TreePath, Entry),
    /// An entry is put at a path by symlink(2) or link(2), or it is removed.
    Set(TreePath, Option<Entry>),
}

impl Contents {
    pub(crate) fn share(&self) -> Result<Contents, AllocError> {
        Ok(Contents {
            names: self.names,
            tree: self.tree.share()?,
            leftovers: self.leftovers,
        })
    }

    fn set(&mut self, path: &TreePath, entry: Option<Entry>) -> Result<(), AllocError> {
        if Slot::of(path).is_none() {
            return Err(AllocError);
        }
        self.tree.set(path, entry)
    }

    pub(crate) fn make(&mut self, directory: Directory, change: &Change) -> Result<(), AllocError> {
        match change {
            Change::Name(naming) => {
                self.names = self.names.after(*naming);
            }
            Change::Leave => {
                self.leftovers |= directory.bit();
            }
            Change::Discard => {
                self.leftovers &= !directory.bit();
            }
            Change::Rename(path, entry) => {
                self.set(path, Some(entry.copy()?))?;
                self.leftovers &= !directory.bit();
            }
            Change::Set(path, entry) => self.set(path, copy_of(entry)?)?,
        }
        Ok(())
    }
}
