//! A disk that holds a tree, lists its directories, and fails once.
ghost use Rattle.std.specs.Prelude.{◌≡◌, None};
ghost use Rattle.disk.specs.Disks.{failures_after};

use disk::{Disk, DiskError, Found, Listing, Oddity};
use link_tree::{Entry, Tree, TreePath};
use std::alloc::{AllocError, Global};

/// A tree, and one odd thing at another path. Nothing is claimed of it.
#[derive(Drop)]
pub(crate) struct Root {
    pub(crate) tree: Box<Tree>,
    /// The call that fails, counted from 0, if one does.
    pub(crate) failing: Option<u32>,
    pub(crate) calls: u32,
    pub(crate) failures: u64,
    /// A directory is here.
    pub(crate) odd: Option<TreePath>,
}

fn is_in(path: &TreePath, directory: &TreePath) -> Result<bool, AllocError> {
    match path.copy()?.into_parent() {
        Some(parent) => Ok(parent.text() == directory.text()),
        None => Ok(false),
    }
}

/// Adds a path if it is in the directory, or else its own directory if that is there.
fn push_listed(
    paths: &mut Vec<TreePath>,
    directory: &TreePath,
    path: &TreePath,
) -> Result<(), AllocError> {
    if is_in(path, directory)? {
        return Ok(paths.push(path.copy()?)?);
    }
    let Some(parent) = path.copy()?.into_parent() else {
        return Ok(());
    };
    if is_in(&parent, directory)? {
        paths.push(parent)?;
    }
    Ok(())
}

impl Root {
    pub(crate) fn new(alloc: Global, tree: &Tree) -> Result<Box<Root>, AllocError> {
        let root = Root {
            tree: Box::new(alloc, tree.share()?)?,
            failing: None,
            calls: 0,
            failures: 0,
            odd: None,
        };
        Ok(Box::new(alloc, root)?)
    }

    /// Counts a call, which may fail.
    fn call(&mut self) -> Result<(), DiskError>
        ensures { self.new.failures ≡ failures_after self.old.failures result }
    {
        let call = self.calls;
        self.calls = call.saturating_add(1);
        if self.failing == Some(call) {
            self.failures = self.failures.saturating_add(1);
            return Err(DiskError::Failed);
        }
        Ok(())
    }

    fn listed(&self, alloc: Global, directory: &TreePath) -> Result<Vec<TreePath>, AllocError> {
        let mut paths = Vec::new(alloc);
        for (path, _entry) in self.tree.iter() {
            push_listed(&mut paths, directory, path)?;
        }
        if let Some(odd) = &self.odd {
            push_listed(&mut paths, directory, odd)?;
        }
        Ok(paths)
    }

    fn found(&self, path: &TreePath) -> Result<Found, AllocError> {
        if let Some(odd) = &self.odd {
            if odd.text() == path.text() {
                return Ok(Found::Odd(Oddity::Directory));
            }
        }
        match self.tree.get(path) {
            Some(entry) => Ok(Found::Entry(entry.copy()?)),
            None => Ok(Found::Nothing),
        }
    }
}

impl Disk for Root {
    ghost holds = { λ _. None };

    ghost failures = { λ root. root.failures };

    ghost done = { λ _. None };

    fn list(&mut self, alloc: Global, directory: &TreePath) -> Result<Listing, DiskError> {
        self.call()?;
        match self.listed(alloc, directory) {
            Ok(paths) => Ok(Listing::Paths(paths)),
            Err(_) => Err(DiskError::OutOfMemory),
        }
    }

    fn look(&mut self, _alloc: Global, path: &TreePath) -> Result<Found, DiskError> {
        self.call()?;
        match self.found(path) {
            Ok(found) => Ok(found),
            Err(_) => Err(DiskError::OutOfMemory),
        }
    }

    fn put(
        &mut self,
        _path: &TreePath,
        _before: &Option<Entry>,
        _entry: &Entry,
    ) -> Result<(), DiskError> {
        Err(DiskError::OutOfMemory)
    }

    fn take(&mut self, _path: &TreePath, _before: &Option<Entry>) -> Result<(), DiskError> {
        Err(DiskError::OutOfMemory)
    }
}
