//! A root that holds a tree, and lists its directories.
ghost use Rattle.std.specs.Prelude.{◌≡◌, None, Err};
ghost use Rattle.disk.specs.Disks.{failures_after};

use super::fake::Failing;
use disk::{Disk, DiskError, Found, Listing, Oddity};
use link_tree::{Entry, FileError, PathError, Tree, TreePath};
use std::alloc::{AllocError, Global};

/// A tree with some odd things among its entries, about which no contract claims anything.
#[derive(Drop)]
pub(crate) struct Root {
    pub(crate) tree: Box<Tree>,
    pub(crate) failing: Failing,
    pub(crate) calls: u32,
    pub(crate) failures: u64,
    /// A directory is here.
    pub(crate) odd: Option<TreePath>,
    /// Something that is no directory is here.
    pub(crate) no_directory: Option<TreePath>,
    /// A file is here that isn't in the tree, and can't be in it.
    pub(crate) beneath: Option<TreePath>,
}

/// The path directly in a directory on the way to another path.
fn child(
    alloc: Global,
    directory: &TreePath,
    path: &TreePath,
) -> Result<Option<TreePath>, AllocError> {
    let Some([b'/', rest @ ..]) = path.text().strip_prefix(directory.text()) else {
        return Ok(None);
    };
    let after = match rest.iter().position(|b| *b == b'/') {
        Some(end) => rest.len().saturating_sub(end),
        None => 0,
    };
    let len = path.text().len().saturating_sub(after);
    let Some(text) = path.text().get(..len) else {
        return Ok(None);
    };
    match TreePath::parse(alloc, text) {
        Ok(path) => Ok(Some(path)),
        Err(PathError::BadPath) => Ok(None),
        Err(PathError::OutOfMemory) => Err(AllocError),
    }
}

fn is_at(here: &Option<TreePath>, path: &TreePath) -> bool {
    match here {
        Some(here) => here.text() == path.text(),
        None => false,
    }
}

impl Root {
    pub(crate) fn new(
        alloc: Global,
        tree: Box<Tree>,
        failing: Failing,
    ) -> Result<Box<Root>, AllocError> {
        let root = Root {
            tree,
            failing,
            calls: 0,
            failures: 0,
            odd: None,
            no_directory: None,
            beneath: None,
        };
        Ok(Box::new(alloc, root)?)
    }

    fn call(&mut self) -> Result<(), DiskError>
        ensures { self.new.failures ≡ failures_after self.old.failures result }
    {
        let call = self.calls;
        self.calls = call.saturating_add(1);
        if self.failing.fails(call) {
            self.failures = self.failures.saturating_add(1);
            return Err(DiskError::Failed);
        }
        Ok(())
    }

    fn paths(&self, alloc: Global, directory: &TreePath) -> Result<Vec<TreePath>, DiskError> {
        let mut paths = Vec::new(alloc);
        for (path, _entry) in self.tree.iter() {
            if let Some(child) = child(alloc, directory, path)? {
                paths.push(child)?;
            }
        }
        Ok(paths)
    }

    fn found(&self, alloc: Global, path: &TreePath) -> Result<Found, DiskError> {
        if is_at(&self.odd, path) {
            return Ok(Found::Odd(Oddity::Directory));
        }
        if is_at(&self.beneath, path) {
            return match Entry::file(alloc, b"beneath\n") {
                Ok(entry) => Ok(Found::Entry(entry)),
                Err(FileError::TooLarge | FileError::OutOfMemory) => Err(DiskError::OutOfMemory),
            };
        }
        match self.tree.get(path) {
            Some(entry) => Ok(Found::Entry(entry.copy()?)),
            None => Ok(Found::Nothing),
        }
    }
}

impl Disk for Root {
    ghost holds = { λ _. None };

    ghost failures = { λ root. root.failures };

    ghost done = { λ _. None };

    fn list(&mut self, alloc: Global, directory: &TreePath) -> Result<Listing, DiskError> {
        self.call()?;
        if is_at(&self.no_directory, directory) {
            return Ok(Listing::NoDirectory);
        }
        match self.paths(alloc, directory) {
            Ok(paths) => Ok(Listing::Paths(paths)),
            Err(_) => Err(DiskError::OutOfMemory),
        }
    }

    fn look(&mut self, alloc: Global, path: &TreePath) -> Result<Found, DiskError> {
        self.call()?;
        match self.found(alloc, path) {
            Ok(found) => Ok(found),
            Err(_) => Err(DiskError::OutOfMemory),
        }
    }

    fn put(
        &mut self,
        _path: &TreePath,
        _before: &Option<Entry>,
        _entry: &Entry,
    ) -> Result<(), DiskError> {
        Err(DiskError::OutOfMemory)
    }

    fn take(&mut self, _path: &TreePath, _before: &Option<Entry>) -> Result<(), DiskError> {
        Err(DiskError::OutOfMemory)
    }
}
