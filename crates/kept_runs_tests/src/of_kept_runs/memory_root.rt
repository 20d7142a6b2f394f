//! A root in memory with its history, of which nothing is claimed.
ghost use Rattle.std.specs.Prelude.{◌≡◌, None};
ghost use Rattle.disk.specs.Disks.{failures_after};

use disk::{Disk, DiskError, Found, Listing};
use kept_history::KeptDisk;
use link_tree::{Change, Entry, Tree, TreePath};
use std::alloc::{AllocError, Global};
use unit_paths::Slot;

/// The tree of a root, and the texts of its history. Of the events up to `fuel` are done, and then
/// the disk fails.
#[derive(Drop)]
pub(crate) struct MemoryRoot {
    pub(crate) tree: Box<Tree>,
    pub(crate) history: Vec<u8>,
    pub(crate) next: Option<Vec<u8>>,
    pub(crate) fuel: usize,
    pub(crate) failures: u64,
}

/// Sets what is at a path, if it is a slot.
fn put(tree: &mut Tree, path: &TreePath, entry: Option<Entry>) -> Result<(), AllocError> {
    if Slot::of(path).is_none() {
        return Ok(());
    }
    tree.set(path, entry)
}

impl MemoryRoot {
    pub(crate) fn new(
        alloc: Global,
        tree: &Tree,
        history: &[u8],
    ) -> Result<Box<MemoryRoot>, AllocError> {
        let root = MemoryRoot {
            tree: Box::new(alloc, tree.share()?)?,
            history: Vec::from_slice(alloc, history)?,
            next: None,
            fuel: 1_000,
            failures: 0,
        };
        Ok(Box::new(alloc, root)?)
    }

    /// Counts an event, or a failure.
    fn event(&mut self) -> Result<(), DiskError>
        ensures { self.new.failures ≡ failures_after self.old.failures result }
    {
        if self.fuel == 0 {
            self.failures = self.failures.saturating_add(1);
            return Err(DiskError::Failed);
        }
        self.fuel -= 1;
        Ok(())
    }

    fn set(&mut self, path: &TreePath, entry: Option<Entry>) -> Result<(), DiskError>
        ensures { self.new.failures ≡ failures_after self.old.failures result }
    {
        self.event()?;
        Ok(put(&mut self.tree, path, entry)?)
    }
}

impl Disk for MemoryRoot {
    ghost holds = { λ disk. None };

    ghost failures = { λ disk. disk.failures };

    ghost done = { λ disk. None };

    fn list(&mut self, _alloc: Global, _directory: &TreePath) -> Result<Listing, DiskError> {
        Err(DiskError::OutOfMemory)
    }

    fn look(&mut self, _alloc: Global, path: &TreePath) -> Result<Found, DiskError> {
        match self.tree.get(path) {
            Some(entry) => Ok(Found::Entry(entry.copy()?)),
            None => Ok(Found::Nothing),
        }
    }

    fn put(
        &mut self,
        path: &TreePath,
        _before: &Option<Entry>,
        entry: &Entry,
    ) -> Result<(), DiskError> {
        self.set(path, Some(entry.copy()?))
    }

    fn take(&mut self, path: &TreePath, _before: &Option<Entry>) -> Result<(), DiskError> {
        self.set(path, None)
    }
}

impl KeptDisk for MemoryRoot {
    fn sync_steps(&mut self, _steps: &[Change]) -> Result<(), DiskError> {
        self.event()
    }

    fn sync_back(&mut self, _steps: &[Change]) -> Result<(), DiskError> {
        self.event()
    }

    fn clear(&mut self, _steps: &[Change]) -> Result<(), DiskError> {
        self.event()
    }

    fn promise(&mut self, text: &[u8]) -> Result<(), DiskError> {
        let text = Vec::from_slice(*self.history.allocator(), text)?;
        self.event()?;
        self.next = Some(text);
        Ok(())
    }

    fn sync_history(&mut self) -> Result<(), DiskError> {
        self.event()
    }

    fn commit(&mut self) -> Result<(), DiskError> {
        self.event()?;
        if let Some(text) = self.next.take() {
            self.history = text;
        }
        Ok(())
    }

    fn withdraw(&mut self) -> Result<(), DiskError> {
        self.event()?;
        self.next = None;
        Ok(())
    }
}
