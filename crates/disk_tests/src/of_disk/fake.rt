//! A disk that holds a tree, and fails at chosen calls.
ghost use Rattle.std.specs.Prelude.{◌≡◌, Some, None, Err};
ghost use Rattle.disk.specs.Disks.{Held, Sets, failures_after};

use disk::{Disk, DiskError, Found, Listing, Oddity};
use link_tree::{Entry, Slot, Tree, TreePath};
use std::alloc::Global;

/// Which calls fail, counted from 0.
#[derive(Clone, Copy)]
pub(crate) struct Failing {
    first: u32,
    last: u32,
    /// One more call that fails.
    again: u32,
}

impl Failing {
    pub(crate) const NEVER: Failing = Failing {
        first: 1,
        last: 0,
        again: u32::MAX,
    };

    pub(crate) fn once(call: u32) -> Failing {
        Failing::twice(call, u32::MAX)
    }

    pub(crate) fn twice(call: u32, again: u32) -> Failing {
        Failing {
            first: call,
            last: call,
            again,
        }
    }

    pub(crate) fn from(call: u32) -> Failing {
        Failing {
            first: call,
            last: u32::MAX,
            again: u32::MAX,
        }
    }

    pub(crate) fn fails(self, call: u32) -> bool {
        (self.first <= call && call <= self.last) || call == self.again
    }
}

/// A tree as a disk. It can only put entries at slots, and can't list directories.
#[derive(Drop)]
pub(crate) struct Fake {
    pub(crate) tree: Tree,
    pub(crate) failing: Failing,
    pub(crate) calls: u32,
    /// How often it put or removed an entry.
    pub(crate) changes: u32,
    pub(crate) failures: u64,
    /// The odd thing at every path that has no entry.
    pub(crate) odd: Option<Oddity>,
}

impl Fake {
    pub(crate) fn new(tree: Tree, failing: Failing) -> Fake {
        Fake {
            tree,
            failing,
            calls: 0,
            changes: 0,
            failures: 0,
            odd: None,
        }
    }

    fn fail(&mut self) -> DiskError
        ensures error { result ≡ DiskError.Failed }
        ensures tree { self.new.tree ≡ self.old.tree }
        ensures odd { self.new.odd ≡ self.old.odd }
        ensures counted { self.new.failures ≡ failures_after {A = Unit {0}} self.old.failures (Err DiskError.Failed) }
    {
        self.failures = self.failures.saturating_add(1);
        DiskError::Failed
    }

    /// Counts a call, which may fail.
    fn call(&mut self) -> Result<(), DiskError>
        ensures tree { self.new.tree ≡ self.old.tree }
        ensures odd { self.new.odd ≡ self.old.odd }
        ensures counted { self.new.failures ≡ failures_after self.old.failures result }
    {
        let call = self.calls;
        self.calls = call.saturating_add(1);
        if self.failing.fails(call) {
            return Err(self.fail());
        }
        Ok(())
    }

    fn set(&mut self, path: &TreePath, entry: Option<Entry>) -> Result<(), DiskError>
        ensures set { Sets (⟦<Fake as Disk>⟧.holds self.old) (⟦<Fake as Disk>⟧.holds self.new) result path.now entry }
        ensures counted { self.new.failures ≡ failures_after self.old.failures result }
    {
        if Slot::of(path).is_none() {
            return Err(self.fail());
        }
        self.tree.set(path, entry)?;
        self.changes = self.changes.saturating_add(1);
        Ok(())
    }
}

impl Disk for Fake {
    ghost holds = { λ disk. Some (record { entries = disk.tree; odd = λ _. disk.odd }) };

    ghost failures = { λ disk. disk.failures };

    ghost done = { λ disk. None };

    fn list(&mut self, _alloc: Global, _directory: &TreePath) -> Result<Listing, DiskError> {
        self.tree.shape();
        Err(self.fail())
    }

    fn look(&mut self, _alloc: Global, path: &TreePath) -> Result<Found, DiskError> {
        self.call()?;
        match (self.tree.get(path), self.odd) {
            (Some(entry), _) => Ok(Found::Entry(entry.copy()?)),
            (None, Some(oddity)) => Ok(Found::Odd(oddity)),
            (None, None) => Ok(Found::Nothing),
        }
    }

    fn put(
        &mut self,
        path: &TreePath,
        _before: &Option<Entry>,
        entry: &Entry,
    ) -> Result<(), DiskError> {
        self.call()?;
        self.set(path, Some(entry.copy()?))
    }

    fn take(&mut self, path: &TreePath, _before: &Option<Entry>) -> Result<(), DiskError> {
        self.call()?;
        self.set(path, None)
    }
}
