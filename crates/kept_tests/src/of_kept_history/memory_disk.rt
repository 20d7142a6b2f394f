//! A disk in memory that also holds the history of its root.
ghost use Rattle.std.specs.Prelude.{◌≡◌, None};
ghost use Rattle.disk.specs.Disks.{failures_after};

use super::contents::{Contents, Directory};
use super::files::Files;
use super::names::Naming;
use disk::{Disk, DiskError, Found, Listing};
use kept_history::KeptDisk;
use link_tree::{Change, Entry, TreePath};
use std::alloc::{AllocError, Global};

/// Files in memory as a disk, of which nothing is claimed. It notes each event by a letter: a
/// promise, the history's sync (h), a step that is made (m), also if that takes another back, a sync
/// of steps (s), a commit, a withdrawal, and leftovers cleared (x).
#[derive(Drop)]
pub(crate) struct MemoryDisk {
    pub(crate) files: Files,
    pub(crate) failures: u64,
    pub(crate) events: Vec<u8>,
}

fn has_step_in(steps: &[Change], directory: Directory) -> bool {
    steps
        .iter()
        .any(|step| Directory::of(&step.path) == directory)
}

impl Files {
    fn sync_steps(&mut self, steps: &[Change]) -> Result<(), DiskError> {
        for directory in Directory::IN_ROOT {
            if has_step_in(steps, directory) {
                self.sync(directory)?;
            }
        }
        Ok(())
    }

    fn clear_steps(&mut self, steps: &[Change]) -> Result<(), DiskError> {
        for directory in Directory::IN_ROOT {
            if has_step_in(steps, directory) {
                self.clear(directory)?;
            }
        }
        Ok(())
    }

    /// Renames `history.next` to `history`.
    fn commit(&mut self) -> Result<(), DiskError> {
        match self.now.names.next {
            Some(text) => self.name(Naming::Commit(text)),
            None => Err(DiskError::Failed),
        }
    }
}

impl MemoryDisk {
    pub(crate) fn new(alloc: Global, contents: Contents) -> Result<Box<MemoryDisk>, AllocError> {
        let disk = MemoryDisk {
            files: Files::new(alloc, contents)?,
            failures: 0,
            events: Vec::new(alloc),
        };
        Ok(Box::new(alloc, disk)?)
    }

    /// Counts a failure.
    fn noted<T: Drop>(&mut self, answer: Result<T, DiskError>) -> Result<T, DiskError>
        ensures { self.new.failures ≡ failures_after self.old.failures result }
    {
        match answer {
            Ok(given) => Ok(given),
            Err(DiskError::OutOfMemory) => Err(DiskError::OutOfMemory),
            Err(DiskError::Failed) => {
                self.failures = self.failures.saturating_add(1);
                Err(DiskError::Failed)
            }
        }
    }

    /// Counts a failure, or notes an event.
    fn counted(&mut self, letter: u8, answer: Result<(), DiskError>) -> Result<(), DiskError>
        ensures { self.new.failures ≡ failures_after self.old.failures result }
    {
        self.noted(answer)?;
        Ok(self.events.push(letter)?)
    }
}

impl Disk for MemoryDisk {
    ghost holds = { λ disk. None };

    ghost failures = { λ disk. disk.failures };

    ghost done = { λ disk. None };

    fn list(&mut self, _alloc: Global, _directory: &TreePath) -> Result<Listing, DiskError> {
        Err(DiskError::OutOfMemory)
    }

    fn look(&mut self, _alloc: Global, path: &TreePath) -> Result<Found, DiskError> {
        let found = self.files.look(path);
        self.noted(found)
    }

    fn put(
        &mut self,
        path: &TreePath,
        before: &Option<Entry>,
        entry: &Entry,
    ) -> Result<(), DiskError> {
        let put = self.files.put(path, before.is_none(), entry);
        self.counted(b'm', put)
    }

    fn take(&mut self, path: &TreePath, _before: &Option<Entry>) -> Result<(), DiskError> {
        let taken = self.files.take(path);
        self.counted(b'm', taken)
    }
}

impl KeptDisk for MemoryDisk {
    fn sync_steps(&mut self, steps: &[Change]) -> Result<(), DiskError> {
        let synced = self.files.sync_steps(steps);
        self.counted(b's', synced)
    }

    fn sync_back(&mut self, steps: &[Change]) -> Result<(), DiskError> {
        self.sync_steps(steps)
    }

    fn clear(&mut self, steps: &[Change]) -> Result<(), DiskError> {
        let cleared = self.files.clear_steps(steps);
        self.counted(b'x', cleared)
    }

    fn promise(&mut self, text: &[u8]) -> Result<(), DiskError> {
        let promised = self.files.promise(text);
        self.counted(b'p', promised)
    }

    fn sync_history(&mut self) -> Result<(), DiskError> {
        let synced = self.files.sync(Directory::History);
        self.counted(b'h', synced)
    }

    fn commit(&mut self) -> Result<(), DiskError> {
        let committed = self.files.commit();
        self.counted(b'c', committed)
    }

    fn withdraw(&mut self) -> Result<(), DiskError> {
        let withdrawn = self.files.name(Naming::Withdraw);
        self.counted(b'w', withdrawn)
    }
}
