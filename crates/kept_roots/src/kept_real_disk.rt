//! The files beneath a root as a disk that keeps the history of the root.
ghost use Rattle.std.specs.Prelude.{◌≡◌, None};
ghost use Rattle.disk.specs.Disks.{failures_after};

use crate::emptied::{dependencies_of, remove_if_empty};
use crate::history_directory::HistoryDirectory;
use disk::{Disk, DiskError, Found, Listing, StepError};
use kept_history::KeptDisk;
use link_tree::{Change, Entry, TreePath};
use real_roots::{RealDisk, Trouble, is_same_entry};
use std::alloc::Global;

/// The files beneath the root directory of an image, with the directory of its history.
///
/// No contract can say what files contain: it claims no tree, and no list of what was done. Errors
/// are counted here, and kept by the root's disk.
#[derive(Drop)]
pub struct KeptRealDisk<'a> {
    disk: RealDisk<'a>,
    directory: HistoryDirectory<'a>,
    failures: u64,
    /// `history.next` was renamed or removed, and this isn't synced yet.
    is_ending: bool,
}

/// Whether a step before this one is in the same directory.
fn is_in_same_directory(steps: &[Change], step: &Change) -> bool {
    steps
        .iter()
        .any(|one| one.path.directory() == step.path.directory())
}

impl<'a> KeptRealDisk<'a> {
    /// A root that this run has locked, with the directory of its history.
    pub fn new(disk: RealDisk<'a>, directory: HistoryDirectory<'a>) -> KeptRealDisk<'a> {
        let mut disk = disk;
        disk.leave();
        KeptRealDisk {
            disk,
            directory,
            failures: 0,
            is_ending: false,
        }
    }

    /// The directory of the history, which may become the working directory.
    pub fn directory(&mut self) -> &HistoryDirectory<'a> {
        self.disk.leave();
        &self.directory
    }

    /// Only the root's disk: the history is unlocked.
    pub fn into_disk(self) -> RealDisk<'a> {
        self.disk
    }

    /// If a run failed: whether all but the last sync was done. Then `history.next` was renamed or
    /// removed, but after a power failure it may be there again.
    pub fn is_ending(&self) -> bool {
        self.is_ending
    }

    /// Counts an error, which the root's disk has kept.
    fn noted<T: Drop>(&mut self, answer: Result<T, DiskError>) -> Result<T, DiskError>
        ensures { self.new.failures ≡ failures_after self.old.failures result }
    {
        match answer {
            Ok(given) => Ok(given),
            Err(DiskError::OutOfMemory) => Err(DiskError::OutOfMemory),
            Err(DiskError::Failed) => {
                self.failures = self.failures.saturating_add(1);
                Err(DiskError::Failed)
            }
        }
    }

    /// Keeps and counts the error of a call that is no `Disk`'s, after which another directory may
    /// be the working directory.
    fn counted(&mut self, answer: Result<(), Trouble>) -> Result<(), DiskError>
        ensures { self.new.failures ≡ failures_after self.old.failures result }
    {
        self.disk.leave();
        let kept = self.disk.counted(answer);
        self.noted(kept)
    }

    /// Removes a directory for dependencies, unless something is in it.
    fn remove_if_empty(&mut self, directory: &TreePath) -> Result<(), DiskError>
        ensures { self.new.failures ≡ failures_after self.old.failures result }
    {
        let removed = remove_if_empty(self.directory.runtime(), &mut self.disk, directory);
        self.counted(removed)
    }

    /// Removes the directories for dependencies that are empty after these steps, also if a run
    /// before this one has emptied them.
    fn remove_emptied(&mut self, steps: &[Change]) -> Result<(), DiskError>
        ensures { self.new.failures ≡ failures_after self.old.failures result }
    {
        let alloc = self.directory.runtime().alloc();
        for (i, step) in steps.iter().enumerate() {
            if !is_in_same_directory(&steps[..i], step)
                && let Some(directory) = dependencies_of(alloc, &step.path)?
            {
                self.remove_if_empty(&directory)?;
            }
        }
        Ok(())
    }

    /// Syncs the directories of these steps.
    fn sync_directories(&mut self, steps: &[Change]) -> Result<(), DiskError>
        ensures { self.new.failures ≡ failures_after self.old.failures result }
    {
        for (i, step) in steps.iter().enumerate() {
            if !is_in_same_directory(&steps[..i], step) {
                let synced = self.disk.sync_directory_of(&step.path);
                self.noted(synced)?;
            }
        }
        Ok(())
    }
}

impl<'a> Disk for KeptRealDisk<'a> {
    ghost holds = { λ disk. None };

    ghost failures = { λ disk. disk.failures };

    ghost done = { λ disk. None };

    fn list(&mut self, alloc: Global, directory: &TreePath) -> Result<Listing, DiskError> {
        let listed = self.disk.list(alloc, directory);
        self.noted(listed)
    }

    fn look(&mut self, alloc: Global, path: &TreePath) -> Result<Found, DiskError> {
        let found = self.disk.look(alloc, path);
        self.noted(found)
    }

    fn put(
        &mut self,
        path: &TreePath,
        before: &Option<Entry>,
        entry: &Entry,
    ) -> Result<(), DiskError> {
        let put = self.disk.put(path, before, entry);
        self.noted(put)
    }

    fn take(&mut self, path: &TreePath, before: &Option<Entry>) -> Result<(), DiskError> {
        let taken = self.disk.take(path, before);
        self.noted(taken)
    }

    /// What is there is only compared, so it isn't counted as read.
    fn check(
        &mut self,
        alloc: Global,
        path: &TreePath,
        entry: &Option<Entry>,
    ) -> Result<(), StepError> {
        self.disk.count(false);
        let found = self.look(alloc, path);
        self.disk.count(true);
        let there = match found? {
            Found::Nothing => None,
            Found::Entry(there) => Some(there),
            Found::Odd(_) => return Err(StepError::Odd),
        };
        if is_same_entry(&there, entry) {
            Ok(())
        } else {
            Err(StepError::Changed)
        }
    }
}

impl<'a> KeptDisk for KeptRealDisk<'a> {
    /// It also syncs what this run has changed, and removes the directories for dependencies that it
    /// has emptied.
    fn sync_steps(&mut self, steps: &[Change]) -> Result<(), DiskError> {
        let settled = self.disk.settle();
        self.counted(settled)?;
        self.remove_emptied(steps)?;
        self.sync_directories(steps)
    }

    /// It also removes the directories that it has made.
    fn sync_back(&mut self, steps: &[Change]) -> Result<(), DiskError> {
        let settled = self.disk.settle_back();
        self.counted(settled)?;
        self.sync_directories(steps)
    }

    fn clear(&mut self, steps: &[Change]) -> Result<(), DiskError> {
        for (i, step) in steps.iter().enumerate() {
            if !is_in_same_directory(&steps[..i], step) {
                let cleared = self.disk.clear_directory_of(&step.path);
                self.noted(cleared)?;
            }
        }
        Ok(())
    }

    fn promise(&mut self, text: &[u8]) -> Result<(), DiskError> {
        let promised = self.directory.promise(text);
        self.is_ending = false;
        self.counted(promised)
    }

    fn sync_history(&mut self) -> Result<(), DiskError> {
        let synced = self.directory.sync();
        self.is_ending = self.is_ending && synced.is_err();
        self.counted(synced)
    }

    fn commit(&mut self) -> Result<(), DiskError> {
        let committed = self.directory.commit();
        self.is_ending = committed.is_ok();
        self.counted(committed)
    }

    fn withdraw(&mut self) -> Result<(), DiskError> {
        let withdrawn = self.directory.withdraw();
        self.is_ending = withdrawn.is_ok();
        self.counted(withdrawn)
    }
}
