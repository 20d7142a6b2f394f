//! The files of a root and of its history, each change of which may be lost until its directory is
//! synced.
use super::contents::{Change, Contents, Directory};
use super::failing::Failing;
use super::names::{Naming, Text};
use disk::{DiskError, Found, Oddity};
use link_tree::{Entry, TreePath};
use std::alloc::{AllocError, Global};
use std::mem;

/// A change that a power failure may lose.
#[derive(Drop)]
struct Unsynced {
    directory: Directory,
    change: Change,
}

/// Files, by system calls of which some fail.
#[derive(Drop)]
pub(crate) struct Files {
    alloc: Global,
    /// What no failure loses.
    synced: Contents,
    /// What a program sees.
    pub(crate) now: Contents,
    /// The changes from one to the other, in order.
    unsynced: Vec<Unsynced>,
    pub(crate) failing: Failing,
    pub(crate) calls: u32,
    /// Whether a look is counted among the calls.
    pub(crate) counts_looks: bool,
    /// What is at each path that has no entry.
    pub(crate) odd: Option<Oddity>,
}

impl Files {
    pub(crate) fn new(alloc: Global, contents: Contents) -> Result<Files, AllocError> {
        Ok(Files {
            alloc,
            synced: contents.share()?,
            now: contents,
            unsynced: Vec::new(alloc),
            failing: Failing::NEVER,
            calls: 0,
            counts_looks: true,
            odd: None,
        })
    }

    /// Counts a call, which may fail.
    fn call(&mut self) -> Result<(), DiskError> {
        let call = self.calls;
        self.calls = call.saturating_add(1);
        if self.failing.fails(call) {
            return Err(DiskError::Failed);
        }
        Ok(())
    }

    fn change(&mut self, directory: Directory, change: Change) -> Result<(), DiskError> {
        self.call()?;
        self.now.make(directory, &change)?;
        self.unsynced.push(Unsynced { directory, change })?;
        Ok(())
    }

    pub(crate) fn name(&mut self, naming: Naming) -> Result<(), DiskError> {
        self.change(Directory::History, Change::Name(naming))
    }

    /// fsync(2) of a directory.
    pub(crate) fn sync(&mut self, directory: Directory) -> Result<(), DiskError> {
        self.call()?;
        let unsynced = mem::replace(&mut self.unsynced, Vec::new(self.alloc));
        for one in unsynced {
            if one.directory == directory {
                self.synced.make(directory, &one.change)?;
            } else {
                self.unsynced.push(one)?;
            }
        }
        Ok(())
    }

    pub(crate) fn look(&mut self, path: &TreePath) -> Result<Found, DiskError> {
        if self.counts_looks {
            self.call()?;
        }
        match (self.now.tree.get(path), self.odd) {
            (Some(entry), _) => Ok(Found::Entry(entry.copy()?)),
            (None, Some(oddity)) => Ok(Found::Odd(oddity)),
            (None, None) => Ok(Found::Nothing),
        }
    }

    /// Removes what was made under a name that is no entry's. If that fails, it is left there.
    fn discard(&mut self, directory: Directory) -> Result<(), DiskError> {
        match self.change(directory, Change::Discard) {
            Err(DiskError::Failed) => Ok(()),
            discarded => discarded,
        }
    }

    /// Puts an entry at a path: a link by symlink(2) if nothing is there, a file by link(2), and
    /// what replaces another entry by rename(2).
    pub(crate) fn put(
        &mut self,
        path: &TreePath,
        is_new: bool,
        entry: &Entry,
    ) -> Result<(), DiskError> {
        let directory = Directory::of(path);
        let change = if is_new {
            Change::Set(path.copy()?, Some(entry.copy()?))
        } else {
            Change::Rename(path.copy()?, entry.copy()?)
        };
        if is_new && matches!(entry, Entry::Link(_)) {
            return self.change(directory, change);
        }
        self.change(directory, Change::Leave)?;
        match self.change(directory, change) {
            Ok(()) if is_new => self.discard(directory),
            Ok(()) => Ok(()),
            Err(why) => {
                self.discard(directory)?;
                Err(why)
            }
        }
    }

    pub(crate) fn take(&mut self, path: &TreePath) -> Result<(), DiskError> {
        let change = Change::Set(path.copy()?, None);
        self.change(Directory::of(path), change)
    }

    /// Writes `history.new`, syncs that file, and renames it.
    pub(crate) fn promise(&mut self, text: &[u8]) -> Result<(), DiskError> {
        self.name(Naming::Create(Text::Torn))?;
        self.call()?;
        let text = Text::of(text);
        let created = Change::Name(Naming::Create(text));
        self.now.make(Directory::History, &created)?;
        let _torn = self.unsynced.pop();
        self.unsynced.push(Unsynced {
            directory: Directory::History,
            change: created,
        })?;
        self.name(Naming::Promise(text))
    }

    /// Removes a leftover.
    pub(crate) fn clear(&mut self, directory: Directory) -> Result<(), DiskError> {
        if self.now.leftovers & directory.bit() == 0 {
            return Ok(());
        }
        self.change(directory, Change::Discard)
    }

    /// In how many ways a power failure may leave the changes that were not synced.
    pub(crate) fn ways(&self) -> u32 {
        let mut ways = 1u32;
        for _one in &self.unsynced {
            ways = ways.saturating_mul(2);
        }
        ways
    }

    /// The power fails: each change that was not synced is lost, unless its bit is set.
    pub(crate) fn lose(&mut self, kept: u32) -> Result<(), AllocError> {
        let unsynced = mem::replace(&mut self.unsynced, Vec::new(self.alloc));
        let mut bits = kept;
        for one in unsynced {
            if bits % 2 == 1 {
                self.synced.make(one.directory, &one.change)?;
            }
            bits /= 2;
        }
        self.now = self.synced.share()?;
        Ok(())
    }
}
