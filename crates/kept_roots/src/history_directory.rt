//! The files of a history: rename(2), fsync(2).

use crate::error::{HistoryError, if_there};
use crate::held::Held;
use crate::leftovers::{FILE_MODE, NEW, check_owner, clear, create_new};
use real_roots::{Hold, Identity, Trouble, at, changed};
use std::fs;
use std::fs::{File, Permissions};
use std::io::{Read, Write};
use std::os::unix::fs::PermissionsExt;

/// At most this number of bytes of a history is read, unless a larger limit is given: 64 MiB.
pub const MOST_BYTES: u64 = 67_108_864;

pub(crate) const HISTORY: &str = "history";

const NEXT: &str = "history.next";

/// A file of a history.
#[derive(Clone, Copy, Debug, PartialEq, Eq)]
pub enum HistoryFile {
    /// `history`: no run is in progress.
    Current,
    /// `history.next`: a run is promised.
    Next,
}

impl HistoryFile {
    fn name(self) -> &'static str {
        match self {
            HistoryFile::Current => HISTORY,
            HistoryFile::Next => NEXT,
        }
    }
}

/// The directory of a history, which this run has locked until it is dropped. Its methods make it
/// the working directory, so `RealDisk::leave` must be called before the root's disk is used again:
/// `KeptRealDisk` does that.
#[derive(Drop)]
pub struct HistoryDirectory<'a> {
    pub(crate) held: Held<'a>,
    /// This run has made the directory.
    is_new: bool,
}

/// Refuses a directory of another user, and removes whatever interrupted runs left in it.
fn prepare(held: &Held<'_>) -> Result<(), HistoryError> {
    check_owner(held)?;
    Ok(clear(held)?)
}

impl<'a> HistoryDirectory<'a> {
    /// A directory that was just locked. If it is held alone, it must belong to this user, and
    /// whatever interrupted runs left there is removed.
    pub(crate) fn taken(held: Held<'a>, hold: Hold) -> Result<HistoryDirectory<'a>, HistoryError> {
        if hold == Hold::Alone {
            prepare(&held)?;
        }
        Ok(HistoryDirectory {
            held,
            is_new: false,
        })
    }

    /// A directory that this run has made and locked. If it can't be used, it is removed.
    pub(crate) fn made(held: Held<'a>) -> Result<HistoryDirectory<'a>, HistoryError> {
        match prepare(&held) {
            Ok(()) => Ok(HistoryDirectory { held, is_new: true }),
            Err(e) => {
                // (its absolute path, since it is the working directory now)
                let _removed = held.remove_if_empty();
                Err(e)
            }
        }
    }

    /// Removes the directory if this run has made it, unless something is in it, and syncs the one
    /// that contains it.
    ///
    /// Error: the system's own.
    pub fn take_back(&self) -> Result<(), Trouble> {
        if self.is_new {
            self.held.remove_if_empty()
        } else {
            Ok(())
        }
    }

    pub(crate) fn runtime(&self) -> &'a HostRuntime {
        self.held.rt
    }

    /// Its absolute path.
    pub fn path(&self) -> &str {
        self.held.path.as_str()
    }

    /// The path that messages have: in the root that from the root on, else as it was given.
    pub fn shown_path(&self) -> &str {
        self.held.shown.as_str()
    }

    /// Whether a file exists, or anything else of its name.
    ///
    /// Errors: the system's own.
    pub fn has(&self, file: HistoryFile) -> Result<bool, Trouble> {
        let (rt, name) = (self.held.rt, file.name());
        let path = self.held.shown_path(name)?;
        self.held.enter()?;
        let found = at(rt.alloc(), &path, if_there(fs::symlink_metadata(rt, name)))?;
        Ok(found.is_some())
    }

    /// What a file contains; `None` if there is no such file. No link is followed.
    ///
    /// Errors: `TooLarge`: it has over `most` bytes; `NoFile`; the system's own.
    pub fn read(&self, file: HistoryFile, most: u64) -> Result<Option<Vec<u8>>, HistoryError> {
        let (rt, alloc, name) = (self.held.rt, self.held.rt.alloc(), file.name());
        let path = self.held.shown_path(name)?;
        self.held.enter()?;
        let Some(found) = at(alloc, &path, if_there(fs::symlink_metadata(rt, name)))? else {
            return Ok(None);
        };
        if !found.is_file() {
            return Err(HistoryError::NoFile(path));
        }
        let opened = at(alloc, &path, File::open(rt, name))?;
        let metadata = at(alloc, &path, opened.metadata())?;
        if Identity::of(&metadata) != Identity::of(&found) {
            return Err(HistoryError::Trouble(changed(alloc, &path)));
        }
        let mut bytes = Vec::new(alloc);
        let limit = most.saturating_add(1);
        at(alloc, &path, opened.take(limit).read_to_end(&mut bytes))?;
        if bytes.len() as u64 > most {
            return Err(HistoryError::TooLarge(path, most));
        }
        Ok(Some(bytes))
    }

    /// Writes a text to `history.new`, and syncs that file.
    fn write_new(&self, text: &[u8]) -> Result<(), Trouble> {
        let alloc = self.held.rt.alloc();
        let path = self.held.shown_path(NEW)?;
        let mut file = create_new(&self.held)?;
        // (whatever the umask is)
        let mode = Permissions::from_mode(FILE_MODE);
        at(alloc, &path, file.set_permissions(mode))?;
        at(alloc, &path, file.write_all(text))?;
        at(alloc, &path, self.held.time.set_on(&file))?;
        at(alloc, &path, file.sync_all())
    }

    fn rename(&self, from: &str, to: &str) -> Result<(), Trouble> {
        let path = self.held.shown_path(to)?;
        self.held.enter()?;
        let renamed = fs::rename(self.held.rt, from, to);
        at(self.held.rt.alloc(), &path, renamed)
    }

    /// Writes a text to a new file, and renames that. If it fails, the new file is removed.
    fn put(&self, text: &[u8], name: &str) -> Result<(), Trouble> {
        let put = match self.write_new(text) {
            Ok(()) => self.rename(NEW, name),
            Err(trouble) => Err(trouble),
        };
        // (it may not have been entered)
        if put.is_err() && self.held.enter().is_ok() {
            // (if this fails too, the next run removes it)
            let _removed = fs::remove_file(self.held.rt, NEW);
        }
        put
    }

    /// Begins a history: `history` appears with this text in one step, and is synced.
    ///
    /// Errors: the system's own: nothing has changed; `MayNotLast`.
    pub fn begin(&self, text: &[u8]) -> Result<(), HistoryError> {
        self.put(text, HISTORY)?;
        match self.sync() {
            Ok(()) => Ok(()),
            Err(trouble) => Err(HistoryError::MayNotLast(trouble)),
        }
    }

    /// Writes a text to `history.next`: either all of it, or the file doesn't exist.
    pub fn promise(&self, text: &[u8]) -> Result<(), Trouble> {
        self.put(text, NEXT)
    }

    /// Renames `history.next` to `history`.
    pub fn commit(&self) -> Result<(), Trouble> {
        self.rename(NEXT, HISTORY)
    }

    /// Removes `history.next`.
    pub fn withdraw(&self) -> Result<(), Trouble> {
        let path = self.held.shown_path(NEXT)?;
        self.held.enter()?;
        let removed = fs::remove_file(self.held.rt, NEXT);
        at(self.held.rt.alloc(), &path, removed)
    }

    /// Syncs the directory.
    pub fn sync(&self) -> Result<(), Trouble> {
        self.held.sync()
    }
}
