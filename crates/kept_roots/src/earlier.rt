//! Earlier histories: `history.1` to `history.999999`.

use crate::error::{HistoryError, if_there};
use crate::held::Held;
use crate::history_directory::{HISTORY, HistoryDirectory};
use real_roots::{Identity, Trouble, at};
use std::os::unix::fs::MetadataExt;
use std::{fs, io};

/// The number of the last one is below this.
const MOST_EARLIER: u32 = 1_000_000;

/// Whether a file has the name of an earlier history.
fn is_earlier(name: &str) -> bool {
    match name.strip_prefix("history.") {
        Some(number) => !number.is_empty() && number.bytes().all(|b| b.is_ascii_digit()),
        None => false,
    }
}

/// The names of earlier histories in the working directory.
fn earlier_here(held: &Held<'_>) -> Result<Vec<String>, Trouble> {
    let alloc = held.rt.alloc();
    let mut names = Vec::new(alloc);
    for found in at(alloc, &held.shown, fs::read_dir(held.rt, "."))? {
        match found {
            Ok(entry) if is_earlier(entry.file_name()) => {
                names.push(String::from_str(alloc, entry.file_name())?)?;
            }
            Ok(_) => {}
            // (a name that isn't UTF-8 is no such name)
            Err(e) if e.kind() == io::ErrorKind::InvalidFilename => {}
            Err(e) => return at(alloc, &held.shown, Err(e)),
        }
    }
    Ok(names)
}

fn remove_here(held: &Held<'_>, name: &str) -> Result<(), Trouble> {
    let path = held.shown_path(name)?;
    at(held.rt.alloc(), &path, fs::remove_file(held.rt, name))
}

/// Removes a second name of this file.
fn remove_if_same(held: &Held<'_>, name: &str, history: Identity) -> Result<(), Trouble> {
    let path = held.shown_path(name)?;
    let found = at(held.rt.alloc(), &path, fs::symlink_metadata(held.rt, name))?;
    if Identity::of(&found) == history {
        remove_here(held, name)
    } else {
        Ok(())
    }
}

/// Removes second names of `history`: a run was cut short that was about to begin a new history.
pub(crate) fn remove_unfinished(held: &Held<'_>) -> Result<(), Trouble> {
    held.enter()?;
    let found = if_there(fs::symlink_metadata(held.rt, HISTORY));
    let path = held.shown_path(HISTORY)?;
    match at(held.rt.alloc(), &path, found)? {
        Some(found) if found.is_file() && found.nlink() > 1 => {
            for name in &earlier_here(held)? {
                remove_if_same(held, name.as_str(), Identity::of(&found))?;
            }
            Ok(())
        }
        _ => Ok(()),
    }
}

/// Gives `history` a second name, if that is free.
fn link_as(held: &Held<'_>, earlier: &str) -> Result<bool, Trouble> {
    match fs::hard_link(held.rt, HISTORY, earlier) {
        Ok(()) => Ok(true),
        Err(e) if e.kind() == io::ErrorKind::AlreadyExists => Ok(false),
        Err(e) => at(held.rt.alloc(), &held.shown_path(earlier)?, Err(e)),
    }
}

impl<'a> HistoryDirectory<'a> {
    /// Lets another history begin with this text. The one so far becomes `history.N`, with the
    /// least N that is free, from 1, and N is returned. `history` is there all the time.
    ///
    /// Errors: `TooMany`; the system's own: nothing has changed; `MayNotLast`.
    pub fn begin_another(&self, text: &[u8]) -> Result<u32, HistoryError> {
        let alloc = self.held.rt.alloc();
        self.held.enter()?;
        for number in 1..MOST_EARLIER {
            let earlier = format!(in alloc; "{HISTORY}.{number}")?;
            if link_as(&self.held, earlier.as_str())? {
                self.begin_after(text, earlier.as_str())?;
                return Ok(number);
            }
        }
        Err(HistoryError::TooMany)
    }

    /// Begins a history, once the second name of the one so far is on the disk: otherwise a power
    /// failure could leave neither. If that fails, the second name is removed.
    fn begin_after(&self, text: &[u8], earlier: &str) -> Result<(), HistoryError> {
        let begun = match self.sync() {
            Ok(()) => self.begin(text),
            Err(trouble) => Err(HistoryError::Trouble(trouble)),
        };
        match &begun {
            Ok(()) | Err(HistoryError::MayNotLast(_)) => {}
            Err(_) => {
                // (if this fails too, the next run removes it)
                let _removed = self.remove_earlier(earlier);
            }
        }
        begun
    }

    /// Removes the second name of `history`, and syncs the directory.
    fn remove_earlier(&self, earlier: &str) -> Result<(), Trouble> {
        remove_here(&self.held, earlier)?;
        self.sync()
    }

    /// Removes all files of a history, `history` last, and the directory if nothing else is in it
    /// and this user may.
    ///
    /// Errors: the system's own: `history` is still there; `MayNotLast`: the files were removed;
    /// the directory too, unless it had to stay or is what failed.
    pub fn forget(&self) -> Result<(), HistoryError> {
        self.held.enter()?;
        let removed = self.remove_files();
        if removed.is_err() {
            // (what was removed before is gone, whatever else fails)
            let _synced = self.sync();
        }
        removed?;
        match self.remove_directory() {
            Ok(()) => Ok(()),
            Err(trouble) => Err(HistoryError::MayNotLast(trouble)),
        }
    }

    /// Removes all files of a history, `history` last.
    fn remove_files(&self) -> Result<(), Trouble> {
        for name in &earlier_here(&self.held)? {
            remove_here(&self.held, name.as_str())?;
        }
        remove_here(&self.held, HISTORY)
    }

    /// Syncs the directory, and removes it unless something is in it. If the first fails, the
    /// second is tried all the same.
    fn remove_directory(&self) -> Result<(), Trouble> {
        let synced = self.held.sync();
        let removed = self.held.remove_if_empty();
        synced?;
        removed
    }
}
