//! What interrupted runs leave in the directory of a history.

use crate::earlier::remove_unfinished;
use crate::error::{DirectoryFault, HistoryError, if_there, refused};
use crate::held::Held;
use real_roots::{Trouble, at};
use std::fs;
use std::fs::{File, OpenOptions};
use std::os::unix::fs::{MetadataExt, OpenOptionsExt};

/// Files have this name until they are whole.
pub(crate) const NEW: &str = "history.new";

/// Only for its owner.
pub(crate) const FILE_MODE: u32 = 0o600;

/// Removes `history.new`, if there is one.
fn remove_new(held: &Held<'_>) -> Result<(), Trouble> {
    let removed = if_there(fs::remove_file(held.rt, NEW));
    let _was_there = at(held.rt.alloc(), &held.shown_path(NEW)?, removed)?;
    Ok(())
}

/// Makes `history.new`, an empty file. One that is there was left by a run that was cut short.
pub(crate) fn create_new(held: &Held<'_>) -> Result<File, Trouble> {
    held.enter()?;
    remove_new(held)?;
    let path = held.shown_path(NEW)?;
    let mut options = OpenOptions::new();
    options.write(true).create_new(true).mode(FILE_MODE);
    at(held.rt.alloc(), &path, options.open(held.rt, NEW))
}

/// Refuses a directory of another user: files that are made in it belong to the user who runs the
/// program. `history.new` is made and removed, so afterwards there is none.
pub(crate) fn check_owner(held: &Held<'_>) -> Result<(), HistoryError> {
    let file = create_new(held)?;
    let found = at(held.rt.alloc(), &held.shown, file.metadata());
    let removed = remove_new(held);
    if removed.is_err() {
        // (if this fails too, the next run removes it)
        let _removed = remove_new(held);
    }
    removed?;
    if found?.uid() == held.owner {
        Ok(())
    } else {
        Err(refused(held.rt.alloc(), &held.shown, DirectoryFault::Foreign))
    }
}

/// Removes whatever interrupted runs left, except `history.next` and `history.new`.
pub(crate) fn clear(held: &Held<'_>) -> Result<(), Trouble> {
    remove_unfinished(held)?;
    held.set_time()
}
