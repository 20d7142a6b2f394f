//! A directory that this run has locked.

use crate::error::{DirectoryFault, HistoryError, if_there, refused};
use real_roots::{GivenTime, Hold, Identity, Patience, Trouble, at, changed, hold_root, may_stay};
use std::fs::{File, Metadata};
use std::os::unix::fs::MetadataExt;
use std::{env, fs, io};

/// Only for its owner.
pub(crate) const DIRECTORY_MODE: u32 = 0o700;

/// The bits of a mode that say who may do what.
const RIGHTS: u32 = 0o777;

/// The directory of the process that runs the program: proc(5).
const OWN_PROCESS: &str = "/proc/self";

/// A directory by two names.
#[derive(Clone, Copy)]
pub(crate) struct Name<'n> {
    /// In the working directory, or an absolute path.
    pub opened: &'n str,
    /// The path that messages have.
    pub shown: &'n str,
}

/// A directory, which is locked by flock(2) until it is dropped.
#[derive(Drop)]
pub(crate) struct Held<'a> {
    pub(crate) rt: &'a HostRuntime,
    /// Its absolute path.
    pub(crate) path: String,
    /// The path that messages have.
    pub(crate) shown: String,
    /// The time of what is made or changed.
    pub(crate) time: GivenTime,
    /// Whose directory it is.
    pub(crate) owner: u32,
    identity: Identity,
    /// Kept open for its lock.
    lock: File,
}

/// Refuses anything but a directory of mode 700.
fn check_directory(rt: &HostRuntime, shown: &str, found: &Metadata) -> Result<(), HistoryError> {
    if found.is_symlink() {
        return Err(refused(rt.alloc(), shown, DirectoryFault::Link));
    }
    if !found.is_dir() {
        return Err(refused(rt.alloc(), shown, DirectoryFault::NoDirectory));
    }
    if found.mode() & RIGHTS != DIRECTORY_MODE {
        return Err(refused(rt.alloc(), shown, DirectoryFault::Mode));
    }
    Ok(())
}

/// Whether this is another user than the one who runs the program, to whom `/proc/self` belongs. If
/// there is no such directory, that isn't known, and the answer is no.
fn is_another_user(rt: &HostRuntime, user: u32) -> bool {
    match fs::metadata(rt, OWN_PROCESS) {
        Ok(found) => found.uid() != user,
        Err(_) => false,
    }
}

/// Opens a directory of this user. That of another one can't be opened, unless root does it.
fn open_of(rt: &HostRuntime, shown: &str, path: &str, owner: u32) -> Result<File, HistoryError> {
    match File::open(rt, path) {
        Err(e) if e.kind() == io::ErrorKind::PermissionDenied && is_another_user(rt, owner) => {
            Err(refused(rt.alloc(), shown, DirectoryFault::Foreign))
        }
        opened => Ok(at(rt.alloc(), shown, opened)?),
    }
}

fn hold(
    rt: &HostRuntime,
    shown: &str,
    lock: &File,
    hold: Hold,
    patience: Patience,
) -> Result<(), HistoryError> {
    match hold_root(rt, shown, lock, hold, patience) {
        Ok(()) => Ok(()),
        Err(Trouble::Busy) => Err(HistoryError::Busy),
        Err(trouble) => Err(HistoryError::Trouble(trouble)),
    }
}

impl<'a> Held<'a> {
    /// Locks a directory. If it doesn't exist, the result is `None`.
    pub fn take(
        rt: &'a HostRuntime,
        name: Name<'_>,
        kind: Hold,
        patience: Patience,
    ) -> Result<Option<Held<'a>>, HistoryError> {
        let (alloc, shown) = (rt.alloc(), name.shown);
        let Some(found) = at(
            alloc,
            shown,
            if_there(fs::symlink_metadata(rt, name.opened)),
        )?
        else {
            return Ok(None);
        };
        check_directory(rt, shown, &found)?;
        let path = at(alloc, shown, fs::canonicalize(rt, name.opened))?.into_string();
        let lock = open_of(rt, shown, path.as_str(), found.uid())?;
        let opened = at(alloc, shown, lock.metadata())?;
        if Identity::of(&opened) != Identity::of(&found) {
            return Err(HistoryError::Trouble(changed(alloc, shown)));
        }
        hold(rt, shown, &lock, kind, patience)?;
        Ok(Some(Held {
            rt,
            path,
            shown: String::from_str(alloc, shown)?,
            time: GivenTime::of_environment(rt)?,
            owner: found.uid(),
            identity: Identity::of(&found),
            lock,
        }))
    }

    /// Makes it the working directory.
    pub fn enter(&self) -> Result<(), Trouble> {
        let (alloc, shown) = (self.rt.alloc(), self.shown.as_str());
        at(alloc, shown, env::set_current_dir(self.rt, &self.path))?;
        if Identity::here(self.rt, shown)? == self.identity {
            Ok(())
        } else {
            Err(changed(alloc, shown))
        }
    }

    /// Gives it the time that the environment gives, if it does.
    pub fn set_time(&self) -> Result<(), Trouble> {
        at(self.rt.alloc(), &self.shown, self.time.set_on(&self.lock))
    }

    /// Syncs it, after giving it its time.
    pub fn sync(&self) -> Result<(), Trouble> {
        self.enter()?;
        self.set_time()?;
        at(self.rt.alloc(), &self.shown, self.lock.sync_all())
    }

    /// Removes it, unless it has to stay, and syncs the directory that contains it.
    pub fn remove_if_empty(&self) -> Result<(), Trouble> {
        let shown = self.shown.as_str();
        match fs::remove_dir(self.rt, &self.path) {
            Ok(()) => {
                let opened = self.path.as_str();
                sync_above(self.rt, Name { opened, shown }, self.time)
            }
            Err(e) if may_stay(e.kind()) => Ok(()),
            Err(e) => at(self.rt.alloc(), shown, Err(e)),
        }
    }

    /// The path of a file in it, for messages.
    pub fn shown_path(&self, name: &str) -> Result<String, Trouble> {
        let shown = self.shown.as_str();
        Ok(format!(in self.rt.alloc(); "{shown}/{name}")?)
    }
}

/// Syncs the directory that contains a path, after giving it its time.
pub(crate) fn sync_above(rt: &HostRuntime, name: Name<'_>, time: GivenTime) -> Result<(), Trouble> {
    let (alloc, shown) = (rt.alloc(), name.shown);
    let (above, _name) = split_name(name.opened);
    let directory = at(alloc, shown, File::open(rt, above))?;
    at(alloc, shown, time.set_on(&directory))?;
    at(alloc, shown, directory.sync_all())
}

/// The directory that contains a path, and the name in it.
pub(crate) fn split_name(path: &str) -> (&str, &str) {
    match path.rsplit_once('/') {
        Some(("", name)) => ("/", name),
        Some((above, name)) => (above, name),
        None => (".", path),
    }
}
