//! Where the directory of a history is, and how it is reached.

use crate::error::{DirectoryFault, HistoryError, refused};
use crate::held::{DIRECTORY_MODE, Held, Name, split_name, sync_above};
use crate::history_directory::HistoryDirectory;
use real_roots::{GivenTime, Hold, Patience, RealDisk, Trouble, at};
use std::fs;
use std::fs::{DirBuilder, Permissions};
use std::os::unix::fs::{DirBuilderExt, PermissionsExt};

/// The directory beneath the root that contains the history's directory.
const ABOVE: &str = "/var/lib";

/// The history's directory beneath the root.
const IN_ROOT: Name<'static> = Name {
    opened: "unitroot",
    shown: "/var/lib/unitroot",
};

/// Where the directory of a history is.
#[derive(Debug, Drop)]
pub enum HistoryPlace {
    /// `var/lib/unitroot` beneath the root.
    InRoot,
    /// A directory outside of the root: its absolute path, and the path as it was given, which
    /// messages have.
    Outside { path: String, given: String },
}

impl HistoryPlace {
    /// A directory outside of the root, which may not exist yet. A relative path is resolved in the
    /// working directory, so this must be called before the root is locked.
    ///
    /// Errors: the system's own, if the directory above it can't be reached; `WithinRoot`.
    pub fn outside(
        rt: &HostRuntime,
        root: &str,
        given: &str,
    ) -> Result<HistoryPlace, HistoryError> {
        let alloc = rt.alloc();
        let trimmed = given.trim_end_matches('/');
        let (above, name) = split_name(trimmed);
        if name.is_empty() || name == "." || name == ".." {
            return Err(refused(alloc, given, DirectoryFault::NoDirectory));
        }
        let root = at(alloc, root, fs::canonicalize(rt, root))?.into_string();
        let above = at(alloc, given, fs::canonicalize(rt, above))?.into_string();
        let path = format!(in alloc; "{}/{name}", above.trim_end_matches('/'))?;
        if is_within(path.as_str(), root.as_str()) {
            return Err(refused(alloc, given, DirectoryFault::WithinRoot));
        }
        let given = String::from_str(alloc, trimmed)?;
        Ok(HistoryPlace::Outside { path, given })
    }
}

/// Whether a path is a directory or is beneath it; every path is beneath `/`.
fn is_within(path: &str, directory: &str) -> bool {
    match path.strip_prefix(directory.trim_end_matches('/')) {
        Some(rest) => rest.is_empty() || rest.starts_with('/'),
        None => false,
    }
}

/// Changes to the directory that contains the history's directory, and returns the name of that.
fn go_to<'p>(
    disk: &mut RealDisk<'_>,
    place: &'p HistoryPlace,
    may_make: bool,
) -> Result<Option<Name<'p>>, HistoryError> {
    match place {
        HistoryPlace::InRoot => {
            if disk.go_to(ABOVE, may_make)? {
                Ok(Some(IN_ROOT))
            } else {
                Ok(None)
            }
        }
        HistoryPlace::Outside { path, given } => Ok(Some(Name {
            opened: path.as_str(),
            shown: given.as_str(),
        })),
    }
}

/// Locks a directory, if there is one.
fn take<'a>(
    rt: &'a HostRuntime,
    name: Name<'_>,
    hold: Hold,
    patience: Patience,
) -> Result<Option<HistoryDirectory<'a>>, HistoryError> {
    match Held::take(rt, name, hold, patience)? {
        Some(held) => Ok(Some(HistoryDirectory::taken(held, hold)?)),
        None => Ok(None),
    }
}

/// Locks the directory of a history for this run: flock(2). If there is none, the result is `None`.
/// If the lock is exclusive, whatever interrupted runs left there is removed, except
/// `history.next`.
///
/// Errors: `Link`, `NoDirectory`, `Mode`; `Foreign`, if the lock is exclusive or this user may not
/// open the directory; `Busy`; the system's own, with the path.
pub fn open_directory<'a>(
    rt: &'a HostRuntime,
    disk: &mut RealDisk<'_>,
    place: &HistoryPlace,
    hold: Hold,
    patience: Patience,
) -> Result<Option<HistoryDirectory<'a>>, HistoryError> {
    let Some(name) = go_to(disk, place, false)? else {
        return Ok(None);
    };
    let taken = take(rt, name, hold, patience);
    disk.leave();
    taken
}

/// Gives a directory that was just made mode 700, whatever the umask is, and syncs the one that
/// contains it.
fn finish(rt: &HostRuntime, name: Name<'_>) -> Result<(), Trouble> {
    let mode = Permissions::from_mode(DIRECTORY_MODE);
    at(
        rt.alloc(),
        name.shown,
        fs::set_permissions(rt, name.opened, mode),
    )?;
    sync_above(rt, name, GivenTime::of_environment(rt)?)
}

/// Finishes a directory that was just made, and locks it.
fn finish_and_hold<'a>(
    rt: &'a HostRuntime,
    name: Name<'_>,
    patience: Patience,
) -> Result<Held<'a>, HistoryError> {
    finish(rt, name)?;
    match Held::take(rt, name, Hold::Alone, patience)? {
        Some(held) => Ok(held),
        None => Err(refused(rt.alloc(), name.shown, DirectoryFault::NoDirectory)),
    }
}

/// Removes a directory that was just made, and syncs the one that contains it.
fn remove_made(rt: &HostRuntime, name: Name<'_>) -> Result<(), Trouble> {
    at(rt.alloc(), name.shown, fs::remove_dir(rt, name.opened))?;
    sync_above(rt, name, GivenTime::of_environment(rt)?)
}

/// Makes a directory, and locks it. If that fails, it is removed, unless another run holds it: that
/// one uses it.
fn make<'a>(
    rt: &'a HostRuntime,
    name: Name<'_>,
    patience: Patience,
) -> Result<HistoryDirectory<'a>, HistoryError> {
    let mut builder = DirBuilder::new();
    builder.mode(DIRECTORY_MODE);
    at(rt.alloc(), name.shown, builder.create(rt, name.opened))?;
    match finish_and_hold(rt, name, patience) {
        Ok(held) => HistoryDirectory::made(held),
        Err(HistoryError::Busy) => Err(HistoryError::Busy),
        Err(e) => {
            let _removed = remove_made(rt, name);
            Err(e)
        }
    }
}

/// Locks a directory, which is made if there is none.
fn take_or_make<'a>(
    rt: &'a HostRuntime,
    name: Name<'_>,
    patience: Patience,
) -> Result<HistoryDirectory<'a>, HistoryError> {
    match take(rt, name, Hold::Alone, patience)? {
        Some(directory) => Ok(directory),
        None => make(rt, name, patience),
    }
}

/// The same in the directory of a place, which is made if it is beneath the root.
fn make_at<'a>(
    rt: &'a HostRuntime,
    disk: &mut RealDisk<'_>,
    place: &HistoryPlace,
    patience: Patience,
) -> Result<HistoryDirectory<'a>, HistoryError> {
    match go_to(disk, place, true)? {
        Some(name) => take_or_make(rt, name, patience),
        None => Err(refused(rt.alloc(), ABOVE, DirectoryFault::NoDirectory)),
    }
}

/// Locks the directory of a history alone. If there is none, one with mode 700 is made. If that
/// fails, it is removed, unless another run holds it, and `RealDisk::settle_back` removes the
/// directories that were made above it.
///
/// Errors: those of `open_directory`.
pub fn make_directory<'a>(
    rt: &'a HostRuntime,
    disk: &mut RealDisk<'_>,
    place: &HistoryPlace,
    patience: Patience,
) -> Result<HistoryDirectory<'a>, HistoryError> {
    let made = make_at(rt, disk, place, patience);
    disk.leave();
    made
}
