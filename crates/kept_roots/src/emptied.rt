//! Directories for dependencies that are empty, since a run took the last link from them.

use link_tree::{PathError, TreePath};
use real_roots::{RealDisk, Trouble, at, may_stay};
use std::alloc::{AllocError, Global};
use std::fs;

/// The endings of the names of directories for dependencies.
const ENDINGS: [&[u8]; 3] = [b".wants", b".requires", b".upholds"];

/// The directory of a path, if it is one for dependencies.
pub(crate) fn dependencies_of(
    alloc: Global,
    path: &TreePath,
) -> Result<Option<TreePath>, AllocError> {
    let directory = path.directory();
    if !ENDINGS.iter().any(|ending| directory.ends_with(*ending)) {
        return Ok(None);
    }
    match TreePath::parse(alloc, directory) {
        Ok(directory) => Ok(Some(directory)),
        Err(PathError::BadPath) => Ok(None),
        Err(PathError::OutOfMemory) => Err(AllocError),
    }
}

/// Removes a directory of the working directory, unless it may stay.
fn remove_here(rt: &HostRuntime, path: &TreePath, name: &str) -> Result<(), Trouble> {
    match fs::remove_dir(rt, name) {
        Ok(()) => Ok(()),
        Err(e) if may_stay(e.kind()) => Ok(()),
        Err(e) => {
            let path = String::from_utf8_lossy(rt.alloc(), path.text())?;
            at(rt.alloc(), &path, Err(e))
        }
    }
}

/// Removes a directory beneath the root, unless it may stay. The directory that contains it is not
/// synced.
pub(crate) fn remove_if_empty(
    rt: &HostRuntime,
    disk: &mut RealDisk<'_>,
    directory: &TreePath,
) -> Result<(), Trouble> {
    let alloc = rt.alloc();
    let above = String::from_utf8_lossy(alloc, directory.directory())?;
    let name = String::from_utf8_lossy(alloc, directory.file_name())?;
    if disk.go_to(above.as_str(), false)? {
        remove_here(rt, directory, name.as_str())
    } else {
        Ok(())
    }
}
