//! All files and links in the directories of units and of presets.

use disk::{CaptureError, Disk, Found, Listing, Oddity};
use link_tree::{PathError, TreePath};
use real_roots::RealDisk;
use std::alloc::Global;

/// At most this many directories are read.
const MAX_DIRECTORIES: u32 = 1_000_000;

/// The four directories of units and the three of presets.
pub const DIRECTORIES: [&str; 7] = [
    "/etc/systemd/system",
    "/run/systemd/system",
    "/usr/local/lib/systemd/system",
    "/usr/lib/systemd/system",
    "/etc/systemd/system-preset",
    "/run/systemd/system-preset",
    "/usr/lib/systemd/system-preset",
];

/// Adds the paths of all files and links in a directory, and of the directories in it.
fn push_in(
    alloc: Global,
    disk: &mut RealDisk<'_>,
    directory: &TreePath,
    paths: &mut Vec<TreePath>,
    directories: &mut Vec<TreePath>,
) -> Result<(), CaptureError> {
    // If a link or a file is there instead of a directory, the capture reports it.
    let Listing::Paths(listed) = disk.list(alloc, directory)? else {
        return Ok(());
    };
    for path in listed {
        match disk.look(alloc, &path)? {
            Found::Entry(_) => paths.push(path)?,
            Found::Odd(Oddity::Directory) => directories.push(path)?,
            // Nothing that an inventory can say.
            _ => {}
        }
    }
    Ok(())
}

/// Adds the paths of all files and links beneath the directories of units and of presets: drop-ins, and
/// whatever else is there.
pub fn push_everything(
    alloc: Global,
    disk: &mut RealDisk<'_>,
    paths: &mut Vec<TreePath>,
) -> Result<(), CaptureError> {
    let mut directories = Vec::new(alloc);
    for directory in DIRECTORIES {
        match TreePath::parse(alloc, directory.as_bytes()) {
            Ok(path) => directories.push(path)?,
            Err(PathError::OutOfMemory) => return Err(CaptureError::OutOfMemory),
            Err(PathError::BadPath) => {}
        }
    }
    for _ in 0..MAX_DIRECTORIES {
        let Some(directory) = directories.pop() else {
            return Ok(());
        };
        push_in(alloc, disk, &directory, paths, &mut directories)?;
    }
    Err(CaptureError::TooMany)
}
