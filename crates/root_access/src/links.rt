//! Which link of a root leads to what a message is about.
//!
//! A message about something behind a link names the link too, since that is the entry to correct.
//! It is looked for once something has failed, at all slots: what runs well pays nothing for it.

use crate::everything::DIRECTORIES;
use crate::failure::shown_path;
use disk::{Disk, DiskError, Found, Listing};
use link_tree::{Entry, PathError, Slot, TreePath, canonical};
use real_roots::{RealDisk, Trouble};
use std::alloc::{AllocError, Global};

/// As many links are followed as Linux follows.
const MAX_LINKS: u32 = 40;

/// Where a link leads, by one step; `None` if there is no link, or nothing can be read.
fn next_of(
    alloc: Global,
    disk: &mut RealDisk<'_>,
    path: &TreePath,
) -> Result<Option<TreePath>, AllocError> {
    match disk.look(alloc, path) {
        Ok(Found::Entry(Entry::Link(target))) => canonical(alloc, path, target.text()),
        Ok(_) | Err(DiskError::Failed) => Ok(None),
        Err(DiskError::OutOfMemory) => Err(AllocError),
    }
}

/// Whether a path is this one, or is in this directory.
fn is_at_or_in(path: &TreePath, wanted: &TreePath) -> bool {
    path.text() == wanted.text() || path.directory() == wanted.text()
}

/// Whether a link leads to a path, or into that directory, through no other slot.
fn leads_to(
    alloc: Global,
    disk: &mut RealDisk<'_>,
    link: &TreePath,
    wanted: &TreePath,
) -> Result<bool, AllocError> {
    let mut here = link.copy()?;
    for _ in 0..MAX_LINKS {
        let Some(next) = next_of(alloc, disk, &here)? else {
            return Ok(false);
        };
        if is_at_or_in(&next, wanted) {
            return Ok(true);
        }
        if Slot::of(&next).is_some() {
            return Ok(false);
        }
        here = next;
    }
    Ok(false)
}

/// The paths in a directory, as far as they can be read.
fn listed(
    alloc: Global,
    disk: &mut RealDisk<'_>,
    directory: &TreePath,
) -> Result<Vec<TreePath>, AllocError> {
    match disk.list(alloc, directory) {
        Ok(Listing::Paths(paths)) => Ok(paths),
        Ok(Listing::NoDirectory) | Err(DiskError::Failed) => Ok(Vec::new(alloc)),
        Err(DiskError::OutOfMemory) => Err(AllocError),
    }
}

/// A link at a slot, if it comes before the one that was found so far.
fn earlier(found: Option<TreePath>, link: TreePath) -> Option<TreePath> {
    match found {
        Some(found) if found.text() <= link.text() => Some(found),
        _ => Some(link),
    }
}

/// The first of the links in a directory that lead to a path, and of the one that was found before.
fn first_in(
    alloc: Global,
    disk: &mut RealDisk<'_>,
    directory: &TreePath,
    wanted: &TreePath,
    found: Option<TreePath>,
) -> Result<Option<TreePath>, AllocError> {
    let mut found = found;
    for path in listed(alloc, disk, directory)? {
        if Slot::of(&path).is_some()
            && path.text() != wanted.text()
            && leads_to(alloc, disk, &path, wanted)?
        {
            found = earlier(found, path);
        }
    }
    Ok(found)
}

/// The same, and of the links in the directories for dependencies in it.
fn first_beneath(
    alloc: Global,
    disk: &mut RealDisk<'_>,
    directory: &TreePath,
    wanted: &TreePath,
    found: Option<TreePath>,
) -> Result<Option<TreePath>, AllocError> {
    let mut found = first_in(alloc, disk, directory, wanted, found)?;
    for path in listed(alloc, disk, directory)? {
        if Slot::of(&path).is_none() && path.is_bad_shape() {
            found = first_in(alloc, disk, &path, wanted, found)?;
        }
    }
    Ok(found)
}

/// The link at a slot, the first in the order of paths, that leads to a path or into that
/// directory.
fn first_of_all(
    alloc: Global,
    disk: &mut RealDisk<'_>,
    wanted: &TreePath,
) -> Result<Option<TreePath>, AllocError> {
    let mut found = None;
    for directory in DIRECTORIES {
        match TreePath::parse(alloc, directory.as_bytes()) {
            Ok(directory) => found = first_beneath(alloc, disk, &directory, wanted, found)?,
            Err(PathError::BadPath) => {}
            Err(PathError::OutOfMemory) => return Err(AllocError),
        }
    }
    Ok(found)
}

/// The same, but to the directories of slots many lead: for these, none is named. What is read to
/// find it isn't kept, so it isn't counted.
fn link_to(
    alloc: Global,
    disk: &mut RealDisk<'_>,
    wanted: &TreePath,
) -> Result<Option<TreePath>, AllocError> {
    if wanted.is_bad_shape() {
        return Ok(None);
    }
    disk.count(false);
    let found = first_of_all(alloc, disk, wanted);
    disk.count(true);
    found
}

/// A path as text for people: `LINK -> PATH` if a link at a slot leads there.
pub fn shown_target(
    alloc: Global,
    disk: &mut RealDisk<'_>,
    path: &TreePath,
) -> Result<String, AllocError> {
    let text = shown_path(alloc, path)?;
    match link_to(alloc, disk, path)? {
        Some(link) => {
            let link = shown_path(alloc, &link)?;
            format!(in alloc; "{link} -> {text}")
        }
        None => Ok(text),
    }
}

/// The same of a path that is a text. Without memory for the link it is the path alone.
pub fn shown_text(alloc: Global, disk: &mut RealDisk<'_>, path: String) -> String {
    match TreePath::parse(alloc, path.as_str().as_bytes()) {
        Ok(parsed) => shown_target(alloc, disk, &parsed).unwrap_or(path),
        Err(_) => path,
    }
}

/// What failed at a path, with the link that leads there.
pub fn with_link(alloc: Global, disk: &mut RealDisk<'_>, trouble: Trouble) -> Trouble {
    match trouble {
        Trouble::At(path, why) => Trouble::At(shown_text(alloc, disk, path), why),
        Trouble::System(path, e) => Trouble::System(shown_text(alloc, disk, path), e),
        Trouble::Changed(path) => Trouble::Changed(shown_text(alloc, disk, path)),
        Trouble::TooMuch(path, mib) => Trouble::TooMuch(path, mib),
        Trouble::Busy => Trouble::Busy,
        Trouble::OutOfMemory => Trouble::OutOfMemory,
    }
}
