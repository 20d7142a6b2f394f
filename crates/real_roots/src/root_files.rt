//! The files beneath a root, as entries of trees.

use crate::allowance::Allowance;
use crate::changing::Made;
use crate::identity::{Identity, found_under};
use crate::layout::{DIRECTORIES, check_etc, has_own_lib};
use crate::locking::{Hold, Patience};
use crate::making::{Kept, Maker};
use crate::names::{is_for_dependencies, may_go_astray, spot_of, text_of};
use crate::reading::look_under;
use crate::reserved::is_reserved;
use crate::root::{Reached, Root};
use crate::trouble::{Hindrance, Trouble, at, hindered};
use crate::way::Way;
use disk::{Found, Listing};
use link_tree::{Entry, PathError, Target, TreePath, canonical};
use std::alloc::Global;
use std::collections::BTreeMap;
use std::fs::DirEntry;
use std::{fs, io};

/// The files beneath a root, which directories were read, and what was changed.
#[derive(Drop)]
pub(crate) struct RootFiles<'a> {
    pub(crate) rt: &'a HostRuntime,
    pub(crate) root: Root,
    pub(crate) allowance: Allowance,
    /// The path by which each directory was read.
    known: BTreeMap<Identity, String>,
    /// Whether /lib/systemd is another directory than /usr/lib/systemd.
    has_own_lib: bool,
    pub(crate) maker: Maker<'a>,
    /// The directories in which something was changed, by their paths.
    pub(crate) changed: BTreeMap<String, Identity>,
    /// The directories that were made, each after the one that contains it.
    pub(crate) made: Vec<Made>,
    /// The mode and owner of the entries that were replaced or removed, by their paths.
    pub(crate) kept: BTreeMap<String, Kept>,
}

impl<'a> RootFiles<'a> {
    /// Locks a root for this run, which may read this number of MiB of it.
    pub fn take(
        rt: &'a HostRuntime,
        root: &str,
        hold: Hold,
        patience: Patience,
        most: u32,
    ) -> Result<RootFiles<'a>, Trouble> {
        let mut root = Root::take(rt, root, hold, patience)?;
        check_etc(rt, &mut root)?;
        let mut files = RootFiles {
            rt,
            has_own_lib: has_own_lib(rt, &mut root)?,
            root,
            allowance: Allowance::of(most),
            known: BTreeMap::new(rt.alloc()),
            maker: Maker::new(rt)?,
            changed: BTreeMap::new(rt.alloc()),
            made: Vec::new(rt.alloc()),
            kept: BTreeMap::new(rt.alloc()),
        };
        files.know_all()?;
        // (another root may become the working directory before this one is read)
        let _last = files.root.forget("/");
        Ok(files)
    }

    /// Notes the directories of units and of presets that exist: no two of them are the same.
    fn know_all(&mut self) -> Result<(), Trouble> {
        for directory in DIRECTORIES {
            if let Reached::There(here) = self.root.reach(self.rt, directory)? {
                self.know(directory, here.identity)?;
            }
        }
        Ok(())
    }

    /// Notes a directory that is read. It is an error if it was read by another path before.
    fn know(&mut self, path: &str, identity: Identity) -> Result<(), Trouble> {
        if self.is_known_elsewhere(path, identity) {
            return Err(hindered(self.rt.alloc(), path, Hindrance::ReachedTwice));
        }
        let path = String::from_str(self.rt.alloc(), path)?;
        let _before = self.known.insert(identity, path)?;
        Ok(())
    }

    /// Whether a directory was read by another path before.
    fn is_known_elsewhere(&self, path: &str, identity: Identity) -> bool {
        match self.known.get(&identity) {
            Some(known) => known.as_str() != path,
            None => false,
        }
    }

    /// Whether there is a link instead of a directory for links of dependencies: inventories have
    /// none there.
    pub(crate) fn is_link_for_dependencies(
        &mut self,
        alloc: Global,
        directory: &TreePath,
    ) -> Result<bool, Trouble> {
        if !is_for_dependencies(alloc, directory)? {
            return Ok(false);
        }
        let spot = spot_of(alloc, directory)?;
        match self.root.reach(self.rt, spot.directory)? {
            Reached::There(_) => match found_under(self.rt, spot.directory, spot.name)? {
                Some(found) => Ok(found.is_symlink()),
                None => Ok(false),
            },
            _ => Ok(false),
        }
    }

    /// The paths of what is in a directory.
    pub fn list(&mut self, alloc: Global, directory: &TreePath) -> Result<Listing, Trouble> {
        let text = text_of(alloc, directory.text())?;
        if self.is_link_for_dependencies(alloc, directory)? {
            return Ok(Listing::NoDirectory);
        }
        match self.root.reach(self.rt, text)? {
            Reached::There(here) => self.know(text, here.identity)?,
            Reached::Missing(_) => return Ok(Listing::Paths(Vec::new(alloc))),
            Reached::Nowhere => return Ok(Listing::NoDirectory),
        }
        self.list_here(alloc, text)
    }

    /// The paths of what is in the working directory.
    fn list_here(&mut self, alloc: Global, text: &str) -> Result<Listing, Trouble> {
        let mut paths = Vec::new(alloc);
        for found in at(alloc, text, fs::read_dir(self.rt, "."))? {
            self.allowance.take(alloc, text, length_of(text, &found))?;
            push_found(alloc, text, found, &mut paths)?;
        }
        Ok(Listing::Paths(paths))
    }

    /// What is at a path. If the way to it has too many links, that is nothing.
    pub fn look(&mut self, alloc: Global, path: &TreePath) -> Result<Found, Trouble> {
        let text = text_of(alloc, path.text())?;
        let spot = spot_of(alloc, path)?;
        let reached = or_nowhere(self.root.reach(self.rt, spot.directory), Reached::Nowhere)?;
        let Reached::There(here) = reached else {
            return Ok(Found::Nothing);
        };
        if self.is_known_elsewhere(spot.directory, here.identity) {
            return Err(hindered(alloc, text, Hindrance::ReachedTwice));
        }
        let found = look_under(self.rt, text, spot.name)?;
        self.allowance.take(alloc, text, bytes_of(&found))?;
        if let Found::Entry(Entry::Link(target)) = &found
            && let Some(why) = self.may_be_misread(target, here.is_straight)
            && !self.leads_as_written(alloc, path, target)?
        {
            return Err(hindered(alloc, text, why));
        }
        Ok(found)
    }

    /// Why a link may lead elsewhere than inventories assume.
    fn may_be_misread(&self, target: &Target, is_straight: bool) -> Option<Hindrance> {
        if may_go_astray(target.text(), is_straight) {
            Some(Hindrance::LeadsAstray)
        } else if self.has_own_lib {
            Some(Hindrance::LeadsIntoLib)
        } else {
            None
        }
    }

    /// Whether a link, with all links on the way followed, leads to the directory beneath the root
    /// to which it leads by its text.
    fn leads_as_written(
        &mut self,
        alloc: Global,
        path: &TreePath,
        target: &Target,
    ) -> Result<bool, Trouble> {
        match canonical(alloc, path, target.text())? {
            Some(written) => self.leads_to(alloc, path, target, &written),
            None => Ok(false),
        }
    }

    /// Whether a link leads to the directory of the path to which it leads by its text.
    fn leads_to(
        &mut self,
        alloc: Global,
        path: &TreePath,
        target: &Target,
        written: &TreePath,
    ) -> Result<bool, Trouble> {
        let target = text_of(alloc, target.text())?;
        let (above, name) = target.rsplit_once('/').unwrap_or(("", target));
        if name == ".." || name == "." || name.is_empty() {
            return Ok(false);
        }
        let really = if target.starts_with('/') {
            or_nowhere(self.root.way(self.rt, above), None)?
        } else {
            self.way_from(alloc, path, above)?
        };
        self.is_way_to(alloc, written, &really)
    }

    /// The way that starts in the directory of a path.
    fn way_from(
        &mut self,
        alloc: Global,
        path: &TreePath,
        rest: &str,
    ) -> Result<Option<Way>, Trouble> {
        let spot = spot_of(alloc, path)?;
        let joined = format!(in alloc; "{}/{rest}", spot.directory)?;
        or_nowhere(self.root.way(self.rt, joined.as_str()), None)
    }

    /// Whether this way leads to the directory of a path, or both lead nowhere.
    fn is_way_to(
        &mut self,
        alloc: Global,
        path: &TreePath,
        way: &Option<Way>,
    ) -> Result<bool, Trouble> {
        let directory = spot_of(alloc, path)?.directory;
        let by_text = or_nowhere(self.root.way(self.rt, directory), None)?;
        Ok(match (&by_text, way) {
            (Some(by_text), Some(really)) => by_text.names == really.names,
            (None, None) => true,
            _ => false,
        })
    }
}

/// The result of walking to where a link leads; a way with too many links leads nowhere.
fn or_nowhere<T: Drop>(found: Result<T, Trouble>, nowhere: T) -> Result<T, Trouble> {
    match found {
        Err(Trouble::At(_, Hindrance::TooManyLinks)) => Ok(nowhere),
        found => found,
    }
}

/// How many bytes of a file or of a link's target were found.
fn bytes_of(found: &Found) -> usize {
    match found {
        Found::Nothing | Found::Odd(_) => 0,
        Found::Entry(Entry::File(contents)) => contents.bytes().len(),
        Found::Entry(Entry::Link(target)) => target.text().len(),
    }
}

/// How many bytes the path of what was found in a directory has.
fn length_of(directory: &str, found: &io::Result<DirEntry>) -> usize {
    match found {
        Ok(entry) => directory
            .len()
            .saturating_add(1)
            .saturating_add(entry.file_name().len()),
        Err(_) => 0,
    }
}

/// Adds the path of a name that was found in a directory, unless the name is reserved for
/// unitroot's new files.
fn push_found(
    alloc: Global,
    directory: &str,
    found: io::Result<DirEntry>,
    paths: &mut Vec<TreePath>,
) -> Result<(), Trouble> {
    match found {
        Ok(entry) if is_reserved(entry.file_name().as_bytes()) => Ok(()),
        Ok(entry) => push_named(alloc, directory, entry.file_name(), paths),
        // (a name that isn't UTF-8 gives no path)
        Err(e) if e.kind() == io::ErrorKind::InvalidFilename => Ok(()),
        Err(e) => at(alloc, directory, Err(e)),
    }
}

/// Adds the path of this name in a directory, if there is such a path.
fn push_named(
    alloc: Global,
    directory: &str,
    name: &str,
    paths: &mut Vec<TreePath>,
) -> Result<(), Trouble> {
    let path = format!(in alloc; "{directory}/{name}")?;
    match TreePath::parse(alloc, path.as_str().as_bytes()) {
        Ok(path) => Ok(paths.push(path)?),
        Err(PathError::BadPath) => Ok(()),
        Err(PathError::OutOfMemory) => Err(Trouble::OutOfMemory),
    }
}
