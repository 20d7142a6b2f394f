//! Changes beneath a root.
ghost use Rattle.std.specs.Prelude.{◌≡◌, ◌↔◌, true, Err, OnOk, IfErr};
ghost use Rattle.real_roots.specs.Errors.{IsKeptOrGone, MayStay};

use crate::identity::{Identity, found_under};
use crate::making::{Kept, sync_here};
use crate::names::{is_for_dependencies, spot_of, text_of};
use crate::root::Reached;
use crate::root_files::RootFiles;
use crate::trouble::{Hindrance, Trouble, at, changed, hindered};
use crate::way::{Way, enter_name};
use link_tree::{Entry, PathError, TreePath};
use std::alloc::Global;
use std::collections::BTreeMap;
use std::{fs, io, mem};

/// A directory that was made, as the names on the way to it, none of which is a link.
#[derive(Debug, Drop)]
pub(crate) struct Made {
    names: Vec<String>,
    identity: Identity,
}

/// The first error among several results.
fn first_of(one: Result<(), Trouble>, other: Result<(), Trouble>) -> Result<(), Trouble>
    ensures ok { OnOk one (result ≡ other) }
    ensures err { IfErr one (λ trouble. result ≡ Err trouble) }
{
    match one {
        Ok(()) => other,
        Err(trouble) => Err(trouble),
    }
}

fn path_of(alloc: Global, text: &str) -> Result<Option<TreePath>, Trouble> {
    match TreePath::parse(alloc, text.as_bytes()) {
        Ok(path) => Ok(Some(path)),
        Err(PathError::BadPath) => Ok(None),
        Err(PathError::OutOfMemory) => Err(Trouble::OutOfMemory),
    }
}

impl<'a> RootFiles<'a> {
    /// Puts an entry at a path.
    pub fn put(
        &mut self,
        path: &TreePath,
        before: &Option<Entry>,
        entry: &Entry,
    ) -> Result<(), Trouble> {
        let text = text_of(self.rt.alloc(), path.text())?;
        let spot = spot_of(self.rt.alloc(), path)?;
        self.enter_to_change(text, spot.directory, before.is_none())?;
        let kept = self.kept_of(text, spot.name, before.is_some())?;
        self.maker
            .put_under(text, &spot, entry, before.is_none(), kept)
    }

    /// Removes the entry at a path.
    pub fn take_away(&mut self, path: &TreePath) -> Result<(), Trouble> {
        let text = text_of(self.rt.alloc(), path.text())?;
        let spot = spot_of(self.rt.alloc(), path)?;
        self.enter_to_change(text, spot.directory, false)?;
        let _kept = self.kept_of(text, spot.name, true)?;
        at(self.rt.alloc(), text, fs::remove_file(self.rt, spot.name))
    }

    /// The mode and the owner for an entry that is put at this path: those of the first entry that
    /// was replaced or removed there.
    fn kept_of(&mut self, path: &str, name: &str, is_there: bool) -> Result<Option<Kept>, Trouble> {
        if let Some(kept) = self.kept.get(path) {
            return Ok(Some(*kept));
        }
        if !is_there {
            return Ok(None);
        }
        let Some(found) = found_under(self.rt, path, name)? else {
            return Err(changed(self.rt.alloc(), path));
        };
        let kept = Kept::of(&found);
        let path = String::from_str(self.rt.alloc(), path)?;
        let _before = self.kept.insert(path, kept)?;
        Ok(Some(kept))
    }

    /// Changes to the directory of a change, and makes it if it doesn't exist. Before the first
    /// change in it the way to it is walked again: it must lead to the directory that was read
    /// before.
    fn enter_to_change(
        &mut self,
        path: &str,
        directory: &str,
        may_make: bool,
    ) -> Result<(), Trouble> {
        let known = self.changed.get(directory).copied();
        let seen = match known {
            Some(identity) => Some(identity),
            None => self.seen_before(directory)?,
        };
        match self.root.reach(self.rt, directory)? {
            Reached::There(here) => match seen {
                Some(seen) if seen != here.identity => Err(changed(self.rt.alloc(), directory)),
                _ if known.is_some() => Ok(()),
                _ => self.begin_changes(directory, here.identity),
            },
            Reached::Missing(way) if may_make && seen.is_none() => {
                self.enter_made(path, directory, &way)
            }
            Reached::Missing(_) => Err(changed(self.rt.alloc(), directory)),
            Reached::Nowhere => Err(hindered(self.rt.alloc(), path, Hindrance::NoDirectory)),
        }
    }

    /// Returns which directory was reached by this path before the first change in it. The next
    /// time the way to it is walked again.
    fn seen_before(&mut self, directory: &str) -> Result<Option<Identity>, Trouble> {
        let seen = self.root.forget(directory);
        self.refuse_linked(directory)?;
        Ok(seen)
    }

    /// The first change in a directory, which is the working directory.
    fn begin_changes(&mut self, directory: &str, identity: Identity) -> Result<(), Trouble> {
        self.maker.clear_leftovers(directory)?;
        self.note_changed(directory, identity)
    }

    fn note_changed(&mut self, directory: &str, identity: Identity) -> Result<(), Trouble> {
        let directory = String::from_str(self.rt.alloc(), directory)?;
        let _before = self.changed.insert(directory, identity)?;
        Ok(())
    }

    /// Refuses to change anything through a link that is there instead of a directory for
    /// dependencies.
    fn refuse_linked(&mut self, directory: &str) -> Result<(), Trouble> {
        let alloc = self.rt.alloc();
        if let Some(path) = path_of(alloc, directory)?
            && self.is_link_for_dependencies(alloc, &path)?
        {
            return Err(hindered(alloc, directory, Hindrance::NoDirectory));
        }
        Ok(())
    }

    /// Changes to a directory, and makes its missing parts with mode 755.
    pub(crate) fn enter_made(
        &mut self,
        path: &str,
        directory: &str,
        way: &Way,
    ) -> Result<(), Trouble> {
        let alloc = self.rt.alloc();
        self.root.enter(self.rt)?;
        for (depth, name) in way.names.iter().enumerate() {
            if depth == way.there {
                self.maker.clear_leftovers(path)?;
            }
            if depth >= way.there {
                let identity = self.maker.make_directory(path, name.as_str())?;
                self.made.push(Made {
                    names: copies(alloc, &way.names[..depth + 1])?,
                    identity,
                })?;
                self.maker.sync_changed(path)?;
            }
            enter_name(self.rt, path, name.as_str())?;
        }
        let identity = Identity::here(self.rt, path)?;
        self.note_changed(directory, identity)
    }

    /// Writes the directories in which something was changed to the disk, each once, and removes
    /// those for dependencies that are empty now. The way to each is walked again: if it leads to
    /// another directory than before, what was changed may be elsewhere. After that, nothing is
    /// known of this run: this process may make another one.
    ///
    /// Error: the first; the other directories are still written.
    pub fn settle(&mut self) -> Result<(), Trouble> {
        let alloc = self.rt.alloc();
        let _last = self.root.forget("/");
        let directories = mem::replace(&mut self.changed, BTreeMap::new(alloc));
        let mut settled = Ok(());
        for (directory, identity) in &directories {
            let one = self.settle_one(directory.as_str(), *identity);
            settled = first_of(settled, one);
        }
        let settled = first_of(settled, self.clear_left());
        if settled.is_ok() {
            self.forget_run();
        }
        settled
    }

    /// Forgets which directories were made, and the mode and owner of what was replaced or removed.
    fn forget_run(&mut self) {
        let alloc = self.rt.alloc();
        let _made = mem::replace(&mut self.made, Vec::new(alloc));
        let _kept = mem::replace(&mut self.kept, BTreeMap::new(alloc));
    }

    /// After some changes were made that could not be reversed: removes what is left under the name
    /// for new things, and writes the directories in which something was changed to the disk. Those
    /// that are empty now stay.
    pub fn settle_half(&mut self) {
        let alloc = self.rt.alloc();
        let _last = self.root.forget("/");
        // (errors are dropped on purpose: the run has failed, and its own errors are reported)
        let _cleared = self.clear_left();
        let directories = mem::replace(&mut self.changed, BTreeMap::new(alloc));
        for (directory, identity) in &directories {
            let _written = self.write_one(directory.as_str(), *identity);
        }
    }

    /// Writes a directory in which something was changed to the disk.
    fn write_one(&mut self, directory: &str, identity: Identity) -> Result<(), Trouble> {
        match self.root.reach(self.rt, directory)? {
            Reached::There(here) if here.identity == identity => self.maker.sync_changed(directory),
            Reached::There(_) | Reached::Missing(_) | Reached::Nowhere => {
                Err(changed(self.rt.alloc(), directory))
            }
        }
    }

    fn settle_one(&mut self, directory: &str, identity: Identity) -> Result<(), Trouble> {
        let alloc = self.rt.alloc();
        self.write_one(directory, identity)?;
        match path_of(alloc, directory)? {
            Some(path) if is_for_dependencies(alloc, &path)? => self.remove_if_empty(&path),
            _ => Ok(()),
        }
    }

    /// Removes a directory for dependencies, unless it may stay.
    fn remove_if_empty(&mut self, directory: &TreePath) -> Result<(), Trouble> {
        let spot = spot_of(self.rt.alloc(), directory)?;
        let Reached::There(_) = self.root.reach(self.rt, spot.directory)? else {
            return Err(changed(self.rt.alloc(), spot.directory));
        };
        let text = text_of(self.rt.alloc(), directory.text())?;
        match fs::remove_dir(self.rt, spot.name) {
            Ok(()) => self.maker.sync_changed(spot.directory),
            Err(e) if may_stay(e.kind()) => Ok(()),
            Err(e) => at(self.rt.alloc(), text, Err(e)),
        }
    }

    /// After all changes were reversed: removes the directories that were made, unless something is
    /// in them, and writes those in which something was changed to the disk.
    ///
    /// Error: the first; the rest is still done.
    pub fn settle_back(&mut self) -> Result<(), Trouble> {
        let alloc = self.rt.alloc();
        let mut settled = self.clear_left();
        let made = mem::replace(&mut self.made, Vec::new(alloc));
        for directory in made.iter().rev() {
            let _last = self.root.forget("/");
            let one = self.remove_made(directory);
            settled = first_of(settled, one);
        }
        let _last = self.root.forget("/");
        let directories = mem::replace(&mut self.changed, BTreeMap::new(alloc));
        for (directory, identity) in &directories {
            let one = self.settle_back_one(directory.as_str(), *identity);
            settled = first_of(settled, one);
        }
        settled
    }

    /// Removes a directory that was made, if it is still in its place.
    fn remove_made(&self, made: &Made) -> Result<(), Trouble> {
        let Some((name, above)) = made.names.split_last() else {
            return Ok(());
        };
        let path = path_of_names(self.rt.alloc(), &made.names)?;
        self.root.enter(self.rt)?;
        for name in above {
            enter_name(self.rt, path.as_str(), name.as_str())?;
        }
        match found_under(self.rt, path.as_str(), name.as_str())? {
            Some(found) if Identity::of(&found) == made.identity => {
                self.remove_made_here(path.as_str(), name.as_str())
            }
            _ => Ok(()),
        }
    }

    /// Removes a directory of the working directory that was made, unless something is in it.
    fn remove_made_here(&self, path: &str, name: &str) -> Result<(), Trouble> {
        match fs::remove_dir(self.rt, name) {
            Ok(()) => self.maker.sync_changed(path),
            Err(e) if is_kept_or_gone(e.kind()) => Ok(()),
            Err(e) => at(self.rt.alloc(), path, Err(e)),
        }
    }

    /// Writes a directory to the disk, unless it was removed.
    fn settle_back_one(&mut self, directory: &str, identity: Identity) -> Result<(), Trouble> {
        match self.root.reach(self.rt, directory)? {
            Reached::There(here) if here.identity == identity => sync_here(self.rt, directory),
            Reached::There(_) => Err(changed(self.rt.alloc(), directory)),
            Reached::Missing(_) | Reached::Nowhere => Ok(()),
        }
    }

    /// Removes what is left under the name for new things because it could not be removed before.
    fn clear_left(&mut self) -> Result<(), Trouble> {
        let mut cleared = Ok(());
        let left = self.maker.take_left();
        for directory in &left {
            let one = self.clear_left_in(directory.as_str());
            cleared = first_of(cleared, one);
        }
        cleared
    }

    fn clear_left_in(&mut self, directory: &str) -> Result<(), Trouble> {
        match self.root.reach(self.rt, directory)? {
            Reached::There(_) => self.maker.clear_again(directory),
            Reached::Missing(_) | Reached::Nowhere => Ok(()),
        }
    }
}

/// Whether a directory could not be removed since something is in it, or there is none.
fn is_kept_or_gone(kind: io::ErrorKind) -> bool
    ensures { (result ≡ true) ↔ IsKeptOrGone kind }
{
    kind == io::ErrorKind::DirectoryNotEmpty
        || kind == io::ErrorKind::AlreadyExists
        || kind == io::ErrorKind::NotFound
}

/// Whether a directory that could not be removed may stay, since an empty one means nothing:
/// something is in it, it is none, it is a mount point, or this user may not remove it, or nobody
/// may where it is.
pub fn may_stay(kind: io::ErrorKind) -> bool
    ensures { (result ≡ true) ↔ MayStay kind }
{
    is_kept_or_gone(kind)
        || kind == io::ErrorKind::NotADirectory
        || kind == io::ErrorKind::ResourceBusy
        || kind == io::ErrorKind::PermissionDenied
        || kind == io::ErrorKind::ReadOnlyFilesystem
}

/// The path of a directory beneath the root, by the names on the way to it.
fn path_of_names(alloc: Global, names: &[String]) -> Result<String, Trouble> {
    let mut path = String::new(alloc);
    for name in names {
        path.push_str("/")?;
        path.push_str(name.as_str())?;
    }
    Ok(path)
}

fn copies(alloc: Global, names: &[String]) -> Result<Vec<String>, Trouble> {
    let mut copies = Vec::new(alloc);
    for name in names {
        copies.push(name.clone()?)?;
    }
    Ok(copies)
}
