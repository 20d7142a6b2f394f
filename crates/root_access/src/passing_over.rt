//! A root whose odd entries are passed over and noted, as what only lists units reads it.
ghost use Rattle.std.specs.Prelude.{◌≡◌, [], Some, None};
ghost use Rattle.disk.specs.Disks.{failures_after};

use crate::everything::DIRECTORIES;
use crate::failure::{Failure, Reason, capture_failure, reason_of, shown_path};
use crate::links::with_link;
use disk::{CaptureError, Disk, DiskError, Found, Listing, capture};
use link_tree::{Entry, Slot, Tree, TreePath};
use real_roots::{Hindrance, RealDisk, Trouble};
use std::alloc::Global;
use std::collections::BTreeSet;
use std::io;

/// A line for each entry that was passed over: its path, and what is odd about it.
pub type Warnings = BTreeSet<String>;

/// A root, and what was passed over in it.
#[derive(Drop)]
struct OddRoot<'a> {
    disk: RealDisk<'a>,
    warnings: Warnings,
    /// Why the root can't be read.
    trouble: Option<Trouble>,
}

/// Whether a trouble is with one entry alone, so that all others can be read.
fn is_with_one_entry(trouble: &Trouble) -> bool {
    match trouble {
        Trouble::System(_, e) => e.kind() == io::ErrorKind::PermissionDenied,
        Trouble::At(_, Hindrance::ReachedTwice | Hindrance::LeadsAstray) => true,
        Trouble::At(_, Hindrance::LeadsIntoLib) => true,
        Trouble::At(_, _) | Trouble::Changed(_) | Trouble::Busy | Trouble::OutOfMemory => false,
        Trouble::TooMuch(_, _) => false,
    }
}

/// Whether it is one of the directories of units or of presets.
fn is_of_slots(directory: &TreePath) -> bool {
    DIRECTORIES
        .iter()
        .any(|it| it.as_bytes() == directory.text())
}

impl<'a> OddRoot<'a> {
    fn warn(&mut self, alloc: Global, path: &TreePath, reason: Reason) -> Result<(), DiskError> {
        let path = shown_path(alloc, path)?;
        let line = format!(in alloc; "{path}: {reason}")?;
        let _is_new = self.warnings.insert(line)?;
        Ok(())
    }

    /// Passes over what failed at a path.
    ///
    /// Error: all others would fail too.
    fn pass_over(&mut self, alloc: Global, path: &TreePath) -> Result<(), DiskError> {
        let Some(trouble) = self.disk.take_trouble() else {
            return Err(DiskError::Failed);
        };
        let trouble = match Slot::of(path) {
            Some(_) => trouble,
            None => with_link(alloc, &mut self.disk, trouble),
        };
        if !is_with_one_entry(&trouble) {
            self.trouble = Some(trouble);
            return Err(DiskError::Failed);
        }
        let line = format!(in alloc; "{trouble}")?;
        let _is_new = self.warnings.insert(line)?;
        Ok(())
    }

    /// The paths of what is in a directory. An odd one for dependencies has none.
    fn list(&mut self, alloc: Global, directory: &TreePath) -> Result<Listing, DiskError> {
        let listed = self.disk.list(alloc, directory);
        if is_of_slots(directory) {
            return listed;
        }
        match listed {
            Ok(Listing::NoDirectory) => self.warn(alloc, directory, Reason::NoDirectory)?,
            Err(DiskError::Failed) => self.pass_over(alloc, directory)?,
            listed => return listed,
        }
        Ok(Listing::Paths(Vec::new(alloc)))
    }

    /// What is at a path. What is odd counts as nothing.
    fn look(&mut self, alloc: Global, path: &TreePath) -> Result<Found, DiskError> {
        match self.disk.look(alloc, path) {
            Ok(Found::Odd(oddity)) if Slot::of(path).is_some() => {
                self.warn(alloc, path, reason_of(oddity))?;
            }
            Err(DiskError::Failed) => self.pass_over(alloc, path)?,
            found => return found,
        }
        Ok(Found::Nothing)
    }

    /// What was captured, and what was passed over.
    fn end(
        self,
        alloc: Global,
        captured: Result<Tree, CaptureError>,
    ) -> Result<(Tree, Warnings), Failure> {
        match (captured, self.trouble) {
            (Ok(tree), _) => Ok((tree, self.warnings)),
            (Err(CaptureError::Failed), Some(trouble)) => Err(Failure::Root(trouble)),
            (Err(e), _) => {
                let mut disk = self.disk;
                Err(capture_failure(alloc, &mut disk, e))
            }
        }
    }
}

/// The same as a disk that is only read: nothing is ever done to it, and `put` and `take` always
/// fail.
#[derive(Drop)]
struct PassingOver<'a> {
    root: OddRoot<'a>,
    failures: u64,
}

impl<'a> PassingOver<'a> {
    /// Counts an error.
    fn counted<T: Drop>(&mut self, answer: Result<T, DiskError>) -> Result<T, DiskError>
        ensures same { result ≡ answer }
        ensures counted { self.new.failures ≡ failures_after self.old.failures result }
    {
        if let Err(DiskError::Failed) = &answer {
            self.failures = self.failures.saturating_add(1);
        }
        answer
    }
}

impl<'a> Disk for PassingOver<'a> {
    ghost holds = { λ disk. None };

    ghost failures = { λ disk. disk.failures };

    ghost done = { λ disk. Some [] };

    fn list(&mut self, alloc: Global, directory: &TreePath) -> Result<Listing, DiskError> {
        let listed = self.root.list(alloc, directory);
        self.counted(listed)
    }

    fn look(&mut self, alloc: Global, path: &TreePath) -> Result<Found, DiskError> {
        let found = self.root.look(alloc, path);
        self.counted(found)
    }

    fn put(
        &mut self,
        _path: &TreePath,
        _before: &Option<Entry>,
        _entry: &Entry,
    ) -> Result<(), DiskError> {
        self.counted(Err(DiskError::Failed))
    }

    fn take(&mut self, _path: &TreePath, _before: &Option<Entry>) -> Result<(), DiskError> {
        self.counted(Err(DiskError::Failed))
    }
}

/// Captures what is at all slots, at these paths, and where links lead from there, but for what is
/// odd there: each such entry has a line of the warnings.
pub fn captured_but_odd(
    alloc: Global,
    disk: RealDisk<'_>,
    paths: &[TreePath],
) -> Result<(Tree, Warnings), Failure> {
    let root = OddRoot {
        disk,
        warnings: BTreeSet::new(alloc),
        trouble: None,
    };
    let mut disk = PassingOver { root, failures: 0 };
    let captured = capture(alloc, &mut disk, paths);
    disk.root.end(alloc, captured)
}
