//! Paths that are no slots, and must be captured since calls look there.

use footprint::{Key, Reading};
use history::Row;
use link_tree::{PathError, Slot, Tree, TreePath};
use std::alloc::{AllocError, Global};
use std::collections::BTreeSet;
use unit_script::Action;

/// Paths that are captured besides the slots, and what their links lead to.
#[derive(Drop)]
pub struct Paths {
    set: BTreeSet<TreePath>,
}

impl Paths {
    pub fn none(alloc: Global) -> Paths {
        Paths {
            set: BTreeSet::new(alloc),
        }
    }

    /// Adds a path, unless it is a slot: slots are read anyway. Returns whether it was added.
    pub fn add(&mut self, path: &TreePath) -> Result<bool, AllocError> {
        if Slot::of(path).is_some() || self.set.contains(path) {
            return Ok(false);
        }
        Ok(self.set.insert(path.copy()?)?)
    }

    /// Adds the path that a word of a call is, if it is one.
    fn add_word(&mut self, alloc: Global, word: &[u8]) -> Result<(), AllocError> {
        if !word.starts_with(b"/") {
            return Ok(());
        }
        match TreePath::parse(alloc, word) {
            Ok(path) => {
                let _is_new = self.add(&path)?;
                Ok(())
            }
            Err(PathError::BadPath) => Ok(()),
            Err(PathError::OutOfMemory) => Err(AllocError),
        }
    }

    /// Adds the paths that calls name.
    pub fn add_named(&mut self, alloc: Global, lines: &[u8]) -> Result<(), AllocError> {
        for word in lines.split(|b| *b == b' ' || *b == b'\n') {
            self.add_word(alloc, word)?;
        }
        Ok(())
    }

    /// Adds the paths of a tree.
    fn add_tree(&mut self, tree: &Tree) -> Result<(), AllocError> {
        for (path, _entry) in tree.iter() {
            let _is_new = self.add(path)?;
        }
        Ok(())
    }

    /// These paths, and those of a tree.
    pub fn with_tree(&mut self, alloc: Global, tree: &Tree) -> Result<Vec<TreePath>, AllocError> {
        self.add_tree(tree)?;
        let mut paths = Vec::new(alloc);
        for path in &self.set {
            paths.push(path.copy()?)?;
        }
        Ok(paths)
    }

    /// Adds the paths at which a row looked, unless they are in a tree. Returns whether there were
    /// any new ones.
    fn add_reading(&mut self, tree: &Tree, reading: &Reading) -> Result<bool, AllocError> {
        let mut is_more = false;
        for observation in reading.as_slice() {
            if let Key::Cell(path) = &observation.key
                && tree.get(path).is_none()
                && self.add(path)?
            {
                is_more = true;
            }
        }
        Ok(is_more)
    }

    /// The same for rows.
    pub fn add_looked_at(&mut self, tree: &Tree, rows: &[Row<Action>]) -> Result<bool, AllocError> {
        let mut is_more = false;
        for row in rows {
            if self.add_reading(tree, &row.reading)? {
                is_more = true;
            }
        }
        Ok(is_more)
    }
}
