//! An entry of a tree with its path, shared by the pieces that hold it.
ghost use Rattle.std.specs.Prelude.{◌≡◌, IfOk};

use crate::entry::Entry;
use std::alloc::{AllocError, Global};
use std::marker::Model;
use std::sync::Arc;
use unit_paths::TreePath;

/// A path and the entry at it, so that another tree can share both (`Tree::share_in`). Contracts
/// see the pair.
#[derive(Debug, Drop)]
pub struct PlacedEntry {
    parts: Arc<(TreePath, Entry)>,
}

impl Model for PlacedEntry {
    ghost use Rattle.std.specs.Prelude.{List, ℕ};
    ghost use Rattle.std.specs.Arc.{arc_value};
    ghost use Rattle.std.specs.Coded.{coded×};
    ghost use Rattle.link_tree.specs.Values.{coded_path, coded_entry};
    ghost use Rattle.link_tree.specs.declared.entry.Entry.{Entry};

    ghost Value = { List ℕ × Entry };

    ghost coded = { coded× coded_path coded_entry };

    ghost view = { λ placed. arc_value placed.parts };
}

impl Clone for PlacedEntry {
    ghost is_clone = { λ placed copy. copy ≡ placed };

    fn clone(&self) -> Result<PlacedEntry, AllocError> {
        Ok(PlacedEntry {
            parts: self.parts.clone()?,
        })
    }
}

impl PlacedEntry {
    pub(crate) fn new(
        alloc: Global,
        path: TreePath,
        entry: Entry,
    ) -> Result<PlacedEntry, AllocError>
        ensures { IfOk result (λ placed. placed ≡ (path, entry)) }
    {
        Ok(PlacedEntry {
            parts: Arc::new(alloc, (path, entry))?,
        })
    }

    /// The path.
    pub fn path(&self) -> &TreePath
        ensures { result.now ≡ self.now.0 }
    {
        &self.parts.0
    }

    /// The entry at the path.
    pub fn entry(&self) -> &Entry
        ensures { result.now ≡ self.now.1 }
    {
        &self.parts.1
    }
}
