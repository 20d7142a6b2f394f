//! What an operation looks at.
ghost use Rattle.std.specs.Prelude.{◌≡◌, IfOk};
ghost use Rattle.tree_access.specs.Keys.{is_cell, selects};
ghost use Rattle.tree_access.specs.Order.{rank};
ghost use Rattle.tree_access.specs.Seeing.{is_marked, walks};

use link_tree::{Entry, Scope, Slot, TreePath, belongs};
use std::alloc::AllocError;
use unit_name::UnitName;

/// What an operation looks at in a tree; together its keys are its footprint. In a reading, cells
/// are first, in byte order of their paths, then the links that belong to names, those of `/etc`
/// first, in byte order of the names, then `Presets`, then `Links`.
#[derive(Debug, Drop)]
pub enum Key {
    /// The entry at a path.
    Cell(TreePath),
    /// The links of a scope that belong to a name.
    Marked(Scope, UnitName),
    /// The entries at the slots of presets.
    Presets,
    /// The entries at the slots of dependencies: in `.wants`, `.requires` and `.upholds`
    /// directories.
    Links,
}

/// Fills a list's unused capacity; it is never read.
impl Default for Key {
    ghost use Rattle.std.specs.Prelude.{◌≡◌};
    ghost use Rattle.tree_access.specs.declared.key.Key.TheVariants.{Links};

    ghost is_default = { λ key. key ≡ Links };

    fn default() -> Key {
        Key::Links
    }
}

impl Key {
    /// A copy of the key. Fails only if memory runs out.
    pub fn copy(&self) -> Result<Key, AllocError>
        ensures { IfOk result (λ key. key ≡ self.now) }
    {
        match self {
            Key::Cell(path) => Ok(Key::Cell(path.copy()?)),
            Key::Marked(scope, name) => Ok(Key::Marked(*scope, name.copy()?)),
            Key::Presets => Ok(Key::Presets),
            Key::Links => Ok(Key::Links),
        }
    }

    /// Whether it looks at the entry at a path.
    pub(crate) fn is_cell(&self) -> bool
        ensures { result ≡ is_cell self.now }
    {
        matches!(self, Key::Cell(_))
    }

    /// Whether it looks at the links that belong to a name, which are found by a look-up.
    pub(crate) fn is_marked(&self) -> bool
        ensures { result ≡ is_marked self.now }
    {
        matches!(self, Key::Marked(..))
    }

    /// Whether all entries of the tree must be scanned for it.
    pub(crate) fn walks(&self) -> bool
        ensures { result ≡ walks self.now }
    {
        matches!(self, Key::Presets | Key::Links)
    }

    /// The rank of keys of its kind in the order of keys.
    pub(crate) fn rank(&self) -> u8
        ensures { result ≡ rank self.now }
    {
        match self {
            Key::Cell(_) => 0,
            Key::Marked(..) => 1,
            Key::Presets => 2,
            Key::Links => 3,
        }
    }

    /// Whether it looks at an entry, judged by the entry's path.
    pub(crate) fn selects(&self, path: &TreePath, entry: &Entry) -> bool
        ensures { result ≡ selects self.now path.now entry.now }
    {
        match self {
            Key::Cell(cell) => path.text() == cell.text(),
            Key::Marked(scope, name) => belongs(*scope, name, path, entry),
            Key::Presets => Slot::is_of_preset(path),
            Key::Links => Slot::is_of_dependency(path),
        }
    }
}
