//! Entries by their paths, without the lists of names.
ghost use Rattle.std.specs.Prelude.{◌≡◌, IfOk, OnOk, OnErr, IsTrue, true, false, is_some, Some, ◌↔◌, ℕ, List, IsPermutation};
ghost use Rattle.std.specs.List.{list_any};
ghost use Rattle.std.specs.Map.Iter.{ShowsInOrder, deref_pair};
ghost use Rattle.std.specs.Option.{option_copied, option_map};
ghost use Rattle.std.specs.FinMap as map;
ghost use Rattle.unit_paths.specs.Slots.{is_slot};
ghost use Rattle.unit_paths.specs.Shape.{is_beneath};
ghost use Rattle.link_tree.specs.Shape.{fits_at, is_crowded, IsTree};
ghost use Rattle.link_tree.specs.Trees.{set_entry};
ghost use Rattle.link_tree.specs.Pieces.{joined, AreInOrder};

use crate::entry::Entry;
use crate::iter::Iter;
use crate::piece::Piece;
use crate::pieces::Pieces;
use crate::placed_entry::PlacedEntry;
use std::alloc::{AllocError, Global};
use std::marker::Model;
use std::sync::Arc;
use unit_paths::TreePath;

/// Entries by their paths, none beneath another and none where slots don't allow it: all of a tree,
/// or some of them. They are kept in pieces, in the byte order of the paths, and copies share
/// these: a change copies the piece in which it is made, and no other. Contracts see a finite map.
#[derive(Debug, Drop)]
pub struct TreePart {
    pieces: Arc<Pieces>,
}

impl Model for TreePart {
    ghost use Rattle.std.specs.FinMap as map;
    ghost use Rattle.std.specs.Arc.{arc_value};
    ghost use Rattle.link_tree.specs.Trees.{path_cmp};
    ghost use Rattle.link_tree.specs.Values.{coded_path, coded_entry};
    ghost use Rattle.link_tree.specs.declared.entry.Entry.{Entry};

    ghost Value = { map.FinMap path_cmp Entry };

    ghost coded = { map.code coded_path coded_entry };

    ghost view = { λ part. arc_value part.pieces };

    ghost use Rattle.link_tree.specs.Shape.{IsTree};

    ghost invariant = { λ part. IsTree (arc_value part.pieces) };
}

impl TreePart {
    /// A part with no entries.
    pub fn empty(alloc: Global) -> Result<TreePart, AllocError>
        ensures { IfOk result (λ part. part ≡ map.empty) }
    {
        Ok(TreePart {
            pieces: Arc::new(alloc, Pieces::none(alloc))?,
        })
    }

    /// The entry at the path.
    pub fn get(&self, path: &TreePath) -> Option<&Entry>
        ensures { option_copied result ≡ map.get self.now path.now }
    {
        self.pieces.get(path)
    }

    /// The entry at the path, with the path, to be shared with another tree.
    pub fn placed(&self, path: &TreePath) -> Option<&PlacedEntry>
        ensures { option_copied result ≡ option_map (λ entry. (path.now, entry)) (map.get self.now path.now) }
    {
        self.pieces.placed(path)
    }

    /// How many entries there are.
    pub fn len(&self) -> usize
        ensures { result ≡ map.len self.now }
    {
        self.pieces.len()
    }

    /// Whether the part is empty.
    pub fn is_empty(&self) -> bool
        ensures { IsTrue result ↔ (map.len self.now ≡ 0) }
    {
        self.len() == 0
    }

    /// Each path with its entry, once, in the byte order of the paths; contracts say only that each
    /// occurs once.
    pub fn iter(&self) -> Iter<'_>
        ensures entries { IsPermutation result (map.entries self.now) }
        ensures runs { ShowsInOrder (deref_pair {K = List ℕ} {X = Entry}) }
    {
        Iter::new(self.pieces())
    }

    /// An equal part, which shares its pieces with this one and allocates no memory.
    pub fn share(&self) -> Result<TreePart, AllocError>
        ensures { IfOk result (λ part. part ≡ self.now) }
    {
        Ok(TreePart {
            pieces: self.pieces.clone()?,
        })
    }

    /// An equal part: the same as `share`.
    pub fn copy(&self) -> Result<TreePart, AllocError>
        ensures { IfOk result (λ part. part ≡ self.now) }
    {
        self.share()
    }

    /// The entries are allowed at their paths, and none is beneath another.
    pub fn shape(&self)
        ensures { IsTree self.now }
    {
        let _pieces = &self.pieces;
    }

    /// Puts an entry of another tree at its slot, replacing the one there, and shares it with that
    /// tree.
    pub fn share_in(&mut self, placed: &PlacedEntry) -> Result<(), AllocError>
        requires { is_slot placed.now.0 ≡ true }
        ensures ok { OnOk result (self.new ≡ set_entry self.old placed.now.0 (Some placed.now.1)) }
        ensures err { OnErr result (self.new ≡ self.old) }
    {
        let _path = placed.path().text();
        let _valid = placed.entry().bytes();
        self.shape();
        self.put(placed.clone()?)?;
        Ok(())
    }
}

impl TreePart {
    /// The entries in pieces, in the byte order of the paths.
    pub(crate) fn pieces(&self) -> &[Piece]
        ensures entries { joined result.now ≡ map.entries self.now }
        ensures order { AreInOrder result.now }
    {
        self.pieces.pieces()
    }

    /// The allocator that the entries use.
    pub(crate) fn allocator(&self) -> Global {
        self.pieces.allocator()
    }

    /// Puts an entry at the path, and returns whether it replaced another.
    pub(crate) fn insert(&mut self, path: TreePath, entry: Entry) -> Result<bool, AllocError>
        requires fits { fits_at path entry ≡ true }
        requires apart { is_crowded self.old path ≡ false }
        ensures ok { OnOk result (self.new ≡ map.insert self.old path entry) }
        ensures stood { IfOk result (λ stood. stood ≡ is_some (map.get self.old path)) }
        ensures err { OnErr result (self.new ≡ self.old) }
    {
        let placed = PlacedEntry::new(self.pieces.allocator(), path, entry)?;
        self.put(placed)
    }

    /// The same, for an entry that has its path with it.
    pub(crate) fn put(&mut self, placed: PlacedEntry) -> Result<bool, AllocError>
        requires fits { fits_at placed.0 placed.1 ≡ true }
        requires apart { is_crowded self.old placed.0 ≡ false }
        ensures ok { OnOk result (self.new ≡ map.insert self.old placed.0 placed.1) }
        ensures stood { IfOk result (λ stood. stood ≡ is_some (map.get self.old placed.0)) }
        ensures err { OnErr result (self.new ≡ self.old) }
    {
        Arc::make_mut(&mut self.pieces)?.put(placed)
    }

    /// Removes the entry at the path.
    pub(crate) fn remove(&mut self, path: &TreePath) -> Result<(), AllocError>
        ensures ok { OnOk result (self.new ≡ map.remove self.old path.now) }
        ensures err { OnErr result (self.new ≡ self.old) }
    {
        Arc::make_mut(&mut self.pieces)?.remove(path)
    }

    /// Whether an entry is beneath the path, or the path beneath an entry.
    pub(crate) fn is_crowded(&self, path: &TreePath) -> Result<bool, AllocError>
        ensures { IfOk result (λ crowded. crowded ≡ is_crowded self.now path.now) }
    {
        self.shape();
        Ok(self.has_above(path)? || self.has_beneath(path)?)
    }

    /// Whether the path is beneath an entry: each directory above it is looked up.
    fn has_above(&self, path: &TreePath) -> Result<bool, AllocError>
        requires { IsTree self.now }
        ensures { IfOk result (λ found. found ≡ list_any (is_beneath path.now) (map.keys self.now)) }
    {
        let path = path.copy()?;
        let mut above = path.into_parent();
        'above: while let Some(dir) = above {
            if self.get(&dir).is_some() {
                return Ok(true);
            }
            above = dir.into_parent();
        }
        Ok(false)
    }

    /// Whether an entry is beneath the path: the first that could be is looked up.
    fn has_beneath(&self, path: &TreePath) -> Result<bool, AllocError>
        requires { IsTree self.now }
        ensures { IfOk result (λ found. found ≡ list_any (λ other. is_beneath other path.now) (map.keys self.now)) }
    {
        let Some(first) = path.first_beneath()? else {
            return Ok(false);
        };
        match self.pieces.first_from(&first) {
            Some(item) => Ok(item.path().is_beneath(path)),
            None => Ok(false),
        }
    }
}
