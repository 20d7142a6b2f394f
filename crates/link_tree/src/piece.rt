//! Pieces of a tree: consecutive entries, shared by copies until one of them is changed.
ghost use Rattle.std.specs.Prelude.{◌≡◌, ◌≤◌, ◌<◌, ◌+◌, ◌++◌, ◌∷◌, [], length, take, drop, slice_set, IfOk, OnOk, OnErr, IsTrue, true, ◌↔◌};
ghost use Rattle.std.specs.FinMap.{is_sorted};
ghost use Rattle.link_tree.specs.Trees.{path_cmp};
ghost use Rattle.link_tree.specs.Pieces.{AllBelow, StartsFrom, ends_before};
ghost use Rattle.link_tree.specs.declared.piece.TheConstants.{MAX_PIECE};

use crate::placed_entry::PlacedEntry;
use std::alloc::{AllocError, Global};
use std::marker::Model;
use std::sync::Arc;
use unit_paths::TreePath;

/// The number of entries at which a piece is split in two.
const MAX_PIECE: usize = 128;

/// Entries in the byte order of their paths. Contracts see their list.
#[derive(Debug, Drop)]
pub(crate) struct Piece {
    items: Arc<Vec<PlacedEntry>>,
}

impl Model for Piece {
    ghost use Rattle.std.specs.Prelude.{List, ℕ};
    ghost use Rattle.std.specs.Arc.{arc_value};
    ghost use Rattle.std.specs.Coded.{coded_list, coded×};
    ghost use Rattle.link_tree.specs.Values.{coded_path, coded_entry};
    ghost use Rattle.link_tree.specs.declared.entry.Entry.{Entry};

    ghost Value = { List (List ℕ × Entry) };

    ghost coded = { coded_list (coded× coded_path coded_entry) };

    ghost view = { λ piece. (arc_value piece.items).items };
}

impl Clone for Piece {
    ghost is_clone = { λ piece copy. copy ≡ piece };

    fn clone(&self) -> Result<Piece, AllocError> {
        Ok(Piece {
            items: self.items.clone()?,
        })
    }
}

impl Piece {
    /// A piece of one entry.
    pub(crate) fn of_one(alloc: Global, placed: PlacedEntry) -> Result<Piece, AllocError>
        ensures { IfOk result (λ piece. piece ≡ placed ∷ []) }
    {
        let mut items = Vec::new(alloc);
        items.push(placed)?;
        Ok(Piece {
            items: Arc::new(alloc, items)?,
        })
    }

    /// The entries.
    pub(crate) fn items(&self) -> &[PlacedEntry]
        ensures { result.now ≡ self.now }
    {
        &self.items
    }

    /// Whether it must be split in two before an entry is added.
    pub(crate) fn is_full(&self) -> bool
        ensures { IsTrue result ↔ (MAX_PIECE ≤ length self.now) }
    {
        self.items.len() >= MAX_PIECE
    }

    /// Whether its last entry comes before the path.
    pub(crate) fn ends_before(&self, path: &TreePath) -> bool
        ensures { result ≡ ends_before path.now self.now }
    {
        match self.items.last() {
            Some(last) => *last.path() < *path,
            None => false,
        }
    }

    /// The place where the path is or would be inserted.
    pub(crate) fn place_of(&self, path: &TreePath) -> usize
        requires sorted { is_sorted path_cmp self.now ≡ true }
        ensures bound { result ≤ length self.now }
        ensures below { AllBelow path.now (take result self.now) }
        ensures from { StartsFrom path.now (drop result self.now) }
    {
        self.items().partition_point(|item| *item.path() < *path)
    }

    /// Puts an entry before the one at this place, or at the end.
    pub(crate) fn insert(&mut self, at: usize, placed: PlacedEntry) -> Result<(), AllocError>
        requires { at ≤ length self.old }
        ensures ok { OnOk result (self.new ≡ take at self.old ++ placed ∷ drop at self.old) }
        ensures err { OnErr result (self.new ≡ self.old) }
    {
        Arc::make_mut(&mut self.items)?.insert(at, placed)?;
        Ok(())
    }

    /// Replaces the entry at this place.
    pub(crate) fn replace(&mut self, at: usize, placed: PlacedEntry) -> Result<(), AllocError>
        requires { at < length self.old }
        ensures ok { OnOk result (self.new ≡ slice_set self.old at placed) }
        ensures err { OnErr result (self.new ≡ self.old) }
    {
        Arc::make_mut(&mut self.items)?[at] = placed;
        Ok(())
    }

    /// Removes the entry at this place.
    pub(crate) fn remove(&mut self, at: usize) -> Result<(), AllocError>
        requires { at < length self.old }
        ensures ok { OnOk result (self.new ≡ take at self.old ++ drop (at + 1) self.old) }
        ensures err { OnErr result (self.new ≡ self.old) }
    {
        Arc::make_mut(&mut self.items)?.remove(at);
        Ok(())
    }

    /// Splits it in two: this piece keeps the entries before the place, and the others are returned
    /// as a piece.
    pub(crate) fn split_off(&mut self, alloc: Global, at: usize) -> Result<Piece, AllocError>
        requires { at ≤ length self.old }
        ensures kept { OnOk result (self.new ≡ take at self.old) }
        ensures cut { IfOk result (λ rest. rest ≡ drop at self.old) }
        ensures err { OnErr result (self.new ≡ self.old) }
    {
        let mut items = Arc::new(alloc, Vec::new(alloc))?;
        let room = Arc::make_mut(&mut items)?;
        *room = Arc::make_mut(&mut self.items)?.split_off(at)?;
        Ok(Piece { items })
    }
}
