//! The entries of a tree, one after another.
ghost use Rattle.std.specs.Prelude.{◌≡◌};
ghost use Rattle.std.specs.Map.Iter.{TakesFirst, deref};
ghost use Rattle.link_tree.specs.Pieces.{joined, NoneIsEmpty};

use crate::entry::Entry;
use crate::piece::Piece;
use crate::placed_entry::PlacedEntry;
use std::marker::Model;
use std::slice;
use unit_paths::TreePath;

/// The remaining entries of a tree, in the byte order of their paths. Contracts see their list.
#[derive(Drop)]
pub struct Iter<'a> {
    items: slice::Iter<'a, PlacedEntry>,
    pieces: slice::Iter<'a, Piece>,
}

impl<'a> Model for Iter<'a> {
    ghost use Rattle.std.specs.Prelude.{List, ℕ, ◌++◌};
    ghost use Rattle.std.specs.Slice.Iter.{iter_rest};
    ghost use Rattle.link_tree.specs.Values.{coded_path, coded_entry};
    ghost use Rattle.std.specs.Coded.{coded_list, coded×};
    ghost use Rattle.link_tree.specs.Pieces.{joined, NoneIsEmpty};
    ghost use Rattle.link_tree.specs.declared.entry.Entry.{Entry};

    ghost Value = { List (List ℕ × Entry) };

    ghost coded = { coded_list (coded× coded_path coded_entry) };

    ghost view = { λ iter. iter_rest iter.items ++ joined (iter_rest iter.pieces) };

    ghost invariant = { λ iter. NoneIsEmpty (iter_rest iter.pieces) };
}

impl<'a> Iter<'a> {
    pub(crate) fn new(pieces: &'a [Piece]) -> Iter<'a>
        requires { NoneIsEmpty pieces.now }
        ensures { result ≡ joined pieces.now }
    {
        let none: &[PlacedEntry] = &[];
        Iter {
            items: none.iter(),
            pieces: pieces.iter(),
        }
    }

    /// The next entry, with its path, to be shared with another tree.
    pub fn next_placed(&mut self) -> Option<&'a PlacedEntry>
        ensures { TakesFirst deref self.old result self.new }
    {
        if let Some(item) = self.items.next() {
            return Some(item);
        }
        let piece = self.pieces.next()?;
        self.items = piece.items().iter();
        self.items.next()
    }
}

impl<'a> Iterator for Iter<'a> {
    ghost use Rattle.std.specs.Prelude.{length};
    ghost use Rattle.std.specs.Map.Iter.{TakesFirst, deref_pair};
    ghost use Rattle.std.specs.Iterator.{at_most};

    type Item = (&'a TreePath, &'a Entry);

    ghost next_gives = { TakesFirst deref_pair };

    ghost remaining = { λ iter. at_most (length iter) };

    fn next(&mut self) -> Option<(&'a TreePath, &'a Entry)> {
        let placed = self.next_placed()?;
        Some((placed.path(), placed.entry()))
    }
}
