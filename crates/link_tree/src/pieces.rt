//! The entries of a tree in consecutive pieces, in the byte order of the paths.
ghost use Rattle.std.specs.Prelude.{◌≡◌, ◌<◌, ◌≤◌, true, [], length, slice_index_or, IfOk, OnOk, OnErr, None, is_some};
ghost use Rattle.std.specs.Ordering.{is_le};
ghost use Rattle.std.specs.List.{AllWithin, filter};
ghost use Rattle.std.specs.Option.{option_copied, option_map};
ghost use Rattle.std.specs.FinMap as map;
ghost use Rattle.std.specs.FinMap.{find, put};
ghost use Rattle.link_tree.specs.Trees.{path_cmp};
ghost use Rattle.link_tree.specs.Pieces.{joined, behind, ends_before, first_of, is_first, others, AllBelow, AreInOrder, IsFirstFrom, IsWithin, IsSpot, Become};

use crate::entry::Entry;
use crate::piece::Piece;
use crate::placed_entry::PlacedEntry;
use std::alloc::{AllocError, Global};
use std::marker::Model;
use unit_paths::TreePath;

/// Entries by their paths, in pieces that copies share. Contracts see a finite map.
#[derive(Debug, Drop)]
pub(crate) struct Pieces {
    pieces: Vec<Piece>,
    count: usize,
    /// Where the last entry was put. Neighbours often come one after another, so it is tried first.
    near: usize,
}

impl Model for Pieces {
    ghost use Rattle.std.specs.Prelude.{◌≡◌, length};
    ghost use Rattle.std.specs.FinMap as map;
    ghost use Rattle.link_tree.specs.Trees.{path_cmp};
    ghost use Rattle.link_tree.specs.Values.{coded_path, coded_entry};
    ghost use Rattle.link_tree.specs.Pieces.{joined, AreInOrder};
    ghost use Rattle.link_tree.specs.declared.entry.Entry.{Entry};

    ghost Value = { map.FinMap path_cmp Entry };

    ghost coded = { map.code coded_path coded_entry };

    ghost view = { λ all. map.from_sorted {R = path_cmp} (joined all.pieces.items) };

    ghost invariant = { λ all. AreInOrder all.pieces.items × (all.count ≡ length (joined all.pieces.items)) };
}

impl Clone for Pieces {
    ghost is_clone = { λ all copy. copy ≡ all };

    fn clone(&self) -> Result<Pieces, AllocError> {
        Ok(Pieces {
            pieces: self.pieces.clone()?,
            count: self.count,
            near: self.near,
        })
    }
}

impl Pieces {
    /// No pieces.
    pub(crate) fn none(alloc: Global) -> Pieces
        ensures { result ≡ map.empty }
    {
        Pieces {
            pieces: Vec::new(alloc),
            count: 0,
            near: 0,
        }
    }

    /// The pieces, in their order.
    pub(crate) fn pieces(&self) -> &[Piece]
        ensures entries { joined result.now ≡ map.entries self.now }
        ensures order { AreInOrder result.now }
    {
        &self.pieces
    }

    /// How many entries there are.
    pub(crate) fn len(&self) -> usize
        ensures { result ≡ map.len self.now }
    {
        self.count
    }

    /// The entry at the path.
    pub(crate) fn get(&self, path: &TreePath) -> Option<&Entry>
        ensures { option_copied result ≡ map.get self.now path.now }
    {
        match self.placed(path) {
            Some(placed) => Some(placed.entry()),
            None => None,
        }
    }

    /// The entry at the path, with the path.
    pub(crate) fn placed(&self, path: &TreePath) -> Option<&PlacedEntry>
        ensures { option_copied result ≡ option_map (λ entry. (path.now, entry)) (map.get self.now path.now) }
    {
        let pieces = self.pieces();
        let spot = spot_of(pieces, path);
        match item_at(pieces, spot) {
            Some(item) if *item.path() == *path => Some(item),
            _ => None,
        }
    }

    /// The allocator that the entries use.
    pub(crate) fn allocator(&self) -> Global {
        *self.pieces.allocator()
    }

    /// The first entry at the path or after it.
    pub(crate) fn first_from(&self, path: &TreePath) -> Option<&PlacedEntry>
        ensures { option_copied result ≡ first_of (filter (λ item. is_le (path_cmp path.now item.0)) (map.entries self.now)) }
    {
        let pieces = self.pieces();
        item_at(pieces, spot_of(pieces, path))
    }

    /// Puts an entry at its path, and returns whether it replaced another.
    pub(crate) fn put(&mut self, placed: PlacedEntry) -> Result<bool, AllocError>
        ensures ok { OnOk result (self.new ≡ map.insert self.old placed.0 placed.1) }
        ensures stood { IfOk result (λ stood. stood ≡ is_some (map.get self.old placed.0)) }
        ensures err { OnErr result (self.new ≡ self.old) }
    {
        let path = placed.path();
        let spot = spot_near(&self.pieces, self.near, path);
        self.near = spot.piece;
        if stands_at(&self.pieces, spot, path) {
            replace(&mut self.pieces, spot, placed)?;
            return Ok(true);
        }
        // There can't be more entries than can be counted, since memory can't hold them.
        if self.count == usize::MAX {
            return Err(AllocError);
        }
        add(&mut self.pieces, spot, placed)?;
        self.count += 1;
        Ok(false)
    }

    /// Removes the entry at the path.
    pub(crate) fn remove(&mut self, path: &TreePath) -> Result<(), AllocError>
        ensures ok { OnOk result (self.new ≡ map.remove self.old path.now) }
        ensures err { OnErr result (self.new ≡ self.old) }
    {
        let spot = spot_of(&self.pieces, path);
        if stands_at(&self.pieces, spot, path) {
            take_out(&mut self.pieces, spot, path)?;
            self.count -= 1;
        }
        Ok(())
    }
}

/// A place for an entry: in which piece, and before which of its entries.
#[derive(Clone, Copy, Debug, Drop)]
struct Spot {
    piece: usize,
    at: usize,
}

/// The place where a path is or would be inserted: in the first piece that doesn't end before it.
/// If all pieces end before it, the place after them.
fn spot_of(pieces: &[Piece], path: &TreePath) -> Spot
    requires { AreInOrder pieces.now }
    ensures { IsSpot path.now pieces.now result.piece result.at }
{
    let piece = pieces.partition_point(|piece| piece.ends_before(path));
    spot_in(pieces, piece, path)
}

/// The same, but this piece is tried before all are searched.
fn spot_near(pieces: &[Piece], near: usize, path: &TreePath) -> Spot
    requires { AreInOrder pieces.now }
    ensures { IsSpot path.now pieces.now result.piece result.at }
{
    if is_first_from(pieces, near, path) {
        spot_in(pieces, near, path)
    } else {
        spot_of(pieces, path)
    }
}

/// Whether this piece is the first that doesn't end before the path.
fn is_first_from(pieces: &[Piece], piece: usize, path: &TreePath) -> bool
    requires { AreInOrder pieces.now }
    ensures { result ≡ true → IsFirstFrom path.now pieces.now piece }
{
    if piece > pieces.len() || !earlier_end_before(pieces, piece, path) {
        return false;
    }
    match pieces.get(piece) {
        Some(found) => !found.ends_before(path),
        None => true,
    }
}

/// Whether all pieces before this one end before the path: if the last of them does, all do.
fn earlier_end_before(pieces: &[Piece], piece: usize, path: &TreePath) -> bool
    requires order { AreInOrder pieces.now }
    requires upto { piece ≤ length pieces.now }
    ensures { result ≡ true → AllWithin (λ one. ends_before path.now one ≡ true) pieces.now 0 piece }
{
    if piece == 0 {
        return true;
    }
    pieces[piece - 1].ends_before(path)
}

/// The place of a path in the piece that is the first that doesn't end before it.
fn spot_in(pieces: &[Piece], piece: usize, path: &TreePath) -> Spot
    requires order { AreInOrder pieces.now }
    requires first { IsFirstFrom path.now pieces.now piece }
    ensures { IsSpot path.now pieces.now result.piece result.at }
{
    let at = match pieces.get(piece) {
        Some(found) => found.place_of(path),
        None => 0,
    };
    Spot { piece, at }
}

/// The entry at a spot.
fn item_at(pieces: &[Piece], spot: Spot) -> Option<&PlacedEntry>
    requires { IsWithin pieces.now spot.piece spot.at }
    ensures { option_copied result ≡ first_of (behind pieces.now spot.piece spot.at) }
{
    match pieces.get(spot.piece) {
        Some(piece) => Some(&piece.items()[spot.at]),
        None => None,
    }
}

/// Whether the entry at the spot of a path is at this path.
fn stands_at(pieces: &[Piece], spot: Spot, path: &TreePath) -> bool
    requires { IsWithin pieces.now spot.piece spot.at }
    ensures { result ≡ is_first path.now (behind pieces.now spot.piece spot.at) }
{
    match item_at(pieces, spot) {
        Some(item) => *item.path() == *path,
        None => false,
    }
}

/// Replaces the entry at its path.
fn replace(pieces: &mut Vec<Piece>, spot: Spot, placed: PlacedEntry) -> Result<(), AllocError>
    requires order { AreInOrder pieces.old.items }
    requires spot { IsSpot placed.0 pieces.old.items spot.piece spot.at }
    requires taken { is_first placed.0 (behind pieces.old.items spot.piece spot.at) ≡ true }
    ensures { Become pieces.old.items pieces.new.items (put path_cmp placed.0 placed.1 (joined pieces.old.items)) result }
{
    pieces[spot.piece].replace(spot.at, placed)
}

/// Adds an entry at a path where there is none. A full piece is split in two first.
fn add(pieces: &mut Vec<Piece>, spot: Spot, placed: PlacedEntry) -> Result<(), AllocError>
    requires order { AreInOrder pieces.old.items }
    requires spot { IsSpot placed.0 pieces.old.items spot.piece spot.at }
    requires free { find path_cmp placed.0 (joined pieces.old.items) ≡ None }
    ensures { Become pieces.old.items pieces.new.items (put path_cmp placed.0 placed.1 (joined pieces.old.items)) result }
{
    if spot.piece < pieces.len() && pieces[spot.piece].is_full() {
        cut(pieces, spot.piece)?;
        let spot = spot_of(pieces, placed.path());
        add_at(pieces, spot, placed)
    } else {
        add_at(pieces, spot, placed)
    }
}

fn add_at(pieces: &mut Vec<Piece>, spot: Spot, placed: PlacedEntry) -> Result<(), AllocError>
    requires order { AreInOrder pieces.old.items }
    requires spot { IsSpot placed.0 pieces.old.items spot.piece spot.at }
    requires free { find path_cmp placed.0 (joined pieces.old.items) ≡ None }
    ensures { Become pieces.old.items pieces.new.items (put path_cmp placed.0 placed.1 (joined pieces.old.items)) result }
{
    if spot.piece < pieces.len() {
        pieces[spot.piece].insert(spot.at, placed)
    } else {
        add_behind(pieces, placed)
    }
}

/// Adds an entry after all others: to the last piece, or as a piece of its own if the last one is
/// full or there is none. So pieces that are filled in order are full.
fn add_behind(pieces: &mut Vec<Piece>, placed: PlacedEntry) -> Result<(), AllocError>
    requires order { AreInOrder pieces.old.items }
    requires below { AllBelow placed.0 (joined pieces.old.items) }
    ensures { Become pieces.old.items pieces.new.items (put path_cmp placed.0 placed.1 (joined pieces.old.items)) result }
{
    let alloc = *pieces.allocator();
    if let Some(last) = pieces.len().checked_sub(1)
        && !pieces[last].is_full()
    {
        let end = pieces[last].items().len();
        return pieces[last].insert(end, placed);
    }
    pieces.push(Piece::of_one(alloc, placed)?)?;
    Ok(())
}

/// Splits a piece in two.
fn cut(pieces: &mut Vec<Piece>, at: usize) -> Result<(), AllocError>
    requires order { AreInOrder pieces.old.items }
    requires within { at < length pieces.old.items }
    requires two { 2 ≤ length (slice_index_or pieces.old.items at []) }
    ensures { Become pieces.old.items pieces.new.items (joined pieces.old.items) result }
{
    let alloc = *pieces.allocator();
    pieces.reserve(1)?;
    let middle = pieces[at].items().len() / 2;
    let rest = pieces[at].split_off(alloc, middle)?;
    pieces.insert(at + 1, rest)?;
    Ok(())
}

/// Removes the entry at the spot of its path, and also its piece if that becomes empty.
fn take_out(pieces: &mut Vec<Piece>, spot: Spot, path: &TreePath) -> Result<(), AllocError>
    requires order { AreInOrder pieces.old.items }
    requires spot { IsSpot path.now pieces.old.items spot.piece spot.at }
    requires taken { is_first path.now (behind pieces.old.items spot.piece spot.at) ≡ true }
    ensures { Become pieces.old.items pieces.new.items (others path.now (joined pieces.old.items)) result }
{
    if pieces[spot.piece].items().len() > 1 {
        pieces[spot.piece].remove(spot.at)
    } else {
        pieces.remove(spot.piece);
        Ok(())
    }
}
