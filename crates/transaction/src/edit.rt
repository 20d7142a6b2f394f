//! Trees that are being edited.
ghost use Rattle.std.specs.Prelude.{◌≡◌, true, All, IfOk, OnOk};
ghost use Rattle.std.specs.FinMap as map;
ghost use Rattle.unit_paths.specs.Slots.{is_slot};
ghost use Rattle.link_tree.specs.Trees.{set_entry};
ghost use Rattle.link_tree.specs.Differences.{changes_between, with_change};
ghost use Rattle.tree_access.specs.Placing.{all_wanted};
ghost use Rattle.transaction.specs.Edits.{Edits};

use crate::stop::Stop;
use crate::wanted::WantedLinks;
use footprint::{Changes, NetChanges};
use link_tree::{Entry, Tree, TreePath};
use std::alloc::{AllocError, Global};
use std::marker::Model;

/// A tree that a command edits: as it was, and as it is now, which is a copy that shares its parts
/// with the first. Contracts see the two trees.
#[derive(Drop)]
pub(crate) struct Edit<'a> {
    first: &'a Tree,
    tree: Tree,
    changes: NetChanges,
}

impl<'a> Model for Edit<'a> {
    ghost use Rattle.std.specs.FinMap as map;
    ghost use Rattle.std.specs.Coded.{coded×};
    ghost use Rattle.link_tree.specs.Trees.{Entries};
    ghost use Rattle.link_tree.specs.Values.{coded_path, coded_entry};
    ghost use Rattle.transaction.specs.Edits.{IsEdit};

    ghost Value = { Entries × Entries };

    ghost coded = { coded× (map.code coded_path coded_entry) (map.code coded_path coded_entry) };

    ghost view = { λ edit. (edit.first.now, edit.tree) };

    ghost invariant = { λ edit. IsEdit edit.first.now edit.tree edit.changes };
}

/// Puts an entry at a slot of a tree instead of what is there, or with `None` removes that, and
/// notes how the slot then differs from the first tree.
pub(crate) fn put_noted(
    first: &Tree,
    tree: &mut Tree,
    changes: &mut NetChanges,
    slot: &TreePath,
    entry: Option<Entry>,
) -> Result<(), AllocError>
    requires { is_slot slot.now ≡ true }
    ensures put { OnOk result (tree.new ≡ set_entry tree.old slot.now entry) }
    ensures noted { OnOk result (changes.new ≡ with_change changes.old slot.now (map.get first.now slot.now) entry) }
{
    changes.note(slot, first.get(slot), &entry)?;
    tree.set(slot, entry)
}

impl<'a> Edit<'a> {
    /// Begins an edit of a tree, with no change yet.
    pub fn new(alloc: Global, tree: &'a Tree) -> Result<Edit<'a>, AllocError>
        ensures { IfOk result (λ edit. edit ≡ (tree.now, tree.now)) }
    {
        Ok(Edit {
            first: tree,
            tree: tree.share()?,
            changes: NetChanges::none(alloc),
        })
    }

    /// The whole tree as it is now, for look-ups.
    pub fn tree(&self) -> &Tree
        ensures { result.now ≡ self.now.1 }
    {
        &self.tree
    }

    /// Puts an entry at a slot instead of what is there, or with `None` removes that. The path must
    /// be a slot.
    pub fn with(self, slot: &TreePath, entry: Option<Entry>) -> Result<Edit<'a>, AllocError>
        requires { is_slot slot.now ≡ true }
        ensures { IfOk result (λ edit. edit ≡ (self.entry.0, set_entry self.entry.1 slot.now entry)) }
    {
        let Edit {
            first,
            mut tree,
            mut changes,
        } = self;
        put_noted(first, &mut tree, &mut changes, slot, entry)?;
        Ok(Edit {
            first,
            tree,
            changes,
        })
    }

    /// Makes all wanted links in the tree as it is now, and removes the entries that are wanted
    /// absent. `Exists` names the least path, in byte order, at which something is in the way of a
    /// link.
    pub fn with_all(self, alloc: Global, wanted: &WantedLinks) -> Result<Edit<'a>, Stop>
        ensures { Edits (all_wanted (map.entries wanted.now) self.entry.1) self.entry result }
    {
        let Edit {
            first,
            mut tree,
            mut changes,
        } = self;
        wanted.place_in(alloc, first, &mut tree, &mut changes)?;
        Ok(Edit {
            first,
            tree,
            changes,
        })
    }

    /// The changes from the tree as it was to the tree as it is now: an entry that was put back
    /// counts as no change.
    pub fn into_changes(self, alloc: Global) -> Result<Changes, AllocError>
        ensures changes { IfOk result (λ changes. changes ≡ changes_between self.entry.0 self.entry.1) }
        ensures slots { IfOk result (λ changes. All (λ change. is_slot change.path ≡ true) changes) }
    {
        self.changes.into_changes(alloc)
    }
}
