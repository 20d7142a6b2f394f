//! Links that are wanted, and are made all at once.
ghost use Rattle.std.specs.Prelude.{◌≡◌, ◌++◌, true, Some, None, map as list_map, IfOk, OnOk, OnErr};
ghost use Rattle.std.specs.FinMap as map;
ghost use Rattle.unit_paths.specs.Slots.{is_slot};
ghost use Rattle.tree_access.specs.declared.key.Key.TheVariants.{Cell};
ghost use Rattle.tree_access.specs.Keys.{StandAtSlots};
ghost use Rattle.tree_access.specs.Placing.{all_wanted, cleared};
ghost use Rattle.transaction.specs.Edits.{IsEdit, Places};

use crate::edit::put_noted;
use crate::rules::wanted_at;
use crate::stop::Stop;
use footprint::{Key, Keys, NetChanges};
use link_tree::{Tree, TreePart, TreePath};
use std::alloc::{AllocError, Global};
use std::collections::BTreeMap;
use std::marker::Model;

/// What is wanted at slots, one link or nothing at each: the links that `enable` makes, and those
/// that `disable` removes. Contracts see the finite map from paths to the file to which each link
/// must lead.
#[derive(Debug, Drop)]
pub struct WantedLinks {
    by_path: BTreeMap<TreePath, Option<TreePath>>,
}

impl Model for WantedLinks {
    ghost use Rattle.std.specs.Prelude.{List, ℕ, Option};
    ghost use Rattle.std.specs.Coded.{coded_option};
    ghost use Rattle.std.specs.FinMap as map;
    ghost use Rattle.link_tree.specs.Trees.{path_cmp};
    ghost use Rattle.link_tree.specs.Values.{coded_path};
    ghost use Rattle.transaction.specs.Edits.{AreAtSlots};

    ghost Value = { map.FinMap path_cmp (Option (List ℕ)) };

    ghost coded = { map.code coded_path (coded_option coded_path) };

    ghost view = { λ wanted. map.from_entries wanted.by_path.entries };

    ghost invariant = { λ wanted. AreAtSlots (map.from_entries wanted.by_path.entries) };
}

impl WantedLinks {
    /// Nothing is wanted at any slot. Allocates no memory.
    pub fn none(alloc: Global) -> WantedLinks
        ensures { result ≡ map.empty }
    {
        WantedLinks {
            by_path: BTreeMap::new(alloc),
        }
    }

    /// Wants each slot empty at which a tree has an entry; the tree must have entries only at
    /// slots. Fails only if memory runs out.
    pub fn cleared(alloc: Global, entries: &TreePart) -> Result<WantedLinks, AllocError>
        requires { StandAtSlots entries.now }
        ensures { IfOk result (λ wanted. wanted ≡ cleared entries.now) }
    {
        let mut wanted = WantedLinks::none(alloc);
        for (path, _entry) in entries.iter() {
            wanted.clear(path.copy()?)?;
        }
        Ok(wanted)
    }

    /// Wants a link to the file at a slot, instead of what was wanted there before. If memory runs
    /// out, nothing has changed.
    pub fn link(&mut self, slot: TreePath, file: TreePath) -> Result<(), AllocError>
        requires { is_slot slot ≡ true }
        ensures ok { OnOk result (self.new ≡ map.insert self.old slot (Some file)) }
        ensures err { OnErr result (self.new ≡ self.old) }
    {
        self.want(slot, Some(file))
    }

    /// Wants a slot to be empty, instead of what was wanted there before. If memory runs out,
    /// nothing has changed.
    pub fn clear(&mut self, slot: TreePath) -> Result<(), AllocError>
        requires { is_slot slot ≡ true }
        ensures ok { OnOk result (self.new ≡ map.insert self.old slot None) }
        ensures err { OnErr result (self.new ≡ self.old) }
    {
        self.want(slot, None)
    }

    fn want(&mut self, slot: TreePath, file: Option<TreePath>) -> Result<(), AllocError>
        requires { is_slot slot ≡ true }
        ensures ok { OnOk result (self.new ≡ map.insert self.old slot file) }
        ensures err { OnErr result (self.new ≡ self.old) }
    {
        self.by_path.insert(slot, file)?;
        Ok(())
    }

    /// Drops what is wanted at a slot: what is there stays.
    pub fn leave(&mut self, slot: &TreePath)
        ensures { self.new ≡ map.remove self.old slot.now }
    {
        self.by_path.remove(slot);
    }

    /// Adds the cell of each slot, in byte order of the paths.
    pub(crate) fn push_cells(&self, keys: &mut Keys) -> Result<(), AllocError>
        ensures { OnOk result (keys.new ≡ keys.old ++ list_map Cell (map.keys self.now)) }
    {
        for slot in self.by_path.keys() {
            keys.push(Key::Cell(slot.copy()?))?;
        }
        Ok(())
    }

    /// Makes all wanted links in a tree, and removes the entries that are wanted absent; the
    /// changes are those from the first tree. The refusal is that of the least path that has one.
    /// If it is refused or memory runs out, some of the links may have been made.
    pub(crate) fn place_in(
        &self,
        alloc: Global,
        first: &Tree,
        tree: &mut Tree,
        changes: &mut NetChanges,
    ) -> Result<(), Stop>
        requires { IsEdit first.now tree.old changes.old }
        ensures { Places (all_wanted (map.entries self.now) tree.old) first.now tree.old tree.new changes.new result }
    {
        let before = tree.copy()?;
        self.place_each(alloc, &before, first, tree, changes)
    }

    /// The same, given what was in the tree before.
    fn place_each(
        &self,
        alloc: Global,
        before: &Tree,
        first: &Tree,
        tree: &mut Tree,
        changes: &mut NetChanges,
    ) -> Result<(), Stop>
        requires edit { IsEdit first.now tree.old changes.old }
        requires same { before.now ≡ tree.old }
        ensures { Places (all_wanted (map.entries self.now) tree.old) first.now tree.old tree.new changes.new result }
    {
        for (slot, file) in self.by_path.iter() {
            let entry = wanted_at(alloc, file.as_ref(), slot, before.get(slot))?;
            put_noted(first, tree, changes, slot, entry)?;
        }
        Ok(())
    }
}
