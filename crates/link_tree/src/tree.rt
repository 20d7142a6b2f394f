//! Trees of entries.
ghost use Rattle.std.specs.Prelude.{◌≡◌, ◌++◌, All, IfOk, OnOk, OnErr, IsTrue, true, false, is_some, Some, ◌↔◌, ℕ, List, IsPermutation};
ghost use Rattle.std.specs.Map.Iter.{ShowsInOrder, deref_pair};
ghost use Rattle.std.specs.Option.{option_copied, option_map};
ghost use Rattle.std.specs.Fmt.{decimal};
ghost use Rattle.std.specs.FinMap as map;
ghost use Rattle.unit_paths.specs.Slots.{is_slot};
ghost use Rattle.unit_paths.specs.declared.place.Scope.TheVariants as scopes;
ghost use Rattle.link_tree.specs.Belonging.{belonging, IsListed};
ghost use Rattle.link_tree.specs.Shape.{fits_at, is_crowded, IsTree};
ghost use Rattle.link_tree.specs.Trees.{AreFrom, set_entry, after_changes};
ghost use Rattle.link_tree.specs.Pieces.{joined, AreInOrder};

use crate::change::{Change, copy_of};
use crate::entry::Entry;
use crate::iter::Iter;
use crate::names::{names_after, names_of};
use crate::piece::Piece;
use crate::placed_entry::PlacedEntry;
use crate::tree_part::TreePart;
use name_lists::NameLists;
use std::alloc::{AllocError, Global};
use std::marker::Model;
use unit_name::UnitName;
use unit_paths::{Scope, TreePath};

/// Entries by their paths, none beneath another and none where slots don't allow it, and for each
/// scope the links that belong to each name. All of it is kept in parts that copies share: a change
/// copies few of them. Contracts see a finite map.
#[derive(Debug, Drop)]
pub struct Tree {
    part: TreePart,
    etc: NameLists,
    run: NameLists,
}

impl Model for Tree {
    ghost use Rattle.std.specs.FinMap as map;
    ghost use Rattle.link_tree.specs.Trees.{path_cmp};
    ghost use Rattle.link_tree.specs.Values.{coded_path, coded_entry};
    ghost use Rattle.link_tree.specs.declared.entry.Entry.{Entry};

    ghost Value = { map.FinMap path_cmp Entry };

    ghost coded = { map.code coded_path coded_entry };

    ghost view = { λ tree. tree.part };

    ghost use Rattle.unit_paths.specs.declared.place.Scope.TheVariants as scopes;
    ghost use Rattle.link_tree.specs.Belonging.{IsListed};

    ghost invariant = { λ tree. IsListed scopes.Etc tree.part tree.etc × IsListed scopes.Run tree.part tree.run };
}

impl Tree {
    /// A tree with no entry.
    pub fn empty(alloc: Global) -> Result<Tree, AllocError>
        ensures { IfOk result (λ tree. tree ≡ map.empty) }
    {
        Tree::of(alloc, TreePart::empty(alloc)?)
    }

    /// The tree of these entries: the lists of its links by name are built.
    pub fn of(alloc: Global, part: TreePart) -> Result<Tree, AllocError>
        ensures { IfOk result (λ tree. tree ≡ part) }
    {
        let etc = names_of(alloc, &part, Scope::Etc)?;
        let run = names_of(alloc, &part, Scope::Run)?;
        Ok(Tree { part, etc, run })
    }

    /// The entries.
    pub fn entries(&self) -> &TreePart
        ensures { result.now ≡ self.now }
    {
        &self.part
    }

    /// The paths of the links of the scope that belong to the name, which `systemctl disable`
    /// removes, in byte order. Allocates no memory and scans no entries: they are looked up by the
    /// name.
    pub fn belonging(&self, scope: Scope, name: &UnitName) -> &[TreePath]
        ensures { result.now ≡ belonging scope name.now self.now }
    {
        self.names(scope).get(name.text())
    }

    /// The links of a scope by their names.
    fn names(&self, scope: Scope) -> &NameLists
        ensures { IsListed scope self.now result.now }
    {
        match scope {
            Scope::Etc => &self.etc,
            Scope::Run => &self.run,
        }
    }

    /// The entry at the path.
    pub fn get(&self, path: &TreePath) -> Option<&Entry>
        ensures { option_copied result ≡ map.get self.now path.now }
    {
        self.part.get(path)
    }

    /// The entry at the path, with the path, to be shared with another tree.
    pub fn placed(&self, path: &TreePath) -> Option<&PlacedEntry>
        ensures { option_copied result ≡ option_map (λ entry. (path.now, entry)) (map.get self.now path.now) }
    {
        self.part.placed(path)
    }

    /// How many entries there are.
    pub fn len(&self) -> usize
        ensures { result ≡ map.len self.now }
    {
        self.part.len()
    }

    /// Whether the tree is empty.
    pub fn is_empty(&self) -> bool
        ensures { IsTrue result ↔ (map.len self.now ≡ 0) }
    {
        self.len() == 0
    }

    /// Each path with its entry, once, in the byte order of the paths; contracts say only that each
    /// occurs once.
    pub fn iter(&self) -> Iter<'_>
        ensures entries { IsPermutation result (map.entries self.now) }
        ensures runs { ShowsInOrder (deref_pair {K = List ℕ} {X = Entry}) }
    {
        self.part.iter()
    }

    /// An equal tree, which shares its parts with this one and allocates no memory.
    pub fn share(&self) -> Result<Tree, AllocError>
        ensures { IfOk result (λ tree. tree ≡ self.now) }
    {
        Ok(Tree {
            part: self.part.share()?,
            etc: self.etc.clone()?,
            run: self.run.clone()?,
        })
    }

    /// An equal tree: the same as `share`.
    pub fn copy(&self) -> Result<Tree, AllocError>
        ensures { IfOk result (λ tree. tree ≡ self.now) }
    {
        self.share()
    }

    /// A tree has the shape of one: its entries are allowed at their paths, and none is beneath
    /// another.
    pub fn shape(&self)
        ensures { IsTree self.now }
    {
        self.part.shape();
    }

    /// Puts an entry at a slot, replacing the one there, or with `None` removes the one there.
    pub fn set(&mut self, slot: &TreePath, entry: Option<Entry>) -> Result<(), AllocError>
        requires { is_slot slot.now ≡ true }
        ensures ok { OnOk result (self.new ≡ set_entry self.old slot.now entry) }
        ensures err { OnErr result (self.new ≡ self.old) }
    {
        match entry {
            Some(entry) => {
                let path = slot.copy()?;
                let _path = path.text();
                let _valid = entry.bytes();
                self.shape();
                self.insert(path, entry)?;
                Ok(())
            }
            None => self.remove(slot),
        }
    }

    /// Makes a slot the same as in another tree, an entry or nothing, and shares the entry with
    /// that tree.
    pub fn set_as_in(&mut self, slot: &TreePath, other: &Tree) -> Result<(), AllocError>
        requires { is_slot slot.now ≡ true }
        ensures ok { OnOk result (self.new ≡ set_entry self.old slot.now (map.get other.now slot.now)) }
        ensures err { OnErr result (self.new ≡ self.old) }
    {
        let Some(placed) = other.placed(slot) else {
            return self.remove(slot);
        };
        self.share_in(placed)
    }

    /// Puts an entry of another tree at its slot, replacing the one there, and shares it with that
    /// tree.
    pub fn share_in(&mut self, placed: &PlacedEntry) -> Result<(), AllocError>
        requires { is_slot placed.now.0 ≡ true }
        ensures ok { OnOk result (self.new ≡ set_entry self.old placed.now.0 (Some placed.now.1)) }
        ensures err { OnErr result (self.new ≡ self.old) }
    {
        let _path = placed.path().text();
        let _valid = placed.entry().bytes();
        self.shape();
        self.put(placed.clone()?)?;
        Ok(())
    }

    /// The tree with these changes made: each replaces the entry at a slot. `self` is unchanged.
    pub fn with_changes(&self, changes: &[Change]) -> Result<Tree, AllocError>
        requires slots { All (λ change. is_slot change.path ≡ true) changes.now }
        requires from { AreFrom self.now changes.now }
        ensures { IfOk result (λ tree. tree ≡ after_changes changes.now self.now) }
    {
        let mut tree = self.copy()?;
        for change in changes {
            tree.set(&change.path, copy_of(&change.after)?)?;
        }
        Ok(tree)
    }

    /// Makes these changes: each replaces the entry at a slot. A single change is made in place;
    /// several are made on a copy, which then replaces this tree.
    pub fn make_changes(&mut self, changes: &[Change]) -> Result<(), AllocError>
        requires slots { All (λ change. is_slot change.path ≡ true) changes.now }
        requires from { AreFrom self.old changes.now }
        ensures ok { OnOk result (self.new ≡ after_changes changes.now self.old) }
        ensures err { OnErr result (self.new ≡ self.old) }
    {
        if let [change] = changes {
            return self.set(&change.path, copy_of(&change.after)?);
        }
        *self = self.with_changes(changes)?;
        Ok(())
    }
}

impl Tree {
    /// The entries in pieces, in the byte order of the paths.
    pub(crate) fn pieces(&self) -> &[Piece]
        ensures entries { joined result.now ≡ map.entries self.now }
        ensures order { AreInOrder result.now }
    {
        self.part.pieces()
    }

    /// Puts an entry at the path, and returns whether it replaced another.
    pub(crate) fn insert(&mut self, path: TreePath, entry: Entry) -> Result<bool, AllocError>
        requires fits { fits_at path entry ≡ true }
        requires apart { is_crowded self.old path ≡ false }
        ensures ok { OnOk result (self.new ≡ map.insert self.old path entry) }
        ensures stood { IfOk result (λ stood. stood ≡ is_some (map.get self.old path)) }
        ensures err { OnErr result (self.new ≡ self.old) }
    {
        let placed = PlacedEntry::new(self.part.allocator(), path, entry)?;
        self.put(placed)
    }

    /// The same, for an entry that has its path with it. The next lists of names are made first:
    /// after the entry is put, nothing fails.
    fn put(&mut self, placed: PlacedEntry) -> Result<bool, AllocError>
        requires fits { fits_at placed.0 placed.1 ≡ true }
        requires apart { is_crowded self.old placed.0 ≡ false }
        ensures ok { OnOk result (self.new ≡ map.insert self.old placed.0 placed.1) }
        ensures stood { IfOk result (λ stood. stood ≡ is_some (map.get self.old placed.0)) }
        ensures err { OnErr result (self.new ≡ self.old) }
    {
        let (etc, run) = self.names_after(placed.path(), Some(placed.entry()))?;
        let stood = self.part.put(placed)?;
        self.etc = etc;
        self.run = run;
        Ok(stood)
    }

    /// Removes the entry at the path. As with `put`, nothing fails after that.
    fn remove(&mut self, path: &TreePath) -> Result<(), AllocError>
        ensures ok { OnOk result (self.new ≡ map.remove self.old path.now) }
        ensures err { OnErr result (self.new ≡ self.old) }
    {
        let (etc, run) = self.names_after(path, None)?;
        self.part.remove(path)?;
        self.etc = etc;
        self.run = run;
        Ok(())
    }

    /// The links of the two scopes by their names, after the entry at a path has changed.
    fn names_after(
        &self,
        path: &TreePath,
        after: Option<&Entry>,
    ) -> Result<(NameLists, NameLists), AllocError>
        ensures etc { IfOk result (λ next. IsListed scopes.Etc (set_entry self.now path.now (option_copied after.entry)) next.0) }
        ensures run { IfOk result (λ next. IsListed scopes.Run (set_entry self.now path.now (option_copied after.entry)) next.1) }
    {
        let alloc = self.part.allocator();
        let before = self.get(path);
        let etc = names_after(
            alloc,
            self.names(Scope::Etc),
            Scope::Etc,
            path,
            before,
            after,
        )?;
        let run = names_after(
            alloc,
            self.names(Scope::Run),
            Scope::Run,
            path,
            before,
            after,
        )?;
        Ok((etc, run))
    }

    /// Whether an entry is beneath the path, or the path beneath an entry.
    pub(crate) fn is_crowded(&self, path: &TreePath) -> Result<bool, AllocError>
        ensures { IfOk result (λ crowded. crowded ≡ is_crowded self.now path.now) }
    {
        self.part.is_crowded(path)
    }
}

/// Appends a number in decimal digits, without leading zeros. If memory runs out, the text stays
/// unchanged.
pub fn push_decimal(out: &mut Vec<u8>, number: usize) -> Result<(), AllocError>
    ensures ok { OnOk result (out.new.items ≡ out.old.items ++ decimal number) }
    ensures err { OnErr result (out.new.items ≡ out.old.items) }
{
    let text = number.to_string(*out.allocator())?;
    out.extend_from_slice(text.as_bytes())
}
