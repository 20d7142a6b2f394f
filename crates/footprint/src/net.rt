//! Changes by their paths.
ghost use Rattle.std.specs.Prelude.{◌≡◌, IfOk, OnOk};
ghost use Rattle.std.specs.Option.{option_copied};
ghost use Rattle.std.specs.FinMap as map;
ghost use Rattle.link_tree.specs.Differences.{same, with_change};
ghost use Rattle.link_tree.specs.Trees.{after_changes};
ghost use Rattle.footprint.specs.Net.{net, noted};
ghost use Rattle.footprint.specs.Operations.{AreChanges};

use crate::changes::Changes;
use link_tree::{Change, Entry, Tree, TreePath, copy_of};
use std::alloc::{AllocError, Global};
use std::collections::BTreeMap;
use std::marker::Model;
use tree_access::copy_entry;

/// Changes from a first tree to a later one, at most one for each path. Contracts see a finite map.
#[derive(Drop)]
pub struct NetChanges {
    by_path: BTreeMap<TreePath, Change>,
}

impl Model for NetChanges {
    ghost use Rattle.std.specs.FinMap as map;
    ghost use Rattle.link_tree.specs.declared.change.Change.{Change};
    ghost use Rattle.link_tree.specs.Trees.{path_cmp};
    ghost use Rattle.link_tree.specs.Values.{coded_path};
    ghost use Rattle.link_tree.specs.Differences.{coded_change};

    ghost Value = { map.FinMap path_cmp Change };

    ghost coded = { map.code coded_path coded_change };

    ghost view = { λ net. map.from_entries net.by_path.entries };
}

#[tactic(auto, unfolding(link_tree::specs::Differences::same))]
fn same(one: Option<&Entry>, other: Option<&Entry>) -> bool
    ensures { result ≡ same (option_copied one.entry) (option_copied other.entry) }
{
    match (one, other) {
        (None, None) => true,
        (Some(one), Some(other)) => one.same(other),
        _ => false,
    }
}

impl NetChanges {
    /// No changes. Allocates no memory.
    pub fn none(alloc: Global) -> NetChanges
        ensures { result ≡ map.empty }
    {
        NetChanges {
            by_path: BTreeMap::new(alloc),
        }
    }

    /// Records what was at a path first, and what is there now. If that is the same, the path has
    /// no change. Fails only if memory runs out.
    pub fn note(
        &mut self,
        path: &TreePath,
        before: Option<&Entry>,
        after: &Option<Entry>,
    ) -> Result<(), AllocError>
        ensures { OnOk result (self.new ≡ with_change self.old path.now (option_copied before.entry) after.now) }
    {
        if same(before, after.as_ref()) {
            self.remove(path);
            return Ok(());
        }
        self.insert(
            path.copy()?,
            Change {
                path: path.copy()?,
                before: copy_entry(before)?,
                after: copy_of(after)?,
            },
        )
    }

    /// Records this for each of the changes, starting from the tree to which they apply.
    fn note_all(&mut self, tree: &Tree, changes: &[Change]) -> Result<(), AllocError>
        ensures { OnOk result (self.new ≡ noted self.old tree.now changes.now) }
    {
        for change in changes {
            self.note(&change.path, tree.get(&change.path), &change.after)?;
        }
        Ok(())
    }

    fn remove(&mut self, path: &TreePath)
        ensures { self.new ≡ map.remove self.old path.now }
    {
        self.by_path.remove(path);
    }

    fn insert(&mut self, path: TreePath, change: Change) -> Result<(), AllocError>
        ensures { OnOk result (self.new ≡ map.insert self.old path change) }
    {
        self.by_path.insert(path, change)?;
        Ok(())
    }

    /// The changes in byte order of their paths. Fails only if memory runs out.
    pub fn into_changes(self, alloc: Global) -> Result<Changes, AllocError>
        ensures { IfOk result (λ changes. changes ≡ map.values self) }
    {
        let mut changes = Changes::none(alloc);
        for (_path, change) in self.by_path {
            changes.push(change)?;
        }
        Ok(changes)
    }
}

/// The net changes to the tree, the second list after the first: at each path from what is in the
/// tree to what is there after both. Fails only if memory runs out.
pub(crate) fn net_changes(
    alloc: Global,
    tree: &Tree,
    first: &Changes,
    second: &Changes,
) -> Result<Changes, AllocError>
    requires first { AreChanges tree.now first.now }
    requires second { AreChanges (after_changes first.now tree.now) second.now }
    ensures { IfOk result (λ changes. changes ≡ net first.now second.now) }
{
    let mut net = NetChanges::none(alloc);
    net.note_all(tree, first.as_slice())?;
    net.note_all(tree, second.as_slice())?;
    net.into_changes(alloc)
}
