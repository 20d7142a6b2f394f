//! Changes by their paths.
ghost use Rattle.std.specs.Prelude.{◌≡◌, IfOk, OnOk};
ghost use Rattle.std.specs.Option.{option_copied};
ghost use Rattle.std.specs.FinMap as map;
ghost use Rattle.link_tree.specs.Differences.{same, with_change};

use link_tree::{Change, Entry, TreePath};
use std::alloc::{AllocError, Global};
use std::collections::BTreeMap;
use std::marker::Model;

/// Changes, one at a path. In contracts it is a finite map.
#[derive(Drop)]
pub(crate) struct NetChanges {
    by_path: BTreeMap<TreePath, Change>,
}

impl Model for NetChanges {
    ghost use Rattle.std.specs.FinMap as map;
    ghost use Rattle.link_tree.specs.declared.change.Change.{Change};
    ghost use Rattle.link_tree.specs.Trees.{path_cmp};
    ghost use Rattle.link_tree.specs.Values.{coded_path};
    ghost use Rattle.link_tree.specs.Differences.{coded_change};

    ghost Value = { map.FinMap path_cmp Change };

    ghost coded = { map.code coded_path coded_change };

    ghost view = { λ net. map.from_entries net.by_path.entries };
}

#[tactic(auto, unfolding(link_tree::specs::Differences::same))]
fn same(one: Option<&Entry>, other: Option<&Entry>) -> bool
    ensures { result ≡ same (option_copied one.entry) (option_copied other.entry) }
{
    match (one, other) {
        (None, None) => true,
        (Some(one), Some(other)) => one.same(other),
        _ => false,
    }
}

/// A copy of an entry, or `None`.
fn copied(entry: Option<&Entry>) -> Result<Option<Entry>, AllocError>
    ensures { IfOk result (λ copy. copy ≡ option_copied entry.entry) }
{
    match entry {
        Some(entry) => Ok(Some(entry.copy()?)),
        None => Ok(None),
    }
}

impl NetChanges {
    /// No changes.
    pub(crate) fn none(alloc: Global) -> NetChanges
        ensures { result ≡ map.empty }
    {
        NetChanges {
            by_path: BTreeMap::new(alloc),
        }
    }

    /// Sets what is at a path before and after: a change, unless both are the same.
    pub(crate) fn note(
        &mut self,
        path: &TreePath,
        before: Option<&Entry>,
        after: Option<&Entry>,
    ) -> Result<(), AllocError>
        ensures { OnOk result (self.new ≡ with_change self.old path.now (option_copied before.entry) (option_copied after.entry)) }
    {
        if same(before, after) {
            self.remove(path);
            return Ok(());
        }
        self.insert(
            path.copy()?,
            Change {
                path: path.copy()?,
                before: copied(before)?,
                after: copied(after)?,
            },
        )
    }

    fn remove(&mut self, path: &TreePath)
        ensures { self.new ≡ map.remove self.old path.now }
    {
        self.by_path.remove(path);
    }

    fn insert(&mut self, path: TreePath, change: Change) -> Result<(), AllocError>
        ensures { OnOk result (self.new ≡ map.insert self.old path change) }
    {
        self.by_path.insert(path, change)?;
        Ok(())
    }

    /// The changes in byte order of their paths.
    pub(crate) fn into_changes(self, alloc: Global) -> Result<Vec<Change>, AllocError>
        ensures { IfOk result (λ changes. changes.items ≡ map.values self) }
    {
        let mut changes = Vec::new(alloc);
        for (_path, change) in self.by_path {
            changes.push(change)?;
        }
        Ok(changes)
    }
}
