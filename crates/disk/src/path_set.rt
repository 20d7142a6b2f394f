//! Sets of paths.
ghost use Rattle.std.specs.Prelude.{◌≡◌, OnOk, is_some};
ghost use Rattle.std.specs.FinMap as map;

use link_tree::TreePath;
use std::alloc::{AllocError, Global};
use std::collections::BTreeMap;
use std::marker::Model;

/// Paths, each once. In contracts it is a finite map from them to `()`.
#[derive(Drop)]
pub(crate) struct PathSet {
    by_path: BTreeMap<TreePath, ()>,
}

impl Model for PathSet {
    ghost use Rattle.std.specs.FinMap as map;
    ghost use Rattle.std.specs.Coded.{codes};
    ghost use Rattle.link_tree.specs.Trees.{path_cmp};
    ghost use Rattle.link_tree.specs.Values.{coded_path};

    ghost Value = { map.FinMap path_cmp (Unit {0}) };

    ghost coded = { map.code coded_path (Prim.hlevel codes) };

    ghost view = { λ paths. map.from_entries paths.by_path.entries };
}

impl PathSet {
    /// No path.
    pub(crate) fn none(alloc: Global) -> PathSet
        ensures { result ≡ map.empty }
    {
        PathSet {
            by_path: BTreeMap::new(alloc),
        }
    }

    /// Whether the set contains a path.
    pub(crate) fn has(&self, path: &TreePath) -> bool
        ensures { result ≡ is_some (map.get self.now path.now) }
    {
        self.by_path.contains_key(path)
    }

    /// Adds a path.
    pub(crate) fn insert(&mut self, path: TreePath) -> Result<(), AllocError>
        ensures { OnOk result (self.new ≡ map.insert self.old path tt) }
    {
        self.by_path.insert(path, ())?;
        Ok(())
    }
}
