//! Wanted links.
ghost use Rattle.std.specs.Prelude.{◌≡◌, ◌==◌, true, All, OnOk, OnErr};
ghost use Rattle.std.specs.Option.{option_copied};
ghost use Rattle.std.specs.FinMap as map;
ghost use Rattle.unit_paths.specs.Slots.{is_slot};

use link_tree::TreePath;
use std::alloc::{AllocError, Global};
use std::collections::{BTreeMap, btree_map};
use std::marker::Model;

/// The links that units want, by their paths, which are slots: each path has one link, to the file
/// at another path. Contracts see this as the finite map from the links' paths to the files' paths.
#[derive(Debug, Drop)]
pub struct Links {
    by_path: BTreeMap<TreePath, TreePath>,
}

impl Model for Links {
    ghost use Rattle.std.specs.FinMap as map;
    ghost use Rattle.link_tree.specs.Values.{coded_path};
    ghost use Rattle.install_section.specs.LinkSlots.{LinkMap, AreAtSlots};

    ghost Value = { LinkMap };

    ghost coded = { map.code coded_path coded_path };

    ghost view = { λ links. map.from_entries links.by_path.entries };

    ghost invariant = { λ links. AreAtSlots (map.from_entries links.by_path.entries) };
}

impl Links {
    /// No links. Takes no memory.
    pub(crate) fn none(alloc: Global) -> Links
        ensures { result ≡ map.empty }
    {
        Links {
            by_path: BTreeMap::new(alloc),
        }
    }

    /// The file to which the link at a path will lead, if one is wanted there.
    pub fn get(&self, path: &TreePath) -> Option<&TreePath>
        ensures { option_copied result ≡ map.get self.now path.now }
    {
        self.by_path.get(path)
    }

    /// Adds a wanted link at a slot.
    pub(crate) fn insert(&mut self, path: TreePath, file: TreePath) -> Result<(), AllocError>
        requires { is_slot path ≡ true }
        ensures ok { OnOk result (self.new ≡ map.insert self.old path file) }
        ensures err { OnErr result (self.new ≡ self.old) }
    {
        self.by_path.insert(path, file)?;
        Ok(())
    }

    /// The number of links.
    pub fn len(&self) -> usize
        ensures { result ≡ map.len self.now }
    {
        self.by_path.len()
    }

    /// Whether there are no links.
    pub fn is_empty(&self) -> bool
        ensures { result ≡ (map.len self.now == 0) }
    {
        self.len() == 0
    }

    /// Each link's path with the path of its file, in byte order of the links' paths, which are
    /// slots.
    pub fn iter(&self) -> btree_map::Iter<'_, TreePath, TreePath>
        ensures links { result ≡ map.entries self.now }
        ensures slots { All (λ link. is_slot link.0 ≡ true) (map.entries self.now) }
    {
        self.by_path.iter()
    }
}
