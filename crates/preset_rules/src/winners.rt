//! Which preset files count.
ghost use Rattle.std.specs.Prelude.{◌≡◌, ◌&&◌, OnOk, IfOk, ℕ, List, is_some, if◌then◌else◌};
ghost use Rattle.std.specs.Option.{option_or, option_copied};
ghost use Rattle.std.specs.FinMap as map;
ghost use Rattle.unit_paths.specs.Places.{preset_directory};
ghost use Rattle.unit_paths.specs.Paths.{name_at};
ghost use Rattle.unit_paths.specs.Slots.{slot_of};
ghost use Rattle.link_tree.specs.Trees.{path_cmp};
ghost use Rattle.preset_rules.specs.Files.{is_in, presets_of, named_in, winners, rules_from};
ghost use Rattle.unit_paths.specs.Kinds.{is_preset};
ghost use Rattle.preset_rules.specs.WinnerSteps.{with_path};
ghost use Rattle.preset_rules.specs.Gathering.{Gathers};

use crate::file::read_slot;
use crate::file_name::FileName;
use crate::rule::Rule;
use link_tree::{Place, Slot, Tree, TreePart, TreePath};
use load_path::Cells;
use std::alloc::{AllocError, Global};
use std::collections::BTreeMap;
use std::marker::Model;

/// The slot that counts for each file name. Contracts see the finite map.
#[derive(Debug, Drop)]
pub(crate) struct Winners {
    by_name: BTreeMap<FileName, TreePath>,
}

impl Model for Winners {
    ghost use Rattle.std.specs.Prelude.{List, ℕ};
    ghost use Rattle.std.specs.FinMap as map;
    ghost use Rattle.link_tree.specs.Trees.{path_cmp};
    ghost use Rattle.link_tree.specs.Values.{coded_path};

    ghost Value = { map.FinMap path_cmp (List ℕ) };

    ghost coded = { map.code coded_path coded_path };

    ghost view = { λ winners. map.from_entries winners.by_name.entries };
}

impl Winners {
    fn none(alloc: Global) -> Winners
        ensures { result ≡ map.empty }
    {
        Winners {
            by_name: BTreeMap::new(alloc),
        }
    }

    /// For each file name, the slot in `/etc`, or else in `/run`, or else in `/usr/lib`.
    pub(crate) fn of(alloc: Global, presets: &TreePart) -> Result<Winners, AllocError>
        ensures { IfOk result (λ found. found ≡ winners (presets_of presets.now)) }
    {
        let mut winners = Winners::none(alloc);
        winners.add_all(alloc, Place::Etc, presets)?;
        winners.add_all(alloc, Place::Run, presets)?;
        winners.add_all(alloc, Place::Vendor, presets)?;
        Ok(winners)
    }

    /// Adds the slots of a directory whose file names are not in the map yet.
    fn add_all(&mut self, alloc: Global, place: Place, presets: &TreePart) -> Result<(), AllocError>
        ensures { OnOk result ((name : List ℕ) → map.get self.new name ≡ option_or (map.get self.old name) (map.find path_cmp name (named_in place (map.keys (presets_of presets.now))))) }
    {
        for (path, _entry) in presets.iter() {
            if is_in(place, path) {
                self.add(alloc, path)?;
            }
        }
        Ok(())
    }

    /// Adds a slot, unless its file name is in the map.
    fn add(&mut self, alloc: Global, path: &TreePath) -> Result<(), AllocError>
        ensures { OnOk result (self.new ≡ with_path self.old path.now) }
    {
        let name = FileName::from_slice(alloc, path.file_name())?;
        if self.has(&name) {
            return Ok(());
        }
        self.insert(name, path.copy()?)
    }

    fn has(&self, name: &FileName) -> bool
        ensures { result ≡ is_some (map.get self.now name.now) }
    {
        match self.get(name) {
            Some(_) => true,
            None => false,
        }
    }

    fn get(&self, name: &FileName) -> Option<&TreePath>
        ensures { option_copied result ≡ map.get self.now name.now }
    {
        self.by_name.get(name)
    }

    /// Adds the rules of the files at the slots, in byte order of their names, and the cells to
    /// which links lead.
    pub(crate) fn read(
        self,
        alloc: Global,
        presets: &TreePart,
        tree: &Tree,
        rules: &mut Vec<Rule>,
        cells: &mut Cells,
    ) -> Result<(), AllocError>
        ensures { OnOk result (Gathers tree.now (rules_from (presets_of presets.now) (map.values self)) rules.old.items rules.new.items cells.old cells.new) }
    {
        for (_name, path) in self.by_name {
            read_slot(alloc, presets, tree, &path, rules, cells)?;
        }
        Ok(())
    }

    fn insert(&mut self, name: FileName, path: TreePath) -> Result<(), AllocError>
        ensures { OnOk result (self.new ≡ map.insert self.old name path) }
    {
        self.by_name.insert(name, path)?;
        Ok(())
    }
}

/// Whether a path is a slot of the directory of presets next to this one.
fn is_in(place: Place, path: &TreePath) -> bool
    ensures { result ≡ is_in place path.now }
{
    path.directory() == place.preset_directory().as_bytes() && Slot::is_of_preset(path)
}
