//! The rules of a tree, and what they say: systemd.preset(5).
ghost use Rattle.std.specs.Prelude.{◌≡◌, ◌++◌, IfOk, OnErr};
ghost use Rattle.load_path.specs.Search.{Finds, each_once};
ghost use Rattle.preset_rules.specs.Files.{policy_of};
ghost use Rattle.preset_rules.specs.Verdicts.{verdict};

use crate::deciding::verdict;
use crate::rule::{Rule, Verdict};
use crate::winners::Winners;
use link_tree::{Tree, TreePart};
use load_path::Cells;
use std::alloc::{AllocError, Global};
use std::marker::Model;
use unit_name::UnitName;

/// The rules of a tree's preset files, in the order in which they count. Contracts see the list.
#[derive(Debug, Drop)]
pub struct Rules {
    items: Vec<Rule>,
}

impl Model for Rules {
    ghost use Rattle.std.specs.Prelude.{List};
    ghost use Rattle.preset_rules.specs.declared.rule.Rule.{Rule};

    ghost Value = { List Rule };

    ghost view = { λ rules. rules.items.items };
}

impl Rules {
    /// The rules of the files at the preset slots of `presets`, with links followed in a tree.
    /// `presets` is that tree, or the part of it at its preset slots. The paths to which links lead
    /// are added to the cells, but not a slot itself. Fails only if memory runs out; the cells are
    /// then as they were.
    pub fn of_into(
        alloc: Global,
        presets: &TreePart,
        tree: &Tree,
        cells: &mut Cells,
    ) -> Result<Rules, AllocError>
        ensures ok { IfOk result (λ rules. (rules ≡ (policy_of presets.now).conclusion tree.now) × (cells.new ≡ cells.old ++ (policy_of presets.now).cells tree.now)) }
        ensures err { OnErr result (cells.new ≡ cells.old) }
    {
        let mut more = Cells::new(alloc);
        let rules = Rules::read(alloc, presets, tree, &mut more)?;
        cells.append(more)?;
        Ok(rules)
    }

    /// The same, but if memory runs out, some of the paths may have been added.
    #[tactic(auto, unfolding(crate::specs::Files::policy_of))]
    fn read(
        alloc: Global,
        presets: &TreePart,
        tree: &Tree,
        cells: &mut Cells,
    ) -> Result<Rules, AllocError>
        ensures { IfOk result (λ rules. (rules ≡ (policy_of presets.now).conclusion tree.now) × (cells.new ≡ cells.old ++ (policy_of presets.now).cells tree.now)) }
    {
        let winners = Winners::of(alloc, presets)?;
        let mut items = Vec::new(alloc);
        winners.read(alloc, presets, tree, &mut items, cells)?;
        Ok(Rules { items })
    }

    /// The rules; an earlier rule has priority over a later one.
    pub fn as_slice(&self) -> &[Rule]
        ensures { result.now ≡ self.now }
    {
        &self.items
    }

    /// What to do with a unit, by the first rule that applies to it; if none applies, the unit is
    /// enabled. Fails only if memory runs out.
    pub fn verdict(&self, alloc: Global, name: &UnitName) -> Result<Verdict, AllocError>
        ensures { IfOk result (λ said. said ≡ verdict self.now name.now) }
    {
        verdict(alloc, self.as_slice(), name)
    }
}

/// Which units a tree's preset files enable: their rules, and the paths to which the links among
/// them lead. The files are read once, when the value is made; a verdict reads no line again.
#[derive(Debug, Drop)]
pub struct Policy {
    rules: Rules,
    cells: Cells,
}

impl Policy {
    /// Reads the preset files of a tree. Among files with the same name, the one in
    /// `/etc/systemd/system-preset` counts, or else the one in `/run/systemd/system-preset`, or
    /// else the one in `/usr/lib/systemd/system-preset`. A link is followed as in
    /// `load_path::follow`; one that leads to `/dev/null`, or to no file, counts as an empty file,
    /// and so hides the others with its name. The files are read in byte order of their names, as
    /// one list of lines. Fails only if memory runs out.
    ///
    /// systemd.preset(5), "Description" and "Preset File Format".
    pub fn of(alloc: Global, tree: &Tree) -> Result<Policy, AllocError>
        ensures rules { IfOk result (λ policy. policy.rules ≡ (policy_of tree.now).conclusion tree.now) }
        ensures cells { IfOk result (λ policy. policy.cells ≡ each_once ((policy_of tree.now).cells tree.now)) }
    {
        let mut cells = Cells::new(alloc);
        let rules = Rules::read(alloc, tree.entries(), tree, &mut cells)?;
        let cells = cells.each_once()?;
        Ok(Policy { rules, cells })
    }

    /// The rules.
    pub fn rules(&self) -> &Rules
        ensures { result.now ≡ self.now.rules }
    {
        &self.rules
    }

    /// The paths to which the links that count lead, each listed once. These paths and the preset
    /// slots decide each verdict.
    pub fn cells(&self) -> &Cells
        ensures { result.now ≡ self.now.cells }
    {
        &self.cells
    }

    /// What to do with a unit, by the rules: `Rules::verdict`.
    pub fn verdict(&self, alloc: Global, name: &UnitName) -> Result<Verdict, AllocError>
        ensures { IfOk result (λ said. said ≡ verdict self.now.rules name.now) }
    {
        self.rules.verdict(alloc, name)
    }
}
