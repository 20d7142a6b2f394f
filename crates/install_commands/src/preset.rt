//! preset.
ghost use Rattle.std.specs.Prelude.{◌≡◌, ◌∷◌, ◌++◌, [], Ok, if◌then◌else◌, IfOk, OnErr, OnOk};
ghost use Rattle.std.specs.Option.{option_copied};
ghost use Rattle.install_commands.specs.Preset as presets;
ghost use Rattle.install_commands.specs.Preset.{asks, counting_behind, judged_disabled, judged_enabled, preset_judges, telling_too};
ghost use Rattle.transaction.specs.Runs.{Runs, and_then, asking, asking_for, doing, doing_both};

use crate::disable::{Named, name_units, remove_links};
use crate::following::then_enable;
use crate::judging::Judged;
use footprint::{Notices, Operation, Outcome, Units};
use install_section::{Section, section_into};
use link_tree::{Scope, Tree};
use load_path::Cells;
use preset_rules::Rules;
use std::alloc::{AllocError, Global};
use transaction::{Stop, Transaction};
use unit_name::UnitName;

/// systemctl(1), `preset`: enables or disables units as the preset files say (systemd.preset(5)),
/// all or nothing: first it runs `disable` for the units to disable, and then `enable` for the
/// others. If a unit isn't found, the command is refused with `NotFound`, `Masked` or `Dangling`.
/// An alias is skipped, and so is a unit whose [Install] section names no unit and asks for no
/// link. The preset files and sections are read before anything changes. If a preset file lists
/// instances for a template, these are enabled instead of it; an instance that doesn't give a valid
/// unit name is skipped with a notice. A word of a section that would need an instance is skipped
/// without a notice. If `enable` is refused, nothing is changed.
#[derive(Debug, Drop)]
pub struct Preset {
    pub scope: Scope,
    pub units: Units,
}

/// Whether a section names a unit or asks for a link.
fn asks(section: Option<&Section>) -> bool
    ensures { result ≡ asks (option_copied section.entry) }
{
    match section {
        Some(section) => !section.is_empty(),
        None => false,
    }
}

/// Whether a unit that was found is no alias, and its section names a unit or asks for a link.
fn found_counts(
    alloc: Global,
    name: &UnitName,
    real: &UnitName,
    txn: &mut Transaction<'_>,
) -> Result<bool, AllocError>
    ensures ok { IfOk result (λ here. Runs (asking (presets.found_counts name.now real.now)) txn.old txn.new (Ok here)) }
    ensures err { OnErr result (txn.new.first ≡ txn.old.first) }
{
    if real.text() == name.text() {
        let mut cells = Cells::new(alloc);
        let section = section_into(alloc, txn.tree(), name, &mut cells)?;
        txn.note(cells)?;
        return Ok(asks(section.as_ref()));
    }
    Ok(false)
}

/// Whether presets apply to a unit. Refused if it isn't found.
fn counts(alloc: Global, name: &UnitName, txn: &mut Transaction<'_>) -> Result<bool, Stop>
    ensures { Runs (asking_for (presets.counts name.now)) txn.old txn.new result }
{
    let (real, _file) = txn.unit(alloc, name)?;
    Ok(found_counts(alloc, name, &real, txn)?)
}

/// Adds a unit, if it counts.
fn push_counting(units: &mut Units, unit: &UnitName, counts: bool) -> Result<(), AllocError>
    ensures { OnOk result (units.new ≡ if counts then units.old ++ unit.now ∷ [] else units.old) }
{
    if counts {
        units.push(unit.copy()?)?;
    }
    Ok(())
}

/// Those of the units to which presets apply, in order, up to one that isn't found.
fn select_counting(
    alloc: Global,
    units: &[UnitName],
    txn: &mut Transaction<'_>,
) -> Result<Units, Stop>
    ensures { Runs (asking_for (counting_behind [] units.now)) txn.old txn.new result }
{
    let mut names = Units::none(alloc);
    for unit in units {
        let counts = counts(alloc, unit, txn)?;
        push_counting(&mut names, unit, counts)?;
    }
    Ok(names)
}

/// Which of the units the preset files of the tree say to disable, and which to enable.
fn judge(alloc: Global, units: &[UnitName], txn: &mut Transaction<'_>) -> Result<Judged, AllocError>
    ensures ok { IfOk result (λ judged. Runs (asking (presets.units_judged units.now)) txn.old txn.new (Ok judged)) }
    ensures err { OnErr result (txn.new.first ≡ txn.old.first) }
{
    let presets = txn.presets(alloc)?;
    let mut cells = Cells::new(alloc);
    let rules = Rules::of_into(alloc, &presets, txn.tree(), &mut cells)?;
    txn.note(cells)?;
    Judged::by(alloc, &rules, units)
}

/// Adds these notices.
fn tell_too(notices: Notices, named: Named) -> Result<Named, AllocError>
    ensures { IfOk result (λ told. told ≡ telling_too notices named) }
{
    let mut told = notices;
    told.add_all(&named.notices)?;
    Ok(Named {
        names: named.names,
        notices: told,
    })
}

/// The names of the units to disable, with the notices of the verdicts too.
fn name_judged(
    alloc: Global,
    disabled: &[UnitName],
    notices: Notices,
    txn: &mut Transaction<'_>,
) -> Result<Named, Stop>
    ensures { Runs (asking_for (presets.judged_named disabled.now notices)) txn.old txn.new result }
{
    let named = name_units(alloc, disabled, txn)?;
    Ok(tell_too(notices, named)?)
}

/// Disables units, and returns the notices about instances too.
fn disable_telling(
    alloc: Global,
    scope: Scope,
    disabled: &[UnitName],
    notices: Notices,
    txn: &mut Transaction<'_>,
) -> Result<Notices, Stop>
    ensures { Runs (doing (presets.disabled_telling scope disabled.now notices)) txn.old txn.new result }
{
    let named = name_judged(alloc, disabled, notices, txn)?;
    remove_links(alloc, scope, named, txn)
}

/// Disables units, and then enables others, as the preset files say.
fn carry_through(
    alloc: Global,
    scope: Scope,
    judged: Judged,
    txn: &mut Transaction<'_>,
) -> Result<Notices, Stop>
    ensures { Runs (doing_both (judged_disabled scope judged) (judged_enabled scope judged)) txn.old txn.new result }
{
    let Judged {
        disabled,
        enabled,
        notices,
    } = judged;
    let notices = disable_telling(alloc, scope, disabled.as_slice(), notices, txn)?;
    then_enable(alloc, notices, scope, true, enabled.as_slice(), txn)
}

impl Preset {
    /// Which units to disable and which to enable, in the tree in which the preset begins.
    fn judges(&self, alloc: Global, txn: &mut Transaction<'_>) -> Result<Judged, Stop>
        ensures { Runs (asking_for (preset_judges self.now)) txn.old txn.new result }
    {
        let units = select_counting(alloc, self.units.as_slice(), txn)?;
        Ok(judge(alloc, units.as_slice(), txn)?)
    }

    fn carry_out(&self, alloc: Global, txn: &mut Transaction<'_>) -> Result<Notices, Stop>
        ensures { Runs (and_then (asking_for (preset_judges self.now)) (λ judged. doing_both (judged_disabled self.now.scope judged) (judged_enabled self.now.scope judged))) txn.old txn.new result }
    {
        let judged = self.judges(alloc, txn)?;
        carry_through(alloc, self.scope, judged, txn)
    }
}

impl Operation for Preset {
    ghost use Rattle.std.specs.Prelude.{false, refl};
    ghost use Rattle.footprint.proofs.InTurns.{laws_of_both, laws_after};
    ghost use Rattle.install_commands.specs.Preset.{judged_disabled, judged_enabled, carried_through, preset_judges, preset_meaning};

    ghost meaning = { preset_meaning };

    ghost asks = { λ c. false };

    fn run(&self, alloc: Global, tree: &Tree) -> Result<Outcome, AllocError> {
        let mut txn = Transaction::new(alloc, tree);
        let done = self.carry_out(alloc, &mut txn);
        txn.outcome(alloc, done)
    }

    fn asks_only(&self) -> bool {
        false
    }

    fn copy(&self) -> Result<Preset, AllocError> {
        Ok(Preset {
            scope: self.scope,
            units: self.units.copy()?,
        })
    }

    fn same(&self, other: &Preset) -> bool {
        self.scope == other.scope && self.units.same(&other.units)
    }

    ghost laws = { laws_after preset_judges (λ preset. carried_through preset.scope)
        (laws_of_both (λ c. judged_disabled c.0.scope c.1) (λ c. judged_enabled c.0.scope c.1))
        (λ preset refusal. refl) };
}
