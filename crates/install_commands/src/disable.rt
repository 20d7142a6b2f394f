//! disable.
ghost use Rattle.std.specs.Prelude.{◌≡◌, ◌++◌, [], Ok, map as list_map, IfOk, OnErr, OnOk};
ghost use Rattle.tree_access.specs.declared.key.Key.TheVariants.{Marked};
ghost use Rattle.load_path.specs.Search.{with_cell, each_once};
ghost use Rattle.footprint.specs.Inquiry.{entries_of_all, giving};
ghost use Rattle.tree_access.specs.Placing.{cleared};
ghost use Rattle.install_commands.specs.Disable.{with_real, reals_behind, is_itself, with_self, selves_behind, selves_named, reals_named, but_at, disable_command};
ghost use Rattle.install_commands.specs.Disable as disabling;
ghost use Rattle.transaction.specs.Runs.{Runs, asking, asking_for, doing};

use crate::enable::close;
use footprint::{Notices, Operation, Outcome, Units};
use link_tree::{Scope, Tree, TreePath};
use load_path::Found;
use std::alloc::{AllocError, Global};
use transaction::{Stop, Transaction, WantedLinks};
use unit_name::UnitName;

/// systemctl(1), `disable`: removes all links in the scope that belong to the units, no matter what
/// made them. The names to which links may belong are those that are given, the own name of each
/// that is found as a unit, and, transitively, those of the units in the `Also=` of these. The only
/// refusal is `TooMany`, if that would be over 1,024 units. Words of `Also=` that name no unit are
/// skipped, each with a notice.
#[derive(Debug, Drop)]
pub struct Disable {
    pub scope: Scope,
    pub units: Units,
}

/// The names whose links are removed, with the notices about skipped words.
#[derive(Debug, Drop)]
pub(crate) struct Named {
    pub names: Units,
    pub notices: Notices,
}

/// Adds the own name of what was found, if that is a unit.
fn push_real(names: &mut Units, found: Found) -> Result<(), AllocError>
    ensures { OnOk result (names.new ≡ with_real names.old found) }
{
    match found {
        Found::Unit { real, .. } => names.push(real),
        Found::Missing | Found::Masked(_) | Found::Dangling(_) => Ok(()),
    }
}

/// The own names of those that are found as units, in order.
fn reals(alloc: Global, units: &[UnitName], txn: &mut Transaction<'_>) -> Result<Units, AllocError>
    ensures ok { IfOk result (λ names. Runs (asking (reals_behind [] units.now)) txn.old txn.new (Ok names)) }
    ensures err { OnErr result (txn.new.first ≡ txn.old.first) }
{
    let mut names = Units::none(alloc);
    for unit in units {
        let found = txn.find(alloc, unit)?;
        push_real(&mut names, found)?;
    }
    Ok(names)
}

/// Whether what was found is a unit with this name.
fn is_itself(name: &UnitName, found: &Found) -> bool
    ensures { result ≡ is_itself name.now found.now }
{
    match found {
        Found::Unit { real, .. } => real.text() == name.text(),
        Found::Missing | Found::Masked(_) | Found::Dangling(_) => false,
    }
}

/// Adds a name, if what was found is a unit with this name.
fn push_self(names: &mut Units, name: &UnitName, found: &Found) -> Result<(), AllocError>
    ensures { OnOk result (names.new ≡ with_self names.old name.now found.now) }
{
    if is_itself(name, found) {
        names.push(name.copy()?)?;
    }
    Ok(())
}

/// Those that are found under their own names, in order.
fn selves(alloc: Global, units: &[UnitName], txn: &mut Transaction<'_>) -> Result<Units, AllocError>
    ensures ok { IfOk result (λ names. Runs (asking (selves_behind [] units.now)) txn.old txn.new (Ok names)) }
    ensures err { OnErr result (txn.new.first ≡ txn.old.first) }
{
    let mut names = Units::none(alloc);
    for unit in units {
        let found = txn.find(alloc, unit)?;
        push_self(&mut names, unit, &found)?;
    }
    Ok(names)
}

/// Adds each of the names.
fn push_all(names: &mut Units, more: &[UnitName]) -> Result<(), AllocError>
    ensures { OnOk result (names.new ≡ names.old ++ more.now) }
{
    for name in more {
        names.push(name.copy()?)?;
    }
    Ok(())
}

/// Adds a name, unless it is there already.
#[tactic(auto, unfolding(load_path::specs::Search::with_cell))]
fn note(names: &mut Units, name: &UnitName) -> Result<(), AllocError>
    ensures { OnOk result (names.new ≡ with_cell names.old name.now) }
{
    if names.as_slice().contains(name) {
        return Ok(());
    }
    names.push(name.copy()?)
}

/// Each of the names once, at its first place: a unit that is given by its own name is also found
/// and reached under it.
fn each_once(alloc: Global, names: &[UnitName]) -> Result<Units, AllocError>
    ensures { IfOk result (λ once. once ≡ each_once names.now) }
{
    let mut once = Units::none(alloc);
    for name in names {
        note(&mut once, name)?;
    }
    Ok(once)
}

/// These names with more of them after them, each once.
fn join_once(alloc: Global, mut names: Units, more: &[UnitName]) -> Result<Units, AllocError>
    ensures { IfOk result (λ once. once ≡ each_once (names ++ more.now)) }
{
    push_all(&mut names, more)?;
    each_once(alloc, names.as_slice())
}

/// The closure of the units that are found under their own names, after these names.
fn name_selves(
    alloc: Global,
    names: Units,
    selves: &[UnitName],
    txn: &mut Transaction<'_>,
) -> Result<Named, Stop>
    ensures { Runs (asking_for (selves_named names selves.now)) txn.old txn.new result }
{
    let closed = close(alloc, selves, txn)?;
    let names = join_once(alloc, names, closed.units.as_slice())?;
    let notices = closed.notices;
    Ok(Named { names, notices })
}

/// The names to disable, given the units' own names.
fn name_reals(
    alloc: Global,
    units: &[UnitName],
    reals: &[UnitName],
    txn: &mut Transaction<'_>,
) -> Result<Named, Stop>
    ensures { Runs (asking_for (reals_named units.now reals.now)) txn.old txn.new result }
{
    let selves = selves(alloc, reals, txn)?;
    let mut names = Units::none(alloc);
    push_all(&mut names, units)?;
    push_all(&mut names, reals)?;
    name_selves(alloc, names, selves.as_slice(), txn)
}

/// The names to disable: those that are given, the own names of those that are found as units, and
/// the closure of those of them that are found under their own names. Refused by `TooMany`.
pub(crate) fn name_units(
    alloc: Global,
    units: &[UnitName],
    txn: &mut Transaction<'_>,
) -> Result<Named, Stop>
    ensures { Runs (asking_for (disabling.units_named units.now)) txn.old txn.new result }
{
    let reals = reals(alloc, units, txn)?;
    name_reals(alloc, units, reals.as_slice(), txn)
}

/// Removes these paths from what is wanted: what is there stays as it is.
fn leave_all(wanted: &mut WantedLinks, kept: &[TreePath])
    ensures { wanted.new ≡ but_at wanted.old kept.now }
{
    for path in kept {
        wanted.leave(path);
    }
}

/// Wants the removal of all links of the scope that belong to one of the names, but for the paths
/// that are kept.
fn collect_unwanted(
    alloc: Global,
    scope: Scope,
    names: &[UnitName],
    kept: &[TreePath],
    txn: &mut Transaction<'_>,
) -> Result<WantedLinks, AllocError>
    ensures ok { IfOk result (λ wanted. Runs (asking (giving (entries_of_all (list_map (Marked scope) names.now)) (λ links. but_at (cleared links) kept.now))) txn.old txn.new (Ok wanted)) }
    ensures err { OnErr result (txn.new.first ≡ txn.old.first) }
{
    let links = txn.links_of_all(alloc, scope, names)?;
    let mut wanted = WantedLinks::cleared(alloc, &links)?;
    leave_all(&mut wanted, kept);
    Ok(wanted)
}

/// Removes the links of the scope that belong to one of the names, but for those that are kept.
/// Returns the notices about skipped words.
pub(crate) fn remove_links_but(
    alloc: Global,
    scope: Scope,
    kept: &[TreePath],
    named: Named,
    txn: &mut Transaction<'_>,
) -> Result<Notices, Stop>
    ensures { Runs (doing (disabling.links_removed_but scope kept.now named)) txn.old txn.new result }
{
    let wanted = collect_unwanted(alloc, scope, named.names.as_slice(), kept, txn)?;
    txn.all_at_once(alloc, &wanted)?;
    Ok(named.notices)
}

/// Removes all links of the scope that belong to one of the names.
pub(crate) fn remove_links(
    alloc: Global,
    scope: Scope,
    named: Named,
    txn: &mut Transaction<'_>,
) -> Result<Notices, Stop>
    ensures { Runs (doing (disabling.links_removed scope named)) txn.old txn.new result }
{
    remove_links_but(alloc, scope, &[], named, txn)
}

impl Disable {
    fn carry_out(&self, alloc: Global, txn: &mut Transaction<'_>) -> Result<Notices, Stop>
        ensures { Runs (doing (disable_command self.now)) txn.old txn.new result }
    {
        let named = name_units(alloc, self.units.as_slice(), txn)?;
        remove_links(alloc, self.scope, named, txn)
    }
}

impl Operation for Disable {
    ghost use Rattle.std.specs.Prelude.{false};
    ghost use Rattle.footprint.proofs.Carried.{laws_of};
    ghost use Rattle.install_commands.specs.Disable.{disable_command, disable_meaning};

    ghost meaning = { disable_meaning };

    ghost asks = { λ c. false };

    fn run(&self, alloc: Global, tree: &Tree) -> Result<Outcome, AllocError> {
        let mut txn = Transaction::new(alloc, tree);
        let done = self.carry_out(alloc, &mut txn);
        txn.outcome(alloc, done)
    }

    fn asks_only(&self) -> bool {
        false
    }

    fn copy(&self) -> Result<Disable, AllocError> {
        Ok(Disable {
            scope: self.scope,
            units: self.units.copy()?,
        })
    }

    fn same(&self, other: &Disable) -> bool {
        self.scope == other.scope && self.units.same(&other.units)
    }

    ghost laws = { laws_of disable_command };
}
