//! reenable.
ghost use Rattle.std.specs.Prelude.{◌≡◌, ◌++◌, [], Ok, IfOk, OnErr, OnOk};
ghost use Rattle.load_path.specs.Find.{find};
ghost use Rattle.footprint.specs.Inquiry.{giving, with_cells};
ghost use Rattle.install_commands.specs.Reenable as reenabling;
ghost use Rattle.install_commands.specs.Reenable.{with_kept, kept_behind, reenable_disables, reenable_enables};
ghost use Rattle.transaction.specs.Runs.{Runs, asking, asking_for, doing, doing_both};

use crate::check::check_all;
use crate::disable::{Named, name_units, remove_links_but};
use crate::following::then_enable;
use footprint::{Notices, Operation, Outcome, Units};
use link_tree::{Scope, Slot, Tree, TreePath};
use load_path::{Cells, Found, find_into};
use std::alloc::{AllocError, Global};
use transaction::{Stop, Transaction};
use unit_name::UnitName;

/// systemctl(1), `reenable`: `disable` and then `enable`, all or nothing, so that the links of the
/// units are again those that their [Install] sections ask for. If a unit isn't found or is an
/// alias, the command is refused as `enable` is, before anything is removed. If a unit's file is
/// outside the unit directories, the link by which the unit is found is kept, since without it
/// there would be nothing to enable. `enable` works on the tree that is left after the removal; if
/// it is refused there, nothing is changed. The notices are those of both.
#[derive(Debug, Drop)]
pub struct Reenable {
    pub scope: Scope,
    pub units: Units,
}

/// Adds paths to those that are kept.
fn keep_all(kept: &mut Cells, cells: &[TreePath]) -> Result<(), AllocError>
    ensures { OnOk result (kept.new ≡ kept.old ++ cells.now) }
{
    for cell in cells {
        kept.push(cell.copy()?)?;
    }
    Ok(())
}

/// Keeps the cells by which a name was found, if it is a unit whose file is outside the unit
/// directories.
fn keep(kept: &mut Cells, found: &Found, cells: &[TreePath]) -> Result<(), AllocError>
    ensures { OnOk result (kept.new ≡ with_kept kept.old (found.now, cells.now)) }
{
    match found {
        Found::Unit { file, .. } => {
            if Slot::is_of_unit(file) {
                return Ok(());
            }
            keep_all(kept, cells)
        }
        Found::Missing | Found::Masked(_) | Found::Dangling(_) => Ok(()),
    }
}

/// Looks a name up, and keeps the cells that must be kept for it.
fn keep_for(
    alloc: Global,
    name: &UnitName,
    kept: &mut Cells,
    txn: &mut Transaction<'_>,
) -> Result<(), AllocError>
    ensures ok { OnOk result (Runs (asking (giving (with_cells (find name.now)) (with_kept kept.old))) txn.old txn.new (Ok kept.new)) }
    ensures err { OnErr result (txn.new.first ≡ txn.old.first) }
{
    let mut cells = Cells::new(alloc);
    let found = find_into(alloc, txn.tree(), name, &mut cells)?;
    keep(kept, &found, cells.as_slice())?;
    txn.note(cells)
}

/// The cells that are kept for the names, in order.
fn keep_for_all(
    alloc: Global,
    names: &[UnitName],
    txn: &mut Transaction<'_>,
) -> Result<Cells, AllocError>
    ensures ok { IfOk result (λ kept. Runs (asking (kept_behind [] names.now)) txn.old txn.new (Ok kept)) }
    ensures err { OnErr result (txn.new.first ≡ txn.old.first) }
{
    let mut kept = Cells::new(alloc);
    for name in names {
        keep_for(alloc, name, &mut kept, txn)?;
    }
    Ok(kept)
}

/// The names of the units, which are checked first.
fn check_and_name(
    alloc: Global,
    units: &[UnitName],
    txn: &mut Transaction<'_>,
) -> Result<Named, Stop>
    ensures { Runs (asking_for (reenabling.checked_named units.now)) txn.old txn.new result }
{
    check_all(alloc, units, txn)?;
    name_units(alloc, units, txn)
}

/// Removes the links that belong to one of the names, except those by which a file outside the unit
/// directories is found.
fn clear_links(
    alloc: Global,
    scope: Scope,
    named: Named,
    txn: &mut Transaction<'_>,
) -> Result<Notices, Stop>
    ensures { Runs (doing (reenabling.links_cleared scope named)) txn.old txn.new result }
{
    let kept = keep_for_all(alloc, named.names.as_slice(), txn)?;
    remove_links_but(alloc, scope, kept.as_slice(), named, txn)
}

impl Reenable {
    /// The first part: checks the units and removes their links.
    fn disable(&self, alloc: Global, txn: &mut Transaction<'_>) -> Result<Notices, Stop>
        ensures { Runs (doing (reenable_disables self.now)) txn.old txn.new result }
    {
        let named = check_and_name(alloc, self.units.as_slice(), txn)?;
        clear_links(alloc, self.scope, named, txn)
    }

    /// Both parts.
    fn carry_out(&self, alloc: Global, txn: &mut Transaction<'_>) -> Result<Notices, Stop>
        ensures { Runs (doing_both (reenable_disables self.now) (reenable_enables self.now)) txn.old txn.new result }
    {
        let notices = self.disable(alloc, txn)?;
        then_enable(
            alloc,
            notices,
            self.scope,
            false,
            self.units.as_slice(),
            txn,
        )
    }
}

impl Operation for Reenable {
    ghost use Rattle.std.specs.Prelude.{false};
    ghost use Rattle.footprint.proofs.InTurns.{laws_of_both};
    ghost use Rattle.install_commands.specs.Reenable.{reenable_disables, reenable_enables, reenable_meaning};

    ghost meaning = { reenable_meaning };

    ghost asks = { λ c. false };

    fn run(&self, alloc: Global, tree: &Tree) -> Result<Outcome, AllocError> {
        let mut txn = Transaction::new(alloc, tree);
        let done = self.carry_out(alloc, &mut txn);
        txn.outcome(alloc, done)
    }

    fn asks_only(&self) -> bool {
        false
    }

    fn copy(&self) -> Result<Reenable, AllocError> {
        Ok(Reenable {
            scope: self.scope,
            units: self.units.copy()?,
        })
    }

    fn same(&self, other: &Reenable) -> bool {
        self.scope == other.scope && self.units.same(&other.units)
    }

    ghost laws = { laws_of_both reenable_disables reenable_enables };
}
