//! The check that units can be installed.
ghost use Rattle.install_commands.specs.Check.{checked, one_checked};
ghost use Rattle.transaction.specs.Runs.{Runs, asking_for};

use footprint::{Operation, Outcome, Refusal, Units};
use link_tree::Tree;
use std::alloc::{AllocError, Global};
use transaction::{Stop, Transaction};
use unit_name::UnitName;

/// The check with which `enable` and `reenable` begin: each unit, in order, is found and isn't an
/// alias. The first refusal refuses the whole command: `NotFound`, `Masked`, `Dangling`, or
/// `IsAlias` wherever the alias is. It changes nothing, but counts as a command; systemctl(1) has
/// no command that does only this.
#[derive(Debug, Drop)]
pub struct Check {
    pub units: Units,
}

/// Checks that one unit is found, and is no alias.
fn check_one(alloc: Global, name: &UnitName, txn: &mut Transaction<'_>) -> Result<(), Stop>
    ensures { Runs (asking_for (one_checked name.now)) txn.old txn.new result }
{
    let (real, _file) = txn.unit(alloc, name)?;
    if real.text() == name.text() {
        return Ok(());
    }
    let unit = name.copy()?;
    Err(Stop::Refused(Refusal::IsAlias { unit, real }))
}

/// Checks that each unit is found, and is no alias, up to the first that is refused.
pub(crate) fn check_all(
    alloc: Global,
    names: &[UnitName],
    txn: &mut Transaction<'_>,
) -> Result<(), Stop>
    ensures { Runs (asking_for (checked names.now)) txn.old txn.new result }
{
    for name in names {
        check_one(alloc, name, txn)?;
    }
    Ok(())
}

impl Operation for Check {
    ghost use Rattle.std.specs.Prelude.{false};
    ghost use Rattle.footprint.proofs.Carried.{laws_of};
    ghost use Rattle.install_commands.specs.Check.{check_command, check_meaning};

    ghost meaning = { check_meaning };

    ghost asks = { λ c. false };

    fn run(&self, alloc: Global, tree: &Tree) -> Result<Outcome, AllocError> {
        let mut txn = Transaction::new(alloc, tree);
        let done = check_all(alloc, self.units.as_slice(), &mut txn);
        txn.outcome_of_steps(alloc, done)
    }

    fn asks_only(&self) -> bool {
        false
    }

    fn copy(&self) -> Result<Check, AllocError> {
        Ok(Check {
            units: self.units.copy()?,
        })
    }

    fn same(&self, other: &Check) -> bool {
        self.units.same(&other.units)
    }

    ghost laws = { laws_of check_command };
}
