//! Enabling units after another part of the same command.
ghost use Rattle.install_commands.specs.Enable as enabling;
ghost use Rattle.transaction.specs.Runs.{Runs, doing, reporting_too};

use crate::enable::enable_units;
use footprint::Notices;
use link_tree::Scope;
use std::alloc::Global;
use transaction::{Stop, Transaction};
use unit_name::UnitName;

/// Enables units in the tree that an earlier part of the command left, and adds the notices to
/// those of that part. With `skip` a word that would need an instance asks for nothing.
pub(crate) fn then_enable(
    alloc: Global,
    mut notices: Notices,
    scope: Scope,
    skip: bool,
    units: &[UnitName],
    txn: &mut Transaction<'_>,
) -> Result<Notices, Stop>
    ensures { Runs (reporting_too notices (doing (enabling.units_enabled scope skip units.now))) txn.old txn.new result }
{
    let more = enable_units(alloc, scope, skip, units, txn)?;
    notices.add_all(&more)?;
    Ok(notices)
}
