//! enable.
ghost use Rattle.std.specs.Prelude.{◌≡◌, IfOk};
ghost use Rattle.install_section.specs.Closure as closures;
ghost use Rattle.footprint.specs.Inquiry.{by_cells, giving};
ghost use Rattle.install_commands.specs.Enable as enabling;
ghost use Rattle.install_commands.specs.Enable.{unless_too_many, to_stand, links_made};
ghost use Rattle.transaction.specs.Runs.{Runs, asking_for, doing};

use crate::check::check_all;
use footprint::{Notices, Operation, Outcome, Refusal, Units};
use install_section::{
    Closed, ClosureFault, Links, Wanted, WantedFault, closure_into, wanted_into,
};
use link_tree::{Scope, Tree};
use load_path::Cells;
use std::alloc::{AllocError, Global};
use transaction::{Stop, Transaction, WantedLinks};
use unit_name::UnitName;

/// systemctl(1), `enable`: makes the links in the scope that are asked for by the [Install]
/// sections of the units and, transitively, of the units in their `Also=`. If a unit isn't found or
/// is an alias, the command is refused with `NotFound`, `Masked`, `Dangling` or `IsAlias`. The
/// further refusals are, in this order: `TooMany` if there are over 1,024 units in all,
/// `NeedsInstance` for the least template without a default instance that would be linked under a
/// unit that is no template, `Clash` for the least path at which links with different targets are
/// wanted, and `Exists` for the least path at which there is already something else. A link that
/// already leads to the same path is kept. Words that name no link or unit are skipped, each with a
/// notice.
#[derive(Debug, Drop)]
pub struct Enable {
    pub scope: Scope,
    pub units: Units,
}

/// The units that are enabled and disabled together. Refused by `TooMany`.
pub(crate) fn close(
    alloc: Global,
    units: &[UnitName],
    txn: &mut Transaction<'_>,
) -> Result<Closed, Stop>
    ensures { Runs (asking_for (giving (by_cells (closures.closure units.now)) unless_too_many)) txn.old txn.new result }
{
    let mut cells = Cells::new(alloc);
    let closed = closure_into(alloc, txn.tree(), units, &mut cells)?;
    txn.note(cells)?;
    match closed {
        Ok(closed) => Ok(closed),
        Err(ClosureFault::TooMany) => Err(Stop::Refused(Refusal::TooMany)),
    }
}

/// The links that the units of a closure want; with `skip` a word that would need an instance asks
/// for nothing. Refused by `NeedsInstance` or `Clash`.
fn collect_links(
    alloc: Global,
    scope: Scope,
    skip: bool,
    closed: Closed,
    txn: &mut Transaction<'_>,
) -> Result<Wanted, Stop>
    ensures { Runs (asking_for (enabling.closed_want scope skip closed)) txn.old txn.new result }
{
    let Closed { units, mut notices } = closed;
    let mut cells = Cells::new(alloc);
    let wanted = wanted_into(alloc, txn.tree(), units.as_slice(), scope, skip, &mut cells)?;
    txn.note(cells)?;
    match wanted {
        Ok(wanted) => {
            notices.add_all(&wanted.notices)?;
            let links = wanted.links;
            Ok(Wanted { links, notices })
        }
        Err(WantedFault::NeedsInstance(unit)) => Err(Stop::Refused(Refusal::NeedsInstance(unit))),
        Err(WantedFault::Clash(path)) => Err(Stop::Refused(Refusal::Clash(path))),
    }
}

/// The links wanted by units and by the units that they name; with `skip` a word that would need an
/// instance asks for nothing.
fn close_and_collect(
    alloc: Global,
    scope: Scope,
    skip: bool,
    units: &[UnitName],
    txn: &mut Transaction<'_>,
) -> Result<Wanted, Stop>
    ensures { Runs (asking_for (enabling.units_want scope skip units.now)) txn.old txn.new result }
{
    let closed = close(alloc, units, txn)?;
    collect_links(alloc, scope, skip, closed, txn)
}

/// The links that units want. First checks that each unit is found and is no alias.
fn check_and_collect(
    alloc: Global,
    scope: Scope,
    skip: bool,
    units: &[UnitName],
    txn: &mut Transaction<'_>,
) -> Result<Wanted, Stop>
    ensures { Runs (asking_for (enabling.checked_want scope skip units.now)) txn.old txn.new result }
{
    check_all(alloc, units, txn)?;
    close_and_collect(alloc, scope, skip, units, txn)
}

/// Wants a link at each of the paths.
fn to_stand(alloc: Global, links: &Links) -> Result<WantedLinks, AllocError>
    ensures { IfOk result (λ wanted. wanted ≡ to_stand links.now) }
{
    let mut wanted = WantedLinks::none(alloc);
    for (path, file) in links.iter() {
        wanted.link(path.copy()?, file.copy()?)?;
    }
    Ok(wanted)
}

/// Makes the wanted links, all at once.
fn make_links(alloc: Global, wanted: Wanted, txn: &mut Transaction<'_>) -> Result<Notices, Stop>
    ensures { Runs (doing (links_made wanted)) txn.old txn.new result }
{
    let links = to_stand(alloc, &wanted.links)?;
    txn.all_at_once(alloc, &links)?;
    Ok(wanted.notices)
}

/// Checks units, and enables them and those that they name; with `skip` a word that would need an
/// instance asks for nothing. Returns the notices about skipped words.
pub(crate) fn enable_units(
    alloc: Global,
    scope: Scope,
    skip: bool,
    units: &[UnitName],
    txn: &mut Transaction<'_>,
) -> Result<Notices, Stop>
    ensures { Runs (doing (enabling.units_enabled scope skip units.now)) txn.old txn.new result }
{
    let wanted = check_and_collect(alloc, scope, skip, units, txn)?;
    make_links(alloc, wanted, txn)
}

impl Operation for Enable {
    ghost use Rattle.std.specs.Prelude.{false};
    ghost use Rattle.footprint.proofs.Carried.{laws_of};
    ghost use Rattle.install_commands.specs.Enable.{enable_command, enable_meaning};

    ghost meaning = { enable_meaning };

    ghost asks = { λ c. false };

    fn run(&self, alloc: Global, tree: &Tree) -> Result<Outcome, AllocError> {
        let mut txn = Transaction::new(alloc, tree);
        let units = self.units.as_slice();
        let done = enable_units(alloc, self.scope, false, units, &mut txn);
        txn.outcome(alloc, done)
    }

    fn asks_only(&self) -> bool {
        false
    }

    fn copy(&self) -> Result<Enable, AllocError> {
        Ok(Enable {
            scope: self.scope,
            units: self.units.copy()?,
        })
    }

    fn same(&self, other: &Enable) -> bool {
        self.scope == other.scope && self.units.same(&other.units)
    }

    ghost laws = { laws_of enable_command };
}
