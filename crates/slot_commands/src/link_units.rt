//! link.
ghost use Rattle.std.specs.Prelude.{◌≡◌, IfOk};
ghost use Rattle.unit_paths.specs.Paths.{name_at};
ghost use Rattle.load_path.specs.RealNames.{named};
ghost use Rattle.footprint.specs.Steps.{each_in_turn};
ghost use Rattle.slot_commands.specs.LinkUnits.{link_file, link_unit};
ghost use Rattle.transaction.specs.Runs.{Runs, taking};

use crate::paths::Paths;
use footprint::{Operation, Outcome, Refusal, Subject};
use link_tree::{Place, Scope, Slot, Tree, TreePath};
use load_path::End;
use std::alloc::{AllocError, Global};
use transaction::{Stop, Transaction, link_at};
use unit_name::{NameError, UnitName};

/// systemctl(1), `link`: links each unit file that is given by its path into the directory of the
/// scope, under its own name. A path in one of the directories of units changes nothing. The paths
/// are taken one after another, each in the tree that the earlier ones left, and the first refusal
/// refuses the whole command. Links from the path are followed first: `NotFound` if nothing is at
/// the path; `Masked` if they lead to `/dev/null` or an empty file; `Dangling`, with the last link,
/// if they lead to nothing. Then `BadType` if the path's own name is no unit's, and `Exists` if
/// anything but a link to the same path is at the slot.
#[derive(Debug, Drop)]
pub struct LinkUnits {
    pub scope: Scope,
    pub paths: Paths,
}

/// The file name of a path, if it is the name of a unit.
fn parse_file_name(alloc: Global, path: &TreePath) -> Result<Option<UnitName>, AllocError>
    ensures { IfOk result (λ name. name ≡ named (name_at path.now)) }
{
    match UnitName::parse(alloc, path.file_name()) {
        Ok(name) => Ok(Some(name)),
        Err(NameError::Bad(_)) => Ok(None),
        Err(NameError::OutOfMemory) => Err(AllocError),
    }
}

/// Links a path whose links lead to a file.
fn link_file(
    alloc: Global,
    place: Place,
    path: &TreePath,
    txn: &mut Transaction<'_>,
) -> Result<(), Stop>
    ensures { Runs (taking (link_file place path.now)) txn.old txn.new result }
{
    let Some(name) = parse_file_name(alloc, path)? else {
        return Err(Stop::Refused(Refusal::BadType(Subject::Path(path.copy()?))));
    };
    if Slot::is_of_unit(path) {
        return Ok(());
    }
    let slot = place.slot(alloc, &name)?;
    let there = txn.get(&slot)?;
    let entry = link_at(alloc, path, &slot, there.as_ref())?;
    Ok(txn.put(alloc, &slot, entry)?)
}

/// Links one path.
#[tactic(auto, unfolding(crate::specs::LinkUnits::link_unit))]
fn link_unit(
    alloc: Global,
    place: Place,
    path: &TreePath,
    txn: &mut Transaction<'_>,
) -> Result<(), Stop>
    ensures { Runs (taking (link_unit place path.now)) txn.old txn.new result }
{
    match txn.follow(alloc, path)? {
        End::Missing => Err(Stop::Refused(Refusal::NotFound(Subject::Path(path.copy()?)))),
        End::Null => Err(Stop::Refused(Refusal::Masked(Subject::Path(path.copy()?)))),
        End::Dangling(link) => Err(Stop::Refused(Refusal::Dangling(link))),
        End::File(_) => link_file(alloc, place, path, txn),
    }
}

/// Links paths, one after another.
#[tactic(auto, using(transaction::proofs::Turns::turns_conclude, transaction::proofs::Turns::turns_look))]
fn link_each(
    alloc: Global,
    place: Place,
    paths: &[TreePath],
    txn: &mut Transaction<'_>,
) -> Result<(), Stop>
    ensures { Runs (taking (each_in_turn (link_unit place) paths.now)) txn.old txn.new result }
{
    for path in paths {
        link_unit(alloc, place, path, txn)?;
    }
    Ok(())
}

impl Operation for LinkUnits {
    ghost use Rattle.std.specs.Prelude.{false};
    ghost use Rattle.footprint.proofs.Carried.{laws_of_steps};
    ghost use Rattle.slot_commands.specs.LinkUnits.{link_steps, link_meaning};

    ghost meaning = { link_meaning };

    ghost asks = { λ c. false };

    fn run(&self, alloc: Global, tree: &Tree) -> Result<Outcome, AllocError> {
        let mut txn = Transaction::new(alloc, tree);
        let done = link_each(alloc, self.scope.place(), self.paths.as_slice(), &mut txn);
        txn.outcome_of_steps(alloc, done)
    }

    fn asks_only(&self) -> bool {
        false
    }

    fn copy(&self) -> Result<LinkUnits, AllocError> {
        Ok(LinkUnits {
            scope: self.scope,
            paths: self.paths.copy()?,
        })
    }

    fn same(&self, other: &LinkUnits) -> bool {
        self.scope == other.scope && self.paths.same(&other.paths)
    }

    ghost laws = { laws_of_steps link_steps };
}
