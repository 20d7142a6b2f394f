//! `add-wants` and `add-requires`.
ghost use Rattle.std.specs.Prelude.{◌≡◌, IfOk};
ghost use Rattle.unit_file.specs.Identity.{identity_of};
ghost use Rattle.unit_file.specs.Reading.{text_of};
ghost use Rattle.unit_paths.specs.Places.{scope_place};
ghost use Rattle.slot_commands.specs.AddTo.{as_dependency, default_of, name_listed, add_file, add_unit, add_units, add_steps};
ghost use Rattle.transaction.specs.Runs.{Runs, taking};

use footprint::{Operation, Outcome, Refusal, Units};
use link_tree::{Contents, Dependency, Entry, Scope, Tree, TreePath};
use std::alloc::{AllocError, Global};
use transaction::{Stop, Transaction, link_at};
use unit_file::{
    InstallError, InstallFault, InstallText, identity, install_of, is_template, listed_name,
};
use unit_name::UnitName;

/// The dependencies that a command adds by hand: systemctl(1), `add-wants` and `add-requires`.
/// There is no such command for `Upholds=`, whose links only `enable` makes, by `UpheldBy=`.
#[derive(Clone, Copy, Debug, PartialEq, Eq)]
pub enum AddedDependency {
    Wants,
    Requires,
}

impl AddedDependency {
    /// The same among all dependencies.
    pub fn as_dependency(self) -> Dependency
        ensures { result ≡ as_dependency self }
    {
        match self {
            AddedDependency::Wants => Dependency::Wants,
            AddedDependency::Requires => Dependency::Requires,
        }
    }
}

/// systemctl(1), `add-wants` and `add-requires`: the target wants or requires each unit from now
/// on, by a link in the target's directory of the scope, which has the target's own name. The
/// target is looked up first, and then the units, one after another, each in the tree that the
/// earlier ones left; the first refusal refuses the whole command. The target and each unit may be
/// refused by `NotFound`, `Masked` or `Dangling`; a unit also by `NeedsInstance`, if it is a
/// template without a `DefaultInstance=` that makes an instance of it, and by `Exists`, if anything
/// but a link to the same path is at the slot.
#[derive(Debug, Drop)]
pub struct AddTo {
    pub scope: Scope,
    pub dependency: AddedDependency,
    pub target: UnitName,
    pub units: Units,
}

/// The words of the [Install] section of a file.
fn install_text(alloc: Global, contents: &Contents) -> Result<InstallText, AllocError>
    ensures { IfOk result (λ text. text ≡ text_of contents.now) }
{
    match install_of(alloc, contents.bytes()) {
        Ok(text) => Ok(text),
        Err(InstallError::Bad(InstallFault::LineTooLong)) => unreachable!(),
        Err(InstallError::OutOfMemory) => Err(AllocError),
    }
}

/// The identity of a unit, by what is at its file's path.
fn identity_by(
    alloc: Global,
    real: &UnitName,
    there: &Option<Entry>,
) -> Result<UnitName, AllocError>
    ensures { IfOk result (λ name. name ≡ identity_of real.now (default_of there.now)) }
{
    match there {
        Some(Entry::File(contents)) => identity(alloc, real, &install_text(alloc, contents)?),
        _ => real.copy(),
    }
}

/// The name by which a unit is listed by another, if there is one. The file is only read for a
/// template.
#[tactic(auto, unfolding(unit_file::specs::Listed::listed_name))]
fn name_listed(
    alloc: Global,
    by: &UnitName,
    real: &UnitName,
    there: &Option<Entry>,
) -> Result<Option<UnitName>, AllocError>
    ensures { IfOk result (λ name. name ≡ name_listed by.now real.now (default_of there.now)) }
{
    if !is_template(real) {
        return Ok(Some(real.copy()?));
    }
    let identity = identity_by(alloc, real, there)?;
    match listed_name(by, real, &identity) {
        Some(name) => Ok(Some(name.copy()?)),
        None => Ok(None),
    }
}

impl AddTo {
    /// A unit that was found is listed by another.
    #[tactic(auto, unfolding(crate::specs::AddTo::add_file))]
    fn add_file(
        &self,
        alloc: Global,
        by: &UnitName,
        real: UnitName,
        file: &TreePath,
        txn: &mut Transaction<'_>,
    ) -> Result<(), Stop>
        ensures { Runs (taking (add_file (scope_place self.now.scope) (as_dependency self.now.dependency) by.now real file.now)) txn.old txn.new result }
    {
        let there = txn.get(file)?;
        let Some(name) = name_listed(alloc, by, &real, &there)? else {
            return Err(Stop::Refused(Refusal::NeedsInstance(real)));
        };
        let place = self.scope.place();
        let slot = place.dependency_slot(alloc, self.dependency.as_dependency(), by, &name)?;
        let there = txn.get(&slot)?;
        let entry = link_at(alloc, file, &slot, there.as_ref())?;
        Ok(txn.put(alloc, &slot, entry)?)
    }

    /// One unit is listed by another.
    #[tactic(auto, unfolding(crate::specs::AddTo::add_unit))]
    fn add_unit(
        &self,
        alloc: Global,
        by: &UnitName,
        unit: &UnitName,
        txn: &mut Transaction<'_>,
    ) -> Result<(), Stop>
        ensures { Runs (taking (add_unit (scope_place self.now.scope) (as_dependency self.now.dependency) by.now unit.now)) txn.old txn.new result }
    {
        let (real, file) = txn.unit(alloc, unit)?;
        self.add_file(alloc, by, real, &file, txn)
    }

    /// Units are listed by another, one after another.
    #[tactic(auto, using(transaction::proofs::Turns::turns_conclude, transaction::proofs::Turns::turns_look))]
    fn add_units(
        &self,
        alloc: Global,
        by: &UnitName,
        units: &[UnitName],
        txn: &mut Transaction<'_>,
    ) -> Result<(), Stop>
        ensures { Runs (taking (add_units (scope_place self.now.scope) (as_dependency self.now.dependency) units.now by.now)) txn.old txn.new result }
    {
        for unit in units {
            self.add_unit(alloc, by, unit, txn)?;
        }
        Ok(())
    }

    fn add(&self, alloc: Global, txn: &mut Transaction<'_>) -> Result<(), Stop>
        ensures { Runs (taking (add_steps self.now)) txn.old txn.new result }
    {
        let (by, _file) = txn.unit(alloc, &self.target)?;
        self.add_units(alloc, &by, self.units.as_slice(), txn)
    }
}

impl Operation for AddTo {
    ghost use Rattle.std.specs.Prelude.{false};
    ghost use Rattle.footprint.proofs.Carried.{laws_of_steps};
    ghost use Rattle.slot_commands.specs.AddTo.{add_steps, add_meaning};

    ghost meaning = { add_meaning };

    ghost asks = { λ c. false };

    fn run(&self, alloc: Global, tree: &Tree) -> Result<Outcome, AllocError> {
        let mut txn = Transaction::new(alloc, tree);
        let done = self.add(alloc, &mut txn);
        txn.outcome_of_steps(alloc, done)
    }

    fn asks_only(&self) -> bool {
        false
    }

    fn copy(&self) -> Result<AddTo, AllocError> {
        Ok(AddTo {
            scope: self.scope,
            dependency: self.dependency,
            target: self.target.copy()?,
            units: self.units.copy()?,
        })
    }

    fn same(&self, other: &AddTo) -> bool {
        self.scope == other.scope
            && self.dependency == other.dependency
            && self.target == other.target
            && self.units.same(&other.units)
    }

    ghost laws = { laws_of_steps add_steps };
}
