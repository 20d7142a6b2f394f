//! set-default.
ghost use Rattle.std.specs.Prelude.{◌≡◌, true, IfOk};
ghost use Rattle.unit_name.specs.Name.{type_of};
ghost use Rattle.unit_paths.specs.Slots.{is_slot};
ghost use Rattle.slot_commands.specs.SetDefault.{default_slot, is_target_type, default_file, default_steps};
ghost use Rattle.transaction.specs.Runs.{Runs, taking};

use footprint::{Operation, Outcome, Refusal, Subject};
use link_tree::{PathError, Tree, TreePath};
use std::alloc::{AllocError, Global};
use transaction::{Stop, Transaction, relink_at};
use unit_file::is_template;
use unit_name::{UnitName, UnitType};

/// systemctl(1), `set-default`: `/etc/systemd/system/default.target` becomes a link to the file of
/// a target, and replaces any other link there. The faults, in this order: `NotFound`, `Masked` or
/// `Dangling` if the unit isn't found; `BadType` if the name that was given is no target's;
/// `NeedsInstance` if the unit's own name is that of a template; `Exists` if a file is there.
#[derive(Debug, Drop)]
pub struct SetDefault {
    pub unit: UnitName,
}

/// The path of the link that names the default target.
fn default_slot(alloc: Global) -> Result<TreePath, AllocError>
    ensures path { IfOk result (λ path. path ≡ default_slot) }
    ensures slot { IfOk result (λ path. is_slot path ≡ true) }
{
    match TreePath::parse(alloc, b"/etc/systemd/system/default.target") {
        Ok(path) => Ok(path),
        Err(PathError::BadPath) => unreachable!(),
        Err(PathError::OutOfMemory) => Err(AllocError),
    }
}

fn is_target(name: &UnitName) -> bool
    ensures { result ≡ is_target_type (type_of name.now) }
{
    match name.unit_type() {
        UnitType::Target => true,
        _ => false,
    }
}

impl SetDefault {
    /// The unit was found, with this own name and this file.
    #[tactic(auto, unfolding(crate::specs::SetDefault::default_file))]
    fn default_file(
        &self,
        alloc: Global,
        real: UnitName,
        file: &TreePath,
        txn: &mut Transaction<'_>,
    ) -> Result<(), Stop>
        ensures { Runs (taking (default_file self.now.unit real file.now)) txn.old txn.new result }
    {
        if !is_target(&self.unit) {
            return Err(Stop::Refused(Refusal::BadType(Subject::Unit(self.unit.copy()?))));
        }
        if is_template(&real) {
            return Err(Stop::Refused(Refusal::NeedsInstance(real)));
        }
        let slot = default_slot(alloc)?;
        let there = txn.get(&slot)?;
        let entry = relink_at(alloc, file, &slot, there.as_ref())?;
        Ok(txn.put(alloc, &slot, entry)?)
    }

    fn set(&self, alloc: Global, txn: &mut Transaction<'_>) -> Result<(), Stop>
        ensures { Runs (taking (default_steps self.now)) txn.old txn.new result }
    {
        let (real, file) = txn.unit(alloc, &self.unit)?;
        self.default_file(alloc, real, &file, txn)
    }
}

impl Operation for SetDefault {
    ghost use Rattle.std.specs.Prelude.{false};
    ghost use Rattle.footprint.proofs.Carried.{laws_of_steps};
    ghost use Rattle.slot_commands.specs.SetDefault.{default_steps, default_meaning};

    ghost meaning = { default_meaning };

    ghost asks = { λ c. false };

    fn run(&self, alloc: Global, tree: &Tree) -> Result<Outcome, AllocError> {
        let mut txn = Transaction::new(alloc, tree);
        let done = self.set(alloc, &mut txn);
        txn.outcome_of_steps(alloc, done)
    }

    fn asks_only(&self) -> bool {
        false
    }

    fn copy(&self) -> Result<SetDefault, AllocError> {
        Ok(SetDefault {
            unit: self.unit.copy()?,
        })
    }

    fn same(&self, other: &SetDefault) -> bool {
        self.unit == other.unit
    }

    ghost laws = { laws_of_steps default_steps };
}
