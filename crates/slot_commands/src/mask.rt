//! mask and unmask.
ghost use Rattle.std.specs.Prelude.{◌≡◌, IfOk, Ok};
ghost use Rattle.slot_commands.specs.Masks.{mask_link, is_empty_file, is_mask, mask_at, unmask_at, rule_of, ruled_unit, each_ruled};
ghost use Rattle.transaction.specs.Runs.{Gives, Runs, taking};

use footprint::{Operation, Outcome, Refusal, Units};
use link_tree::{Entry, Scope, TargetError, Tree, TreePath, is_null_link};
use std::alloc::{AllocError, Global};
use transaction::{Stop, Transaction};
use unit_name::UnitName;

/// systemctl(1), `mask`: links each unit to `/dev/null` in the scope if its slot is empty. A link
/// that is there and leads to `/dev/null` is kept. If anything else is there, even an empty file,
/// the whole command is refused by `Exists`, for the first such slot. No unit is looked up.
#[derive(Debug, Drop)]
pub struct Mask {
    pub scope: Scope,
    pub units: Units,
}

/// systemctl(1), `unmask`: removes the mask of each unit in the scope, a link to `/dev/null` or an
/// empty file. Anything else is kept. It is never refused, and no unit is looked up.
#[derive(Debug, Drop)]
pub struct Unmask {
    pub scope: Scope,
    pub units: Units,
}

/// What is done at each slot.
#[derive(Clone, Copy, Debug, PartialEq, Eq)]
enum Rule {
    Mask,
    Unmask,
}

fn mask_link(alloc: Global) -> Result<Entry, AllocError>
    ensures { IfOk result (λ entry. entry ≡ mask_link) }
{
    match Entry::link(alloc, b"/dev/null") {
        Ok(entry) => Ok(entry),
        Err(TargetError::BadTarget) => unreachable!(),
        Err(TargetError::OutOfMemory) => Err(AllocError),
    }
}

fn is_empty_file(entry: &Entry) -> bool
    ensures { result ≡ is_empty_file entry.now }
{
    match entry {
        Entry::File(contents) => contents.bytes().is_empty(),
        Entry::Link(_) => false,
    }
}

/// Whether an entry at a slot masks its unit.
fn is_mask(slot: &TreePath, entry: &Entry) -> bool
    ensures { result ≡ is_mask slot.now entry.now }
{
    is_null_link(slot, entry) || is_empty_file(entry)
}

fn mask_at(alloc: Global, slot: &TreePath, there: Option<Entry>) -> Result<Option<Entry>, Stop>
    ensures { Gives (mask_at slot.now there) result }
{
    match there {
        None => Ok(Some(mask_link(alloc)?)),
        Some(entry) => {
            if is_null_link(slot, &entry) {
                Ok(Some(entry))
            } else {
                Err(Stop::Refused(Refusal::Exists(slot.copy()?)))
            }
        }
    }
}

fn unmask_at(slot: &TreePath, there: Option<Entry>) -> Option<Entry>
    ensures { Ok result ≡ unmask_at slot.now there }
{
    match there {
        Some(entry) => {
            if is_mask(slot, &entry) {
                None
            } else {
                Some(entry)
            }
        }
        None => None,
    }
}

impl Rule {
    /// What is at a slot after the rule was followed.
    fn at(self, alloc: Global, slot: &TreePath, there: Option<Entry>) -> Result<Option<Entry>, Stop>
        ensures { Gives (rule_of self slot.now there) result }
    {
        match self {
            Rule::Mask => mask_at(alloc, slot, there),
            Rule::Unmask => Ok(unmask_at(slot, there)),
        }
    }

    /// Follows the rule at the slot of a unit.
    fn step(
        self,
        alloc: Global,
        scope: Scope,
        unit: &UnitName,
        txn: &mut Transaction<'_>,
    ) -> Result<(), Stop>
        ensures { Runs (taking (ruled_unit (rule_of self) scope unit.now)) txn.old txn.new result }
    {
        let slot = scope.place().slot(alloc, unit)?;
        let there = txn.get(&slot)?;
        let entry = self.at(alloc, &slot, there)?;
        txn.put(alloc, &slot, entry)?;
        Ok(())
    }

    /// Follows the rule at the slots of units, one after another.
    #[tactic(auto, using(transaction::proofs::Turns::turns_conclude, transaction::proofs::Turns::turns_look))]
    fn each(
        self,
        alloc: Global,
        scope: Scope,
        units: &[UnitName],
        txn: &mut Transaction<'_>,
    ) -> Result<(), Stop>
        ensures { Runs (taking (each_ruled (rule_of self) scope units.now)) txn.old txn.new result }
    {
        for unit in units {
            self.step(alloc, scope, unit, txn)?;
        }
        Ok(())
    }
}

impl Operation for Mask {
    ghost use Rattle.std.specs.Prelude.{false};
    ghost use Rattle.footprint.proofs.Carried.{laws_of_steps};
    ghost use Rattle.slot_commands.specs.Masks.{mask_steps, mask_meaning};

    ghost meaning = { mask_meaning };

    ghost asks = { λ c. false };

    fn run(&self, alloc: Global, tree: &Tree) -> Result<Outcome, AllocError> {
        let mut txn = Transaction::new(alloc, tree);
        let done = Rule::Mask.each(alloc, self.scope, self.units.as_slice(), &mut txn);
        txn.outcome_of_steps(alloc, done)
    }

    fn asks_only(&self) -> bool {
        false
    }

    fn copy(&self) -> Result<Mask, AllocError> {
        Ok(Mask {
            scope: self.scope,
            units: self.units.copy()?,
        })
    }

    fn same(&self, other: &Mask) -> bool {
        self.scope == other.scope && self.units.same(&other.units)
    }

    ghost laws = { laws_of_steps mask_steps };
}

impl Operation for Unmask {
    ghost use Rattle.std.specs.Prelude.{false};
    ghost use Rattle.footprint.proofs.Carried.{laws_of_steps};
    ghost use Rattle.slot_commands.specs.Masks.{unmask_steps, unmask_meaning};

    ghost meaning = { unmask_meaning };

    ghost asks = { λ c. false };

    fn run(&self, alloc: Global, tree: &Tree) -> Result<Outcome, AllocError> {
        let mut txn = Transaction::new(alloc, tree);
        let done = Rule::Unmask.each(alloc, self.scope, self.units.as_slice(), &mut txn);
        txn.outcome_of_steps(alloc, done)
    }

    fn asks_only(&self) -> bool {
        false
    }

    fn copy(&self) -> Result<Unmask, AllocError> {
        Ok(Unmask {
            scope: self.scope,
            units: self.units.copy()?,
        })
    }

    fn same(&self, other: &Unmask) -> bool {
        self.scope == other.scope && self.units.same(&other.units)
    }

    ghost laws = { laws_of_steps unmask_steps };
}
