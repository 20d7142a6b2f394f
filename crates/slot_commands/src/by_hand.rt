//! Entries that are placed and removed by hand.
ghost use Rattle.slot_commands.specs.ByHand.{place_steps, remove_steps};
ghost use Rattle.transaction.specs.Runs.{Runs, taking};

use footprint::{Operation, Outcome, Refusal};
use link_tree::{Entry, Slot, Tree, TreePath};
use std::alloc::{AllocError, Global};
use transaction::{Stop, Transaction};

/// Puts a file or a link into an empty slot. It is refused by `NotASlot` if the path is no slot,
/// and then by `Exists` if anything is there, even an equal entry.
#[derive(Debug, Drop)]
pub struct PlaceEntry {
    pub path: TreePath,
    pub entry: Entry,
}

/// Removes the entry of a slot. It is refused by `NotASlot` if the path is no slot, and then by
/// `Absent` if nothing is there.
#[derive(Debug, Drop)]
pub struct RemoveEntry {
    pub path: TreePath,
}

impl PlaceEntry {
    fn place(&self, alloc: Global, txn: &mut Transaction<'_>) -> Result<(), Stop>
        ensures { Runs (taking (place_steps self.now)) txn.old txn.new result }
    {
        if Slot::of(&self.path).is_none() {
            return Err(Stop::Refused(Refusal::NotASlot(self.path.copy()?)));
        }
        if txn.get(&self.path)?.is_some() {
            return Err(Stop::Refused(Refusal::Exists(self.path.copy()?)));
        }
        txn.put(alloc, &self.path, Some(self.entry.copy()?))?;
        Ok(())
    }
}

impl Operation for PlaceEntry {
    ghost use Rattle.std.specs.Prelude.{false};
    ghost use Rattle.footprint.proofs.Carried.{laws_of_steps};
    ghost use Rattle.slot_commands.specs.ByHand.{place_steps, place_meaning};

    ghost meaning = { place_meaning };

    ghost asks = { λ c. false };

    fn run(&self, alloc: Global, tree: &Tree) -> Result<Outcome, AllocError> {
        let mut txn = Transaction::new(alloc, tree);
        let done = self.place(alloc, &mut txn);
        txn.outcome_of_steps(alloc, done)
    }

    fn asks_only(&self) -> bool {
        false
    }

    fn copy(&self) -> Result<PlaceEntry, AllocError> {
        Ok(PlaceEntry {
            path: self.path.copy()?,
            entry: self.entry.copy()?,
        })
    }

    fn same(&self, other: &PlaceEntry) -> bool {
        self.path == other.path && self.entry.same(&other.entry)
    }

    ghost laws = { laws_of_steps place_steps };
}

impl RemoveEntry {
    fn remove(&self, alloc: Global, txn: &mut Transaction<'_>) -> Result<(), Stop>
        ensures { Runs (taking (remove_steps self.now)) txn.old txn.new result }
    {
        if Slot::of(&self.path).is_none() {
            return Err(Stop::Refused(Refusal::NotASlot(self.path.copy()?)));
        }
        if txn.get(&self.path)?.is_none() {
            return Err(Stop::Refused(Refusal::Absent(self.path.copy()?)));
        }
        txn.put(alloc, &self.path, None)?;
        Ok(())
    }
}

impl Operation for RemoveEntry {
    ghost use Rattle.std.specs.Prelude.{false};
    ghost use Rattle.footprint.proofs.Carried.{laws_of_steps};
    ghost use Rattle.slot_commands.specs.ByHand.{remove_steps, remove_meaning};

    ghost meaning = { remove_meaning };

    ghost asks = { λ c. false };

    fn run(&self, alloc: Global, tree: &Tree) -> Result<Outcome, AllocError> {
        let mut txn = Transaction::new(alloc, tree);
        let done = self.remove(alloc, &mut txn);
        txn.outcome_of_steps(alloc, done)
    }

    fn asks_only(&self) -> bool {
        false
    }

    fn copy(&self) -> Result<RemoveEntry, AllocError> {
        Ok(RemoveEntry {
            path: self.path.copy()?,
        })
    }

    fn same(&self, other: &RemoveEntry) -> bool {
        self.path == other.path
    }

    ghost laws = { laws_of_steps remove_steps };
}
