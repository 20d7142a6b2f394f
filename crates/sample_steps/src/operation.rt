//! The operation on one slot.
ghost use Rattle.std.specs.Prelude.{◌≡◌, ◌∷◌, [], All, true, IfOk};
ghost use Rattle.unit_paths.specs.Slots.{is_slot};
ghost use Rattle.footprint.specs.declared.answer.Answer.TheVariants.{State};
ghost use Rattle.footprint.specs.declared.answer.StateWord.TheVariants.{Static};
ghost use Rattle.tree_access.specs.declared.key.Key.TheVariants.{Cell};
ghost use Rattle.footprint.specs.Operations.{outcome_of};
ghost use Rattle.tree_access.specs.Readings.{reading_of};
ghost use Rattle.footprint.specs.Steps.{ruled};
ghost use Rattle.sample_steps.specs.Samples.{commanded, left};
ghost use Rattle.transaction.specs.Runs.{Gives, Runs, taking};

use footprint::{Answer, Operation, Outcome, Refusal, StateWord};
use link_tree::{Entry, Slot, Tree, TreePath};
use std::alloc::{AllocError, Global};
use transaction::{Stop, Transaction};

/// Puts an empty file at an empty slot, or removes the entry there, or only looks there; or is only
/// a question.
#[derive(Debug, Drop)]
pub struct Step {
    pub slot: TreePath,
    pub puts: Option<bool>,
    pub asks: bool,
}

impl Step {
    /// What must be at the slot then, given what is there, or the refusal.
    fn left(&self, alloc: Global, there: &Option<Entry>) -> Result<Option<Entry>, Stop>
        ensures { Gives (left self.now.puts self.now.slot there.now) result }
    {
        match (self.puts, there) {
            (None, None) => Ok(None),
            (None, Some(entry)) => Ok(Some(entry.copy()?)),
            (Some(true), None) => match Entry::file(alloc, b"") {
                Ok(file) => Ok(Some(file)),
                Err(_) => Err(Stop::OutOfMemory),
            },
            (Some(true), Some(_)) => Err(Stop::Refused(Refusal::Exists(self.slot.copy()?))),
            (Some(false), None) => Err(Stop::Refused(Refusal::Absent(self.slot.copy()?))),
            (Some(false), Some(_)) => Ok(None),
        }
    }

    /// Changes the slot.
    fn edited(&self, alloc: Global, txn: &mut Transaction<'_>) -> Result<(), Stop>
        requires { is_slot self.now.slot ≡ true }
        ensures { Runs (taking (ruled (left self.now.puts) self.now.slot)) txn.old txn.new result }
    {
        let there = txn.get(&self.slot)?;
        let left = self.left(alloc, &there)?;
        Ok(txn.put(alloc, &self.slot, left)?)
    }

    /// What the command results in.
    fn commanded(&self, alloc: Global, tree: &Tree) -> Result<Outcome, AllocError>
        requires { is_slot self.now.slot ≡ true }
        ensures outcome { IfOk result (λ outcome. outcome ≡ outcome_of (λ step. commanded step.puts step.slot) self.now tree.now) }
        ensures slots { IfOk result (λ outcome. All (λ change. is_slot change.path ≡ true) outcome.changes) }
    {
        let mut txn = Transaction::new(alloc, tree);
        let done = self.edited(alloc, &mut txn);
        txn.outcome_of_steps(alloc, done)
    }

    /// What the question results in.
    fn asked(&self, alloc: Global, tree: &Tree) -> Result<Outcome, AllocError>
        ensures { IfOk result (λ outcome. outcome ≡ record { answer = State Static; changes = []; reading = reading_of (Cell self.now.slot ∷ []) tree.now }) }
    {
        let mut txn = Transaction::new(alloc, tree);
        let _there = txn.get(&self.slot)?;
        txn.answer(alloc, Answer::State(StateWord::Static))
    }
}

impl Operation for Step {
    ghost use Rattle.sample_steps.specs.Samples.{step_meaning};
    ghost use Rattle.sample_steps.specs.SampleLaws.{step_laws};

    ghost meaning = { λ step. step_meaning step.asks step.puts step.slot };

    ghost asks = { λ step. step.asks };

    ghost laws = { step_laws (λ step. step.asks) (λ step. step.puts) (λ step. step.slot) };

    fn run(&self, alloc: Global, tree: &Tree) -> Result<Outcome, AllocError> {
        if self.asks {
            return self.asked(alloc, tree);
        }
        if Slot::of(&self.slot).is_none() {
            return Err(AllocError);
        }
        self.commanded(alloc, tree)
    }

    fn asks_only(&self) -> bool {
        self.asks
    }

    fn copy(&self) -> Result<Step, AllocError> {
        Ok(Step {
            slot: self.slot.copy()?,
            puts: self.puts,
            asks: self.asks,
        })
    }

    fn same(&self, other: &Step) -> bool {
        self.slot == other.slot && self.puts == other.puts && self.asks == other.asks
    }
}
