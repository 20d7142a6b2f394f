//! Two operations, one after the other.
ghost use Rattle.std.specs.Prelude.{◌≡◌, [], if◌then◌else◌, IfOk, OnOk};
ghost use Rattle.link_tree.specs.Trees.{after_changes};
ghost use Rattle.tree_access.specs.Merging.{IsReading};
ghost use Rattle.footprint.specs.Net.{net};
ghost use Rattle.footprint.specs.Operations.{AreChanges, is_refused};
ghost use Rattle.footprint.specs.Then.{answer_of_both, outcome_of_both};

use crate::answer::Answer;
use crate::changes::Changes;
use crate::net::net_changes;
use crate::outcome::Outcome;
use link_tree::Tree;
use std::alloc::{AllocError, Global};
use std::mem::replace;
use tree_access::Reading;

impl Answer {
    /// Whether nothing was done.
    pub fn is_refused(&self) -> bool
        ensures { result ≡ is_refused self.now }
    {
        match self {
            Answer::Refused(_) => true,
            Answer::Done(_) | Answer::State(_) | Answer::Name(_) | Answer::Names(_) => false,
        }
    }

    /// Turns this answer, which is that of the later operation, into the answer of both: if both
    /// are done, it gets the notices of the first too.
    fn follow(&mut self, first: Answer) -> Result<(), AllocError>
        ensures { OnOk result (self.new ≡ answer_of_both first self.old) }
    {
        match (self, first) {
            (Answer::Done(more), Answer::Done(first)) => {
                let mut notices = first;
                notices.add_all(more)?;
                *more = notices;
            }
            (_, first) => drop(first),
        }
        Ok(())
    }
}

/// The net changes of both lists to the tree, or none if the second operation was refused.
fn changes_of_both(
    alloc: Global,
    tree: &Tree,
    first: &Changes,
    second: &Changes,
    refused: bool,
) -> Result<Changes, AllocError>
    requires first { AreChanges tree.now first.now }
    requires second { AreChanges (after_changes first.now tree.now) second.now }
    ensures { IfOk result (λ changes. changes ≡ if refused then [] else net first.now second.now) }
{
    if refused {
        return Ok(Changes::none(alloc));
    }
    net_changes(alloc, tree, first, second)
}

impl Outcome {
    /// The outcome of both on the tree, where the later one is the outcome on the tree after the
    /// changes of this one.
    pub fn and_then(self, alloc: Global, tree: &Tree, later: Outcome) -> Result<Outcome, AllocError>
        requires first { AreChanges tree.now self.changes }
        requires second { AreChanges (after_changes self.changes tree.now) later.changes }
        requires first_reading { IsReading tree.now self.reading }
        requires second_reading { IsReading (after_changes self.changes tree.now) later.reading }
        ensures { IfOk result (λ outcome. outcome ≡ outcome_of_both tree.now self later) }
    {
        let mut outcome = later;
        outcome.follow(alloc, tree, self)?;
        Ok(outcome)
    }

    /// Turns this outcome, which is that of the later operation on the tree after the changes of
    /// the first, into the outcome of both on the tree.
    fn follow(&mut self, alloc: Global, tree: &Tree, first: Outcome) -> Result<(), AllocError>
        requires first { AreChanges tree.now first.changes }
        requires second { AreChanges (after_changes first.changes tree.now) self.old.changes }
        requires first_reading { IsReading tree.now first.reading }
        requires second_reading { IsReading (after_changes first.changes tree.now) self.old.reading }
        ensures { OnOk result (self.new ≡ outcome_of_both tree.now first self.old) }
    {
        let Outcome {
            answer,
            changes,
            reading,
        } = first;
        let refused = self.answer.is_refused();
        self.answer.follow(answer)?;
        self.changes = changes_of_both(alloc, tree, &changes, &self.changes, refused)?;
        let later = replace(&mut self.reading, Reading::none(alloc));
        self.reading = reading.and_then(alloc, tree, changes.as_slice(), later)?;
        Ok(())
    }
}
