//! Two operations, one after the other.
ghost use Rattle.std.specs.Prelude.{◌≡◌, All, true, IfOk};
ghost use Rattle.unit_paths.specs.Slots.{is_slot};
ghost use Rattle.link_tree.specs.Trees.{AreFrom, after_changes};
ghost use Rattle.footprint.specs.Operations.{outcome_of};

use footprint::{Changes, Operation, Outcome};
use link_tree::Tree;
use std::alloc::{AllocError, Global};

/// Two operations, one after the other, all or nothing. The second runs on the tree after the
/// first; if the first is refused, that is the outcome, and the second isn't run. The answer is
/// that of the second, with the notices of the first too if both are done. If the second is
/// refused, the changes of the first are dropped. A path at which the original entry is back in the
/// end counts as no change. It reads the keys of both, each as it is in the first tree, and is a
/// question if both are.
#[derive(Debug, Drop)]
pub struct Then<A, B> {
    pub first: A,
    pub second: B,
}

/// The outcome of an operation on the tree after changes.
fn run_after<B: Operation>(
    alloc: Global,
    tree: &Tree,
    changes: &Changes,
    second: &B,
) -> Result<Outcome, AllocError>
    requires slots { All (λ change. is_slot change.path ≡ true) changes.now }
    requires from { AreFrom tree.now changes.now }
    ensures outcome { IfOk result (λ done. done ≡ outcome_of B.meaning second.now (after_changes changes.now tree.now)) }
    ensures slots { IfOk result (λ done. All (λ change. is_slot change.path ≡ true) done.changes) }
{
    let after = tree.with_changes(changes.as_slice())?;
    second.run(alloc, &after)
}

impl<A: Operation, B: Operation> Operation for Then<A, B> {
    ghost use Rattle.footprint.proofs.ThenLaws.{laws_in_turn};
    ghost use Rattle.two_operations.specs.Then.{first_of, second_of, then_meaning, both_ask};

    ghost meaning = { then_meaning A.meaning B.meaning };

    ghost asks = { both_ask A.asks B.asks };

    fn run(&self, alloc: Global, tree: &Tree) -> Result<Outcome, AllocError> {
        let first = self.first.run(alloc, tree)?;
        if first.answer.is_refused() {
            return Ok(first);
        }
        let second = run_after(alloc, tree, &first.changes, &self.second)?;
        first.and_then(alloc, tree, second)
    }

    fn asks_only(&self) -> bool {
        self.first.asks_only() && self.second.asks_only()
    }

    fn copy(&self) -> Result<Then<A, B>, AllocError> {
        Ok(Then {
            first: self.first.copy()?,
            second: self.second.copy()?,
        })
    }

    fn same(&self, other: &Then<A, B>) -> bool {
        self.first.same(&other.first) && self.second.same(&other.second)
    }

    ghost laws = { laws_in_turn first_of second_of A.laws B.laws };
}
