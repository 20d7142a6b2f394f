//! How two trees differ at slots.
ghost use Rattle.std.specs.Prelude.{◌≡◌, true, IfOk, All};
ghost use Rattle.unit_paths.specs.Slots.{is_slot};
ghost use Rattle.link_tree.specs.Trees.{AreFrom};
ghost use Rattle.tree_steps.specs.Steps.{at_slots, slot_changes_between};

use crate::differing::changes_between;
use link_tree::{Change, Tree};
use std::alloc::{AllocError, Global};
use unit_paths::Slot;

/// Those of the changes that are at slots, in the same order.
fn at_slots(alloc: Global, changes: Vec<Change>) -> Result<Vec<Change>, AllocError>
    ensures { IfOk result (λ kept. kept.items ≡ at_slots changes.items) }
{
    changes
        .into_iter()
        .filter(|change| Slot::of(&change.path).is_some())
        .collect(alloc)
}

/// The changes at slots from one tree to another, in byte order of their paths: one at each slot
/// where they differ. `Tree::with_changes` accepts them, and results in the first tree with the
/// slots of the second. Fails only if memory runs out.
#[tactic(auto, using(crate::proofs::SlotChanges::slots_from, crate::proofs::SlotChanges::slots_alone))]
pub fn slot_changes_between(
    alloc: Global,
    old: &Tree,
    new: &Tree,
) -> Result<Vec<Change>, AllocError>
    ensures changes { IfOk result (λ changes. changes.items ≡ slot_changes_between old.now new.now) }
    ensures slots { IfOk result (λ changes. All (λ change. is_slot change.path ≡ true) changes.items) }
    ensures from { IfOk result (λ changes. AreFrom old.now changes.items) }
{
    let changes = changes_between(alloc, old, new)?;
    at_slots(alloc, changes)
}
