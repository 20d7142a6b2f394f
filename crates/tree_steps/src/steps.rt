//! Steps from one tree to another.
ghost use Rattle.std.specs.Prelude.{◌≡◌, IfOk};
ghost use Rattle.link_tree.specs.Trees.{AreFrom, after_changes};
ghost use Rattle.tree_steps.specs.Steps.{steps_between, LeadsInTurn};

use crate::differing::changes_between;
use crate::turn::in_turn;
use link_tree::{Change, Tree};
use std::alloc::{AllocError, Global};

/// The steps from one tree to another, in the order in which they must be made: files that are put,
/// links that are put, links that are removed, files that are removed, each group in byte order of
/// the paths, and one step at each path where the trees differ. So a file exists before a link to
/// it is put, and is removed after that link. When a step's turn comes, its old entry is at its
/// path; in between, each path has what the old tree or what the new tree has there; the last tree
/// is the new one. Fails only if memory runs out.
#[tactic(auto, using(crate::proofs::Turns::steps_from, crate::proofs::Turns::steps_to, crate::proofs::Turns::steps_lead))]
pub fn steps_between(alloc: Global, old: &Tree, new: &Tree) -> Result<Vec<Change>, AllocError>
    ensures steps { IfOk result (λ steps. steps.items ≡ steps_between old.now new.now) }
    ensures from { IfOk result (λ steps. AreFrom old.now steps.items) }
    ensures to { IfOk result (λ steps. after_changes steps.items old.now ≡ new.now) }
    ensures lead { IfOk result (λ steps. LeadsInTurn old.now new.now steps.items) }
{
    let changes = changes_between(alloc, old, new)?;
    in_turn(alloc, &changes)
}
