//! Operations on trees.
ghost use Rattle.std.specs.Prelude.{◌≡◌, ◌↔◌, IfOk, IsTrue, All, true};
ghost use Rattle.unit_paths.specs.Slots.{is_slot};
ghost use Rattle.footprint.specs.Operations.{outcome_of};

use crate::outcome::Outcome;
use link_tree::Tree;
use std::alloc::{AllocError, Global};

/// A command or a question on trees, with its arguments. Its meaning is an inquiry: the result is
/// the same in trees that agree on the keys that it looks at. It fails only if memory runs out.
pub trait Operation: Drop + Sized {
    ghost use Rattle.std.specs.Prelude.{Bool};
    ghost use Rattle.footprint.specs.Inquiry.{Inquiry};
    ghost use Rattle.footprint.specs.Operations.{Effect, OperationLaws};

    /// What it looks up in a tree, and what effect that has.
    ghost meaning: { Self → Inquiry Effect };

    /// Whether it is a question.
    ghost asks: { Self → Bool };

    /// Its outcome in the tree: its answer, its changes, all at slots, and its reading. The tree
    /// itself stays as it is, so that a caller can make the changes or drop them. A refusal is an
    /// answer; the error occurs only if memory runs out.
    fn run(&self, alloc: Global, tree: &Tree) -> Result<Outcome, AllocError>
        ensures outcome { IfOk result (λ done. done ≡ outcome_of meaning self.now tree.now) }
        ensures slots { IfOk result (λ done. All (λ change. is_slot change.path ≡ true) done.changes) };

    /// Whether it is a question, which changes nothing and is not a command.
    fn asks_only(&self) -> bool
        ensures { result ≡ asks self.now };

    /// A copy of the operation. Fails only if memory runs out.
    fn copy(&self) -> Result<Self, AllocError>
        ensures { IfOk result (λ copy. copy ≡ self.now) };

    /// Whether the operations are the same, with the same arguments.
    fn same(&self, other: &Self) -> bool
        ensures { IsTrue result ↔ (self.now ≡ other.now) };

    /// It looks at each cell that it changes, reports each change, and changes nothing if it is
    /// refused or is a question.
    ghost laws: { OperationLaws asks meaning };
}
