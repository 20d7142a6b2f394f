//! Operations that are run on one tree and committed to a history later.
ghost use Rattle.std.specs.Prelude.{◌≡◌, IfOk, IfErr};
ghost use Rattle.history.specs.Plans.{planned};
ghost use Rattle.history.specs.declared.history.CallError.TheVariants.{OutOfMemory};

use crate::history::{CallError, Unrun};
use footprint::{Answer, Key, Operation, Outcome, Reading};
use link_tree::Tree;
use std::alloc::{AllocError, Global};
use std::marker::Model;

/// An operation with its outcome on a tree: its answer, its changes, and what it looked at. It
/// contains no tree: the one on which it was made may have changed since, or may no longer exist.
/// Contracts see the operation and its outcome.
#[derive(Drop)]
pub struct Plan<O: Operation> {
    pub(crate) operation: O,
    pub(crate) outcome: Outcome,
}

impl<O: Operation> Model for Plan<O> {
    ghost use Rattle.std.specs.Coded.{codes, code_by};
    ghost use Rattle.std.specs.FinMap as map;
    ghost use Rattle.link_tree.specs.Trees.{path_cmp};
    ghost use Rattle.link_tree.specs.Values.{coded_path, coded_entry};
    ghost use Rattle.unit_file.specs.Notices.{line_cmp};
    ghost use Rattle.unit_file.specs.declared.notice.Notice.{Notice};
    ghost use Rattle.footprint.specs.declared.outcome.Outcome.{Outcome};
    ghost use Rattle.history.specs.Plans.{Planned, parts_of_plan, plan_of_parts, plan_of_own_parts, IsPlan};

    ghost Value = { Planned O };

    ghost coded = { code_by (O × Outcome) (Prim.hlevel (codes, map.code {R = path_cmp} coded_path coded_entry, map.code {X = Notice} {R = line_cmp} coded_path (Prim.hlevel codes))) parts_of_plan plan_of_parts plan_of_own_parts };

    ghost view = { λ plan. record { operation = plan.operation; outcome = plan.outcome } };

    ghost invariant = { λ plan. IsPlan O.meaning plan.operation plan.outcome };
}

impl<O: Operation> Plan<O> {
    /// Runs an operation on a tree, which is unchanged. Fails only if memory runs out, and then
    /// returns the operation.
    pub fn make(alloc: Global, operation: O, tree: &Tree) -> Result<Plan<O>, Unrun<O>>
        ensures plan { IfOk result (λ plan. plan ≡ planned O.meaning operation tree.now) }
        ensures handed_back { IfErr result (λ unrun. unrun.operation ≡ operation) }
        ensures why { IfErr result (λ unrun. unrun.why ≡ OutOfMemory) }
    {
        match operation.run(alloc, tree) {
            Ok(outcome) => Ok(Plan { operation, outcome }),
            Err(AllocError) => Err(Unrun {
                operation,
                why: CallError::OutOfMemory,
            }),
        }
    }

    /// Only the operation, as it was passed in.
    pub fn into_op(self) -> O
        ensures { result ≡ self.operation }
    {
        let Plan { operation, outcome } = self;
        drop(outcome);
        operation
    }

    /// What the operation answered on its tree. If the plan is committed, its row has this answer.
    pub fn answer(&self) -> &Answer
        ensures { result.now ≡ self.now.outcome.answer }
    {
        &self.outcome.answer
    }

    /// What the operation looked at on its tree.
    pub(crate) fn reading(&self) -> &Reading
        ensures { result.now ≡ self.now.outcome.reading }
    {
        &self.outcome.reading
    }
}

/// The result of a commit.
#[derive(Debug, Drop)]
pub enum Commit<P> {
    /// The tree agreed with all that the plan looked at, and the row of this number was made.
    Committed(u32),
    /// The tree differs from what the plan looked at, at this key first. No row was made.
    Stale { plan: P, at: Key },
}

/// A plan that made no row although the tree agrees with it, and why; or one whose key could not be
/// copied because memory ran out.
#[derive(Debug, Drop)]
pub struct Uncommitted<P> {
    pub plan: P,
    pub why: CallError,
}
