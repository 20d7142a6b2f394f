//! One lock around a history.
ghost use Rattle.std.specs.Prelude.{◌≡◌, ◌≤◌, [], IfOk, IfErr};
ghost use Rattle.history.specs.Rows.{run, calls_of};
ghost use Rattle.history.specs.declared.row.Request.TheVariants.{Do, Undo, Redo};
ghost use Rattle.shared_admin.specs.Closing.{IsClosed, IsFault};
ghost use Rattle.shared_admin.specs.Holds.{IsReplyTo, KeepsPlan};
ghost use Rattle.shared_admin.specs.Sharing.{MayShare, IsUnshared};

use crate::close::{Unclosed, run_fault};
use crate::holds;
use crate::holds::{NewRow, Settled};
use crate::log::SessionLogs;
use crate::operators::{MAX_SESSIONS, Operators, are_distinct};
use crate::snapshot::{Snapshot, snapshot_of};
use footprint::Operation;
use history::{CallError, History, MAX_ROWS, Operator, Plan, Uncommitted, Unrun};
use link_tree::Tree;
use std::alloc::{AllocError, Global};
use std::marker::Model;
use std::sync::{Mutex, Wait};

/// Why a history can't be shared. The first reason that applies is reported.
#[derive(Clone, Copy, Debug, PartialEq, Eq)]
pub enum OpenError {
    /// There are more than sixteen operators.
    TooManySessions,
    /// An operator is in the list twice.
    SameOperator,
    OutOfMemory,
}

/// A history that several operators share. Each call on it takes the lock once, and what happens
/// while the lock is held is one step, which [`History`] describes. Contracts see the tree that was
/// given and the operators; of the history they see only its type invariant: whenever the lock is
/// free, its rows are legal and its tree is their replay.
#[derive(Drop)]
pub struct SharedAdmin<O: Operation> {
    first: Tree,
    operators: Operators,
    history: Mutex<History<O>>,
}

impl<O: Operation> Model for SharedAdmin<O> {
    ghost use Rattle.std.specs.Prelude.{List, ℕ};
    ghost use Rattle.std.specs.Coded.{codes, code_by};
    ghost use Rattle.std.specs.FinMap as map;
    ghost use Rattle.link_tree.specs.Trees.{Entries, path_cmp};
    ghost use Rattle.link_tree.specs.Values.{coded_path, coded_entry};
    ghost use Rattle.shared_admin.specs.Sharing.{Opening, opening_parts, of_opening_parts, of_own_opening_parts};

    ghost Value = { Opening };

    ghost coded = { code_by (Entries × List (List ℕ)) (Prim.hlevel (codes, map.code {R = path_cmp} coded_path coded_entry)) opening_parts of_opening_parts of_own_opening_parts };

    ghost view = { λ admin. record { first = admin.first; operators = admin.operators } };
}

impl<O: Operation> SharedAdmin<O> {
    /// A history of a tree, without rows, which these operators share; it may have a million rows.
    /// The tree that was given is stored with it.
    ///
    /// There are at most sixteen operators, each once; there may be none. The error is
    /// `TooManySessions` if there are more, else `SameOperator` if one is in the list twice, else
    /// `OutOfMemory`.
    pub fn new(alloc: Global, tree: Tree, operators: Operators) -> Result<SharedAdmin<O>, OpenError>
        ensures shared { IfOk result (λ admin. (admin ≡ record { first = tree; operators = operators }) × MayShare operators) }
        ensures unshared { IfErr result (λ why. IsUnshared operators why) }
    {
        SharedAdmin::with_limit(alloc, tree, operators, MAX_ROWS)
    }

    /// The same, but the history may have only this many rows: 1 to 1,000,000.
    pub fn with_limit(
        alloc: Global,
        tree: Tree,
        operators: Operators,
        limit: usize,
    ) -> Result<SharedAdmin<O>, OpenError>
        requires some { 1 ≤ limit }
        requires few { limit ≤ 1000000 }
        ensures shared { IfOk result (λ admin. (admin ≡ record { first = tree; operators = operators }) × MayShare operators) }
        ensures unshared { IfErr result (λ why. IsUnshared operators why) }
    {
        if operators.as_slice().len() > MAX_SESSIONS {
            return Err(OpenError::TooManySessions);
        }
        if !are_distinct(operators.as_slice()) {
            return Err(OpenError::SameOperator);
        }
        let Ok(first) = tree.share() else {
            return Err(OpenError::OutOfMemory);
        };
        let Ok(history) = History::with_limit(alloc, tree, limit) else {
            return Err(OpenError::OutOfMemory);
        };
        Ok(SharedAdmin {
            first,
            operators,
            history: Mutex::new(history),
        })
    }

    /// A snapshot of the history: its current tree, which is shared and not copied, and how many
    /// rows there are. Fails only if memory runs out.
    pub fn snapshot(&self, rt: &impl Wait) -> Result<Snapshot, AllocError> {
        snapshot_of(&*self.history.lock(rt))
    }

    /// Commits a plan, as `History::commit` does. The new row's number and its reply are returned;
    /// a plan that makes no row is returned.
    ///
    /// The error is `Full` if the tree agrees with all that the plan looked at and there are a
    /// million rows, else `OutOfMemory`. No row was made then.
    pub fn commit(
        &self,
        rt: &impl Wait,
        operator: Operator,
        plan: Plan<O>,
    ) -> Result<Settled<Plan<O>>, Uncommitted<Plan<O>>>
        ensures kept { IfOk result (λ settled. KeepsPlan plan settled) }
        ensures handed_back { IfErr result (λ left. left.plan ≡ plan) }
    {
        holds::commit(&mut *self.history.lock(rt), operator, plan)
    }

    /// Runs an operation on the current tree while the lock is held, as `History::call` does. The
    /// new row's number and its reply are returned; an operation that makes no row is returned.
    ///
    /// The error is `Full` if there are a million rows, else `OutOfMemory`. No row was made then.
    pub fn call(
        &self,
        rt: &impl Wait,
        alloc: Global,
        operator: Operator,
        operation: O,
    ) -> Result<NewRow, Unrun<O>>
        ensures reply { IfOk result (λ row. IsReplyTo O.meaning (Do operation) row.reply) }
        ensures handed_back { IfErr result (λ unrun. unrun.operation ≡ operation) }
    {
        holds::call(&mut *self.history.lock(rt), alloc, operator, operation)
    }

    /// Undoes the row of this number, unless that is refused, as `History::undo` does: its changes
    /// are reverted. The lock is taken once. The new row's number and its reply are returned; the
    /// reply is `Undid`, or `UndoRefused` with the reason.
    ///
    /// The error is `Full` if there are a million rows, else `OutOfMemory`. No row was made then,
    /// and nothing is changed.
    pub fn undo(
        &self,
        rt: &impl Wait,
        alloc: Global,
        operator: Operator,
        n: u32,
    ) -> Result<NewRow, CallError>
        ensures { IfOk result (λ row. IsReplyTo O.meaning (Undo n) row.reply) }
    {
        holds::undo(&mut *self.history.lock(rt), alloc, operator, n)
    }

    /// Redoes the row of this number, which was undone, unless that is refused, as `History::redo`
    /// does: its changes are made again, and it is in effect at its own place. The lock is taken
    /// once. The new row's number and its reply are returned; the reply is `Redid`, or
    /// `RedoRefused` with the reason.
    ///
    /// The error is `Full` if there are a million rows, else `OutOfMemory`. No row was made then,
    /// and nothing is changed.
    pub fn redo(
        &self,
        rt: &impl Wait,
        alloc: Global,
        operator: Operator,
        n: u32,
    ) -> Result<NewRow, CallError>
        ensures { IfOk result (λ row. IsReplyTo O.meaning (Redo n) row.reply) }
    {
        holds::redo(&mut *self.history.lock(rt), alloc, operator, n)
    }

    /// Ends the sharing, and reports whether the run is closed: each operator has exactly one log,
    /// which has an entry for each of the operator's rows, in their order, with the row's request
    /// and reply, and each row was made after all rows that the session had seen; there is no other
    /// log and no other row; and the history begins with the tree that was given. History and logs
    /// are always returned, unchanged. Allocates no memory.
    pub fn close(
        self,
        logs: SessionLogs<O>,
    ) -> Result<(History<O>, SessionLogs<O>), Unclosed<History<O>, SessionLogs<O>>>
        ensures closed { IfOk result (λ r. IsClosed self.first self.operators logs r.0) }
        ensures legal { IfOk result (λ r. r.0.rows ≡ run O.asks O.meaning r.0.first [] (calls_of r.0.rows)) }
        ensures logs { IfOk result (λ r. r.1 ≡ logs) }
        ensures fault { IfErr result (λ left. IsFault self.first self.operators logs left.history left.fault) }
        ensures not_closed { IfErr result (λ left. ¬ IsClosed self.first self.operators logs left.history) }
        ensures still_legal { IfErr result (λ left. left.history.rows ≡ run O.asks O.meaning left.history.first [] (calls_of left.history.rows)) }
        ensures logs_back { IfErr result (λ left. left.logs ≡ logs) }
    {
        let SharedAdmin {
            first,
            operators,
            history,
        } = self;
        let history = history.into_inner();
        match run_fault(&first, operators.as_slice(), logs.as_slice(), &history) {
            None => Ok((history, logs)),
            Some(fault) => Err(Unclosed {
                fault,
                history,
                logs,
            }),
        }
    }
}
