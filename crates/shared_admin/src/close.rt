//! Why a shared history can't be closed.
ghost use Rattle.std.specs.Prelude.{◌≡◌, [], IfNone, IfSome};
ghost use Rattle.history.specs.Rows.{run, calls_of};
ghost use Rattle.shared_admin.specs.Closing.{IsClosed, IsFault};

use crate::log::SessionLog;
use crate::strangers::{missing, strange_log, strange_row};
use crate::telling::mismatch;
use footprint::Operation;
use history::{History, Operator};
use link_tree::Tree;
use tree_steps::are_same;

/// Why a run isn't closed, in the order in which the reasons are checked.
#[derive(Clone, Copy, Debug)]
pub enum CloseFault {
    /// This operator, the first such of those that share the history, has no log.
    Missing(Operator),
    /// This operator has the first log that belongs to none of the operators, or to one that has an
    /// earlier log; or else the first row that belongs to none of them.
    Stranger(Operator),
    /// The log of this operator, the first such, doesn't match the operator's rows. This position,
    /// from 1 on, is the first at which they differ.
    Mismatch(Operator, u32),
    /// The history doesn't begin with the tree that was given.
    OtherTree,
}

/// A run that isn't closed, and why. The history and the logs are unchanged.
#[derive(Debug, Drop)]
pub struct Unclosed<H, L> {
    pub fault: CloseFault,
    pub history: H,
    pub logs: L,
}

/// Why a run isn't closed, if it isn't: the first that applies of what `CloseFault` lists.
/// `SharedAdmin::close` calls this with its own history, tree and operators, and with the logs that
/// it was given.
pub fn run_fault<O: Operation>(
    given: &Tree,
    operators: &[Operator],
    logs: &[SessionLog<O>],
    history: &History<O>,
) -> Option<CloseFault>
    ensures none { IfNone result (IsClosed given.now operators.now logs.now history.now) }
    ensures some { IfSome result (λ fault. IsFault given.now operators.now logs.now history.now fault × (¬ IsClosed given.now operators.now logs.now history.now)) }
    ensures legal { history.now.rows ≡ run O.asks O.meaning history.now.first [] (calls_of history.now.rows) }
{
    let rows = history.rows();
    if let Some(operator) = missing(operators, logs) {
        return Some(CloseFault::Missing(operator));
    }
    if let Some(operator) = strange_log(operators, logs) {
        return Some(CloseFault::Stranger(operator));
    }
    if let Some(operator) = strange_row(operators, rows) {
        return Some(CloseFault::Stranger(operator));
    }
    if let Some(first) = mismatch(operators, logs, rows) {
        return Some(CloseFault::Mismatch(first.0, first.1));
    }
    if are_same(history.first(), given) {
        None
    } else {
        Some(CloseFault::OtherTree)
    }
}
