//! What happens while the lock is held: each function borrows the history.
ghost use Rattle.std.specs.Prelude.{◌≡◌, ◌<◌, ◌↔◌, IfOk, IfErr, OnOk, OnErr, length};
ghost use Rattle.history.specs.Plans.{AgreesWith};
ghost use Rattle.history.specs.Rows.{rows_after, IdleStays};
ghost use Rattle.history.specs.declared.history.CallError.TheVariants as errors;
ghost use Rattle.history.specs.declared.row.Request.TheVariants.{Do, Undo, Redo};
ghost use Rattle.history.specs.declared.row.RowReply.TheVariants as replies;
ghost use Rattle.shared_admin.specs.Holds.{IsOfToggle, IsReplyOf, IsReplyTo, KeepsPlan, Settles};

use footprint::{Key, Operation};
use history::{CallError, Commit, History, Operator, Plan, RowReply, Uncommitted, Unrun};
use std::alloc::{AllocError, Global};

/// A row that was made.
#[derive(Debug, Drop)]
pub struct NewRow {
    pub number: u32,
    /// The row's reply; it may be a refusal.
    pub reply: RowReply,
}

/// The result of committing a plan.
#[derive(Debug, Drop)]
pub enum Settled<P> {
    /// The tree agreed with all that the plan looked at, and this row was made.
    Committed(NewRow),
    /// The tree differs from what the plan looked at, at this key first. No row was made.
    Stale { plan: P, at: Key },
}

/// Commits a plan. The reply is copied before the row is added, so that a row that is made is
/// always reported. The reply of a plan that makes no row isn't copied.
pub(crate) fn commit<O: Operation>(
    history: &mut History<O>,
    operator: Operator,
    plan: Plan<O>,
) -> Result<Settled<Plan<O>>, Uncommitted<Plan<O>>>
    ensures first { history.new.first ≡ history.old.first }
    ensures limit { history.new.limit ≡ history.old.limit }
    ensures settled { IfOk result (λ settled. Settles O.asks O.meaning history.old operator plan history.new settled) }
    ensures kept { IfOk result (λ settled. KeepsPlan plan settled) }
    ensures err { OnErr result (history.new ≡ history.old) }
    ensures handed_back { IfErr result (λ left. left.plan ≡ plan) }
    ensures full { IfErr result (λ left. (left.why ≡ errors.Full) ↔ (AgreesWith O.asks O.meaning history.old plan × (length history.old.rows ≡ history.old.limit))) }
{
    if history.is_full() {
        return commit_to_full(history, operator, plan);
    }
    if !history.agrees_with(&plan) {
        return commit_stale(history, operator, plan);
    }
    let copy = plan.answer().copy();
    match copy {
        Err(AllocError) => Err(Uncommitted {
            plan,
            why: CallError::OutOfMemory,
        }),
        Ok(answer) => commit_with(history, operator, plan, RowReply::Answered(answer)),
    }
}

/// Commits a plan to a history that has as many rows as it may have: the plan is stale, or it makes
/// no row.
fn commit_to_full<O: Operation>(
    history: &mut History<O>,
    operator: Operator,
    plan: Plan<O>,
) -> Result<Settled<Plan<O>>, Uncommitted<Plan<O>>>
    requires { length history.old.rows ≡ history.old.limit }
    ensures first { history.new.first ≡ history.old.first }
    ensures limit { history.new.limit ≡ history.old.limit }
    ensures settled { IfOk result (λ settled. Settles O.asks O.meaning history.old operator plan history.new settled) }
    ensures kept { IfOk result (λ settled. KeepsPlan plan settled) }
    ensures err { OnErr result (history.new ≡ history.old) }
    ensures handed_back { IfErr result (λ left. left.plan ≡ plan) }
    ensures full { IfErr result (λ left. (left.why ≡ errors.Full) ↔ (AgreesWith O.asks O.meaning history.old plan × (length history.old.rows ≡ history.old.limit))) }
{
    match history.commit(operator, plan) {
        Ok(Commit::Committed(_)) => unreachable!(),
        Ok(Commit::Stale { plan, at }) => Ok(Settled::Stale { plan, at }),
        Err(left) => Err(left),
    }
}

/// Commits a plan that the tree doesn't agree with.
fn commit_stale<O: Operation>(
    history: &mut History<O>,
    operator: Operator,
    plan: Plan<O>,
) -> Result<Settled<Plan<O>>, Uncommitted<Plan<O>>>
    requires { ¬ AgreesWith O.asks O.meaning history.old plan }
    ensures first { history.new.first ≡ history.old.first }
    ensures limit { history.new.limit ≡ history.old.limit }
    ensures settled { IfOk result (λ settled. Settles O.asks O.meaning history.old operator plan history.new settled) }
    ensures kept { IfOk result (λ settled. KeepsPlan plan settled) }
    ensures err { OnErr result (history.new ≡ history.old) }
    ensures handed_back { IfErr result (λ left. left.plan ≡ plan) }
    ensures full { IfErr result (λ left. (left.why ≡ errors.Full) ↔ (AgreesWith O.asks O.meaning history.old plan × (length history.old.rows ≡ history.old.limit))) }
{
    match history.commit(operator, plan) {
        Ok(Commit::Committed(_)) => unreachable!(),
        Ok(Commit::Stale { plan, at }) => Ok(Settled::Stale { plan, at }),
        Err(left) => Err(left),
    }
}

/// Commits a plan whose row will have this reply.
fn commit_with<O: Operation>(
    history: &mut History<O>,
    operator: Operator,
    plan: Plan<O>,
    reply: RowReply,
) -> Result<Settled<Plan<O>>, Uncommitted<Plan<O>>>
    requires { reply ≡ replies.Answered plan.outcome.answer }
    ensures first { history.new.first ≡ history.old.first }
    ensures limit { history.new.limit ≡ history.old.limit }
    ensures settled { IfOk result (λ settled. Settles O.asks O.meaning history.old operator plan history.new settled) }
    ensures kept { IfOk result (λ settled. KeepsPlan plan settled) }
    ensures err { OnErr result (history.new ≡ history.old) }
    ensures handed_back { IfErr result (λ left. left.plan ≡ plan) }
    ensures full { IfErr result (λ left. (left.why ≡ errors.Full) ↔ (AgreesWith O.asks O.meaning history.old plan × (length history.old.rows ≡ history.old.limit))) }
{
    match history.commit(operator, plan) {
        Ok(Commit::Committed(number)) => Ok(Settled::Committed(NewRow { number, reply })),
        Ok(Commit::Stale { plan, at }) => Ok(Settled::Stale { plan, at }),
        Err(left) => Err(left),
    }
}

/// Runs an operation on the current tree. The reply is copied before the row is added.
pub(crate) fn call<O: Operation>(
    history: &mut History<O>,
    alloc: Global,
    operator: Operator,
    operation: O,
) -> Result<NewRow, Unrun<O>>
    ensures first { history.new.first ≡ history.old.first }
    ensures limit { history.new.limit ≡ history.old.limit }
    ensures rows { OnOk result (history.new.rows ≡ rows_after O.asks O.meaning history.old.first history.old.rows (operator, Do operation)) }
    ensures number { IfOk result (λ row. row.number ≡ length history.new.rows) }
    ensures reply { IfOk result (λ row. IsReplyOf history.new.rows row.number row.reply) }
    ensures asked { IfOk result (λ row. IsReplyTo O.meaning (Do operation) row.reply) }
    ensures idle { OnOk result (IdleStays O.asks O.meaning history.old.first history.old.rows history.new.rows) }
    ensures err { OnErr result (history.new ≡ history.old) }
    ensures handed_back { IfErr result (λ unrun. unrun.operation ≡ operation) }
    ensures full { IfErr result (λ unrun. (unrun.why ≡ errors.Full) ↔ (length history.old.rows ≡ history.old.limit)) }
    ensures room { OnOk result (length history.old.rows < history.old.limit) }
{
    if history.is_full() {
        return Err(Unrun {
            operation,
            why: CallError::Full,
        });
    }
    let plan = Plan::make(alloc, operation, history.tree())?;
    match commit(history, operator, plan) {
        Ok(Settled::Committed(row)) => Ok(row),
        Ok(Settled::Stale { plan: _, at: _ }) => unreachable!(),
        Err(left) => Err(Unrun {
            operation: left.plan.into_op(),
            why: left.why,
        }),
    }
}

/// Undoes a row, unless that is refused. The reply is copied after the row is added; copying it
/// allocates no memory.
pub(crate) fn undo<O: Operation>(
    history: &mut History<O>,
    alloc: Global,
    operator: Operator,
    n: u32,
) -> Result<NewRow, CallError>
    ensures first { history.new.first ≡ history.old.first }
    ensures limit { history.new.limit ≡ history.old.limit }
    ensures rows { OnOk result (history.new.rows ≡ rows_after O.asks O.meaning history.old.first history.old.rows (operator, Undo n)) }
    ensures number { IfOk result (λ row. row.number ≡ length history.new.rows) }
    ensures reply { IfOk result (λ row. IsReplyOf history.new.rows row.number row.reply) }
    ensures asked { IfOk result (λ row. IsReplyTo O.meaning (Undo n) row.reply) }
    ensures idle { OnOk result (IdleStays O.asks O.meaning history.old.first history.old.rows history.new.rows) }
    ensures err { OnErr result (history.new ≡ history.old) }
    ensures full { IfErr result (λ why. (why ≡ errors.Full) ↔ (length history.old.rows ≡ history.old.limit)) }
    ensures room { OnOk result (length history.old.rows < history.old.limit) }
{
    let number = history.undo(alloc, operator, n)?;
    let rows = history.rows();
    let reply = reply_of_toggle(&rows[rows.len() - 1].reply);
    Ok(NewRow { number, reply })
}

/// Redoes a row, unless that is refused. The reply is copied after the row is added; copying it
/// allocates no memory.
pub(crate) fn redo<O: Operation>(
    history: &mut History<O>,
    alloc: Global,
    operator: Operator,
    n: u32,
) -> Result<NewRow, CallError>
    ensures first { history.new.first ≡ history.old.first }
    ensures limit { history.new.limit ≡ history.old.limit }
    ensures rows { OnOk result (history.new.rows ≡ rows_after O.asks O.meaning history.old.first history.old.rows (operator, Redo n)) }
    ensures number { IfOk result (λ row. row.number ≡ length history.new.rows) }
    ensures reply { IfOk result (λ row. IsReplyOf history.new.rows row.number row.reply) }
    ensures asked { IfOk result (λ row. IsReplyTo O.meaning (Redo n) row.reply) }
    ensures idle { OnOk result (IdleStays O.asks O.meaning history.old.first history.old.rows history.new.rows) }
    ensures err { OnErr result (history.new ≡ history.old) }
    ensures full { IfErr result (λ why. (why ≡ errors.Full) ↔ (length history.old.rows ≡ history.old.limit)) }
    ensures room { OnOk result (length history.old.rows < history.old.limit) }
{
    let number = history.redo(alloc, operator, n)?;
    let rows = history.rows();
    let reply = reply_of_toggle(&rows[rows.len() - 1].reply);
    Ok(NewRow { number, reply })
}

/// A copy of the reply of an undo or a redo.
fn reply_of_toggle(reply: &RowReply) -> RowReply
    requires { IsOfToggle reply.now }
    ensures { result ≡ reply.now }
{
    match reply {
        RowReply::Undid(n) => RowReply::Undid(*n),
        RowReply::UndoRefused(refusal) => RowReply::UndoRefused(*refusal),
        RowReply::Redid(n) => RowReply::Redid(*n),
        RowReply::RedoRefused(refusal) => RowReply::RedoRefused(*refusal),
        RowReply::Answered(_) => unreachable!(),
    }
}
