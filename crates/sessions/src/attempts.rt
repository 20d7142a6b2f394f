//! How a request is served: plans and commits, then a call while the lock is held; undos and redos.
ghost use Rattle.std.specs.Prelude.{◌≡◌, ◌≤◌, IfOk, IfErr};
ghost use Rattle.history.specs.declared.row.Request.TheVariants.{Do};
ghost use Rattle.sessions.specs.Sessions.{KeepsOperation};

use crate::gate::Gate;
use crate::session::Unserved;
use footprint::Operation;
use history::{CallError, Operator, Plan, Request};
use shared_admin::{NewRow, Settled, SharedAdmin, plan};
use std::alloc::Global;
use std::sync::Wait;

/// How often an operation is planned before it is run while the lock is held.
const ATTEMPTS: u8 = 4;

/// The operator of the call, and the call's number, from 1 on.
#[derive(Clone, Copy)]
pub(crate) struct Turn {
    pub(crate) operator: Operator,
    pub(crate) call: u64,
}

/// Serves a request, and returns its row. For an undo or a redo the gate is called once. A request
/// that isn't served is returned.
pub(crate) fn serve<O: Operation, R: Wait, G: Gate>(
    rt: &R,
    alloc: Global,
    admin: &SharedAdmin<O>,
    gate: &G,
    turn: &Turn,
    request: Request<O>,
) -> Result<NewRow, Unserved<O>>
    requires { 1 ≤ turn.now.call }
    ensures { IfErr result (λ left. left.request ≡ request) }
{
    match request {
        Request::Do(operation) => serve_operation(rt, alloc, admin, gate, turn, operation),
        Request::Undo(n) => {
            gate.between(turn.operator, turn.call, 1);
            match admin.undo(rt, alloc, turn.operator, n) {
                Ok(row) => Ok(row),
                Err(why) => Err(Unserved {
                    request: Request::Undo(n),
                    why,
                }),
            }
        }
        Request::Redo(n) => {
            gate.between(turn.operator, turn.call, 1);
            match admin.redo(rt, alloc, turn.operator, n) {
                Ok(row) => Ok(row),
                Err(why) => Err(Unserved {
                    request: Request::Redo(n),
                    why,
                }),
            }
        }
    }
}

/// Serves an operation, and returns its row: it is planned outside the lock, up to four times, and
/// then run while the lock is held.
fn serve_operation<O: Operation, R: Wait, G: Gate>(
    rt: &R,
    alloc: Global,
    admin: &SharedAdmin<O>,
    gate: &G,
    turn: &Turn,
    operation: O,
) -> Result<NewRow, Unserved<O>>
    requires { 1 ≤ turn.now.call }
    ensures { IfErr result (λ left. left.request ≡ Do operation) }
{
    let mut operation = operation;
    for made in 0..ATTEMPTS {
        match try_once(rt, alloc, admin, gate, turn, made + 1, operation)? {
            Attempt::Served(row) => return Ok(row),
            Attempt::Stale(left) => operation = left,
        }
    }
    match admin.call(rt, alloc, turn.operator, operation) {
        Ok(row) => Ok(row),
        Err(unrun) => Err(unserved(unrun.operation, unrun.why)),
    }
}

/// The result of one attempt.
#[derive(Drop)]
pub(crate) enum Attempt<O> {
    Served(NewRow),
    /// The plan was stale, and this is its operation.
    Stale(O),
}

/// Takes a snapshot, and plans an operation on it.
fn planned<O: Operation, R: Wait>(
    rt: &R,
    alloc: Global,
    admin: &SharedAdmin<O>,
    operation: O,
) -> Result<Plan<O>, Unserved<O>>
    ensures ok { IfOk result (λ plan. plan.operation ≡ operation) }
    ensures handed_back { IfErr result (λ left. left.request ≡ Do operation) }
{
    let Ok(snapshot) = admin.snapshot(rt) else {
        return Err(unserved(operation, CallError::OutOfMemory));
    };
    match plan(alloc, &snapshot, operation) {
        Ok(plan) => Ok(plan),
        Err(unrun) => Err(unserved(unrun.operation, unrun.why)),
    }
}

/// Takes a snapshot, plans on it, and commits the plan.
fn try_once<O: Operation, R: Wait, G: Gate>(
    rt: &R,
    alloc: Global,
    admin: &SharedAdmin<O>,
    gate: &G,
    turn: &Turn,
    number: u8,
    operation: O,
) -> Result<Attempt<O>, Unserved<O>>
    requires call { 1 ≤ turn.now.call }
    requires number { (1 ≤ number) × (number ≤ 4) }
    ensures ok { IfOk result (λ attempt. KeepsOperation operation attempt) }
    ensures handed_back { IfErr result (λ left. left.request ≡ Do operation) }
{
    let plan = planned(rt, alloc, admin, operation)?;
    gate.between(turn.operator, turn.call, number);
    match admin.commit(rt, turn.operator, plan) {
        Ok(Settled::Committed(row)) => Ok(Attempt::Served(row)),
        Ok(Settled::Stale { plan, at: _ }) => Ok(Attempt::Stale(plan.into_op())),
        Err(left) => Err(unserved(left.plan.into_op(), left.why)),
    }
}

/// An operation that is returned because it wasn't run.
fn unserved<O>(operation: O, why: CallError) -> Unserved<O>
    ensures { result ≡ record { request = Do operation; why = why } }
{
    Unserved {
        request: Request::Do(operation),
        why,
    }
}
