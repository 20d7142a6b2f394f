//! Sessions that run concurrently, each in a thread of its own.
ghost use Rattle.std.specs.Prelude.{◌≡◌, ◌≤◌, [], IfOk, IfErr, length};
ghost use Rattle.history.specs.Rows.{run, calls_of};
ghost use Rattle.shared_admin.specs.Sharing.{MayShare};
ghost use Rattle.sessions.specs.Runs.{IsWorkOf, AreWorkOf, AreInOrder, operators_of, HasRun};
ghost use Rattle.sessions.specs.Faults.{IsRunError, IfUnclosed, IsUnclosed};

use crate::faults::{RunError, WorkFault, both};
use crate::gate::Gate;
use crate::requests::Requests;
use crate::session::Session;
use crate::works::{Work, Works};
use footprint::Operation;
use history::{CallError, History, Operator};
use link_tree::Tree;
use shared_admin::{MAX_SESSIONS, Operators, SessionLog, SessionLogs, SharedAdmin};
use std::alloc::{AllocError, Global};
use std::snapshot::Snapshot;
use std::sync::Wait;
use std::thread;
use std::thread::{Promise, Scope, Threads};

/// Runs sessions concurrently on a tree, and closes the run. Each session has a thread of its own,
/// which serves all requests of one operator in order. Afterwards the rows of each operator are
/// exactly its requests, in order, and each log matches them; the logs are in the order of the
/// work. Several runs of the same work may result in different histories.
///
/// The gate is called by all threads. [`RunError`] lists the errors in the order in which they are
/// reported; of the workers' errors, the first in that order is reported. All workers have ended
/// when this returns.
pub fn run_sessions<O, R, G>(
    rt: &R,
    alloc: Global,
    tree: Tree,
    works: Works<O>,
    gate: &G,
) -> Result<(History<O>, SessionLogs<O>), RunError<History<O>, SessionLogs<O>>>
where
    O: Operation + Send + Sync,
    R: Threads + Wait + Sync,
    G: Gate + Sync,
    ensures ran { IfOk result (λ r. HasRun tree works r.0 r.1) }
    ensures order { IfOk result (λ r. AreInOrder (operators_of works) r.1) }
    ensures legal { IfOk result (λ r. r.0.rows ≡ run O.asks O.meaning r.0.first [] (calls_of r.0.rows)) }
    ensures why { IfErr result (λ why. IsRunError (operators_of works) why) }
    ensures unclosed { IfErr result (λ why. IfUnclosed why (IsUnclosed O.asks O.meaning tree (operators_of works))) }
{
    if works.as_slice().len() > MAX_SESSIONS {
        return Err(RunError::TooManySessions);
    }
    let operators = operators_of(alloc, works.as_slice());
    let admin = SharedAdmin::new(alloc, tree, operators)?;
    serve_and_close(rt, alloc, admin, works, gate)
}

/// Serves the work of the operators that share a history, and closes it.
fn serve_and_close<O, R, G>(
    rt: &R,
    alloc: Global,
    admin: SharedAdmin<O>,
    works: Works<O>,
    gate: &G,
) -> Result<(History<O>, SessionLogs<O>), RunError<History<O>, SessionLogs<O>>>
where
    O: Operation + Send + Sync,
    R: Threads + Wait + Sync,
    G: Gate + Sync,
    requires operators { admin.operators ≡ operators_of works }
    requires share { MayShare admin.operators }
    ensures ran { IfOk result (λ r. HasRun admin.first works r.0 r.1) }
    ensures order { IfOk result (λ r. AreInOrder (operators_of works) r.1) }
    ensures legal { IfOk result (λ r. r.0.rows ≡ run O.asks O.meaning r.0.first [] (calls_of r.0.rows)) }
    ensures why { IfErr result (λ why. IsRunError admin.operators why) }
    ensures unclosed { IfErr result (λ why. IfUnclosed why (IsUnclosed O.asks O.meaning admin.first admin.operators)) }
{
    let logs = serve_in_threads(rt, alloc, &admin, works, gate)?;
    match admin.close(logs) {
        Ok(run) => Ok(run),
        Err(left) => Err(RunError::Close(left)),
    }
}

/// The operators of at most sixteen pieces of work. Allocates no memory.
fn operators_of<O: Operation>(alloc: Global, works: &[Work<O>]) -> Operators
    requires { length works.now ≤ 16 }
    ensures { result ≡ operators_of works.now }
{
    let mut operators = Operators::none(alloc);
    for work in works {
        match operators.push(work.operator) {
            Ok(()) => {}
            Err(AllocError) => unreachable!(),
        }
    }
    operators
}

fn serve_in_threads<O, R, G>(
    rt: &R,
    alloc: Global,
    admin: &SharedAdmin<O>,
    works: Works<O>,
    gate: &G,
) -> Result<SessionLogs<O>, WorkFault>
where
    O: Operation + Send + Sync,
    R: Threads + Wait + Sync,
    G: Gate + Sync,
    ensures { IfOk result (λ logs. AreWorkOf works logs) }
{
    thread::scope(
        thread::scope_env(),
        rt,
        |scope| -> Result<SessionLogs<O>, WorkFault>
            ensures { IfOk result (λ logs. AreWorkOf works logs) }
        { serve_each(scope, rt, alloc, admin, gate, works) },
    )
}

/// What a worker promises to return: the log of a session that made exactly the operator's
/// requests, in order.
#[derive(Drop)]
struct Serves<O> {
    operator: Operator,
    requests: Snapshot<Requests<O>>,
}

impl<O> Promise<Result<SessionLog<O>, CallError>> for Serves<O> {
    ghost use Rattle.std.specs.Prelude.{IfOk};
    ghost use Rattle.shared_admin.specs.Sharing.{MayShare};
    ghost use Rattle.sessions.specs.Runs.{IsWorkOf};

    ghost kept_by = { λ promise r. IfOk r (λ log. IsWorkOf promise.operator promise.requests.value log) };
}

/// Serves each operator's work in a thread of its own, and returns the logs in the order of the
/// work. The last worker is started first and joined last; a worker that was started is joined even
/// if others fail.
fn serve_each<'s, E, O, R, G>(
    scope: &'s Scope<'s, E>,
    rt: &'s R,
    alloc: Global,
    admin: &'s SharedAdmin<O>,
    gate: &'s G,
    works: Works<O>,
) -> Result<SessionLogs<O>, WorkFault>
where
    O: Operation + Send + Sync,
    R: Threads + Wait + Sync,
    G: Gate + Sync,
    ensures { IfOk result (λ logs. AreWorkOf works logs) }
{
    let mut works = works;
    let Some(work) = works.pop() else {
        return Ok(SessionLogs::none(alloc));
    };
    let Work { operator, requests } = work;
    let promise = Serves {
        operator,
        requests: Snapshot::of(&requests),
    };
    let worker = scope.spawn_with(
        promise,
        move || serve_all(rt, alloc, admin, gate, operator, requests),
    );
    let Ok(worker) = worker else {
        return Err(WorkFault::NoWorker);
    };
    let before = serve_each(scope, rt, alloc, admin, gate, works);
    let last = worker.join(rt);
    let (mut logs, log) = both(before, last)?;
    logs.push(log)?;
    Ok(logs)
}

/// Serves all requests of an operator in one session.
fn serve_all<O: Operation, R: Wait, G: Gate>(
    rt: &R,
    alloc: Global,
    admin: &SharedAdmin<O>,
    gate: &G,
    operator: Operator,
    requests: Requests<O>,
) -> Result<SessionLog<O>, CallError>
    ensures { IfOk result (λ log. IsWorkOf operator requests log) }
{
    let mut session = Session::open(alloc, operator);
    for request in requests.into_vec() {
        if let Err(left) = session.call(rt, alloc, admin, gate, request) {
            return Err(left.why);
        }
    }
    Ok(session.into_log())
}
