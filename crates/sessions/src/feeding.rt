//! Requests that are passed to sessions one by one, each session in a thread of its own.
ghost use Rattle.std.specs.Prelude.{◌≡◌, ◌+◌, ◌-◌, ◌<◌, ◌≤◌, ◌++◌, ◌∷◌, [], true, false, IsTrue, Some, IfOk, IfErr, length, slice_get, take, vec_len};
ghost use Rattle.history.specs.Rows.{run, calls_of};
ghost use Rattle.shared_admin.specs.Sharing.{MayShare};
ghost use Rattle.sessions.specs.Fed.{AreOf, HasFed, IsAnswerOf, jobs_of};
ghost use Rattle.sessions.specs.Faults.{IsRunError, IfUnclosed, IsUnfedBySome};
ghost use Rattle.sessions.specs.Runs.{AreInOrder};

use crate::asks::Asks;
use crate::checking::{Fed, close_fed};
use crate::desk::{Answered, Desk, Job};
use crate::faults::{RunError, WorkFault, both};
use crate::gate::Gate;
use crate::names::{copied, place_of};
use crate::session::Session;
use crossbeam_channel::{Receiver, SendError, Sender, bounded};
use footprint::Operation;
use history::{CallError, History, Operator};
use link_tree::Tree;
use shared_admin::{MAX_SESSIONS, Operators, SessionLog, SessionLogs, SharedAdmin};
use std::alloc::{AllocError, Global};
use std::sync::Wait;
use std::thread;
use std::thread::{Promise, Scope, Threads};

/// How many jobs may be queued for a worker.
const WAITING: usize = 16;

/// Passes requests to sessions on a tree, and closes the run. Each session has a thread of its own,
/// which serves the requests of one operator as they arrive. Afterwards the rows of each operator
/// are exactly its requests, in order, and each log matches them; the logs are in the order of the
/// operators. Each request is of one of the operators.
///
/// The gate is called by all threads. [`RunError`] lists the errors in the order in which they are
/// reported; of the workers' errors, the first in that order is reported. If the logs match the
/// rows, `Mismatch` is reported for the first log that doesn't match its operator's requests, with
/// the first position, from 1 on, at which it differs; or else, with position 0, for the first
/// answer that the desk rejects, or for the first job without an answer. All workers have ended
/// when this returns.
///
/// While a worker is paused, sixteen requests may be queued for it; the requests after them then
/// wait too, also those of other operators. So a gate shouldn't wait for a request that is much
/// later in the list.
pub fn run_desk<O, R, G>(
    rt: &R,
    alloc: Global,
    tree: Tree,
    operators: Operators,
    asks: Asks<O>,
    gate: &G,
) -> Result<(History<O>, SessionLogs<O>), RunError<History<O>, SessionLogs<O>>>
where
    O: Operation + Send + Sync,
    R: Threads + Wait + Sync,
    G: Gate + Sync,
    requires { AreOf operators asks }
    ensures fed { IfOk result (λ r. HasFed tree operators asks r.0 r.1) }
    ensures order { IfOk result (λ r. AreInOrder operators r.1) }
    ensures legal { IfOk result (λ r. r.0.rows ≡ run O.asks O.meaning r.0.first [] (calls_of r.0.rows)) }
    ensures why { IfErr result (λ why. IsRunError operators why) }
    ensures unclosed { IfErr result (λ why. IfUnclosed why (IsUnfedBySome O.asks O.meaning tree operators asks)) }
{
    if operators.as_slice().len() > MAX_SESSIONS {
        return Err(RunError::TooManySessions);
    }
    let names = copied(alloc, operators.as_slice());
    let admin = SharedAdmin::new(alloc, tree, operators)?;
    feed_and_close(rt, alloc, admin, gate, names.as_slice(), asks)
}

/// Passes requests to the operators that share a history, and closes it.
fn feed_and_close<O, R, G>(
    rt: &R,
    alloc: Global,
    admin: SharedAdmin<O>,
    gate: &G,
    operators: &[Operator],
    asks: Asks<O>,
) -> Result<(History<O>, SessionLogs<O>), RunError<History<O>, SessionLogs<O>>>
where
    O: Operation + Send + Sync,
    R: Threads + Wait + Sync,
    G: Gate + Sync,
    requires asks { AreOf operators.now asks }
    requires share { MayShare admin.operators }
    ensures fed { IfOk result (λ r. HasFed admin.first admin.operators asks r.0 r.1) }
    ensures order { IfOk result (λ r. AreInOrder operators.now r.1) }
    ensures legal { IfOk result (λ r. r.0.rows ≡ run O.asks O.meaning r.0.first [] (calls_of r.0.rows)) }
    ensures why { IfErr result (λ why. IsRunError admin.operators why) }
    ensures unclosed { IfErr result (λ why. IfUnclosed why (IsUnfedBySome O.asks O.meaning admin.first admin.operators asks)) }
{
    let copies = asks.copy()?;
    let fed = feed_in_threads(rt, alloc, &admin, gate, operators, asks)?;
    match close_fed(admin, fed, copies.as_slice()) {
        Ok(run) => Ok(run),
        Err(left) => Err(RunError::Close(left)),
    }
}

#[tactic(auto, using(crate::proofs::LogOrders::in_order_from_none))]
fn feed_in_threads<O, R, G>(
    rt: &R,
    alloc: Global,
    admin: &SharedAdmin<O>,
    gate: &G,
    operators: &[Operator],
    asks: Asks<O>,
) -> Result<Fed<O>, WorkFault>
where
    O: Operation + Send + Sync,
    R: Threads + Wait + Sync,
    G: Gate + Sync,
    requires { AreOf operators.now asks }
    ensures { IfOk result (λ fed. AreInOrder operators.now fed.logs) }
{
    let feed = Feed {
        asks,
        to: Vec::new(alloc),
    };
    thread::scope(
        thread::scope_env(),
        rt,
        |scope| -> Result<Fed<O>, WorkFault>
            requires { AreOf operators.now feed.asks × (vec_len feed.to ≡ 0) }
            ensures { IfOk result (λ fed. AreInOrder operators.entry.now fed.logs) }
        { feed_workers(scope, rt, alloc, admin, gate, operators, feed) },
    )
}

/// The requests still to pass on, and the sending ends of the channels to the last operators'
/// workers, in the order of the operators.
#[derive(Drop)]
struct Feed<O> {
    asks: Asks<O>,
    to: Vec<Sender<Job<O>>>,
}

/// What a worker promises to return: the log of a session of this operator.
#[derive(Drop)]
struct ServesOperator {
    operator: Operator,
}

impl<O> Promise<Result<Served<O>, CallError>> for ServesOperator {
    ghost use Rattle.std.specs.Prelude.{◌≡◌, IfOk};

    ghost kept_by = { λ promise r. IfOk r (λ served. served.log.operator ≡ promise.operator) };
}

/// Starts a worker for each operator that has none yet, the last first; passes them all their
/// requests; and joins those that it started, even if others fail. A worker ends when the sending
/// end of its channel is dropped. The logs of these operators are in the operators' order.
#[tactic(auto, using(crate::proofs::LogOrders::in_order_at_last))]
fn feed_workers<'s, E, O, R, G>(
    scope: &'s Scope<'s, E>,
    rt: &'s R,
    alloc: Global,
    admin: &'s SharedAdmin<O>,
    gate: &'s G,
    operators: &[Operator],
    feed: Feed<O>,
) -> Result<Fed<O>, WorkFault>
where
    O: Operation + Send + Sync,
    R: Threads + Wait + Sync,
    G: Gate + Sync,
    requires asks { AreOf operators.now feed.asks }
    requires workers { vec_len feed.to ≤ length operators.now }
    ensures { IfOk result (λ fed. AreInOrder (take (length operators.now - vec_len feed.to) operators.now) fed.logs) }
{
    let left = operators.len() - feed.to.len();
    if left == 0 {
        return feed_all(rt, alloc, operators, feed);
    }
    let operator = operators[left - 1];
    let (to, from) = bounded(alloc, WAITING)?;
    let feed = with_end(feed, to)?;
    let worker = scope.spawn_with(
        ServesOperator { operator },
        move || serve_jobs(rt, alloc, admin, gate, operator, from),
    );
    let Ok(worker) = worker else {
        return Err(WorkFault::NoWorker);
    };
    let fed = feed_workers(scope, rt, alloc, admin, gate, operators, feed);
    let served = worker.join(rt);
    let (fed, served) = both(fed, served)?;
    Ok(with_served(fed, served)?)
}

/// Adds the sending end of one more channel at the front. If memory runs out, all sending ends are
/// dropped, so that their workers end.
fn with_end<O: Operation>(feed: Feed<O>, end: Sender<Job<O>>) -> Result<Feed<O>, AllocError>
    ensures { IfOk result (λ longer. (longer.asks ≡ feed.asks) × (vec_len longer.to ≡ vec_len feed.to + 1)) }
{
    let mut feed = feed;
    feed.to.insert(0, end)?;
    Ok(feed)
}

/// Passes each request to its operator's worker, until all are passed on or a worker has ended
/// early. After that no worker gets any more.
fn feed_all<O: Operation, R: Wait>(
    rt: &R,
    alloc: Global,
    operators: &[Operator],
    feed: Feed<O>,
) -> Result<Fed<O>, WorkFault>
    requires asks { AreOf operators.now feed.asks }
    requires workers { vec_len feed.to ≡ length operators.now }
    ensures issued { IfOk result (λ fed. fed.desk.is_shut ≡ true → fed.desk.issued ≡ jobs_of feed.asks) }
    ensures logs { IfOk result (λ fed. fed.logs ≡ []) }
{
    let Feed { asks, to } = feed;
    let mut desk = Desk::new(alloc);
    for ask in asks.into_vec() {
        let place = place_of(operators, &ask.operator);
        // issuing at an open desk fails only if memory runs out
        let Ok(job) = desk.issue(ask.operator, ask.request) else {
            return Err(WorkFault::OutOfMemory);
        };
        match to[place].send(rt, job) {
            Ok(()) => {}
            Err(SendError::OutOfMemory(_)) => return Err(WorkFault::OutOfMemory),
            // the worker reports why
            Err(SendError::Disconnected(_)) => return Ok(unserved(alloc, desk)),
        }
    }
    desk.shut();
    Ok(unserved(alloc, desk))
}

/// What remains before the workers are joined.
fn unserved<O: Operation>(alloc: Global, desk: Desk) -> Fed<O>
    ensures desk { result.desk ≡ desk }
    ensures logs { result.logs ≡ [] }
{
    Fed {
        desk,
        logs: SessionLogs::none(alloc),
        answers: Vec::new(alloc),
    }
}

/// What a worker returns when its jobs are done: its session's log, and its answers.
#[derive(Drop)]
struct Served<O> {
    log: SessionLog<O>,
    answers: Vec<Answered>,
}

/// Adds what a worker returned.
fn with_served<O: Operation>(fed: Fed<O>, served: Served<O>) -> Result<Fed<O>, AllocError>
    ensures desk { IfOk result (λ all. all.desk ≡ fed.desk) }
    ensures logs { IfOk result (λ all. all.logs ≡ fed.logs ++ served.log ∷ []) }
    ensures answers { IfOk result (λ all. all.answers.items ≡ fed.answers.items ++ served.answers.items) }
{
    let Fed {
        desk,
        mut logs,
        mut answers,
    } = fed;
    let Served {
        log,
        answers: mut more,
    } = served;
    logs.push(log)?;
    answers.append(&mut more)?;
    Ok(Fed {
        desk,
        logs,
        answers,
    })
}

/// Serves an operator's jobs as they arrive, in one session.
fn serve_jobs<O: Operation, R: Wait, G: Gate>(
    rt: &R,
    alloc: Global,
    admin: &SharedAdmin<O>,
    gate: &G,
    operator: Operator,
    jobs: Receiver<Job<O>>,
) -> Result<Served<O>, CallError>
    ensures { IfOk result (λ served. served.log.operator ≡ operator) }
{
    let mut session = Session::open(alloc, operator);
    let mut answers = Vec::new(alloc);
    for job in jobs.iter(rt) {
        answers.push(serve_job(rt, alloc, admin, gate, &mut session, job)?)?;
    }
    Ok(Served {
        log: session.into_log(),
        answers,
    })
}

/// Serves a job in a session, and returns its answer.
fn serve_job<O: Operation, R: Wait, G: Gate>(
    rt: &R,
    alloc: Global,
    admin: &SharedAdmin<O>,
    gate: &G,
    session: &mut Session<O>,
    job: Job<O>,
) -> Result<Answered, CallError>
    ensures { IfOk result (λ answer. IsAnswerOf session.old job session.new answer) }
{
    let Job {
        number,
        operator,
        request,
    } = job;
    if let Err(left) = session.call(rt, alloc, admin, gate, request) {
        return Err(left.why);
    }
    let entries = session.entries();
    let reply = entries[entries.len() - 1].reply.copy()?;
    Ok(Answered {
        number,
        operator,
        reply,
    })
}
