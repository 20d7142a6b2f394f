//! A run with sessions: from an inventory and a script to the replies and the resulting inventory.
ghost use Rattle.std.specs.Prelude.{◌≡◌, ℕ, List, Option, Some, true, OnOk, IfOk, IfErr};
ghost use Rattle.std.specs.Io.KnownBytes.{Appends, Keeps};
ghost use Rattle.byte_streams.specs.Streams.{IsCalm};
ghost use Rattle.byte_streams.specs.declared.counters.Counters.{Counters};
ghost use Rattle.unit_script.specs.Runs.{input_of};
ghost use Rattle.session_script.specs.Served.{AreServed, HasServed, InputFaultOf, IsServedHistory, IsSilent, ServeFault, SessionsCause, SessionsFaultOf, SessionsStops, asks_of, fault_of};

use crate::fault::SessionsFault;
use crate::operators::{TooMany, operators_of};
use byte_streams::{Sink, Source};
use history::{History, MAX_ROWS, Operator};
use link_tree::{Tree, WriteError};
use sessions::{Ask, Asks, Gate, RunError, run_desk};
use shared_admin::SessionLogs;
use std::alloc::{AllocError, Global};
use std::mem::forget;
use std::sync::Wait;
use std::thread::Threads;
use unit_script::{Action, Call, Input, RunFault, read_input, write_history};

/// Pauses no session between a plan and its commit.
struct OpenGate;

impl Gate for OpenGate {
    fn between(&self, _operator: Operator, _call: u64, _attempt: u8) {}
}

/// The requests of calls, in the form in which they are passed to sessions.
fn asks_of(alloc: Global, calls: Vec<Call>) -> Result<Asks<Action>, AllocError>
    ensures { IfOk result (λ asks. asks ≡ asks_of calls.items) }
{
    let mut asks = Asks::none(alloc);
    for call in calls {
        let Call { operator, request } = call;
        asks.push(Ask { operator, request })?;
    }
    Ok(asks)
}

/// The error of a run whose sessions didn't complete or could not be closed.
fn fault_of(e: RunError<History<Action>, SessionLogs<Action>>) -> SessionsFault
    ensures { result ≡ fault_of e }
{
    match e {
        RunError::TooManySessions | RunError::SameOperator => SessionsFault::TooManySessions,
        RunError::NoWorker => SessionsFault::NoWorker,
        RunError::Full => SessionsFault::Run(RunFault::Full),
        RunError::OutOfMemory => SessionsFault::Run(RunFault::OutOfMemory),
        RunError::Close(left) => SessionsFault::Close(left.fault),
    }
}

/// The history of calls on a tree, made in one session for each operator.
pub(crate) fn serve<R: Threads + Wait + Sync>(
    rt: &R,
    alloc: Global,
    tree: Tree,
    calls: Vec<Call>,
) -> Result<History<Action>, SessionsFault>
    ensures first { IfOk result (λ history. history.first ≡ tree) }
    ensures served { IfOk result (λ history. AreServed tree calls.items history.rows) }
    ensures fault { IfErr result (ServeFault calls.items) }
{
    let operators = match operators_of(alloc, &calls) {
        Ok(operators) => operators,
        Err(TooMany) => return Err(SessionsFault::TooManySessions),
    };
    // Each call makes a row, so nothing needs to be checked first.
    if calls.len() > MAX_ROWS {
        return Err(SessionsFault::Run(RunFault::Full));
    }
    let Ok(asks) = asks_of(alloc, calls) else {
        return Err(SessionsFault::Run(RunFault::OutOfMemory));
    };
    match run_desk(rt, alloc, tree, operators, asks, &OpenGate) {
        Ok((history, _logs)) => Ok(history),
        Err(e) => Err(fault_of(e)),
    }
}

/// Reads the whole input, and makes its calls.
fn serve_input<R: Threads + Wait + Sync, S: Source>(
    rt: &R,
    alloc: Global,
    source: &mut S,
) -> Result<History<Action>, SessionsFault>
    ensures served { IfOk result (λ history. (input : List ℕ) → S.left source.old ≡ Some input → IsServedHistory (input_of input) history) }
    ensures fault { IfErr result (λ e. (input : List ℕ) → S.left source.old ≡ Some input → InputFaultOf e (input_of input)) }
    ensures stops { IfErr result (λ e. SessionsStops e (S.left source.old) (S.left source.new)) }
    ensures calm { OnOk result (IsCalm (S.counters source.old) (S.counters source.new)) }
    ensures cause { IfErr result (λ e. (old new : Counters) → SessionsCause e (S.counters source.old) (S.counters source.new) old new) }
{
    match read_input(alloc, source) {
        Ok(Input { tree, calls }) => serve(rt, alloc, tree, calls),
        Err(e) => Err(SessionsFault::Run(e.run_fault())),
    }
}

/// Does what [`unit_script::run`] does, except that each operator's calls are made in a session
/// with a thread of its own, concurrently with those of the others. Each operator's calls are made
/// in their order; between operators the order is arbitrary, and the rows are written in the order
/// in which they were made. systemctl(1), "Unit File Commands".
///
/// There may be at most sixteen operators. All lines are read before the first call is made, and
/// the output is written as `run` writes it.
///
/// # Errors
///
/// The first of these:
///
/// - `Run`, with any fault of the input that `run` reports except `Full`.
/// - `TooManySessions`: the script has calls of more than sixteen operators.
/// - `NoWorker`: the system could not start a thread. No call of its operator was made.
/// - `Run(Full)`: the script has over 1,000,000 calls.
/// - `Close`: the replies that sessions received don't match the history, so what they did is
///   unknown. Nothing was written.
/// - `Run(WriteFault)`: as `run` reports it.
///
/// `Run(OutOfMemory)` may occur before any of them but `WriteFault`; nothing was written then.
pub fn run_with_sessions<R, S, K>(
    rt: &R,
    alloc: Global,
    source: &mut S,
    sink: &mut K,
) -> Result<(), SessionsFault>
where
    R: Threads + Wait + Sync,
    S: Source,
    K: Sink,
    ensures ok { OnOk result ((input : List ℕ) → S.left source.old ≡ Some input → HasServed (input_of input) (λ text. Appends (K.written sink.old) (K.written sink.new) text)) }
    ensures flushed { OnOk result (K.flushed sink.new ≡ true) }
    ensures fault { IfErr result (λ e. (input : List ℕ) → S.left source.old ≡ Some input → SessionsFaultOf e (K.written sink.old) (K.written sink.new) (input_of input)) }
    ensures silent { IfErr result (λ e. IsSilent e (K.written sink.old) (K.written sink.new)) }
    ensures stops { IfErr result (λ e. SessionsStops e (S.left source.old) (S.left source.new)) }
    ensures calm { OnOk result (IsCalm (S.counters source.old) (S.counters source.new)) }
    ensures cause { IfErr result (λ e. SessionsCause e (S.counters source.old) (S.counters source.new) (K.counters sink.old) (K.counters sink.new)) }
{
    let history = serve_input(rt, alloc, source)?;
    let written = write_history(alloc, &history, sink);
    // The process frees its memory when it ends, as after a run on one thread.
    forget(history);
    match written {
        Ok(()) => Ok(()),
        Err(WriteError::Fault(sent)) => Err(SessionsFault::Run(RunFault::WriteFault(sent))),
        Err(WriteError::OutOfMemory) => Err(SessionsFault::Run(RunFault::OutOfMemory)),
    }
}
