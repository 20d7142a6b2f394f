//! Calls made once, for which memory may run out. If it does, what a call was made on is as it was,
//! what was handed in comes back, and the call is made again and returns what it does with memory.
//!
//! A row is run again if memory runs out while its values are made. So for the call itself that is
//! never the result: what is wrong then is said in words.

use crate::checking::push_closed;
use crate::commands::{OF_ONE_UNIT, OF_TWO_UNITS, SSH, feed_lines, push_answers, run_lines};
use crate::desk::text_of;
use crate::running::{fed, ran};
use crate::scripts::{Ran, push_error};
use crate::serving::{Watcher, closed, opened, push_entry, shared};
use history::{CallError, Operator, Request, RowReply};
use link_tree::Tree;
use sample_rows::{Row, assert_rows};
use sample_steps::{Step, begin_word, is, operator, push_numbered, push_pair, push_reply, request};
use sessions::{Answered, Desk, Gate, IssueError, Job, RunError, Session, Unissued, Unserved};
use shared_admin::{LogEntry, SessionLog, SharedAdmin};
use std::alloc::{AllocError, Global};
use std::sync::Wait;
use std::sync::atomic::{AtomicU64, Ordering};
use std::test::Fail;
use std::thread::Threads;

/// Calls of alice's session, each with the digits of `Watcher`, what her entries say, and what
/// closing returns. Operators to whom jobs are issued, of which alice answers hers at once; then
/// how many jobs have no answer, and what the desk says if alice answers job 0, 1, and so on.
const CALLS: &[u8] = b"\
    # the fifth entry needs more room; the gate is called once for an undo and for a redo, also\n\
    # for one that is refused\n\
    session\tput:a undo:1 redo:1 look:b remove:a redo:1 undo:9\t\t\
        gate:11 gate:21 gate:31 gate:41 gate:51 gate:61 gate:71 \
        row:1:seen:0:ok row:2:seen:1:undid:1 row:3:seen:2:redid:1 row:4:seen:3:ok row:5:seen:4:ok \
        row:6:seen:5:not-undone row:7:seen:6:no-such-row closed\n\
    # the fifth job needs more room\n\
    desk\talice bob alice bob alice bob\t\t\
        job:1 taken job:2 job:3 taken job:4 job:5 taken job:6 \
        / open:3 unknown double unknown double unknown double unknown unknown\n\
    ";

/// Works that are run side by side, or asks that are fed to alice and bob, and the two results that
/// there may be: bob's first call may come before alice's or after it. What they ask for with a
/// gate that waits is in `large`.
const RUNS: &[u8] = b"\
    run\talice put:a / bob put:a put:b\t\
        alice:exists:a bob:ok bob:ok\talice:ok bob:exists:a bob:ok\n\
    feed\talice:put:a bob:put:a bob:put:b\t\
        alice:exists:a bob:ok bob:ok\talice:ok bob:exists:a bob:ok\n\
    run lines\tof one unit\t\
        alice ssh.service is masked\\nbob ok\\nbob masked\\n\talice ok\\nbob ok\\nbob masked\\n\n\
    feed lines\tof one unit\t\
        alice ssh.service is masked\\nbob ok\\nbob masked\\n\talice ok\\nbob ok\\nbob masked\\n\n\
    # alice has enabled her unit before bob asks for its state, or hasn't\n\
    run lines\tof two units\t\
        alice ok\\nbob ok\\nbob enabled\\nbob masked\\n\t\
        alice ok\\nbob ok\\nbob disabled\\nbob masked\\n\n\
    feed lines\tof two units\t\
        alice ok\\nbob ok\\nbob enabled\\nbob masked\\n\t\
        alice ok\\nbob ok\\nbob disabled\\nbob masked\\n\n\
    ";

/// Whether a row is of the lines of two units.
fn is_of_two_units(row: &Row) -> bool {
    is(&row.one, b"of two units")
}

/// How many requests a row of `RUNS` has.
fn requests_of(row: &Row) -> u64 {
    if is_of_two_units(row) { 4 } else { 3 }
}

/// The inventory and the lines of a row of lines.
fn lines_of(row: &Row) -> (&'static [u8], &'static [u8]) {
    if is_of_two_units(row) {
        (SSH, OF_TWO_UNITS)
    } else {
        (SSH, OF_ONE_UNIT)
    }
}

/// What is wrong if a call that is made again has too little memory: one growth alone is refused.
const TWICE: &[u8] = b"out-of-memory-twice";

/// Adds what is wrong, unless all is right.
fn push_unless(out: &mut Vec<u8>, is_right: bool, wrong: &[u8]) -> Result<(), AllocError> {
    if is_right {
        return Ok(());
    }
    begin_word(out)?;
    out.extend_from_slice(wrong)
}

fn push_tree(out: &mut Vec<u8>, tree: &Tree) -> Result<(), AllocError> {
    for (path, entry) in tree.iter() {
        begin_word(out)?;
        push_pair(out, path.text(), entry.bytes())?;
    }
    Ok(())
}

/// How many rows a session has seen, how many its history has, and the tree.
fn text_of_session(
    rt: &impl Wait,
    alloc: Global,
    session: &Session<Step>,
    admin: &SharedAdmin<Step>,
) -> Result<Vec<u8>, AllocError> {
    let now = Box::new(alloc, admin.snapshot(rt)?)?;
    let mut text = Vec::new(alloc);
    push_numbered(&mut text, b"seen", session.front())?;
    push_numbered(&mut text, b" rows", now.front)?;
    push_tree(&mut text, &now.tree)?;
    Ok(text)
}

/// The entries of a session, again.
fn copied_entries(
    alloc: Global,
    session: &Session<Step>,
) -> Result<Vec<LogEntry<Step>>, AllocError> {
    let mut copies = Vec::new(alloc);
    for entry in session.entries() {
        copies.push(LogEntry {
            request: entry.request.copy()?,
            seen: entry.seen,
            row: entry.row,
            reply: entry.reply.copy()?,
        })?;
    }
    Ok(copies)
}

fn is_same_entry(one: &LogEntry<Step>, other: &LogEntry<Step>) -> bool {
    one.seen == other.seen
        && one.row == other.row
        && one.request.same(&other.request)
        && one.reply.same(&other.reply)
}

fn are_same_entries(entries: &[LogEntry<Step>], others: &[LogEntry<Step>]) -> bool {
    let mut others = others.iter();
    for entry in entries {
        match others.next() {
            Some(other) if is_same_entry(entry, other) => {}
            _ => return false,
        }
    }
    others.next().is_none()
}

/// Adds what is wrong with a request that comes back, unless memory ran out for it and it is that
/// of the word.
fn push_unserved(
    alloc: Global,
    left: &Unserved<Step>,
    word: &[u8],
    out: &mut Vec<u8>,
) -> Result<(), AllocError> {
    push_unless(out, left.why == CallError::OutOfMemory, b"full")?;
    let is_same = left.request.same(&request(alloc, word)?);
    push_unless(out, is_same, b"another-request-came-back")
}

/// What a session and its history were before a call.
#[derive(Drop)]
struct Before {
    shown: Vec<u8>,
    entries: Vec<LogEntry<Step>>,
}

fn seen_before(
    rt: &impl Wait,
    alloc: Global,
    session: &Session<Step>,
    admin: &SharedAdmin<Step>,
) -> Result<Before, AllocError> {
    Ok(Before {
        shown: text_of_session(rt, alloc, session, admin)?,
        entries: copied_entries(alloc, session)?,
    })
}

/// Adds what isn't as it was before a call for which memory ran out.
fn push_changes(
    rt: &impl Wait,
    alloc: Global,
    session: &Session<Step>,
    admin: &SharedAdmin<Step>,
    before: &Before,
    out: &mut Vec<u8>,
) -> Result<(), AllocError> {
    let now = text_of_session(rt, alloc, session, admin)?;
    push_unless(out, now == before.shown, &now)?;
    let are_same = are_same_entries(session.entries(), &before.entries);
    push_unless(out, are_same, b"another-log")
}

/// Adds that the gate wasn't called exactly once, if it was called. Then forgets its calls.
fn push_gate(out: &mut Vec<u8>, seen: &AtomicU64) -> Result<(), AllocError> {
    let digits = seen.load(Ordering::SeqCst);
    push_unless(out, digits < 100 && digits % 10 < 2, b"another-gate")?;
    seen.store(0, Ordering::SeqCst);
    Ok(())
}

/// Makes a call of a session, and makes it again with the request that comes back if memory runs
/// out. Adds what is wrong then, and the calls of the gate.
fn push_call(
    rt: &impl Wait,
    alloc: Global,
    session: &mut Session<Step>,
    admin: &SharedAdmin<Step>,
    word: &[u8],
    out: &mut Vec<u8>,
) -> Result<(), AllocError> {
    let seen = AtomicU64::new(0);
    let gate = Watcher {
        name: b"alice",
        seen: &seen,
    };
    let before = seen_before(rt, alloc, session, admin)?;
    if let Err(left) = session.call(rt, alloc, admin, &gate, request(alloc, word)?) {
        push_unserved(alloc, &left, word, out)?;
        push_changes(rt, alloc, session, admin, &before, out)?;
        push_gate(out, &seen)?;
        let again = session.call(rt, alloc, admin, &gate, left.request);
        push_unless(out, again.is_ok(), TWICE)?;
    }
    begin_word(out)?;
    let digits = u32::try_from(seen.load(Ordering::SeqCst)).unwrap_or(u32::MAX);
    push_numbered(out, b"gate", digits)
}

fn push_entries(out: &mut Vec<u8>, session: &Session<Step>) -> Result<(), AllocError> {
    for entry in session.entries() {
        begin_word(out)?;
        push_entry(out, entry)?;
    }
    out.extend_from_slice(b" ")
}

/// Makes the calls of a script, and closes the run of the one session.
fn push_session(
    rt: &impl Wait,
    alloc: Global,
    script: &[u8],
    out: &mut Vec<u8>,
) -> Result<(), AllocError> {
    let admin = shared(alloc, b"alice")?;
    let mut session = opened(alloc, b"alice")?;
    for word in script.split(|b| *b == b' ') {
        push_call(rt, alloc, &mut session, &admin, word, out)?;
    }
    push_entries(out, &session)?;
    push_closed(out, &*closed(alloc, admin, session)?)
}

/// What the request of each job is.
const ASKED: &[u8] = b"put:a";

fn accepted(desk: &mut Desk, number: u64) -> Result<&'static [u8], AllocError> {
    let answer = Answered {
        number,
        operator: operator(b"alice")?,
        reply: RowReply::Undid(7),
    };
    Ok(text_of(desk.accept(&answer)))
}

/// How many jobs have no answer, and what the desk says to alice's answers. They change nothing,
/// since she has answered all of her jobs.
fn text_of_desk(alloc: Global, desk: &mut Desk) -> Result<Vec<u8>, AllocError> {
    let mut text = Vec::new(alloc);
    let open = u32::try_from(desk.outstanding()).unwrap_or(u32::MAX);
    push_numbered(&mut text, b"open", open)?;
    for number in 0..8 {
        begin_word(&mut text)?;
        text.extend_from_slice(accepted(desk, number)?)?;
    }
    Ok(text)
}

/// Adds what is wrong with a job that comes back, unless memory ran out for it and it is the one
/// that was asked for.
fn push_unissued(
    alloc: Global,
    left: &Unissued<Step>,
    out: &mut Vec<u8>,
) -> Result<(), AllocError> {
    push_unless(out, left.why == IssueError::OutOfMemory, b"shut")?;
    let is_same = left.request.same(&request(alloc, ASKED)?);
    push_unless(out, is_same, b"another-request-came-back")
}

/// Adds the number of a job, and what is wrong unless it is the operator's of this name.
fn push_job(
    alloc: Global,
    job: &Job<Step>,
    name: &[u8],
    out: &mut Vec<u8>,
) -> Result<(), AllocError> {
    begin_word(out)?;
    let number = u32::try_from(job.number).unwrap_or(u32::MAX);
    push_numbered(out, b"job", number)?;
    push_unless(out, is(job.operator.text(), name), b"another-operator")?;
    let is_same = job.request.same(&request(alloc, ASKED)?);
    push_unless(out, is_same, b"another-request")
}

/// Issues a job to the operator of this name, and issues it again with the request that comes back
/// if memory runs out. Adds what is wrong then, and the job.
fn push_issued(
    alloc: Global,
    desk: &mut Desk,
    name: &[u8],
    out: &mut Vec<u8>,
) -> Result<(), AllocError> {
    let operator = operator(name)?;
    let before = text_of_desk(alloc, desk)?;
    let left = match desk.issue(operator, request(alloc, ASKED)?) {
        Ok(job) => return push_job(alloc, &job, name, out),
        Err(left) => left,
    };
    push_unissued(alloc, &left, out)?;
    let now = text_of_desk(alloc, desk)?;
    push_unless(out, now == before, &now)?;
    match desk.issue(operator, left.request) {
        Ok(job) => push_job(alloc, &job, name, out),
        Err(_) => push_unless(out, false, TWICE),
    }
}

/// Issues a job to each operator of these names.
fn push_desk(alloc: Global, names: &[u8], out: &mut Vec<u8>) -> Result<(), AllocError> {
    let mut desk = Desk::new(alloc);
    let mut number = 0u64;
    for name in names.split(|b| *b == b' ') {
        number = number.wrapping_add(1);
        push_issued(alloc, &mut desk, name, out)?;
        if is(name, b"alice") {
            begin_word(out)?;
            out.extend_from_slice(accepted(&mut desk, number)?)?;
        }
    }
    out.extend_from_slice(b" / ")?;
    out.extend_from_slice(&text_of_desk(alloc, &mut desk)?)
}

fn answer_of_call(rt: &impl Wait, alloc: Global, row: &Row) -> Result<Vec<u8>, AllocError> {
    let mut out = Vec::new(alloc);
    if is(&row.kind, b"desk") {
        push_desk(alloc, &row.one, &mut out)?;
    } else {
        push_session(rt, alloc, &row.one, &mut out)?;
    }
    Ok(out)
}

/// Counts the first attempts at requests, and the workers that are at the gate now.
#[derive(Drop)]
struct Counter<'a> {
    begun: &'a AtomicU64,
    present: &'a AtomicU64,
}

impl<'a> Gate for Counter<'a> {
    fn between(&self, _operator: Operator, _call: u64, attempt: u8) {
        self.present.fetch_add(1, Ordering::SeqCst);
        if attempt == 1 {
            self.begun.fetch_add(1, Ordering::SeqCst);
        }
        self.present.fetch_sub(1, Ordering::SeqCst);
    }
}

/// Whether memory ran out for a run. A worker may be missing because of that, too.
fn lacks_memory<H, L>(ran: &Result<(H, L), RunError<H, L>>) -> bool {
    matches!(ran, Err(RunError::NoWorker | RunError::OutOfMemory))
}

fn push_log(out: &mut Vec<u8>, log: &SessionLog<Step>) -> Result<(), AllocError> {
    for entry in log.entries.as_slice() {
        begin_word(out)?;
        push_pair(out, log.operator.text(), b"")?;
        push_reply(out, &entry.reply)?;
    }
    Ok(())
}

/// Adds what results from a run. Returns whether memory was enough for it.
fn push_steps(out: &mut Vec<u8>, ran: &Ran) -> Result<bool, AllocError> {
    if lacks_memory(ran) {
        return Ok(false);
    }
    match ran {
        Ok((_, logs)) => {
            for log in logs.as_slice() {
                push_log(out, log)?;
            }
        }
        Err(why) => push_error(out, why)?,
    }
    Ok(true)
}

/// Adds what results from a run of commands. Returns whether memory was enough for it.
fn push_commands(out: &mut Vec<u8>, ran: &crate::commands::Ran) -> Result<bool, AllocError> {
    if lacks_memory(ran) {
        return Ok(false);
    }
    push_answers(out, ran)?;
    Ok(true)
}

/// Runs or feeds what a row says, once. Returns whether memory was enough for it.
fn push_once<R: Threads + Wait + Sync, G: Gate + Sync>(
    rt: &R,
    alloc: Global,
    row: &Row,
    gate: &G,
    out: &mut Vec<u8>,
) -> Result<bool, AllocError> {
    if is(&row.kind, b"run") {
        return push_steps(out, &*ran(rt, alloc, &row.one, gate)?);
    }
    if is(&row.kind, b"feed") {
        return push_steps(out, &*fed(rt, alloc, (b"alice bob", &row.one, 1), gate)?);
    }
    if is(&row.kind, b"run lines") {
        return push_commands(out, &*run_lines(rt, alloc, lines_of(row), gate)?);
    }
    push_commands(out, &*feed_lines(rt, alloc, lines_of(row), gate)?)
}

/// Runs or feeds what a row says, and does so again if memory runs out; at each end no worker is
/// left at the gate. Adds what is wrong, and what results.
fn push_run<R: Threads + Wait + Sync>(
    rt: &R,
    alloc: Global,
    row: &Row,
    out: &mut Vec<u8>,
) -> Result<Vec<u8>, AllocError> {
    let begun = AtomicU64::new(0);
    let present = AtomicU64::new(0);
    let gate = Counter {
        begun: &begun,
        present: &present,
    };
    let mut said = Vec::new(alloc);
    if !push_once(rt, alloc, row, &gate, &mut said)? {
        push_unless(out, present.load(Ordering::SeqCst) == 0, b"not-joined")?;
        push_unless(
            out,
            begun.load(Ordering::SeqCst) <= requests_of(row),
            b"too-many",
        )?;
        begun.store(0, Ordering::SeqCst);
        let is_enough = push_once(rt, alloc, row, &gate, &mut said)?;
        push_unless(out, is_enough, TWICE)?;
    }
    push_unless(out, present.load(Ordering::SeqCst) == 0, b"not-joined")?;
    push_unless(
        out,
        begun.load(Ordering::SeqCst) == requests_of(row),
        b"not-all-once",
    )?;
    Ok(said)
}

/// The result of a row, or what is wrong. The other possible result counts as this one.
fn answer_of_run<R: Threads + Wait + Sync>(
    rt: &R,
    alloc: Global,
    row: &Row,
) -> Result<Vec<u8>, AllocError> {
    let mut out = Vec::new(alloc);
    let said = push_run(rt, alloc, row, &mut out)?;
    let is_right = said == row.two || said == row.answer;
    push_unless(&mut out, is_right, &said)?;
    if out.is_empty() {
        out.extend_from_slice(&row.answer)?;
    }
    Ok(out)
}

#[test]
fn a_call_without_memory_leaves_all_as_it_was(rt: HostRuntime) -> Result<(), Fail> {
    assert_rows(
        rt.alloc(),
        CALLS,
        |alloc, row| answer_of_call(&rt, alloc, row),
    )
}

#[test]
fn a_run_without_memory_comes_to_an_end(rt: HostRuntime) -> Result<(), Fail> {
    assert_rows(
        rt.alloc(),
        RUNS,
        |alloc, row| answer_of_run(&rt, alloc, row),
    )
}
