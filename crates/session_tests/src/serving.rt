//! Desks, and sessions on one thread.

use crate::checking::{self, Closed, push_closed};
use crate::desk;
use crate::scripts::{Open, operators};
use history::{CallError, MAX_ROWS, Operator, Request};
use link_tree::{Tree, push_decimal};
use sample_rows::{Row, assert_rows};
use sample_steps::{Step, is, number, operator, parts, push_numbered, push_reply, request, step};
use sessions::{Gate, Session, Unserved};
use shared_admin::{LogEntry, SessionLogs, SharedAdmin};
use std::alloc::{AllocError, Global};
use std::sync::Wait;
use std::sync::atomic::{AtomicU64, Ordering};
use std::test::Fail;
use unit_name::ample;

/// What a desk says to words. What closing returns for alice's session, in which she put a file at
/// the slot of a and undid that, if this is what she had asked for, and if these jobs were issued
/// and these answers are handed in. What her last entry says: if
/// bob meddles with each plan of hers; after the requests of a script, with two digits for each
/// call of the gate, which are the request and the attempt; after requests of which some find the
/// history full; or if she had seen this many rows before she put a file at the slot of a and undid
/// that. And the digits for her calls and for bob's, if their sessions are called in turn.
const ROWS: &[u8] = b"\
    # answers to no job, to one of another operator's, and for the second time aren't taken\n\
    desk\tissue:bob issue:alice open answer:0:bob answer:3:bob answer:1:alice answer:1:bob open \
        answer:1:bob answer:1:alice shut issue:bob answer:2:alice open\t\t\
        job:1 job:2 open:2 unknown unknown unknown taken open:1 \
        double unknown shut closed taken open:0\n\
    \n\
    asked\talice:put:a alice:undo:1\t\tclosed\n\
    # another request at the first place, and at the second\n\
    asked\talice:remove:a alice:undo:1\t\tmismatch:alice:1\n\
    asked\talice:put:a alice:undo:2\t\tmismatch:alice:2\n\
    asked\talice:put:a alice:redo:1\t\tmismatch:alice:2\n\
    # a request that has no entry, and entries without a request\n\
    asked\talice:put:a alice:undo:1 alice:put:b\t\tmismatch:alice:3\n\
    asked\talice:put:a\t\tmismatch:alice:2\n\
    asked\t\t\tmismatch:alice:1\n\
    # all was served, and each job has its answer\n\
    asked\talice:put:a alice:undo:1\tissue:alice issue:bob answer:2:bob answer:1:alice\tclosed\n\
    # a job has no answer; the first of two; a log that isn't of what was asked for comes first\n\
    asked\talice:put:a alice:undo:1\tissue:alice\tmismatch:alice:0\n\
    asked\talice:put:a alice:undo:1\tissue:alice issue:bob issue:carol answer:1:alice\t\
        mismatch:bob:0\n\
    asked\talice:put:a alice:undo:2\tissue:alice\tmismatch:alice:2\n\
    # a second answer to a job, and answers to no job and to another operator's: the first that\n\
    # isn't taken names its operator, also while an earlier job has no answer\n\
    asked\talice:put:a alice:undo:1\tissue:alice answer:1:alice answer:1:alice\tmismatch:alice:0\n\
    asked\talice:put:a alice:undo:1\tissue:alice answer:1:alice answer:2:bob\tmismatch:bob:0\n\
    asked\talice:put:a alice:undo:1\tissue:alice answer:1:bob answer:1:alice\tmismatch:bob:0\n\
    asked\talice:put:a alice:undo:1\t\
        issue:alice issue:bob answer:2:bob answer:2:bob answer:3:carol\tmismatch:bob:0\n\
    asked\talice:put:a alice:undo:2\tissue:alice answer:2:bob\tmismatch:alice:2\n\
    \n\
    # four plans are stale, and then she calls while the lock is held\n\
    meddled\tput:a\t\trow:5:seen:0:ok attempts:1234\n\
    # the gate is called once for an undo and for a redo, also for one that is refused\n\
    gated\tput:a undo:1 redo:1\t\trow:3:seen:2:redid:1 gate:112131\n\
    gated\tput:a undo:1 look:a redo:1\t\trow:4:seen:3:hindered:3 gate:11213141\n\
    # each session counts its own calls from 1 on, also if calls of the other come between them\n\
    in turn\talice:put:a bob:put:b bob:undo:2 alice:undo:1 bob:redo:2 alice:look:a alice:undo:9\t\t\
        alice:11213141 bob:112131\n\
    # limited: the history may have only this many rows; a request that finds it full comes back,\n\
    # and the session stays as it was\n\
    limited\tput:a undo:1 redo:1 put:b\t2\t\
        ok ok full full row:2:seen:1:undid:1 entries:2 rows:2\n\
    limited\tput:a put:a put:a\t1\tok full full row:1:seen:0:ok entries:1 rows:1\n\
    # a row comes after all that she had seen\n\
    told\t0\t\trow:2:seen:1:undid:1 closed\n\
    told\t9\t\trow:2:seen:1:undid:1 mismatch:alice:1\n\
    ";

/// An empty tree, which the operators of these names share.
pub(crate) fn shared(alloc: Global, names: &[u8]) -> Result<Box<SharedAdmin<Step>>, AllocError> {
    shared_with_limit(alloc, names, MAX_ROWS)
}

/// The same, with at most this many rows.
fn shared_with_limit(
    alloc: Global,
    names: &[u8],
    limit: usize,
) -> Result<Box<SharedAdmin<Step>>, AllocError> {
    if limit == 0 || limit > MAX_ROWS {
        return Err(AllocError);
    }
    let tree = Tree::empty(alloc)?;
    match SharedAdmin::with_limit(alloc, tree, operators(alloc, names)?, limit) {
        Ok(admin) => Ok(Box::new(alloc, admin)?),
        Err(_) => Err(AllocError),
    }
}

/// Makes each plan of alice's stale: bob puts a file at the slot at which it looked, and the next
/// time he removes it.
#[derive(Drop)]
struct Meddler<'a, R: Wait> {
    rt: &'a R,
    alloc: Global,
    admin: &'a SharedAdmin<Step>,
    /// The attempts that it has seen, a digit each.
    seen: &'a AtomicU64,
}

/// Notes each call of the gate, in two digits: the session's call and the attempt; or 99 if it
/// isn't the call of the operator of this name.
#[derive(Drop)]
pub(crate) struct Watcher<'a> {
    pub(crate) name: &'a [u8],
    pub(crate) seen: &'a AtomicU64,
}

impl<'a> Gate for Watcher<'a> {
    fn between(&self, operator: Operator, call: u64, attempt: u8) {
        let digits = if is(operator.text(), self.name) {
            call.wrapping_mul(10).wrapping_add(u64::from(attempt))
        } else {
            99
        };
        let seen = self.seen.load(Ordering::SeqCst).wrapping_mul(100);
        self.seen.store(seen.wrapping_add(digits), Ordering::SeqCst);
    }
}

impl<'a, R: Wait> Meddler<'a, R> {
    fn meddle(&self, attempt: u8) -> Result<(), AllocError> {
        let word = if attempt % 2 == 1 {
            b"put:a".as_slice()
        } else {
            b"remove:a".as_slice()
        };
        let bob = operator(b"bob")?;
        let step = step(self.alloc, word)?;
        match self.admin.call(self.rt, self.alloc, bob, step) {
            Ok(_) => Ok(()),
            Err(_) => Err(AllocError),
        }
    }
}

impl<'a, R: Wait> Gate for Meddler<'a, R> {
    fn between(&self, _operator: Operator, call: u64, attempt: u8) {
        if call == 1 {
            let seen = self.seen.load(Ordering::SeqCst).wrapping_mul(10);
            self.seen
                .store(seen.wrapping_add(u64::from(attempt)), Ordering::SeqCst);
        }
        let _ = ample!(self.meddle(attempt), AllocError);
    }
}

/// A call of a session.
fn call<R: Wait, G: Gate>(
    rt: &R,
    alloc: Global,
    session: &mut Session<Step>,
    admin: &SharedAdmin<Step>,
    gate: &G,
    word: &[u8],
) -> Result<(), AllocError> {
    match session.call(rt, alloc, admin, gate, request(alloc, word)?) {
        Ok(()) => Ok(()),
        Err(_) => Err(AllocError),
    }
}

/// Adds the row of a call, how many rows had been seen before, and the reply.
pub(crate) fn push_entry(out: &mut Vec<u8>, entry: &LogEntry<Step>) -> Result<(), AllocError> {
    push_numbered(out, b"row", entry.row)?;
    push_numbered(out, b":seen", entry.seen)?;
    out.extend_from_slice(b":")?;
    push_reply(out, &entry.reply)
}

/// Adds what the entry of the last call says.
fn push_last(out: &mut Vec<u8>, session: &Session<Step>) -> Result<(), AllocError> {
    match session.entries().last() {
        Some(last) => push_entry(out, last),
        None => out.extend_from_slice(b"no-entry"),
    }
}

/// The session of an operator.
pub(crate) fn opened(alloc: Global, name: &[u8]) -> Result<Box<Session<Step>>, AllocError> {
    Ok(Box::new(alloc, Session::open(alloc, operator(name)?))?)
}

/// Adds the attempts at alice's call, and what her entry says.
fn push_meddled(
    rt: &impl Wait,
    alloc: Global,
    word: &[u8],
    out: &mut Vec<u8>,
) -> Result<(), AllocError> {
    let admin = shared(alloc, b"alice bob")?;
    let seen = AtomicU64::new(0);
    let gate = Meddler {
        rt,
        alloc,
        admin: &admin,
        seen: &seen,
    };
    push_served(rt, alloc, &admin, &gate, word, out)?;
    out.extend_from_slice(b" attempts:")?;
    push_decimal(out, seen.load(Ordering::SeqCst) as usize)
}

/// Adds what the entry of alice's call says.
fn push_served<R: Wait, G: Gate>(
    rt: &R,
    alloc: Global,
    admin: &SharedAdmin<Step>,
    gate: &G,
    word: &[u8],
    out: &mut Vec<u8>,
) -> Result<(), AllocError> {
    let mut session = opened(alloc, b"alice")?;
    call(rt, alloc, &mut session, admin, gate, word)?;
    push_last(out, &session)
}

/// How many entries a session has, how many rows it has seen, and how many the history has.
fn counts(
    rt: &impl Wait,
    admin: &SharedAdmin<Step>,
    session: &Session<Step>,
) -> Result<(usize, u32, u32), AllocError> {
    let now = admin.snapshot(rt)?;
    Ok((session.entries().len(), session.front(), now.front))
}

/// A call of a session, with a gate that notes its calls. If memory runs out, the session and the
/// history are as they were, and the request is called again.
fn call_watched(
    rt: &impl Wait,
    alloc: Global,
    session: &mut Session<Step>,
    admin: &SharedAdmin<Step>,
    gate: &Watcher<'_>,
    word: &[u8],
    out: &mut Vec<u8>,
) -> Result<(), AllocError> {
    let noted = gate.seen.load(Ordering::SeqCst);
    let before = counts(rt, admin, session)?;
    if call(rt, alloc, session, admin, gate, word).is_ok() {
        return Ok(());
    }
    if counts(rt, admin, session)? != before {
        return out.extend_from_slice(b"changed ");
    }
    gate.seen.store(noted, Ordering::SeqCst);
    call(rt, alloc, session, admin, gate, word)
}

/// Adds what a gate has noted.
fn push_noted(out: &mut Vec<u8>, seen: &AtomicU64) -> Result<(), AllocError> {
    push_decimal(out, seen.load(Ordering::SeqCst) as usize)
}

/// Adds what the last entry of alice's says after the requests of a script, and the calls of the
/// gate.
fn push_gated(
    rt: &impl Wait,
    alloc: Global,
    script: &[u8],
    out: &mut Vec<u8>,
) -> Result<(), AllocError> {
    let admin = shared(alloc, b"alice")?;
    let seen = AtomicU64::new(0);
    let gate = Watcher {
        name: b"alice",
        seen: &seen,
    };
    let mut session = opened(alloc, b"alice")?;
    for word in script.split(|b| *b == b' ') {
        call_watched(rt, alloc, &mut session, &admin, &gate, word, out)?;
    }
    push_last(out, &session)?;
    out.extend_from_slice(b" gate:")?;
    push_noted(out, &seen)
}

/// Makes the calls of a script in alice's session and in bob's, each with a gate of its own.
fn call_in_turn(
    rt: &impl Wait,
    alloc: Global,
    script: &[u8],
    (of_alice, of_bob): (&Watcher<'_>, &Watcher<'_>),
    out: &mut Vec<u8>,
) -> Result<(), AllocError> {
    let admin = shared(alloc, b"alice bob")?;
    let mut alice = opened(alloc, of_alice.name)?;
    let mut bob = opened(alloc, of_bob.name)?;
    for word in script.split(|b| *b == b' ') {
        let (name, rest) = parts(word);
        if is(name, of_alice.name) {
            call_watched(rt, alloc, &mut alice, &admin, of_alice, rest, out)?;
        } else {
            call_watched(rt, alloc, &mut bob, &admin, of_bob, rest, out)?;
        }
    }
    Ok(())
}

/// Adds the calls of the gates of alice's session and of bob's, which are called in turn.
fn push_in_turn(
    rt: &impl Wait,
    alloc: Global,
    script: &[u8],
    out: &mut Vec<u8>,
) -> Result<(), AllocError> {
    let by_alice = AtomicU64::new(0);
    let by_bob = AtomicU64::new(0);
    let of_alice = Watcher {
        name: b"alice",
        seen: &by_alice,
    };
    let of_bob = Watcher {
        name: b"bob",
        seen: &by_bob,
    };
    call_in_turn(rt, alloc, script, (&of_alice, &of_bob), out)?;
    out.extend_from_slice(b"alice:")?;
    push_noted(out, &by_alice)?;
    out.extend_from_slice(b" bob:")?;
    push_noted(out, &by_bob)
}

/// Adds `full`, if a request found the history so and came back. Fails if memory ran out.
fn push_unserved(
    out: &mut Vec<u8>,
    left: &Unserved<Step>,
    request: &Request<Step>,
) -> Result<(), AllocError> {
    match left.why {
        CallError::Full if left.request.same(request) => out.extend_from_slice(b"full"),
        CallError::Full => out.extend_from_slice(b"full, with another request"),
        CallError::OutOfMemory => Err(AllocError),
    }
}

/// Adds the result of a call of a session: that it was served, or why it wasn't.
fn push_call(
    rt: &impl Wait,
    alloc: Global,
    session: &mut Session<Step>,
    admin: &SharedAdmin<Step>,
    word: &[u8],
    out: &mut Vec<u8>,
) -> Result<(), AllocError> {
    match session.call(rt, alloc, admin, &Open, request(alloc, word)?) {
        Ok(()) => out.extend_from_slice(b"ok")?,
        Err(left) => push_unserved(out, &left, &request(alloc, word)?)?,
    }
    out.extend_from_slice(b" ")
}

/// Adds the results of the requests of a script on a history with at most this many rows, what the
/// last entry says, and how many entries and rows there are.
fn push_limited(
    rt: &impl Wait,
    alloc: Global,
    script: &[u8],
    limit: usize,
    out: &mut Vec<u8>,
) -> Result<(), AllocError> {
    let admin = shared_with_limit(alloc, b"alice", limit)?;
    let mut session = opened(alloc, b"alice")?;
    for word in script.split(|b| *b == b' ') {
        push_call(rt, alloc, &mut session, &admin, word, out)?;
    }
    push_last(out, &session)?;
    let (entries, _, rows) = counts(rt, &admin, &session)?;
    out.extend_from_slice(b" entries:")?;
    push_decimal(out, entries)?;
    push_numbered(out, b" rows", rows)
}

/// A session that had seen this many rows, and made two calls, of which the second is an undo of
/// the first.
pub(crate) fn session_told(
    rt: &impl Wait,
    alloc: Global,
    admin: &SharedAdmin<Step>,
    front: u32,
) -> Result<Box<Session<Step>>, AllocError> {
    let mut session = opened(alloc, b"alice")?;
    session.tell(front);
    session.tell(0);
    call(rt, alloc, &mut session, admin, &Open, b"put:a")?;
    call(rt, alloc, &mut session, admin, &Open, b"undo:1")?;
    Ok(session)
}

/// What closing returns for the log of one session.
pub(crate) fn closed(
    alloc: Global,
    admin: Box<SharedAdmin<Step>>,
    session: Box<Session<Step>>,
) -> Result<Box<Closed>, AllocError> {
    let mut logs = SessionLogs::none(alloc);
    logs.push(Box::into_inner(session).into_log())?;
    Ok(Box::new(alloc, Box::into_inner(admin).close(logs))?)
}

/// Adds what the second entry says of a session that had seen this many rows, and what closing
/// returns.
fn push_told(
    rt: &impl Wait,
    alloc: Global,
    front: u32,
    out: &mut Vec<u8>,
) -> Result<(), AllocError> {
    let admin = shared(alloc, b"alice")?;
    let session = session_told(rt, alloc, &admin, front)?;
    push_last(out, &session)?;
    let closed = closed(alloc, admin, session)?;
    out.extend_from_slice(b" ")?;
    push_closed(out, &closed)
}

fn push_answer(
    rt: &impl Wait,
    alloc: Global,
    row: &Row,
    out: &mut Vec<u8>,
) -> Result<(), AllocError> {
    if is(&row.kind, b"desk") {
        return desk::push_said(alloc, &row.one, out);
    }
    if is(&row.kind, b"asked") {
        return checking::push_said(rt, alloc, &row.one, &row.two, out);
    }
    if is(&row.kind, b"meddled") {
        return push_meddled(rt, alloc, &row.one, out);
    }
    if is(&row.kind, b"gated") {
        return push_gated(rt, alloc, &row.one, out);
    }
    if is(&row.kind, b"in turn") {
        return push_in_turn(rt, alloc, &row.one, out);
    }
    if is(&row.kind, b"limited") {
        return push_limited(rt, alloc, &row.one, number(&row.two) as usize, out);
    }
    if is(&row.kind, b"told") {
        return push_told(rt, alloc, number(&row.one), out);
    }
    out.extend_from_slice(b"unknown kind")
}

fn answer(rt: &impl Wait, alloc: Global, row: &Row) -> Result<Vec<u8>, AllocError> {
    let mut out = Vec::new(alloc);
    push_answer(rt, alloc, row, &mut out)?;
    Ok(out)
}

#[test]
fn requests_are_served_once_and_in_order(rt: HostRuntime) -> Result<(), Fail> {
    assert_rows(rt.alloc(), ROWS, |alloc, row| answer(&rt, alloc, row))
}
