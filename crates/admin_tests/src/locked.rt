//! Calls on a history that is shared, each made once. If memory runs out for a call, the history is
//! as it would be without the call, what was handed in comes back, and the call is made again and
//! returns what it does with memory.
//!
//! A history that is shared can be looked at only when its sharing ends. So each call is made on
//! two of them. On the first, the sharing ends if memory runs out for the call; on the second, the
//! call is made again then.

use crate::keeping::{TWICE, ended, push_history, push_unless, text_of};
use crate::sharing::{
    Bench, Settling, Toggle, kept_plan, planned, push_new_row, push_settled, run,
};
use footprint::Operation;
use history::{CallError, Operator, Plan, Unrun};
use sample_rows::{Row, assert_rows};
use sample_steps::{Step, begin_word, is, number, operator, parts, step};
use shared_admin::NewRow;
use std::alloc::{AllocError, Global};
use std::sync::Wait;
use std::test::Fail;

/// A script on a history that alice and bob share (its words are those of `sharing`), a call of
/// alice's, and what that returns; then the tree, and each row with those that undid it, block it
/// and hinder it. A commit names the step of its plan, which is made on the last snapshot.
const ROWS: &[u8] = b"\
    # a plan that is accepted, refused or answered, and two that are stale\n\
    call\tsnapshot bob:remove:c\talice:commit:put:a\t\
        row:2:ok / a.service: / bob:ok alice:ok\n\
    call\tsnapshot bob:put:a\talice:commit:put:c\t\
        row:2:exists:c / a.service: c.service:x.service / bob:ok alice:exists:c\n\
    call\tsnapshot bob:put:a\talice:commit:ask:c\t\
        row:2:static / a.service: c.service:x.service / bob:ok alice:static\n\
    call\tsnapshot bob:put:a\talice:commit:put:a\t\
        stale:a / a.service: c.service:x.service / bob:ok\n\
    call\tsnapshot bob:remove:c\talice:commit:put:c\tstale:c / / bob:ok\n\
    \n\
    # the fifth row needs more room\n\
    call\tbob:put:a bob:remove:a bob:put:b bob:undo:3\talice:remove:c\t\
        row:5:ok / / bob:ok:blocked-by:2 bob:ok bob:ok:undone-by:4 bob:undid:3 alice:ok\n\
    call\tbob:put:a\talice:put:a\t\
        row:2:exists:a / a.service: c.service:x.service / bob:ok alice:exists:a\n\
    call\tbob:put:a\talice:ask:a\t\
        row:2:static / a.service: c.service:x.service / bob:ok alice:static\n\
    \n\
    # an undo, also one that is refused\n\
    call\tbob:remove:c\talice:undo:1\t\
        row:2:undid:1 / c.service:x.service / bob:ok:undone-by:2 alice:undid:1\n\
    call\tbob:put:a bob:look:a bob:put:b bob:remove:c\talice:undo:1\t\
        row:5:blocked:2 / a.service: b.service: / bob:ok:blocked-by:2 bob:ok bob:ok bob:ok \
        alice:blocked:2\n\
    \n\
    # a redo, also one that is refused\n\
    call\tbob:remove:c bob:undo:1\talice:redo:1\t\
        row:3:redid:1 / / bob:ok bob:undid:1 alice:redid:1\n\
    call\tbob:put:a bob:undo:1 bob:put:a bob:look:b\talice:redo:1\t\
        row:5:hindered:3 / a.service: c.service:x.service \
        / bob:ok:undone-by:2:hindered-by:3 bob:undid:1 bob:ok bob:ok alice:hindered:3\n\
    ";

/// What a call is handed, and hands back if memory runs out.
#[derive(Drop)]
enum Handed {
    Plan(Box<Plan<Step>>),
    Step(Box<Step>),
    Toggle(Toggle),
}

/// What the call of a word is handed.
fn handed_in(alloc: Global, bench: &Bench, word: &[u8]) -> Result<Handed, AllocError> {
    let (first, rest) = parts(word);
    if is(first, b"commit") {
        let plan = planned(alloc, &bench.snapshot, step(alloc, rest)?)?;
        return Ok(Handed::Plan(plan));
    }
    if is(first, b"undo") {
        return Ok(Handed::Toggle(Toggle::Undo(number(rest))));
    }
    if is(first, b"redo") {
        return Ok(Handed::Toggle(Toggle::Redo(number(rest))));
    }
    Ok(Handed::Step(Box::new(alloc, step(alloc, word)?)?))
}

/// Whether what came back is what the call of a word was handed.
fn is_handed(alloc: Global, back: Handed, word: &[u8]) -> Result<bool, AllocError> {
    match back {
        Handed::Plan(plan) => {
            let operation = Box::into_inner(plan).into_op();
            Ok(operation.same(&step(alloc, parts(word).1)?))
        }
        Handed::Step(operation) => Ok(operation.same(&step(alloc, word)?)),
        Handed::Toggle(_) => Ok(true),
    }
}

fn lacks_memory(settling: &Settling) -> bool {
    match settling {
        Ok(_) => false,
        Err(left) => left.why == CallError::OutOfMemory,
    }
}

/// Commits a plan, and adds what that returns. If memory runs out, the plan is returned.
fn commit(
    rt: &impl Wait,
    alloc: Global,
    bench: &Bench,
    operator: Operator,
    plan: Box<Plan<Step>>,
    out: &mut Vec<u8>,
) -> Result<Option<Handed>, AllocError> {
    let settling = bench.admin.commit(rt, operator, Box::into_inner(plan));
    let settling = Box::new(alloc, settling)?;
    if !lacks_memory(&settling) {
        push_settled(out, &settling)?;
        return Ok(None);
    }
    match kept_plan(alloc, settling)? {
        Some(plan) => Ok(Some(Handed::Plan(plan))),
        None => Ok(None),
    }
}

/// What a call returns.
type Called = Result<NewRow, Unrun<Step>>;

/// Adds what a call returns. Returns whether memory was enough for it.
fn push_called(out: &mut Vec<u8>, called: &Called) -> Result<bool, AllocError> {
    match called {
        Ok(row) => push_new_row(out, row)?,
        Err(unrun) if unrun.why == CallError::Full => out.extend_from_slice(b"full")?,
        Err(_) => return Ok(false),
    }
    Ok(true)
}

/// The step that comes back from a call.
fn kept_step(alloc: Global, called: Box<Called>) -> Result<Option<Handed>, AllocError> {
    match Box::into_inner(called) {
        Ok(_) => Ok(None),
        Err(unrun) => Ok(Some(Handed::Step(Box::new(alloc, unrun.operation)?))),
    }
}

/// Calls a step, and adds what that returns. If memory runs out, the step is returned.
fn call(
    rt: &impl Wait,
    alloc: Global,
    bench: &Bench,
    operator: Operator,
    step: Box<Step>,
    out: &mut Vec<u8>,
) -> Result<Option<Handed>, AllocError> {
    let called = bench.admin.call(rt, alloc, operator, Box::into_inner(step));
    let called = Box::new(alloc, called)?;
    if push_called(out, &called)? {
        return Ok(None);
    }
    kept_step(alloc, called)
}

/// Makes a call, and adds what it returns. If memory runs out, what was handed in is returned.
fn called(
    rt: &impl Wait,
    alloc: Global,
    bench: &Bench,
    operator: Operator,
    handed: Handed,
    out: &mut Vec<u8>,
) -> Result<Option<Handed>, AllocError> {
    match handed {
        Handed::Plan(plan) => commit(rt, alloc, bench, operator, plan, out),
        Handed::Step(step) => call(rt, alloc, bench, operator, step, out),
        Handed::Toggle(toggle) => {
            if bench.push_toggle(rt, alloc, operator, toggle, out)? {
                return Ok(None);
            }
            Ok(Some(Handed::Toggle(toggle)))
        }
    }
}

/// A history after a script.
fn after(rt: &impl Wait, alloc: Global, script: &[u8]) -> Result<Bench, AllocError> {
    let mut said = Vec::new(alloc);
    run(alloc, rt, script, &mut said)
}

fn text_of_ended(alloc: Global, bench: Bench) -> Result<Vec<u8>, AllocError> {
    let history = ended(alloc, bench.admin)?;
    text_of(alloc, &history)
}

/// What there is after a script.
fn text_after(rt: &impl Wait, alloc: Global, script: &[u8]) -> Result<Vec<u8>, AllocError> {
    let bench = after(rt, alloc, script)?;
    text_of_ended(alloc, bench)
}

/// Makes the call of a row after its script, and makes it again if `is_again` and memory runs out
/// for it. Its result is added. What comes back at last, if memory runs out, is returned.
fn made(
    rt: &impl Wait,
    alloc: Global,
    row: &Row,
    bench: &Bench,
    is_again: bool,
    out: &mut Vec<u8>,
) -> Result<Option<Handed>, AllocError> {
    let (name, word) = parts(&row.two);
    let operator = operator(name)?;
    let handed = handed_in(alloc, bench, word)?;
    match called(rt, alloc, bench, operator, handed, out)? {
        Some(back) if is_again => called(rt, alloc, bench, operator, back, out),
        back => Ok(back),
    }
}

/// Makes the call of a row once. If memory runs out for it, adds what isn't as it was before.
fn push_changed(
    rt: &impl Wait,
    alloc: Global,
    row: &Row,
    out: &mut Vec<u8>,
) -> Result<(), AllocError> {
    let bench = after(rt, alloc, &row.one)?;
    let mut said = Vec::new(alloc);
    let Some(back) = made(rt, alloc, row, &bench, false, &mut said)? else {
        return Ok(());
    };
    let is_back = is_handed(alloc, back, parts(&row.two).1)?;
    push_unless(out, is_back, b"another-came-back")?;
    let now = text_of_ended(alloc, bench)?;
    push_unless(out, now == text_after(rt, alloc, &row.one)?, &now)
}

/// Makes the call of a row, and makes it again if memory runs out for it. Adds what it returns, and
/// the history then.
fn push_answer(
    rt: &impl Wait,
    alloc: Global,
    row: &Row,
    out: &mut Vec<u8>,
) -> Result<(), AllocError> {
    let bench = after(rt, alloc, &row.one)?;
    begin_word(out)?;
    let back = made(rt, alloc, row, &bench, true, out)?;
    push_unless(out, back.is_none(), TWICE)?;
    let history = ended(alloc, bench.admin)?;
    push_history(out, &history)
}

fn answer(rt: &impl Wait, alloc: Global, row: &Row) -> Result<Vec<u8>, AllocError> {
    let mut out = Vec::new(alloc);
    push_changed(rt, alloc, row, &mut out)?;
    push_answer(rt, alloc, row, &mut out)?;
    Ok(out)
}

#[test]
fn a_call_without_memory_leaves_the_history_as_it_was(rt: HostRuntime) -> Result<(), Fail> {
    assert_rows(rt.alloc(), ROWS, |alloc, row| answer(&rt, alloc, row))
}
