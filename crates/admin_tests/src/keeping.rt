//! Calls made once, for which memory may run out. If it does, what a call was made on is as it was,
//! what was handed in comes back, and the call is made again and returns what it does with memory.
//!
//! A row is run again if memory runs out while its values are made. So for the call itself that is
//! never the result: what is wrong then is said in words.
ghost use Rattle.std.specs.Prelude.{◌≡◌, length};

use crate::events::{event, events, push_event_reply, push_replies};
use crate::sharing::{FIRST, operators};
use footprint::Operation;
use history::{CallError, History, Plan, RowReply, Unrun};
use link_tree::{Change, Scope, Tree, last_part};
use sample_rows::{Row, assert_rows};
use sample_steps::{Step, begin_word, is, push_numbered, push_pair, push_reply, push_row, step};
use sample_values::{name, tree};
use shared_admin::{
    EventReply, Kept, OpenError, SLOTS, SessionLogs, SharedAdmin, Snapshot, drive, empty_slots,
    happen, plan,
};
use std::alloc::{AllocError, Global};
use std::test::Fail;

/// Plans of a step on a tree and on a snapshot of it, and their answers. Operators who share a
/// history of the tree. Scripts of events (those of `events`), and what results from them: all at
/// once, and one after another. For a history, the tree, and each row with those that undid it,
/// block it and hinder it.
const GIVEN: &[u8] = b"\
    make\tput:a\t\tok\n\
    make\tput:c\t\texists:c\n\
    plan\tremove:c\t\tok\n\
    plan\task:c\t\tstatic\n\
    \n\
    new\talice bob\t\t/ c.service:x.service /\n\
    with limit\talice bob\t\t/ c.service:x.service /\n\
    \n\
    drive\tbob:put:a snapshot:0 plan:0:remove:a alice:commit:0 bob:undo:2 alice:redo:2 \
        bob:undo:1\t\t\
        row:1 taken planned row:2 row:3 row:4 row:5 / c.service:x.service \
        / bob:ok:blocked-by:2 alice:ok bob:undid:2 alice:redid:2 bob:blocked:2\n\
    events\tbob:put:a snapshot:0 plan:0:remove:a alice:commit:0 bob:undo:2 alice:redo:2 \
        bob:undo:1\t\t\
        row:1 taken planned row:2 row:3 row:4 row:5 / c.service:x.service \
        / bob:ok:blocked-by:2 alice:ok bob:undid:2 alice:redid:2 bob:blocked:2\n\
    events\tsnapshot:0 plan:0:put:a bob:put:a alice:commit:0 alice:commit:0\t\t\
        taken planned row:1 stale:a nothing / a.service: c.service:x.service / bob:ok\n\
    ";

/// Adds what is wrong, unless all is right.
pub(crate) fn push_unless(
    out: &mut Vec<u8>,
    is_right: bool,
    wrong: &[u8],
) -> Result<(), AllocError> {
    if is_right {
        return Ok(());
    }
    begin_word(out)?;
    out.extend_from_slice(wrong)
}

/// What is wrong if a call that is made again has too little memory: one growth alone is refused.
pub(crate) const TWICE: &[u8] = b"out-of-memory-twice";

/// Adds the entries of a tree: the last part of each path, and the bytes.
fn push_tree(out: &mut Vec<u8>, tree: &Tree) -> Result<(), AllocError> {
    begin_word(out)?;
    out.extend_from_slice(b"/")?;
    for (path, entry) in tree.iter() {
        begin_word(out)?;
        push_pair(out, last_part(path.text()), entry.bytes())?;
    }
    Ok(())
}

fn push_mark(out: &mut Vec<u8>, word: &[u8], by: Option<u32>) -> Result<(), AllocError> {
    match by {
        Some(by) => push_numbered(out, word, by),
        None => Ok(()),
    }
}

/// Adds the tree, and each row with those that undid it, block it and hinder it.
pub(crate) fn push_history(out: &mut Vec<u8>, history: &History<Step>) -> Result<(), AllocError> {
    push_tree(out, history.tree())?;
    out.extend_from_slice(b" /")?;
    let mut n = 0u32;
    for row in history.rows() {
        n = n.wrapping_add(1);
        begin_word(out)?;
        push_row(out, row)?;
        push_mark(out, b":undone-by", row.undone_by)?;
        push_mark(out, b":blocked-by", history.blocker(n))?;
        push_mark(out, b":hindered-by", history.hindrance(n))?;
    }
    Ok(())
}

fn text_of_tree(alloc: Global, tree: &Tree) -> Result<Vec<u8>, AllocError> {
    let mut text = Vec::new(alloc);
    push_tree(&mut text, tree)?;
    Ok(text)
}

/// Adds the rows that looked at what a change touches.
fn push_readers(
    alloc: Global,
    history: &History<Step>,
    change: &Change,
    out: &mut Vec<u8>,
) -> Result<(), AllocError> {
    for reader in history.readers(alloc, change)? {
        push_numbered(out, b" read-by", reader)?;
    }
    Ok(())
}

/// Adds, for each row, those that looked at what it changed.
fn push_all_readers(
    alloc: Global,
    history: &History<Step>,
    out: &mut Vec<u8>,
) -> Result<(), AllocError> {
    for row in history.rows() {
        out.extend_from_slice(b" /")?;
        for change in row.changes.as_slice() {
            push_readers(alloc, history, change, out)?;
        }
    }
    Ok(())
}

/// Adds the links that belong to a unit.
fn push_belonging(
    alloc: Global,
    tree: &Tree,
    unit: &[u8],
    out: &mut Vec<u8>,
) -> Result<(), AllocError> {
    out.extend_from_slice(b" /")?;
    let unit = name(alloc, unit)?;
    for path in tree.belonging(Scope::Etc, &unit) {
        push_pair(out, b" link", path.text())?;
    }
    Ok(())
}

/// All that can be looked up in a history: the first tree too, the rows that looked at each change,
/// and the links that belong to units.
pub(crate) fn text_of(alloc: Global, history: &History<Step>) -> Result<Vec<u8>, AllocError> {
    let mut text = Vec::new(alloc);
    push_tree(&mut text, history.first())?;
    push_history(&mut text, history)?;
    push_all_readers(alloc, history, &mut text)?;
    push_belonging(alloc, history.tree(), b"c.service", &mut text)?;
    push_belonging(alloc, history.tree(), b"x.service", &mut text)?;
    Ok(text)
}

/// The history that is left when its sharing ends, whether or not that is closed.
pub(crate) fn ended(
    alloc: Global,
    admin: Box<SharedAdmin<Step>>,
) -> Result<Box<History<Step>>, AllocError> {
    match Box::into_inner(admin).close(SessionLogs::none(alloc)) {
        Ok((history, _)) => Ok(Box::new(alloc, history)?),
        Err(left) => Ok(Box::new(alloc, left.history)?),
    }
}

/// What results from planning.
type Planned = Result<Plan<Step>, Unrun<Step>>;

/// A plan of a step on the tree of a snapshot, or on the snapshot.
fn planned(
    alloc: Global,
    snapshot: &Snapshot,
    step: Step,
    is_on_tree: bool,
) -> Result<Box<Planned>, AllocError> {
    if is_on_tree {
        return Ok(Box::new(alloc, Plan::make(alloc, step, &snapshot.tree))?);
    }
    Ok(Box::new(alloc, plan(alloc, snapshot, step))?)
}

fn push_answer(out: &mut Vec<u8>, plan: &Plan<Step>) -> Result<(), AllocError> {
    let reply = RowReply::Answered(plan.answer().copy()?);
    push_reply(out, &reply)
}

/// Adds the answer of a plan, or what is wrong if there is none, unless memory ran out.
fn push_planned(out: &mut Vec<u8>, planned: &Planned) -> Result<(), AllocError> {
    match planned {
        Ok(plan) => push_answer(out, plan),
        Err(unrun) => push_unless(out, unrun.why == CallError::OutOfMemory, b"full"),
    }
}

/// The step of a plan, or the one that comes back without a plan.
fn step_of(planned: Box<Planned>) -> Step {
    match Box::into_inner(planned) {
        Ok(plan) => plan.into_op(),
        Err(unrun) => unrun.operation,
    }
}

/// Adds the answer of a plan of the step of a word, and what is wrong. Returns the step, which
/// comes out of the plan, or comes back without one.
fn push_made(
    alloc: Global,
    planned: Box<Planned>,
    word: &[u8],
    out: &mut Vec<u8>,
) -> Result<Step, AllocError> {
    push_planned(out, &planned)?;
    let operation = step_of(planned);
    let is_same = operation.same(&step(alloc, word)?);
    push_unless(out, is_same, b"another-step")?;
    Ok(operation)
}

/// A snapshot of the first tree.
fn first_snapshot(alloc: Global) -> Result<Box<Snapshot>, AllocError> {
    let tree = Box::into_inner(tree(alloc, FIRST)?);
    Ok(Box::new(alloc, Snapshot { tree, front: 0 })?)
}

/// Makes a plan of the step of a word, and makes it again of the step that comes back if memory
/// runs out.
fn push_plan(
    alloc: Global,
    word: &[u8],
    is_on_tree: bool,
    out: &mut Vec<u8>,
) -> Result<(), AllocError> {
    let snapshot = first_snapshot(alloc)?;
    let before = text_of_tree(alloc, &snapshot.tree)?;
    let first = planned(alloc, &snapshot, step(alloc, word)?, is_on_tree)?;
    let is_made = first.is_ok();
    let operation = push_made(alloc, first, word, out)?;
    if is_made {
        return Ok(());
    }
    let now = text_of_tree(alloc, &snapshot.tree)?;
    push_unless(out, now == before, &now)?;
    let again = planned(alloc, &snapshot, operation, is_on_tree)?;
    push_unless(out, again.is_ok(), TWICE)?;
    push_made(alloc, again, word, out)?;
    Ok(())
}

/// What results from sharing a history of a tree.
type Opened = Result<SharedAdmin<Step>, OpenError>;

/// A history of a tree, shared by operators of these names. A short one has room for one row.
fn opened(
    alloc: Global,
    given: &Tree,
    names: &[u8],
    is_short: bool,
) -> Result<Box<Opened>, AllocError> {
    let operators = operators(alloc, names)?;
    let tree = given.share()?;
    if is_short {
        return Ok(Box::new(alloc, SharedAdmin::with_limit(alloc, tree, operators, 1))?);
    }
    Ok(Box::new(alloc, SharedAdmin::new(alloc, tree, operators))?)
}

/// Adds the history that was shared, once its sharing has ended.
fn push_opened(alloc: Global, opened: Box<Opened>, out: &mut Vec<u8>) -> Result<(), AllocError> {
    match Box::into_inner(opened) {
        Ok(admin) => push_history(out, &*ended(alloc, Box::new(alloc, admin)?)?),
        Err(_) => out.extend_from_slice(b"refused"),
    }
}

/// Shares a history of a tree once. Returns whether memory was enough for it.
fn push_shared_once(
    alloc: Global,
    given: &Tree,
    names: &[u8],
    is_short: bool,
    out: &mut Vec<u8>,
) -> Result<bool, AllocError> {
    let opened = opened(alloc, given, names, is_short)?;
    if matches!(&*opened, Err(OpenError::OutOfMemory)) {
        return Ok(false);
    }
    push_opened(alloc, opened, out)?;
    Ok(true)
}

/// Shares a history of a tree, and shares one again if memory runs out. The tree is as it was.
fn push_shared(
    alloc: Global,
    names: &[u8],
    is_short: bool,
    out: &mut Vec<u8>,
) -> Result<(), AllocError> {
    let given = tree(alloc, FIRST)?;
    let before = text_of_tree(alloc, &given)?;
    if push_shared_once(alloc, &given, names, is_short, out)? {
        return Ok(());
    }
    let now = text_of_tree(alloc, &given)?;
    push_unless(out, now == before, &now)?;
    let is_enough = push_shared_once(alloc, &given, names, is_short, out)?;
    push_unless(out, is_enough, TWICE)
}

/// What results from events.
type Driven = Result<(History<Step>, Vec<EventReply>), AllocError>;

fn driven(alloc: Global, given: &Tree, script: &[u8]) -> Result<Box<Driven>, AllocError> {
    let events = events(alloc, script)?;
    let tree = given.share()?;
    Ok(Box::new(alloc, drive(alloc, tree, events))?)
}

/// Adds what results from events. Returns whether memory was enough for them.
fn push_driven(out: &mut Vec<u8>, driven: &Driven) -> Result<bool, AllocError> {
    match driven {
        Ok((history, replies)) => {
            push_replies(out, replies)?;
            push_history(out, history)?;
            Ok(true)
        }
        Err(AllocError) => Ok(false),
    }
}

/// Lets events happen once. Returns whether memory was enough for them.
fn push_driven_once(
    alloc: Global,
    given: &Tree,
    script: &[u8],
    out: &mut Vec<u8>,
) -> Result<bool, AllocError> {
    let driven = driven(alloc, given, script)?;
    push_driven(out, &driven)
}

/// Lets events happen on a history of a tree, and lets them happen again if memory runs out. The
/// tree is as it was.
fn push_all_driven(alloc: Global, script: &[u8], out: &mut Vec<u8>) -> Result<(), AllocError> {
    let given = tree(alloc, FIRST)?;
    let before = text_of_tree(alloc, &given)?;
    if push_driven_once(alloc, &given, script, out)? {
        return Ok(());
    }
    let now = text_of_tree(alloc, &given)?;
    push_unless(out, now == before, &now)?;
    let is_enough = push_driven_once(alloc, &given, script, out)?;
    push_unless(out, is_enough, TWICE)
}

/// Lets the event of a word happen once. Returns whether memory was enough for it.
fn push_event_once(
    alloc: Global,
    history: &mut History<Step>,
    slots: &mut Vec<Kept<Plan<Step>>>,
    word: &[u8],
    out: &mut Vec<u8>,
) -> Result<bool, AllocError>
    requires { length slots.old.items ≡ 16 }
    ensures { length slots.new.items ≡ 16 }
{
    let event = event(alloc, word)?;
    match happen(alloc, history, slots, event) {
        Ok(reply) => {
            push_event_reply(out, &reply)?;
            Ok(true)
        }
        Err(AllocError) => Ok(false),
    }
}

/// Lets the event of a word happen, and lets it happen again if memory runs out. The rows that were
/// made before are as they were.
fn push_event(
    alloc: Global,
    history: &mut History<Step>,
    slots: &mut Vec<Kept<Plan<Step>>>,
    word: &[u8],
    out: &mut Vec<u8>,
) -> Result<(), AllocError>
    requires { length slots.old.items ≡ 16 }
    ensures { length slots.new.items ≡ 16 }
{
    let before = text_of(alloc, history)?;
    if push_event_once(alloc, history, slots, word, out)? {
        return Ok(());
    }
    let now = text_of(alloc, history)?;
    push_unless(out, now == before, &now)?;
    let is_enough = push_event_once(alloc, history, slots, word, out)?;
    push_unless(out, is_enough, TWICE)
}

/// Lets the events of a script happen, one after another.
fn push_events(alloc: Global, script: &[u8], out: &mut Vec<u8>) -> Result<(), AllocError> {
    let first = Box::into_inner(tree(alloc, FIRST)?);
    let mut history = Box::new(alloc, History::new(alloc, first)?)?;
    let mut slots = empty_slots(alloc)?;
    for word in script.split(|b| *b == b' ') {
        if slots.len() == SLOTS {
            push_event(alloc, &mut history, &mut slots, word, out)?;
        }
    }
    push_history(out, &history)
}

fn answer_of_given(alloc: Global, row: &Row) -> Result<Vec<u8>, AllocError> {
    let mut out = Vec::new(alloc);
    if is(&row.kind, b"make") || is(&row.kind, b"plan") {
        push_plan(alloc, &row.one, is(&row.kind, b"make"), &mut out)?;
    } else if is(&row.kind, b"drive") {
        push_all_driven(alloc, &row.one, &mut out)?;
    } else if is(&row.kind, b"events") {
        push_events(alloc, &row.one, &mut out)?;
    } else {
        push_shared(alloc, &row.one, is(&row.kind, b"with limit"), &mut out)?;
    }
    Ok(out)
}

#[test]
fn what_is_given_is_as_it_was_without_memory(rt: HostRuntime) -> Result<(), Fail> {
    assert_rows(rt.alloc(), GIVEN, answer_of_given)
}
