//! Scripts of events, and what results from them.
//!
//! | Word | What happens | What results from it |
//! |---|---|---|
//! | `snapshot:0` | slot 0 takes a snapshot | `taken` |
//! | `plan:0:put:a` | slot 0 plans the step on its snapshot | `planned`; `nothing` |
//! | `alice:commit:0` | alice commits the plan of slot 0 | `row:1`, `stale:a`, `full`; `nothing` |
//! | `bob:put:a`, `bob:undo:1`, `bob:redo:1` | bob calls it | `row:1`, `full` |
ghost use Rattle.std.specs.Prelude.{◌<◌, ◌≤◌, All, IfOk, OnOk};
ghost use Rattle.shared_admin.specs.Events.{HasSlot};

use history::{History, Operator, Plan};
use link_tree::{Tree, push_decimal};
use sample_rows::{Row, assert_rows};
use sample_steps::{
    Step, begin_word, is, number, operator, parts, push_numbered, push_pair, push_row, step,
    unit_at,
};
use shared_admin::{Event, EventReply, Kept, SLOTS, drive, empty_slots, happen};
use std::alloc::{AllocError, Global};
use std::test::Fail;

/// Events on a history of the empty tree, and what results from each; then the rows, and how many
/// entries the tree has. A short history has room for as many rows as the third field says.
const ROWS: &[u8] = b"\
    # bob's call comes first; made again, alice's is refused, and an undo of bob's\n\
    # gives the first tree back\n\
    history\tsnapshot:0 plan:0:put:a bob:put:a alice:commit:0 \
        snapshot:0 plan:0:put:a alice:commit:0 bob:undo:1\t\t\
        taken planned row:1 stale:a taken planned row:2 row:3 \
        / bob:ok alice:exists:a bob:undid:1 / entries:0\n\
    history\tsnapshot:0 plan:0:put:a bob:put:a alice:commit:0 alice:commit:0\t\t\
        taken planned row:1 stale:a nothing / bob:ok / entries:1\n\
    # of two plans each makes the other stale\n\
    history\tsnapshot:0 plan:0:put:a snapshot:1 plan:1:put:a alice:commit:0 alice:commit:1\t\t\
        taken planned taken planned row:1 stale:a / alice:ok / entries:1\n\
    history\tsnapshot:0 plan:0:put:a snapshot:1 plan:1:put:a alice:commit:1 alice:commit:0\t\t\
        taken planned taken planned row:1 stale:a / alice:ok / entries:1\n\
    # a plan that was refused isn't run again after an undo\n\
    history\tbob:put:a snapshot:0 plan:0:put:a bob:undo:1 alice:commit:0\t\t\
        row:1 taken planned row:2 stale:a / bob:ok bob:undid:1 / entries:0\n\
    \n\
    # a plan is committed if the tree agrees\n\
    history\tsnapshot:0 plan:0:put:a bob:put:b alice:commit:0\t\t\
        taken planned row:1 row:2 / bob:ok alice:ok / entries:2\n\
    # the tree agrees again\n\
    history\tsnapshot:0 plan:0:put:a bob:put:a bob:undo:1 alice:commit:0\t\t\
        taken planned row:1 row:2 row:3 / bob:ok bob:undid:1 alice:ok / entries:1\n\
    # a question, and a command that is refused\n\
    history\tbob:put:a snapshot:0 plan:0:ask:a alice:commit:0\t\t\
        row:1 taken planned row:2 / bob:ok alice:static / entries:1\n\
    history\tbob:put:a snapshot:0 plan:0:put:a alice:commit:0\t\t\
        row:1 taken planned row:2 / bob:ok alice:exists:a / entries:1\n\
    \n\
    # a redo puts the row back at its own place\n\
    history\tbob:put:a bob:undo:1 bob:put:b alice:redo:1 bob:undo:3\t\t\
        row:1 row:2 row:3 row:4 row:5 \
        / bob:ok bob:undid:1 bob:ok alice:redid:1 bob:undid:3 / entries:1\n\
    # it is refused if a later row looked at what the row changed\n\
    history\tbob:put:a bob:undo:1 alice:look:a bob:redo:1 bob:undo:3 bob:redo:1 bob:redo:9\t\t\
        row:1 row:2 row:3 row:4 row:5 row:6 row:7 \
        / bob:ok bob:undid:1 alice:ok bob:hindered:3 bob:undid:3 bob:redid:1 \
        bob:no-row-to-redo / entries:1\n\
    # a plan that was made while the row was undone is stale, and one that was made before agrees\n\
    history\tbob:put:a snapshot:0 plan:0:ask:a bob:undo:1 snapshot:1 plan:1:put:a bob:redo:1 \
        alice:commit:1 alice:commit:0\t\t\
        row:1 taken planned row:2 taken planned row:3 stale:a row:4 \
        / bob:ok bob:undid:1 bob:redid:1 alice:static / entries:1\n\
    \n\
    # slots keep a snapshot and a plan\n\
    history\talice:commit:0 plan:0:put:a\t\tnothing nothing / / entries:0\n\
    history\tsnapshot:0 alice:commit:0\t\ttaken nothing / / entries:0\n\
    history\tsnapshot:15 plan:15:put:a alice:commit:15 alice:commit:0\t\t\
        taken planned row:1 nothing / alice:ok / entries:1\n\
    # a plan stays if a snapshot is taken, and is lost if another one is made\n\
    history\tsnapshot:0 plan:0:put:a snapshot:0 alice:commit:0\t\t\
        taken planned taken row:1 / alice:ok / entries:1\n\
    history\tsnapshot:0 plan:0:put:a plan:0:put:b alice:commit:0 bob:remove:b\t\t\
        taken planned planned row:1 row:2 / alice:ok bob:ok / entries:0\n\
    \n\
    # a full history takes no row; the tree agrees with one plan, and another one is stale:\n\
    # once each was committed, its slot has none\n\
    short history\tsnapshot:0 plan:0:put:b snapshot:1 plan:1:remove:a bob:put:a \
        alice:commit:1 alice:commit:0 alice:commit:0 alice:commit:1 bob:put:b bob:undo:1 \
        bob:redo:1 snapshot:2 plan:2:put:b alice:commit:2 alice:commit:2\t1\t\
        taken planned taken planned row:1 stale:a full nothing nothing full full full \
        taken planned full nothing / bob:ok / entries:1\n\
    short history\tbob:put:a bob:undo:1 bob:redo:1 bob:undo:1\t2\t\
        row:1 row:2 full full / bob:ok bob:undid:1 / entries:0\n\
    short history\tbob:put:a bob:undo:1 bob:redo:1 bob:undo:1\t3\t\
        row:1 row:2 row:3 full / bob:ok bob:undid:1 bob:redid:1 / entries:1\n\
    ";

/// The slot of a number.
fn slot(digits: &[u8]) -> u8
    ensures { result < 16 }
{
    let number = number(digits);
    if number < 16 { number as u8 } else { 0 }
}

/// The event of what an operator does: a commit, an undo, a redo, or the call of a step.
fn event_of(alloc: Global, operator: Operator, word: &[u8]) -> Result<Event<Step>, AllocError>
    ensures { IfOk result (HasSlot {O = Step}) }
{
    let (first, rest) = parts(word);
    if is(first, b"commit") {
        return Ok(Event::Commit(slot(rest), operator));
    }
    if is(first, b"undo") {
        return Ok(Event::Undo(operator, number(rest)));
    }
    if is(first, b"redo") {
        return Ok(Event::Redo(operator, number(rest)));
    }
    Ok(Event::Call(operator, step(alloc, word)?))
}

/// The plan of a slot and a step.
fn planning(alloc: Global, word: &[u8]) -> Result<Event<Step>, AllocError>
    ensures { IfOk result (HasSlot {O = Step}) }
{
    let (at, word) = parts(word);
    Ok(Event::Plan(slot(at), step(alloc, word)?))
}

/// The event of a word.
pub(crate) fn event(alloc: Global, word: &[u8]) -> Result<Event<Step>, AllocError>
    ensures { IfOk result (HasSlot {O = Step}) }
{
    let (first, rest) = parts(word);
    if is(first, b"snapshot") {
        return Ok(Event::Snap(slot(rest)));
    }
    if is(first, b"plan") {
        return planning(alloc, rest);
    }
    event_of(alloc, operator(first)?, rest)
}

fn add(events: &mut Vec<Event<Step>>, event: Event<Step>) -> Result<(), AllocError>
    requires before { All (HasSlot {O = Step}) events.old.items }
    requires slot { HasSlot event }
    ensures ok { OnOk result (All (HasSlot {O = Step}) events.new.items) }
{
    Ok(events.push(event)?)
}

pub(crate) fn events(alloc: Global, script: &[u8]) -> Result<Vec<Event<Step>>, AllocError>
    ensures { IfOk result (λ events. All (HasSlot {O = Step}) events.items) }
{
    let mut events = Vec::new(alloc);
    for word in script.split(|b| *b == b' ') {
        add(&mut events, event(alloc, word)?)?;
    }
    Ok(events)
}

/// Adds the word of the reply to an event.
pub(crate) fn push_event_reply(out: &mut Vec<u8>, reply: &EventReply) -> Result<(), AllocError> {
    begin_word(out)?;
    match reply {
        EventReply::Taken => out.extend_from_slice(b"taken"),
        EventReply::Planned => out.extend_from_slice(b"planned"),
        EventReply::Nothing => out.extend_from_slice(b"nothing"),
        EventReply::Committed(n) => push_numbered(out, b"row", *n),
        EventReply::Stale(key) => push_pair(out, b"stale", unit_at(key)),
        EventReply::Full => out.extend_from_slice(b"full"),
    }
}

pub(crate) fn push_replies(out: &mut Vec<u8>, replies: &[EventReply]) -> Result<(), AllocError> {
    for reply in replies {
        push_event_reply(out, reply)?;
    }
    Ok(())
}

pub(crate) fn push_rows(out: &mut Vec<u8>, history: &History<Step>) -> Result<(), AllocError> {
    for row in history.rows() {
        begin_word(out)?;
        push_row(out, row)?;
    }
    Ok(())
}

/// Adds the rows, and how many entries the tree has.
fn push_history(out: &mut Vec<u8>, history: &History<Step>) -> Result<(), AllocError> {
    out.extend_from_slice(b" /")?;
    push_rows(out, history)?;
    out.extend_from_slice(b" / entries:")?;
    push_decimal(out, history.tree().len())
}

/// What is left of the events of a script on the empty tree, and the replies.
type Driven = (History<Step>, Vec<EventReply>);

fn driven(alloc: Global, script: &[u8]) -> Result<Box<Driven>, AllocError> {
    let events = events(alloc, script)?;
    let driven = drive(alloc, Tree::empty(alloc)?, events)?;
    Ok(Box::new(alloc, driven)?)
}

/// What results from each event of a script, then the history.
pub(crate) fn said(alloc: Global, script: &[u8]) -> Result<Vec<u8>, AllocError> {
    let mut out = Vec::new(alloc);
    let driven = driven(alloc, script)?;
    push_replies(&mut out, &driven.1)?;
    push_history(&mut out, &driven.0)?;
    Ok(out)
}

/// Lets the event of a word happen.
fn push_next(
    alloc: Global,
    history: &mut History<Step>,
    slots: &mut Vec<Kept<Plan<Step>>>,
    word: &[u8],
    out: &mut Vec<u8>,
) -> Result<(), AllocError> {
    if slots.len() != SLOTS {
        return Ok(());
    }
    let event = event(alloc, word)?;
    let reply = happen(alloc, history, slots, event)?;
    push_event_reply(out, &reply)
}

/// Lets the events of a script happen.
fn push_all(
    alloc: Global,
    history: &mut History<Step>,
    script: &[u8],
    out: &mut Vec<u8>,
) -> Result<(), AllocError> {
    let mut slots = empty_slots(alloc)?;
    for word in script.split(|b| *b == b' ') {
        push_next(alloc, history, &mut slots, word, out)?;
    }
    push_history(out, history)
}

/// How many rows a short history has room for, by this digit.
fn limit(digit: &[u8]) -> usize
    ensures some { 1 ≤ result }
    ensures few { result ≤ 9 }
{
    let number = number(digit);
    if 1 <= number && number <= 9 {
        number as usize
    } else {
        1
    }
}

/// A history of the empty tree, with room for this many rows.
fn begun(alloc: Global, limit: usize) -> Result<Box<History<Step>>, AllocError>
    requires some { 1 ≤ limit }
    requires few { limit ≤ 9 }
{
    let history = History::with_limit(alloc, Tree::empty(alloc)?, limit)?;
    Ok(Box::new(alloc, history)?)
}

/// What results from the events of a script on a history with room for as many rows as a digit
/// says.
fn said_in_rows(alloc: Global, script: &[u8], digit: &[u8]) -> Result<Vec<u8>, AllocError> {
    let mut out = Vec::new(alloc);
    let mut history = begun(alloc, limit(digit))?;
    push_all(alloc, &mut history, script, &mut out)?;
    Ok(out)
}

fn answer(alloc: Global, row: &Row) -> Result<Vec<u8>, AllocError> {
    if is(&row.kind, b"history") {
        return said(alloc, &row.one);
    }
    if is(&row.kind, b"short history") {
        return said_in_rows(alloc, &row.one, &row.two);
    }
    Vec::from_slice(alloc, b"unknown kind")
}

#[test]
fn each_event_has_its_reply(rt: HostRuntime) -> Result<(), Fail> {
    assert_rows(rt.alloc(), ROWS, answer)
}
