//! Logs of a shared history's operators, and whether they say what its rows say.

use crate::events::push_rows;
use crate::sharing::{FIRST, run};
use history::History;
use link_tree::{Tree, push_decimal};
use sample_rows::{Row, assert_rows};
use sample_steps::{Step, is, number, operator, parts, push_numbered, push_pair, reply, request};
use sample_values::tree;
use shared_admin::{
    CloseFault, LogEntries, LogEntry, SessionLog, SessionLogs, SharedAdmin, Unclosed, run_fault,
};
use std::alloc::{AllocError, Global};
use std::sync::Wait;
use std::test::Fail;

/// Calls on a history that alice and bob share; the logs, each with its operator and for each call
/// the request, the reply, the row, and how many rows had been seen; and what the close returns,
/// with how many logs come back, and the rows of the history that does.
const ROWS: &[u8] = b"\
    close\talice:put:a bob:put:b\t\
        alice put:a,ok,row:1,seen:0 / bob put:b,ok,row:2,seen:1\t\
        closed logs:2 alice:ok bob:ok\n\
    # in another order, the logs are the same\n\
    close\talice:put:a bob:put:b\t\
        bob put:b,ok,row:2,seen:1 / alice put:a,ok,row:1,seen:0\t\
        closed logs:2 alice:ok bob:ok\n\
    # an operator who asks for nothing has a log without entries\n\
    close\tbob:put:b bob:put:b\t\
        alice / bob put:b,ok,row:1,seen:0 put:b,exists:b,row:2,seen:1\t\
        closed logs:2 bob:ok bob:exists:b\n\
    # a plan's row is of the operator who commits it\n\
    close\tsnapshot plan:put:a bob:commit alice:put:b\t\
        alice put:b,ok,row:2,seen:1 / bob put:a,ok,row:1,seen:0\t\
        closed logs:2 bob:ok alice:ok\n\
    close\talice:put:a bob:ask:a alice:undo:1 bob:undo:9\t\
        alice put:a,ok,row:1,seen:0 undo:1,undid:1,row:3,seen:2 / \
        bob ask:a,static,row:2,seen:0 undo:9,no-such-row,row:4,seen:3\t\
        closed logs:2 alice:ok bob:static alice:undid:1 bob:no-such-row\n\
    close\talice:put:a alice:undo:1 bob:redo:1 bob:redo:1\t\
        alice put:a,ok,row:1,seen:0 undo:1,undid:1,row:2,seen:1 / \
        bob redo:1,redid:1,row:3,seen:0 redo:1,not-undone,row:4,seen:3\t\
        closed logs:2 alice:ok alice:undid:1 bob:redid:1 bob:not-undone\n\
    \n\
    # the first operator without a log, whatever else is wrong\n\
    close\talice:put:a bob:put:b\t\
        alice put:a,ok,row:1,seen:0\t\
        no-log:bob logs:1 alice:ok bob:ok\n\
    close\talice:put:a bob:put:b\t\tno-log:alice logs:0 alice:ok bob:ok\n\
    close\tcarol:put:a bob:put:b\tcarol / bob\tno-log:alice logs:2 carol:ok bob:ok\n\
    # a log of no operator, and one of an operator that has a log before\n\
    close\talice:put:a bob:put:b\t\
        alice put:a,ok,row:1,seen:0 / carol / bob put:b,ok,row:2,seen:1\t\
        stranger:carol logs:3 alice:ok bob:ok\n\
    close\talice:put:a bob:put:b\t\
        alice / alice put:a,ok,row:1,seen:0 / bob put:b,ok,row:2,seen:1 / carol\t\
        stranger:alice logs:4 alice:ok bob:ok\n\
    # a row of no operator\n\
    close\talice:put:a carol:put:b\t\
        alice put:a,ok,row:1,seen:0 / bob\t\
        stranger:carol logs:2 alice:ok carol:ok\n\
    # logs come before rows, and both before what the logs say\n\
    close\tcarol:put:a bob:put:b\talice / bob / bob\tstranger:bob logs:3 carol:ok bob:ok\n\
    close\tcarol:put:a bob:put:b\t\
        alice put:a,ok,row:1,seen:0 / bob\t\
        stranger:carol logs:2 carol:ok bob:ok\n\
    \n\
    # the first place at which a log doesn't say what its row says\n\
    close\talice:put:a bob:put:b\t\
        alice / bob put:b,ok,row:2,seen:1\t\
        mismatch:alice:1 logs:2 alice:ok bob:ok\n\
    # another request: of another unit, another step, and an undo\n\
    close\talice:put:a bob:put:b\t\
        alice put:c,ok,row:1,seen:0 / bob put:b,ok,row:2,seen:1\t\
        mismatch:alice:1 logs:2 alice:ok bob:ok\n\
    close\talice:put:a bob:put:b\t\
        alice remove:a,ok,row:1,seen:0 / bob put:b,ok,row:2,seen:1\t\
        mismatch:alice:1 logs:2 alice:ok bob:ok\n\
    close\talice:put:a bob:put:b\t\
        alice undo:1,ok,row:1,seen:0 / bob put:b,ok,row:2,seen:1\t\
        mismatch:alice:1 logs:2 alice:ok bob:ok\n\
    # a redo for an undo, and an undo for a redo: as request, and as reply\n\
    close\talice:put:a alice:undo:1 alice:redo:1\t\
        alice put:a,ok,row:1,seen:0 redo:1,undid:1,row:2,seen:1 redo:1,redid:1,row:3,seen:2 \
        / bob\t\
        mismatch:alice:2 logs:2 alice:ok alice:undid:1 alice:redid:1\n\
    close\talice:put:a alice:undo:1 alice:redo:1\t\
        alice put:a,ok,row:1,seen:0 undo:1,undid:1,row:2,seen:1 undo:1,redid:1,row:3,seen:2 \
        / bob\t\
        mismatch:alice:3 logs:2 alice:ok alice:undid:1 alice:redid:1\n\
    close\talice:put:a alice:undo:1 alice:redo:1\t\
        alice put:a,ok,row:1,seen:0 undo:1,undid:1,row:2,seen:1 redo:1,undid:1,row:3,seen:2 \
        / bob\t\
        mismatch:alice:3 logs:2 alice:ok alice:undid:1 alice:redid:1\n\
    # a redo of another row\n\
    close\talice:put:a alice:undo:1 alice:redo:1\t\
        alice put:a,ok,row:1,seen:0 undo:1,undid:1,row:2,seen:1 redo:2,redid:1,row:3,seen:2 \
        / bob\t\
        mismatch:alice:3 logs:2 alice:ok alice:undid:1 alice:redid:1\n\
    # another reply, and another row\n\
    close\talice:put:a bob:put:b\t\
        alice put:a,static,row:1,seen:0 / bob put:b,ok,row:2,seen:1\t\
        mismatch:alice:1 logs:2 alice:ok bob:ok\n\
    close\talice:put:a bob:put:b\t\
        alice put:a,ok,row:2,seen:0 / bob put:b,ok,row:2,seen:1\t\
        mismatch:alice:1 logs:2 alice:ok bob:ok\n\
    # the row had been seen before it was made\n\
    close\talice:put:a bob:put:b\t\
        alice put:a,ok,row:1,seen:1 / bob put:b,ok,row:2,seen:1\t\
        mismatch:alice:1 logs:2 alice:ok bob:ok\n\
    close\talice:put:a bob:put:b\t\
        alice put:a,ok,row:1,seen:0 / bob put:b,ok,row:2,seen:2\t\
        mismatch:bob:1 logs:2 alice:ok bob:ok\n\
    # an entry twice, and two in the other order\n\
    close\talice:put:a bob:put:b\t\
        alice put:a,ok,row:1,seen:0 put:a,ok,row:1,seen:0 / bob put:b,ok,row:2,seen:1\t\
        mismatch:alice:2 logs:2 alice:ok bob:ok\n\
    close\talice:put:a alice:put:b\t\
        alice put:b,ok,row:2,seen:1 put:a,ok,row:1,seen:0 / bob\t\
        mismatch:alice:1 logs:2 alice:ok alice:ok\n\
    # the last entry is missing, or says another row's reply\n\
    close\talice:put:a alice:put:b alice:put:b\t\
        alice put:a,ok,row:1,seen:0 put:b,ok,row:2,seen:1 / bob\t\
        mismatch:alice:3 logs:2 alice:ok alice:ok alice:exists:b\n\
    close\talice:put:a alice:put:b alice:put:b\t\
        alice put:a,ok,row:1,seen:0 put:b,ok,row:2,seen:1 put:b,exists:a,row:3,seen:1 / bob\t\
        mismatch:alice:3 logs:2 alice:ok alice:ok alice:exists:b\n\
    \n\
    # a history of the empty tree, which was to begin with a tree of one entry\n\
    another tree\t\t\tanother-tree\n\
    ";

/// Adds the entry of a word: `put:a,ok,row:1,seen:0`.
fn push_entry(
    alloc: Global,
    word: &[u8],
    entries: &mut LogEntries<Step>,
) -> Result<(), AllocError> {
    let mut fields = word.split(|b| *b == b',');
    let asked = fields.next().unwrap_or(b"");
    let replied = fields.next().unwrap_or(b"");
    let row = fields.next().unwrap_or(b"");
    let seen = fields.next().unwrap_or(b"");
    entries.push(LogEntry {
        request: request(alloc, asked)?,
        seen: number(parts(seen).1),
        row: number(parts(row).1),
        reply: reply(alloc, replied)?,
    })
}

/// Adds the log of a text: the operator's name, then a word for each entry.
fn push_log(alloc: Global, text: &[u8], logs: &mut SessionLogs<Step>) -> Result<(), AllocError> {
    let mut words = text.split(|b| *b == b' ');
    let operator = operator(words.next().unwrap_or(b""))?;
    let mut entries = LogEntries::none(alloc);
    for word in words {
        push_entry(alloc, word, &mut entries)?;
    }
    logs.push(SessionLog { operator, entries })
}

/// The logs of a text, with `/` between them; there may be none.
fn logs(alloc: Global, text: &[u8]) -> Result<SessionLogs<Step>, AllocError> {
    let mut logs = SessionLogs::none(alloc);
    for one in text.split(|b| *b == b'/') {
        if !one.is_empty() {
            push_log(alloc, one.trim_ascii(), &mut logs)?;
        }
    }
    Ok(logs)
}

fn push_fault(out: &mut Vec<u8>, fault: &CloseFault) -> Result<(), AllocError> {
    match fault {
        CloseFault::Missing(operator) => push_pair(out, b"no-log", operator.text()),
        CloseFault::Stranger(operator) => push_pair(out, b"stranger", operator.text()),
        CloseFault::Mismatch(operator, place) => {
            out.extend_from_slice(b"mismatch:")?;
            push_numbered(out, operator.text(), *place)
        }
        CloseFault::OtherTree => out.extend_from_slice(b"another-tree"),
    }
}

/// Adds how many logs came back, and the rows of the history that did.
fn push_back(
    out: &mut Vec<u8>,
    history: &History<Step>,
    logs: &SessionLogs<Step>,
) -> Result<(), AllocError> {
    out.extend_from_slice(b" logs:")?;
    push_decimal(out, logs.as_slice().len())?;
    push_rows(out, history)
}

/// What a close with logs returns.
type Closed = Result<
    (History<Step>, SessionLogs<Step>),
    Unclosed<History<Step>, SessionLogs<Step>>,
>;

fn closed(
    alloc: Global,
    admin: Box<SharedAdmin<Step>>,
    logs: SessionLogs<Step>,
) -> Result<Box<Closed>, AllocError> {
    Ok(Box::new(alloc, Box::into_inner(admin).close(logs))?)
}

fn push_closed(out: &mut Vec<u8>, closed: &Closed) -> Result<(), AllocError> {
    match closed {
        Ok((history, logs)) => {
            out.extend_from_slice(b"closed")?;
            push_back(out, history, logs)
        }
        Err(left) => {
            push_fault(out, &left.fault)?;
            push_back(out, &left.history, &left.logs)
        }
    }
}

/// The shared history that is left of a script of calls.
fn shared_after(
    alloc: Global,
    rt: &impl Wait,
    script: &[u8],
) -> Result<Box<SharedAdmin<Step>>, AllocError> {
    let mut out = Vec::new(alloc);
    Ok(run(alloc, rt, script, &mut out)?.admin)
}

fn said(alloc: Global, rt: &impl Wait, script: &[u8], text: &[u8]) -> Result<Vec<u8>, AllocError> {
    let mut out = Vec::new(alloc);
    let admin = shared_after(alloc, rt, script)?;
    let closed = closed(alloc, admin, logs(alloc, text)?)?;
    push_closed(&mut out, &closed)?;
    Ok(out)
}

/// What is wrong with a history of the empty tree without rows that should begin with another tree.
fn said_of_another_tree(alloc: Global) -> Result<Vec<u8>, AllocError> {
    let mut out = Vec::new(alloc);
    let given = tree(alloc, FIRST)?;
    let history = Box::new(alloc, History::<Step>::new(alloc, Tree::empty(alloc)?)?)?;
    if let Some(fault) = run_fault(&given, &[], &[], &history) {
        push_fault(&mut out, &fault)?;
    }
    Ok(out)
}

fn answer(rt: &impl Wait, alloc: Global, row: &Row) -> Result<Vec<u8>, AllocError> {
    if is(&row.kind, b"close") {
        return said(alloc, rt, &row.one, &row.two);
    }
    if is(&row.kind, b"another tree") {
        return said_of_another_tree(alloc);
    }
    Vec::from_slice(alloc, b"unknown kind")
}

#[test]
fn a_run_is_closed_with_the_logs_of_its_rows(rt: HostRuntime) -> Result<(), Fail> {
    assert_rows(rt.alloc(), ROWS, |alloc, row| answer(&rt, alloc, row))
}
