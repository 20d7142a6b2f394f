//! Runs of real commands, and what results from them in words.
//!
//! Works are lines of scripts, `alice mask x.service`, with a line `#` between the operators. Asks
//! are such lines of several operators, one after another; a line `#` is skipped, as in scripts.

use crate::scripts::{operators, push_error};
use byte_streams::FromRead;
use footprint::{Answer, StateWord};
use history::{History, Operator, Request, Row, RowReply};
use link_tree::{Tree, is_null_link, push_decimal};
use sample_steps::operator;
use sample_values::{path, tree};
use sessions::{Ask, Asks, Gate, Requests, RunError, Work, Works, run_desk, run_sessions};
use shared_admin::{SessionLog, SessionLogs};
use std::alloc::{AllocError, Global};
use std::sync::Wait;
use std::thread::Threads;
use unit_script::{Action, Call, push_refusal, read_script};

/// Alice enables a unit; bob masks it, and asks for its state.
pub(crate) const OF_ONE_UNIT: &[u8] = b"\
    alice enable ssh.service\n\
    #\n\
    bob mask ssh.service\n\
    bob is-enabled ssh.service\n";

/// Bob masks another unit, asks for the state of alice's unit before she commits, and for that of
/// his before she does or after it.
pub(crate) const OF_TWO_UNITS: &[u8] = b"\
    alice enable ssh.service\n\
    #\n\
    bob mask x.service\n\
    bob is-enabled ssh.service\n\
    bob is-enabled x.service\n";

/// The inventory of one unit.
pub(crate) const SSH: &[u8] = b"unitadm-inventory 1\n\
    F\t56\t/usr/lib/systemd/system/ssh.service\n\
    [Install]\nWantedBy=multi-user.target\nAlias=sshd.service\n\n\
    end\n";

/// The calls of lines.
fn calls(alloc: Global, lines: &[u8]) -> Result<Vec<Call>, AllocError> {
    let mut script = Vec::new(alloc);
    script.extend_from_slice(b"== calls\n")?;
    script.extend_from_slice(lines)?;
    match read_script(alloc, &mut FromRead::new(script.as_slice())) {
        Ok(calls) => Ok(calls),
        Err(_) => Err(AllocError),
    }
}

/// The operator of the first line.
fn operator_of(lines: &[u8]) -> Result<Operator, AllocError> {
    let mut words = lines.trim_ascii().split(|b| *b == b' ');
    operator(words.next().unwrap_or(b""))
}

/// What calls ask for.
fn requests_of(alloc: Global, calls: Vec<Call>) -> Result<Requests<Action>, AllocError> {
    let mut requests = Requests::none(alloc);
    for call in calls {
        let Call {
            operator: _,
            request,
        } = call;
        requests.push(request)?;
    }
    Ok(requests)
}

/// Adds the work of an operator's lines.
fn push_work(alloc: Global, lines: &[u8], works: &mut Works<Action>) -> Result<(), AllocError> {
    let operator = operator_of(lines)?;
    let requests = requests_of(alloc, calls(alloc, lines)?)?;
    works.push(Work { operator, requests })
}

/// The works of lines.
fn works(alloc: Global, lines: &[u8]) -> Result<Works<Action>, AllocError> {
    let mut works = Works::none(alloc);
    for one in lines.split(|b| *b == b'#') {
        push_work(alloc, one, &mut works)?;
    }
    Ok(works)
}

fn asks_of(alloc: Global, calls: Vec<Call>) -> Result<Asks<Action>, AllocError> {
    let mut asks = Asks::none(alloc);
    for call in calls {
        let Call { operator, request } = call;
        asks.push(Ask { operator, request })?;
    }
    Ok(asks)
}

/// What results from a run of commands.
pub(crate) type Ran = Result<
    (History<Action>, SessionLogs<Action>),
    RunError<History<Action>, SessionLogs<Action>>,
>;

/// Runs the works of lines on the tree of an inventory.
pub(crate) fn run_lines<R: Threads + Wait + Sync, G: Gate + Sync>(
    rt: &R,
    alloc: Global,
    (first, lines): (&[u8], &[u8]),
    gate: &G,
) -> Result<Box<Ran>, AllocError> {
    let first = tree(alloc, first)?;
    let works = works(alloc, lines)?;
    let ran = run_sessions(rt, alloc, Box::into_inner(first), works, gate);
    Ok(Box::new(alloc, ran)?)
}

/// Feeds alice and bob the calls of lines, on the tree of an inventory.
pub(crate) fn feed_lines<R: Threads + Wait + Sync, G: Gate + Sync>(
    rt: &R,
    alloc: Global,
    (first, lines): (&[u8], &[u8]),
    gate: &G,
) -> Result<Box<Ran>, AllocError> {
    let operators = operators(alloc, b"alice bob")?;
    let first = tree(alloc, first)?;
    let asks = asks_of(alloc, calls(alloc, lines)?)?;
    if !asks.are_of(operators.as_slice()) {
        return Err(AllocError);
    }
    let ran = run_desk(rt, alloc, Box::into_inner(first), operators, asks, gate);
    Ok(Box::new(alloc, ran)?)
}

fn push_answer(out: &mut Vec<u8>, reply: &RowReply) -> Result<(), AllocError> {
    match reply {
        RowReply::Answered(Answer::Done(_)) => out.extend_from_slice(b"ok"),
        RowReply::Answered(Answer::Refused(refusal)) => push_refusal(out, refusal),
        RowReply::Answered(Answer::State(StateWord::Masked)) => out.extend_from_slice(b"masked"),
        RowReply::Answered(Answer::State(StateWord::Disabled)) => {
            out.extend_from_slice(b"disabled")
        }
        RowReply::Answered(Answer::State(StateWord::Enabled)) => out.extend_from_slice(b"enabled"),
        _ => out.extend_from_slice(b"another answer"),
    }
}

/// Adds a line for each answer that an operator was given, in order.
fn push_log(out: &mut Vec<u8>, log: &SessionLog<Action>) -> Result<(), AllocError> {
    for entry in log.entries.as_slice() {
        out.extend_from_slice(log.operator.text())?;
        out.extend_from_slice(b" ")?;
        push_answer(out, &entry.reply)?;
        out.extend_from_slice(b"\n")?;
    }
    Ok(())
}

fn push_logs(out: &mut Vec<u8>, logs: &[SessionLog<Action>]) -> Result<(), AllocError> {
    for log in logs {
        push_log(out, log)?;
    }
    Ok(())
}

/// Adds the answers of each operator, or why a run didn't end.
pub(crate) fn push_answers(out: &mut Vec<u8>, ran: &Ran) -> Result<(), AllocError> {
    match ran {
        Ok((_, logs)) => push_logs(out, logs.as_slice()),
        Err(why) => push_error(out, why),
    }
}

/// How many of the rows are accepted commands.
fn count_commands(rows: &[Row<Action>]) -> usize {
    let mut count: usize = 0;
    for row in rows {
        if row.is_command() {
            count = count.wrapping_add(1);
        }
    }
    count
}

/// What the last row asks for.
fn last_word(rows: &[Row<Action>]) -> &'static [u8] {
    let Some(last) = rows.last() else {
        return b" no-row";
    };
    match &last.request {
        Request::Do(Action::Mask(_)) => b" mask",
        Request::Do(Action::Unmask(_)) => b" unmask",
        _ => b" another-request",
    }
}

/// Whether x.service is masked in a tree, as a word.
fn mask_word(alloc: Global, tree: &Tree) -> Result<&'static [u8], AllocError> {
    let slot = path(alloc, b"/etc/systemd/system/x.service")?;
    match tree.get(&slot) {
        Some(entry) if is_null_link(&slot, entry) => Ok(b" masked"),
        Some(_) => Ok(b" another-entry"),
        None => Ok(b" not-masked"),
    }
}

fn push_count(out: &mut Vec<u8>, word: &[u8], count: usize) -> Result<(), AllocError> {
    out.extend_from_slice(word)?;
    push_decimal(out, count)
}

/// Adds how many rows a history has and how many of them are accepted commands, what the last asks
/// for, how many entries the tree has, and whether x.service is masked.
fn push_history(
    alloc: Global,
    out: &mut Vec<u8>,
    history: &History<Action>,
) -> Result<(), AllocError> {
    let rows = history.rows();
    push_count(out, b" rows:", rows.len())?;
    push_count(out, b" commands:", count_commands(rows))?;
    out.extend_from_slice(last_word(rows))?;
    push_count(out, b" entries:", history.tree().len())?;
    out.extend_from_slice(mask_word(alloc, history.tree())?)
}

/// Adds how many logs a run gave and what is left in its history, or why it didn't end.
pub(crate) fn push_left(alloc: Global, out: &mut Vec<u8>, ran: &Ran) -> Result<(), AllocError> {
    match ran {
        Ok((history, logs)) => {
            push_count(out, b"logs:", logs.as_slice().len())?;
            push_history(alloc, out, history)
        }
        Err(why) => push_error(out, why),
    }
}
