//! What is reported for a run in which a log doesn't match what was asked for, or the answers don't
//! match the jobs.

use crate::desk::push_answer;
use crate::scripts::{asks, push_fault};
use crate::serving::{session_told, shared};
use history::{History, Operator, Request};
use sample_steps::{Step, is, operator, parts};
use sessions::{Answered, Desk, Fed, Session, close_fed};
use shared_admin::{SessionLogs, SharedAdmin, Unclosed};
use std::alloc::{AllocError, Global};
use std::sync::Wait;

/// A desk that has issued the jobs of a script: `issue:bob` is a job for bob.
fn desk(alloc: Global, script: &[u8]) -> Result<Desk, AllocError> {
    let mut desk = Desk::new(alloc);
    for word in script.split(|b| *b == b' ') {
        let (first, name) = parts(word);
        if is(first, b"issue") {
            issue(&mut desk, operator(name)?)?;
        }
    }
    Ok(desk)
}

fn issue(desk: &mut Desk, operator: Operator) -> Result<(), AllocError> {
    match desk.issue(operator, Request::<Step>::Undo(1)) {
        Ok(_) => Ok(()),
        Err(_) => Err(AllocError),
    }
}

/// The answers of a script: `answer:1:bob` is bob's to job 1.
fn answers(alloc: Global, script: &[u8]) -> Result<Vec<Answered>, AllocError> {
    let mut answers = Vec::new(alloc);
    for word in script.split(|b| *b == b' ') {
        let (first, rest) = parts(word);
        if is(first, b"answer") {
            push_answer(alloc, rest, &mut answers)?;
        }
    }
    Ok(answers)
}

/// A run with the log of a session, and with the jobs and the answers of a script.
fn fed(alloc: Global, session: Box<Session<Step>>, script: &[u8]) -> Result<Fed<Step>, AllocError> {
    let desk = desk(alloc, script)?;
    let answers = answers(alloc, script)?;
    let mut logs = SessionLogs::none(alloc);
    logs.push(Box::into_inner(session).into_log())?;
    Ok(Fed {
        desk,
        logs,
        answers,
    })
}

/// What a close returns.
pub(crate) type Closed = Result<
    (History<Step>, SessionLogs<Step>),
    Unclosed<History<Step>, SessionLogs<Step>>,
>;

/// Adds whether a run is closed, or why it isn't.
pub(crate) fn push_closed(out: &mut Vec<u8>, closed: &Closed) -> Result<(), AllocError> {
    match closed {
        Ok(_) => out.extend_from_slice(b"closed"),
        Err(left) => push_fault(out, &left.fault),
    }
}

/// What closing returns for a session of alice's, in which she put a file at the slot of a and
/// undid that, if she had asked for what a script says, and the desk has these jobs and answers.
fn closed(
    rt: &impl Wait,
    alloc: Global,
    script: &[u8],
    jobs: &[u8],
) -> Result<Box<Closed>, AllocError> {
    let admin = shared(alloc, b"alice")?;
    let session = session_told(rt, alloc, &admin, 0)?;
    let asks = asks(alloc, script, 1)?;
    let fed = fed(alloc, session, jobs)?;
    let closed = close_fed(Box::into_inner(admin), fed, asks.as_slice());
    Ok(Box::new(alloc, closed)?)
}

pub(crate) fn push_said(
    rt: &impl Wait,
    alloc: Global,
    script: &[u8],
    jobs: &[u8],
    out: &mut Vec<u8>,
) -> Result<(), AllocError> {
    let closed = closed(rt, alloc, script, jobs)?;
    push_closed(out, &closed)
}
