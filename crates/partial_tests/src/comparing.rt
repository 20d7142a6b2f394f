//! Scripts on a part of a root, along with the same scripts on all of it.

use crate::root::Root;
use disk::CaptureError;
use history::{History, MAX_ROWS, Operator, Request};
use link_tree::Tree;
use partial_runs::run_on_part;
use std::alloc::{AllocError, Global};
use tree_steps::changes_between;
use unit_script::{Action, Call, call_of_line, history_of, push_changes, push_rows};

/// What a script resulted in.
#[derive(Drop)]
pub(crate) struct Ran {
    rows: usize,
    /// How many entries the first tree has.
    entries: usize,
    /// The replies, and the changes in all.
    text: Vec<u8>,
}

fn call(alloc: Global, line: &[u8]) -> Result<Box<Call>, AllocError> {
    match call_of_line(alloc, line) {
        Ok(Some(call)) => Ok(Box::new(alloc, call)?),
        Ok(None) => Err(AllocError),
        Err(_) => Err(AllocError),
    }
}

/// The calls of a script, with a semicolon after each but the last.
fn calls_of(alloc: Global, script: &[u8]) -> Result<Vec<Call>, AllocError> {
    let mut calls = Vec::new(alloc);
    for line in script.split(|b| *b == b';') {
        calls.push(Box::into_inner(call(alloc, line)?))?;
    }
    Ok(calls)
}

fn push_pair(
    alloc: Global,
    line: &[u8],
    pairs: &mut Vec<(Operator, Request<Action>)>,
) -> Result<(), AllocError> {
    let Call { operator, request } = Box::into_inner(call(alloc, line)?);
    Ok(pairs.push((operator, request))?)
}

/// The same calls, as pairs.
fn pairs_of(alloc: Global, script: &[u8]) -> Result<Vec<(Operator, Request<Action>)>, AllocError> {
    let mut pairs = Vec::new(alloc);
    for line in script.split(|b| *b == b';') {
        push_pair(alloc, line, &mut pairs)?;
    }
    Ok(pairs)
}

fn outcome_of(alloc: Global, history: &History<Action>) -> Result<Ran, AllocError> {
    let mut text = Vec::new(alloc);
    let rows = history.rows();
    push_rows(&mut text, rows)?;
    let changes = changes_between(alloc, history.first(), history.tree())?;
    push_changes(&mut text, &changes)?;
    Ok(Ran {
        rows: rows.len(),
        entries: history.first().len(),
        text,
    })
}

fn history_on_all(
    alloc: Global,
    tree: &Tree,
    script: &[u8],
) -> Result<Box<History<Action>>, AllocError> {
    let calls = calls_of(alloc, script)?;
    if calls.len() > MAX_ROWS {
        return Err(AllocError);
    }
    let history = history_of(alloc, tree.share()?, calls)?;
    Ok(Box::new(alloc, history)?)
}

fn on_all(alloc: Global, tree: &Tree, script: &[u8]) -> Result<Ran, AllocError> {
    let history = history_on_all(alloc, tree, script)?;
    outcome_of(alloc, &history)
}

/// Why nothing was made.
#[derive(Clone, Copy, Debug, PartialEq, Eq)]
pub(crate) enum Stop {
    Odd,
    NoDirectory,
    TooMany,
    BadShape,
    Failed,
}

fn stop_of(error: CaptureError) -> Result<Stop, AllocError> {
    match error {
        CaptureError::Odd(_slot, _oddity) => Ok(Stop::Odd),
        CaptureError::NoDirectory(_directory) => Ok(Stop::NoDirectory),
        CaptureError::TooMany => Ok(Stop::TooMany),
        CaptureError::BadShape => Ok(Stop::BadShape),
        CaptureError::Failed => Ok(Stop::Failed),
        CaptureError::OutOfMemory => Err(AllocError),
    }
}

fn history_on_part(
    alloc: Global,
    root: &mut Root,
    script: &[u8],
) -> Result<Result<Box<History<Action>>, Stop>, AllocError> {
    let pairs = pairs_of(alloc, script)?;
    if pairs.len() > MAX_ROWS {
        return Err(AllocError);
    }
    match run_on_part(alloc, root, &pairs) {
        Ok(history) => Ok(Ok(Box::new(alloc, history)?)),
        Err(error) => Ok(Err(stop_of(error)?)),
    }
}

/// What a script on a part of a root results in.
pub(crate) fn on_part(
    alloc: Global,
    root: &mut Root,
    script: &[u8],
) -> Result<Result<Ran, Stop>, AllocError> {
    match history_on_part(alloc, root, script)? {
        Ok(history) => Ok(Ok(outcome_of(alloc, &history)?)),
        Err(stop) => Ok(Err(stop)),
    }
}

fn comparison(alloc: Global, part: &Ran, whole: &Ran) -> Result<Vec<u8>, AllocError> {
    let word = if part.text == whole.text {
        "as on all"
    } else {
        "other than on all"
    };
    let rows = part.rows;
    let entries = part.entries;
    let all = whole.entries;
    Ok(format!(in alloc; "{rows} rows {word}; {entries} of {all} entries")?.into_bytes())
}

/// What a script on a part of a root results in, and whether it is the same on all of it.
pub(crate) fn compared(
    alloc: Global,
    root: &mut Root,
    script: &[u8],
) -> Result<Vec<u8>, AllocError> {
    match on_part(alloc, root, script)? {
        Ok(part) => {
            let whole = on_all(alloc, &root.tree, script)?;
            comparison(alloc, &part, &whole)
        }
        Err(stop) => Ok(format!(in alloc; "stopped: {stop:?}")?.into_bytes()),
    }
}
