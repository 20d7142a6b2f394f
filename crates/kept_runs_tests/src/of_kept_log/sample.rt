//! Histories with their runs.

use crate::words::{label, words};
use history::{History, Operator, Request};
use kept_texts::{Header, KeptText};
use sample_values::tree;
use std::alloc::{AllocError, Global};
use unit_script::{Action, Call, call_of_line};

/// A unit that can be enabled, its target, and an empty file.
const TREE: &[u8] = b"unitadm-inventory 1\n\
    F\t0\t/etc/systemd/system/e.service\n\n\
    F\t7\t/usr/lib/systemd/system/m.target\n[Unit]\n\n\
    F\t28\t/usr/lib/systemd/system/u.service\n[Install]\nWantedBy=m.target\n\n\
    end\n";

/// A history, and a text with its runs.
#[derive(Drop)]
pub(crate) struct Kept {
    pub history: Box<History<Action>>,
    pub text: Box<KeptText>,
}

fn call(alloc: Global, line: &[u8]) -> Result<Box<Call>, AllocError> {
    match call_of_line(alloc, line) {
        Ok(Some(call)) => Ok(Box::new(alloc, call)?),
        Ok(None) | Err(_) => Err(AllocError),
    }
}

fn run(
    alloc: Global,
    history: &mut History<Action>,
    operator: Operator,
    action: Action,
) -> Result<u32, AllocError> {
    match history.call(alloc, operator, action) {
        Ok(row) => Ok(row),
        Err(_) => Err(AllocError),
    }
}

fn undo(
    alloc: Global,
    history: &mut History<Action>,
    operator: Operator,
    n: u32,
) -> Result<u32, AllocError> {
    match history.undo(alloc, operator, n) {
        Ok(row) => Ok(row),
        Err(_) => Err(AllocError),
    }
}

fn redo(
    alloc: Global,
    history: &mut History<Action>,
    operator: Operator,
    n: u32,
) -> Result<u32, AllocError> {
    match history.redo(alloc, operator, n) {
        Ok(row) => Ok(row),
        Err(_) => Err(AllocError),
    }
}

/// Makes the call of a line.
fn make(alloc: Global, history: &mut History<Action>, line: &[u8]) -> Result<u32, AllocError> {
    let Call { operator, request } = Box::into_inner(call(alloc, line)?);
    match request {
        Request::Do(action) => run(alloc, history, operator, action),
        Request::Undo(n) => undo(alloc, history, operator, n),
        Request::Redo(n) => redo(alloc, history, operator, n),
    }
}

fn begun(alloc: Global) -> Result<Kept, AllocError> {
    let header = Header {
        id: [0; 16],
        root: label(alloc, b"/srv")?,
    };
    let tree = Box::into_inner(tree(alloc, TREE)?);
    let text = Box::new(alloc, KeptText::begin(alloc, &tree, header)?)?;
    let history = Box::new(alloc, History::new(alloc, tree)?)?;
    Ok(Kept { history, text })
}

/// Makes the calls of a run, whose first line is its time.
fn push_run(alloc: Global, kept: &mut Kept, run: &[u8]) -> Result<(), AllocError> {
    let mut lines = Vec::new(alloc);
    let mut parts = run.split(|b| *b == b'\n');
    let time = parts.next().unwrap_or(&[]);
    for line in parts {
        let _row = make(alloc, &mut kept.history, line)?;
        lines.extend_from_slice(line)?;
        lines.push(b'\n')?;
    }
    let words = words(alloc, time, b"anna")?;
    match kept.text.push_run(&words, &lines, kept.history.tree()) {
        Ok(()) => Ok(()),
        Err(_) => Err(AllocError),
    }
}

/// The history of runs, with a semicolon between each two.
pub(crate) fn made(alloc: Global, runs: &[u8]) -> Result<Box<Kept>, AllocError> {
    let mut kept = begun(alloc)?;
    for run in runs.split(|b| *b == b';') {
        push_run(alloc, &mut kept, run)?;
    }
    Ok(Box::new(alloc, kept)?)
}
