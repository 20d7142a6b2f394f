//! Histories of scripts on a root of four units.
use history::{History, MAX_ROWS, Operator, RowReply};
use link_tree::Tree;
use sample_values::tree;
use std::alloc::{AllocError, Global};
use undo_orders::{ToUndoError, rows_to_undo};
use unit_script::{Action, Call, call_of_line, history_of};

const UNITS: &[u8] = b"unitadm-inventory 1
F\t28\t/usr/lib/systemd/system/a.service
[Install]
WantedBy=m.target

F\t43\t/usr/lib/systemd/system/b.service
[Install]
WantedBy=m.target
Also=a.service

F\t0\t/usr/lib/systemd/system/c.service

F\t0\t/usr/lib/systemd/system/m.target

end
";

fn call(alloc: Global, line: &[u8]) -> Result<Box<Call>, AllocError> {
    match call_of_line(alloc, line) {
        Ok(Some(call)) => Ok(Box::new(alloc, call)?),
        Ok(None) => Err(AllocError),
        Err(_) => Err(AllocError),
    }
}

/// The calls of a script, with a semicolon after each but the last.
fn calls_of(alloc: Global, script: &[u8]) -> Result<Vec<Call>, AllocError> {
    let mut calls = Vec::new(alloc);
    for line in script.split(|b| *b == b';') {
        calls.push(Box::into_inner(call(alloc, line)?))?;
    }
    Ok(calls)
}

fn history_on(
    alloc: Global,
    first: &Tree,
    script: &[u8],
) -> Result<Box<History<Action>>, AllocError> {
    let calls = calls_of(alloc, script)?;
    if calls.len() > MAX_ROWS {
        return Err(AllocError);
    }
    let history = history_of(alloc, first.share()?, calls)?;
    Ok(Box::new(alloc, history)?)
}

/// The history of a script.
pub(crate) fn played(alloc: Global, script: &[u8]) -> Result<Box<History<Action>>, AllocError> {
    let first = tree(alloc, UNITS)?;
    history_on(alloc, &first, script)
}

/// The rows that must be undone so that row n is, or why there are none.
pub(crate) fn order(
    alloc: Global,
    history: &History<Action>,
    n: u32,
) -> Result<Result<Vec<u32>, ToUndoError>, AllocError> {
    match rows_to_undo(alloc, history, n) {
        Ok(numbers) => Ok(Ok(numbers)),
        Err(ToUndoError::OutOfMemory) => Err(AllocError),
        Err(error) => Ok(Err(error)),
    }
}

fn operator() -> Result<Operator, AllocError> {
    match Operator::parse(b"carol") {
        Ok(operator) => Ok(operator),
        Err(_) => Err(AllocError),
    }
}

fn has_undone(reply: &RowReply, n: u32) -> bool {
    match reply {
        RowReply::Undid(m) => *m == n,
        RowReply::Answered(_)
        | RowReply::UndoRefused(_)
        | RowReply::Redid(_)
        | RowReply::RedoRefused(_) => false,
    }
}

fn has_redone(reply: &RowReply, n: u32) -> bool {
    match reply {
        RowReply::Redid(m) => *m == n,
        RowReply::Answered(_)
        | RowReply::UndoRefused(_)
        | RowReply::Undid(_)
        | RowReply::RedoRefused(_) => false,
    }
}

/// Calls the undo of a row: whether it was undone.
pub(crate) fn undo(
    alloc: Global,
    history: &mut History<Action>,
    n: u32,
) -> Result<bool, AllocError> {
    match history.undo(alloc, operator()?, n) {
        Ok(_number) => {}
        Err(_) => return Err(AllocError),
    }
    match history.rows().last() {
        Some(row) => Ok(has_undone(&row.reply, n)),
        None => Ok(false),
    }
}

/// Calls the redo of a row: whether it is in effect again.
pub(crate) fn redo(
    alloc: Global,
    history: &mut History<Action>,
    n: u32,
) -> Result<bool, AllocError> {
    match history.redo(alloc, operator()?, n) {
        Ok(_number) => {}
        Err(_) => return Err(AllocError),
    }
    match history.rows().last() {
        Some(row) => Ok(has_redone(&row.reply, n)),
        None => Ok(false),
    }
}
