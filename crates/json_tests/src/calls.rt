//! The rows of calls on a small tree.
ghost use Rattle.std.specs.Prelude.{◌≤◌, length};
ghost use Rattle.history.specs.declared.history.TheConstants.{MAX_ROWS};

use history::{History, MAX_ROWS, Operator, Request, Row as HistoryRow};
use root_json::{CallPlace, push_row};
use sample_values::tree;
use std::alloc::{AllocError, Global};
use unit_script::{Action, Call, call_of_line};

/// A unit with a link to enable, words that ask for nothing, and a dependency; a default target; an
/// alias; and an empty file.
const TREE: &[u8] = b"unitadm-inventory 1\n\
    L\t/etc/systemd/system/al.service\t/usr/lib/systemd/system/u.service\n\
    L\t/etc/systemd/system/default.target\t/usr/lib/systemd/system/m.target\n\
    F\t0\t/etc/systemd/system/e.service\n\n\
    L\t/etc/systemd/system/m.target.wants/w.service\t/usr/lib/systemd/system/w.service\n\
    F\t7\t/usr/lib/systemd/system/m.target\n[Unit]\n\n\
    F\t50\t/usr/lib/systemd/system/u.service\n\
    [Install]\nAlso=none.service \xff\nWantedBy=m.target x\n\n\
    end\n";

/// The call of a line.
fn call(alloc: Global, line: &[u8]) -> Result<Box<Call>, AllocError> {
    match call_of_line(alloc, line) {
        Ok(Some(call)) => Ok(Box::new(alloc, call)?),
        Ok(None) | Err(_) => Err(AllocError),
    }
}

/// Runs an action. If memory runs out, the one that came back is run.
fn run(
    alloc: Global,
    history: &mut History<Action>,
    operator: Operator,
    action: Action,
) -> Result<u32, AllocError> {
    let ran = match history.call(alloc, operator, action) {
        Err(unrun) => history.call(alloc, operator, unrun.operation),
        answer => answer,
    };
    match ran {
        Ok(row) => Ok(row),
        Err(_) => Err(AllocError),
    }
}

fn undo(
    alloc: Global,
    history: &mut History<Action>,
    operator: Operator,
    n: u32,
) -> Result<u32, AllocError> {
    match history.undo(alloc, operator, n) {
        Ok(row) => Ok(row),
        Err(_) => Err(AllocError),
    }
}

fn redo(
    alloc: Global,
    history: &mut History<Action>,
    operator: Operator,
    n: u32,
) -> Result<u32, AllocError> {
    match history.redo(alloc, operator, n) {
        Ok(row) => Ok(row),
        Err(_) => Err(AllocError),
    }
}

/// Makes the call of a line.
fn make(alloc: Global, history: &mut History<Action>, line: &[u8]) -> Result<u32, AllocError> {
    let Call { operator, request } = Box::into_inner(call(alloc, line)?);
    match request {
        Request::Do(action) => run(alloc, history, operator, action),
        Request::Undo(n) => undo(alloc, history, operator, n),
        Request::Redo(n) => redo(alloc, history, operator, n),
    }
}

/// Appends the line of a row. If memory runs out and a part of it is left, a line says so.
pub(crate) fn push_row_whole(
    out: &mut Vec<u8>,
    rows: &[HistoryRow<Action>],
    number: u32,
    row: &HistoryRow<Action>,
    place: &CallPlace<'_>,
) -> Result<(), AllocError> {
    let before = out.len();
    if push_row(out, rows, number, row, place).is_err() {
        if out.len() != before {
            out.extend_from_slice(b"a part was left\n")?;
        }
        push_row(out, rows, number, row, place)?;
    }
    Ok(())
}

/// Appends the lines of rows.
fn push_all(out: &mut Vec<u8>, rows: &[HistoryRow<Action>]) -> Result<(), AllocError>
    requires { length rows.now ≤ MAX_ROWS }
{
    let place = CallPlace {
        made: true,
        line: None,
        words: &[],
    };
    let mut number = 1;
    for row in rows {
        push_row_whole(out, rows, number, row, &place)?;
        number = number.saturating_add(1);
    }
    Ok(())
}

pub(crate) fn begun(alloc: Global) -> Result<Box<History<Action>>, AllocError> {
    let history = History::new(alloc, Box::into_inner(tree(alloc, TREE)?))?;
    Ok(Box::new(alloc, history)?)
}

/// Makes the calls of lines.
pub(crate) fn make_all(
    alloc: Global,
    history: &mut History<Action>,
    script: &[u8],
) -> Result<(), AllocError> {
    for line in script.split(|b| *b == b'\n') {
        make(alloc, history, line)?;
    }
    Ok(())
}

/// Makes the calls of lines, and adds the lines of all rows.
fn push_made(
    alloc: Global,
    history: &mut History<Action>,
    script: &[u8],
    out: &mut Vec<u8>,
) -> Result<(), AllocError> {
    make_all(alloc, history, script)?;
    let rows = history.rows();
    if rows.len() <= MAX_ROWS {
        push_all(out, rows)?;
    }
    Ok(())
}

/// The lines of the rows that calls make.
pub(crate) fn rows_of(alloc: Global, script: &[u8]) -> Result<Vec<u8>, AllocError> {
    let mut out = Vec::new(alloc);
    let mut history = begun(alloc)?;
    push_made(alloc, &mut history, script, &mut out)?;
    Ok(out)
}
