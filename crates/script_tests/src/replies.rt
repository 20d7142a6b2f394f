//! The lines of changes and rows, and the texts of refusals.
ghost use Rattle.std.specs.Prelude.{◌≤◌, length};
ghost use Rattle.history.specs.declared.history.TheConstants.{MAX_ROWS};

use crate::lines::{is, whole_call};
use crate::refusals;
use history::{History, MAX_ROWS, Operator, Request, Row as HistoryRow};
use link_tree::Change;
use sample_rows::{Row, assert_rows};
use sample_values::{file, link, path, tree};
use std::alloc::{AllocError, Global};
use std::test::Fail;
use unit_script::{Action, Call, push_changes, push_rows};

/// The calls of lines on an inventory, and the lines of their rows; a file that is masked, and the
/// lines of that change; and refusals, and their texts.
const ROWS: &[u8] = b"\
    # an empty file is removed, and put back\n\
    calls on e.service\talice unmask e.service\\nalice undo 1\t\t\
        1 alice ok\\n  \
        - /etc/systemd/system/e.service file 0\\n\
        2 alice undid 1\\n  \
        + /etc/systemd/system/e.service file 0\\n\n\
    # its removal is undone and redone: a redo shows the changes of its row as they are\n\
    calls on e.service\talice unmask e.service\\nalice undo 1\\nbob redo 1\t\t\
        1 alice ok\\n  \
        - /etc/systemd/system/e.service file 0\\n\
        2 alice undid 1\\n  \
        + /etc/systemd/system/e.service file 0\\n\
        3 bob redid 1\\n  \
        - /etc/systemd/system/e.service file 0\\n\n\
    # why a redo is refused\n\
    calls on e.service\ta redo 1\\na mask x.service\\na redo 1\\nb redo 2\\na undo 2\\n\
        b unmask x.service\\na redo 2\\na redo 5\t\t\
        1 a refused: no row 1\\n\
        2 a ok\\n  \
        + /etc/systemd/system/x.service -> /dev/null\\n\
        3 a refused: row 1 is no accepted command\\n\
        4 b refused: row 2 is not undone\\n\
        5 a undid 2\\n  \
        - /etc/systemd/system/x.service -> /dev/null\\n\
        6 b ok\\n\
        7 a refused: row 2 is hindered by row 6\\n\
        8 a refused: row 5 is no accepted command\\n\n\
    # why an undo is refused, and that a redone row may be undone again\n\
    calls on e.service\ta undo 0\\na mask x.service\\na undo 1\\na unmask x.service\\na undo 2\\n\
        a undo 4\\na undo 4\\na redo 4\\na undo 8\\na undo 4\t\t\
        1 a refused: no row 0\\n\
        2 a ok\\n  \
        + /etc/systemd/system/x.service -> /dev/null\\n\
        3 a refused: row 1 is no accepted command\\n\
        4 a ok\\n  \
        - /etc/systemd/system/x.service -> /dev/null\\n\
        5 a refused: row 2 is blocked by row 4\\n\
        6 a undid 4\\n  \
        + /etc/systemd/system/x.service -> /dev/null\\n\
        7 a refused: row 4 was undone by row 6\\n\
        8 a redid 4\\n  \
        - /etc/systemd/system/x.service -> /dev/null\\n\
        9 a refused: row 8 is no accepted command\\n\
        10 a undid 4\\n  \
        + /etc/systemd/system/x.service -> /dev/null\\n\n\
    # skipped words follow the changes: the words of Also= by both, the others by enable alone\n\
    calls on u.service\ta enable u.service\\na disable u.service\\na enable n.service\t\t\
        1 a ok\\n  \
        + /etc/systemd/system/m.target.wants/u.service -> /usr/lib/systemd/system/u.service\\n  \
        ! u.service: Alias u.socket: bad alias\\n  \
        ! u.service: Also %z: bad specifier\\n  \
        ! u.service: Also al.service: is an alias\\n  \
        ! u.service: Also d.service: dangling\\n  \
        ! u.service: Also n.service: masked\\n  \
        ! u.service: Also none.service: not found\\n  \
        ! u.service: Also x: bad name\\n  \
        ! u.service: RequiredBy y: bad name\\n\
        2 a ok\\n  \
        - /etc/systemd/system/al.service -> /usr/lib/systemd/system/u.service\\n  \
        - /etc/systemd/system/m.target.wants/u.service -> /usr/lib/systemd/system/u.service\\n  \
        ! u.service: Also %z: bad specifier\\n  \
        ! u.service: Also al.service: is an alias\\n  \
        ! u.service: Also d.service: dangling\\n  \
        ! u.service: Also n.service: masked\\n  \
        ! u.service: Also none.service: not found\\n  \
        ! u.service: Also x: bad name\\n\
        3 a refused: n.service is masked\\n\n\
    # a file is shown by its length\n\
    masked file\t[Unit]\\nA=b\\n\t\t  \
        - /etc/systemd/system/x.service file 11\\n  \
        + /etc/systemd/system/x.service -> /dev/null\\n\n\
    \n\
    # each refusal names its subject\n\
    not found\tx@.service\t\tx@.service not found\n\
    not found\t/a/b\t\t/a/b not found\n\
    masked\tx@.service\t\tx@.service is masked\n\
    masked\t/a/b\t\t/a/b is masked\n\
    dangling\t/a/b\t\t/a/b leads nowhere\n\
    bad type\tx@.service\t\tx@.service has the wrong type\n\
    bad type\t/a/b\t\t/a/b has the wrong type\n\
    needs instance\tx@.service\t\tx@.service needs an instance\n\
    not a slot\t/a/b\t\t/a/b is not a slot\n\
    absent\t/a/b\t\t/a/b is absent\n\
    exists\t/a/b\t\t/a/b exists\n\
    is alias\tx@.service\ty@.service\tx@.service is an alias of y@.service\n\
    too many\t\t\ttoo many units\n\
    clash\t/a/b\t\t/a/b is wanted twice\n\
    ";

const EMPTY_FILE: &[u8] = b"unitadm-inventory 1\nF\t0\t/etc/systemd/system/e.service\n\nend\n";

/// A unit with words that are skipped, one for each reason.
const UNIT: &[u8] = b"unitadm-inventory 1\n\
    L\t/etc/systemd/system/al.service\t/usr/lib/systemd/system/u.service\n\
    L\t/etc/systemd/system/d.service\tgone\n\
    L\t/etc/systemd/system/n.service\t/dev/null\n\
    F\t110\t/usr/lib/systemd/system/u.service\n\
    [Install]\nAlso=%z x none.service n.service d.service al.service\n\
    Alias=u.socket\nWantedBy=m.target\nRequiredBy=y\n\n\
    end\n";

/// A change of a file into a link to `/dev/null`.
fn mask_of_file(alloc: Global, bytes: &[u8]) -> Result<Box<[Change; 1]>, AllocError> {
    let change = Change {
        path: path(alloc, b"/etc/systemd/system/x.service")?,
        before: Some(file(alloc, bytes)?),
        after: Some(link(alloc, b"/dev/null")?),
    };
    Ok(Box::new(alloc, [change])?)
}

/// The text of that change.
fn text_of_mask(alloc: Global, bytes: &[u8]) -> Result<Vec<u8>, AllocError> {
    let mut out = Vec::new(alloc);
    let changes = mask_of_file(alloc, bytes)?;
    if push_changes(&mut out, changes.as_slice()).is_err() {
        if !out.is_empty() {
            return Vec::from_slice(alloc, b"a part was left");
        }
        push_changes(&mut out, changes.as_slice())?;
    }
    Ok(out)
}

/// Runs an action. If memory runs out, the one that came back is run.
fn run(
    alloc: Global,
    history: &mut History<Action>,
    operator: Operator,
    action: Action,
) -> Result<u32, AllocError> {
    let ran = match history.call(alloc, operator, action) {
        Err(unrun) => history.call(alloc, operator, unrun.operation),
        answer => answer,
    };
    match ran {
        Ok(row) => Ok(row),
        Err(_) => Err(AllocError),
    }
}

fn undo(
    alloc: Global,
    history: &mut History<Action>,
    operator: Operator,
    n: u32,
) -> Result<u32, AllocError> {
    match history.undo(alloc, operator, n) {
        Ok(row) => Ok(row),
        Err(_) => Err(AllocError),
    }
}

fn redo(
    alloc: Global,
    history: &mut History<Action>,
    operator: Operator,
    n: u32,
) -> Result<u32, AllocError> {
    match history.redo(alloc, operator, n) {
        Ok(row) => Ok(row),
        Err(_) => Err(AllocError),
    }
}

/// Makes the call of a line.
fn make(alloc: Global, history: &mut History<Action>, line: &[u8]) -> Result<u32, AllocError> {
    let Call { operator, request } = Box::into_inner(whole_call(alloc, line)?);
    match request {
        Request::Do(action) => run(alloc, history, operator, action),
        Request::Undo(n) => undo(alloc, history, operator, n),
        Request::Redo(n) => redo(alloc, history, operator, n),
    }
}

/// Appends the lines of all rows. If memory runs out and a part of them is left, a line says so.
fn push_rows_whole(out: &mut Vec<u8>, rows: &[HistoryRow<Action>]) -> Result<(), AllocError>
    requires { length rows.now ≤ MAX_ROWS }
{
    let before = out.len();
    if push_rows(out, rows).is_err() {
        if out.len() != before {
            out.extend_from_slice(b"a part was left\n")?;
        }
        push_rows(out, rows)?;
    }
    Ok(())
}

/// Makes the calls of lines, and adds the lines of all rows.
fn push_made(
    alloc: Global,
    history: &mut History<Action>,
    script: &[u8],
    out: &mut Vec<u8>,
) -> Result<(), AllocError> {
    for line in script.split(|b| *b == b'\n') {
        make(alloc, history, line)?;
    }
    let rows = history.rows();
    if rows.len() <= MAX_ROWS {
        push_rows_whole(out, rows)?;
    }
    Ok(())
}

fn begun(alloc: Global, inventory: &[u8]) -> Result<Box<History<Action>>, AllocError> {
    let history = History::new(alloc, Box::into_inner(tree(alloc, inventory)?))?;
    Ok(Box::new(alloc, history)?)
}

/// The rows that the lines make on an inventory.
fn rows(alloc: Global, inventory: &[u8], script: &[u8]) -> Result<Vec<u8>, AllocError> {
    let mut out = Vec::new(alloc);
    let mut history = begun(alloc, inventory)?;
    push_made(alloc, &mut history, script, &mut out)?;
    Ok(out)
}

fn answer(alloc: Global, row: &Row) -> Result<Vec<u8>, AllocError> {
    if is(&row.kind, b"calls on e.service") {
        return rows(alloc, EMPTY_FILE, &row.one);
    }
    if is(&row.kind, b"calls on u.service") {
        return rows(alloc, UNIT, &row.one);
    }
    if is(&row.kind, b"masked file") {
        return text_of_mask(alloc, &row.one);
    }
    refusals::said(alloc, row)
}

#[test]
fn rows_changes_and_refusals_have_their_lines(rt: HostRuntime) -> Result<(), Fail> {
    assert_rows(rt.alloc(), ROWS, answer)
}
