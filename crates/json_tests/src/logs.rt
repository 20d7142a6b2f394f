//! Rows of a history, as `log` and `show` print them.

use crate::calls::{begun, make_all};
use crate::refusals::is;
use footprint::{Changes, Key, Keys, Reading};
use history::{History, Operator, Request, Row as HistoryRow, RowReply, UndoRefusal};
use link_tree::Scope;
use root_json::{KeptCall, push_log_row, push_shown_row};
use sample_rows::{Row, assert_rows};
use sample_values::name;
use std::alloc::{AllocError, Global};
use std::test::Fail;
use unit_script::Action;

/// The line of the first row that calls make, as `log` or as `show` prints it: with the rows that are
/// undone together with it, or with why it isn't undone.
const ROWS: &[u8] = b"\
    # a row, its run, and the row that undid it\n\
    log\ta unmask e.service\\nb undo 1\t\t\
        {\"call\":[\"unmask\",{\"bytes\":\"ff\"}],\
        \"changes\":[{\"after\":null,\"before\":{\"file\":0},\
        \"path\":\"/etc/systemd/system/e.service\"}],\
        \"login\":\"anna\",\"made\":true,\"notices\":[],\"operator\":\"a\",\
        \"program\":\"unitroot-1\",\"reply\":\"ok\",\"row\":1,\
        \"time\":\"2026-12-01T08:30:05Z\",\"undone_by\":2}\\n\n\
    # what a row looked at, and what is undone together with it\n\
    shown\ta unmask e.service\t\t\
        {\"call\":[\"unmask\",{\"bytes\":\"ff\"}],\
        \"changes\":[{\"after\":null,\"before\":{\"file\":0},\
        \"path\":\"/etc/systemd/system/e.service\"}],\
        \"login\":\"anna\",\
        \"looked_at\":[{\"kind\":\"path\",\"path\":\"/etc/systemd/system/e.service\"}],\
        \"made\":true,\"notices\":[],\"operator\":\"a\",\
        \"program\":\"unitroot-1\",\"reply\":\"ok\",\"row\":1,\
        \"time\":\"2026-12-01T08:30:05Z\",\"undo\":[3,1],\"undo_refusal\":null,\
        \"undone_by\":null}\\n\n\
    # why a row can't be undone\n\
    refused\ta undo 7\t\t\
        {\"call\":[\"unmask\",{\"bytes\":\"ff\"}],\"changes\":[],\"login\":\"anna\",\
        \"looked_at\":[],\"made\":true,\"operator\":\"a\",\
        \"program\":\"unitroot-1\",\"refusal\":{\"kind\":\"no-such-row\",\"row\":7},\
        \"reply\":\"refused\",\"row\":1,\
        \"time\":\"2026-12-01T08:30:05Z\",\"undo\":[],\
        \"undo_refusal\":{\"kind\":\"not-a-command\",\"row\":1},\"undone_by\":null}\\n\n\
    # each kind of what is looked at\n\
    keys\tu.service\t\t\
        {\"call\":[\"unmask\",{\"bytes\":\"ff\"}],\"changes\":[],\"login\":\"anna\",\
        \"looked_at\":[\
        {\"kind\":\"links\",\"scope\":\"etc\",\"unit\":\"u.service\"},\
        {\"kind\":\"links\",\"scope\":\"run\",\"unit\":\"u.service\"},\
        {\"kind\":\"presets\"},{\"kind\":\"dependencies\"}],\
        \"made\":true,\"of\":3,\"operator\":\"root\",\"program\":\"unitroot-1\",\
        \"reply\":\"undid\",\"row\":9,\"time\":\"2026-12-01T08:30:05Z\",\
        \"undo\":[],\"undo_refusal\":null,\"undone_by\":null}\\n\n\
    ";

/// What is looked at by keys of each kind but paths, which belong to a unit if they can.
fn reading(alloc: Global, history: &History<Action>, unit: &[u8]) -> Result<Reading, AllocError> {
    let mut keys = Keys::none(alloc);
    keys.push(Key::Links)?;
    keys.push(Key::Presets)?;
    keys.push(Key::Marked(Scope::Run, name(alloc, unit)?))?;
    keys.push(Key::Marked(Scope::Etc, name(alloc, unit)?))?;
    Reading::of(alloc, history.tree(), keys)
}

/// Appends the line of an accepted undo that looked at these.
fn push_keys(out: &mut Vec<u8>, reading: Reading) -> Result<(), AllocError> {
    let Ok(operator) = Operator::parse(b"root") else {
        return Err(AllocError);
    };
    let alloc = *out.allocator();
    let row = HistoryRow {
        operator,
        request: Request::Undo(3),
        reply: RowReply::Undid(3),
        changes: Changes::none(alloc),
        reading,
        undone_by: None,
    };
    let row = Box::new(alloc, row)?;
    let words: [&[u8]; 2] = [b"unmask", b"\xff"];
    push_shown_row(out, &[], 9, &row, &kept_call(&words), &[], None)
}

fn kept_call<'w>(words: &'w [&'w [u8]]) -> KeptCall<'w> {
    KeptCall {
        time: b"2026-12-01T08:30:05Z",
        login: b"anna",
        program: b"unitroot-1",
        words,
    }
}

/// The line of a row that looked at keys of each kind.
fn keys_of(alloc: Global, unit: &[u8]) -> Result<Vec<u8>, AllocError> {
    let history = begun(alloc)?;
    let mut out = Vec::new(alloc);
    push_keys(&mut out, reading(alloc, &history, unit)?)?;
    Ok(out)
}

/// Appends the line of the first row.
fn push_first(out: &mut Vec<u8>, history: &History<Action>, kind: &[u8]) -> Result<(), AllocError> {
    let rows = history.rows();
    let Some(row) = rows.first() else {
        return Ok(());
    };
    let words: [&[u8]; 2] = [b"unmask", b"\xff"];
    let call = kept_call(&words);
    if is(kind, b"log") {
        return push_log_row(out, rows, 1, row, &call);
    }
    if is(kind, b"shown") {
        return push_shown_row(out, rows, 1, row, &call, &[3, 1], None);
    }
    push_shown_row(
        out,
        rows,
        1,
        row,
        &call,
        &[],
        Some(UndoRefusal::NotACommand),
    )
}

fn answer(alloc: Global, row: &Row) -> Result<Vec<u8>, AllocError> {
    if is(&row.kind, b"keys") {
        return keys_of(alloc, &row.one);
    }
    let mut history = begun(alloc)?;
    make_all(alloc, &mut history, &row.one)?;
    let mut out = Vec::new(alloc);
    if push_first(&mut out, &history, &row.kind).is_err() {
        if !out.is_empty() {
            return Vec::from_slice(alloc, b"a part was left");
        }
        push_first(&mut out, &history, &row.kind)?;
    }
    Ok(out)
}

#[test]
fn rows_of_histories_have_their_members(rt: HostRuntime) -> Result<(), Fail> {
    assert_rows(rt.alloc(), ROWS, answer)
}
