//! Rows: what each reply has.

use crate::calls::{push_row_whole, rows_of};
use crate::refusals::{is, refusal};
use footprint::{Answer, Changes, Reading};
use history::{Operator, Request, Row as HistoryRow, RowReply};
use root_json::CallPlace;
use sample_rows::{Row, assert_rows};
use std::alloc::{AllocError, Global};
use std::test::Fail;
use unit_script::Action;

/// The lines of the rows of calls; those of a call that is at a place of its file, with words; and
/// those of a refusal of each kind.
const ROWS: &[u8] = b"\
    # a change, and the words that were skipped\n\
    calls\ta enable u.service\t\t\
        {\"changes\":[\
        {\"after\":{\"link\":\"/usr/lib/systemd/system/u.service\"},\"before\":null,\
        \"path\":\"/etc/systemd/system/m.target.wants/u.service\"}],\
        \"made\":true,\"notices\":[\
        {\"key\":\"Also\",\"reason\":\"not found\",\"unit\":\"u.service\",\
        \"word\":\"none.service\"},\
        {\"key\":\"Also\",\"reason\":\"bad name\",\"unit\":\"u.service\",\
        \"word\":{\"bytes\":\"ff\"}},\
        {\"key\":\"WantedBy\",\"reason\":\"bad name\",\"unit\":\"u.service\",\"word\":\"x\"}],\
        \"operator\":\"a\",\"reply\":\"ok\",\"row\":1}\\n\n\
    # a file is shown by its length; an undo turns the changes round, a redo shows them as they are\n\
    calls\ta unmask e.service\\nb undo 1\\nc redo 1\t\t\
        {\"changes\":[{\"after\":null,\"before\":{\"file\":0},\
        \"path\":\"/etc/systemd/system/e.service\"}],\
        \"made\":true,\"notices\":[],\"operator\":\"a\",\"reply\":\"ok\",\"row\":1}\\n\
        {\"changes\":[{\"after\":{\"file\":0},\"before\":null,\
        \"path\":\"/etc/systemd/system/e.service\"}],\
        \"made\":true,\"of\":1,\"operator\":\"b\",\"reply\":\"undid\",\"row\":2}\\n\
        {\"changes\":[{\"after\":null,\"before\":{\"file\":0},\
        \"path\":\"/etc/systemd/system/e.service\"}],\
        \"made\":true,\"of\":1,\"operator\":\"c\",\"reply\":\"redid\",\"row\":3}\\n\n\
    # questions\n\
    calls\ta is-enabled al.service\\na get-default\\na dependencies m.target\t\t\
        {\"changes\":[],\"enabled\":true,\"made\":true,\"operator\":\"a\",\"reply\":\"state\",\
        \"row\":1,\"state\":\"alias\"}\\n\
        {\"changes\":[],\"made\":true,\"operator\":\"a\",\"reply\":\"unit\",\"row\":2,\
        \"unit\":\"m.target\"}\\n\
        {\"changes\":[],\"made\":true,\"operator\":\"a\",\"reply\":\"units\",\"row\":3,\
        \"units\":[\"w.service\"]}\\n\n\
    # why an undo is refused\n\
    calls\ta undo 7\\na undo 1\\na unmask e.service\\na mask e.service\\na undo 3\\na undo 4\\n\
        a undo 4\t\t\
        {\"changes\":[],\"made\":true,\"operator\":\"a\",\
        \"refusal\":{\"kind\":\"no-such-row\",\"row\":7},\"reply\":\"refused\",\"row\":1}\\n\
        {\"changes\":[],\"made\":true,\"operator\":\"a\",\
        \"refusal\":{\"kind\":\"not-a-command\",\"row\":1},\"reply\":\"refused\",\"row\":2}\\n\
        {\"changes\":[{\"after\":null,\"before\":{\"file\":0},\
        \"path\":\"/etc/systemd/system/e.service\"}],\
        \"made\":true,\"notices\":[],\"operator\":\"a\",\"reply\":\"ok\",\"row\":3}\\n\
        {\"changes\":[{\"after\":{\"link\":\"/dev/null\"},\"before\":null,\
        \"path\":\"/etc/systemd/system/e.service\"}],\
        \"made\":true,\"notices\":[],\"operator\":\"a\",\"reply\":\"ok\",\"row\":4}\\n\
        {\"changes\":[],\"made\":true,\"operator\":\"a\",\
        \"refusal\":{\"by\":4,\"kind\":\"blocked\",\"row\":3},\"reply\":\"refused\",\"row\":5}\\n\
        {\"changes\":[{\"after\":null,\"before\":{\"link\":\"/dev/null\"},\
        \"path\":\"/etc/systemd/system/e.service\"}],\
        \"made\":true,\"of\":4,\"operator\":\"a\",\"reply\":\"undid\",\"row\":6}\\n\
        {\"changes\":[],\"made\":true,\"operator\":\"a\",\
        \"refusal\":{\"by\":6,\"kind\":\"already-undone\",\"row\":4},\"reply\":\"refused\",\
        \"row\":7}\\n\n\
    # why a redo is refused\n\
    calls\ta redo 1\\na mask x.service\\na redo 1\\na redo 2\\na undo 2\\na unmask x.service\\n\
        a redo 2\t\t\
        {\"changes\":[],\"made\":true,\"operator\":\"a\",\
        \"refusal\":{\"kind\":\"no-such-row\",\"row\":1},\"reply\":\"refused\",\"row\":1}\\n\
        {\"changes\":[{\"after\":{\"link\":\"/dev/null\"},\"before\":null,\
        \"path\":\"/etc/systemd/system/x.service\"}],\
        \"made\":true,\"notices\":[],\"operator\":\"a\",\"reply\":\"ok\",\"row\":2}\\n\
        {\"changes\":[],\"made\":true,\"operator\":\"a\",\
        \"refusal\":{\"kind\":\"not-a-command\",\"row\":1},\"reply\":\"refused\",\"row\":3}\\n\
        {\"changes\":[],\"made\":true,\"operator\":\"a\",\
        \"refusal\":{\"kind\":\"not-undone\",\"row\":2},\"reply\":\"refused\",\"row\":4}\\n\
        {\"changes\":[{\"after\":null,\"before\":{\"link\":\"/dev/null\"},\
        \"path\":\"/etc/systemd/system/x.service\"}],\
        \"made\":true,\"of\":2,\"operator\":\"a\",\"reply\":\"undid\",\"row\":5}\\n\
        {\"changes\":[],\"made\":true,\"notices\":[],\"operator\":\"a\",\"reply\":\"ok\",\
        \"row\":6}\\n\
        {\"changes\":[],\"made\":true,\"operator\":\"a\",\
        \"refusal\":{\"by\":6,\"kind\":\"hindered\",\"row\":2},\"reply\":\"refused\",\
        \"row\":7}\\n\n\
    # a call that is at a line of its file, and its words\n\
    placed\tenable\t\\xff.service\t\
        {\"call\":[\"enable\",{\"bytes\":\"ff2e73657276696365\"}],\"changes\":[],\"line\":12,\
        \"made\":false,\"of\":3,\"operator\":\"root\",\"reply\":\"undid\",\"row\":9}\\n\n\
    # each refusal names its subject\n\
    not-found\tx@.service\t\t{\"kind\":\"not-found\",\"unit\":\"x@.service\"}\n\
    not-found\t/a/b\t\t{\"kind\":\"not-found\",\"path\":\"/a/b\"}\n\
    not-found\t/a/\\xe9\t\t{\"kind\":\"not-found\",\"path\":{\"bytes\":\"2f612fe9\"}}\n\
    not-found\t/a/\\xc3\\xa9\t\t{\"kind\":\"not-found\",\"path\":\"/a/\\xc3\\xa9\"}\n\
    masked\tx@.service\t\t{\"kind\":\"masked\",\"unit\":\"x@.service\"}\n\
    masked\t/a/b\t\t{\"kind\":\"masked\",\"path\":\"/a/b\"}\n\
    dangling\t/a/b\t\t{\"kind\":\"dangling\",\"path\":\"/a/b\"}\n\
    bad-type\tx@.service\t\t{\"kind\":\"bad-type\",\"unit\":\"x@.service\"}\n\
    bad-type\t/a/b\t\t{\"kind\":\"bad-type\",\"path\":\"/a/b\"}\n\
    needs-instance\tx@.service\t\t{\"kind\":\"needs-instance\",\"unit\":\"x@.service\"}\n\
    not-a-slot\t/a/b\t\t{\"kind\":\"not-a-slot\",\"path\":\"/a/b\"}\n\
    absent\t/a/b\t\t{\"kind\":\"absent\",\"path\":\"/a/b\"}\n\
    exists\t/a/b\t\t{\"kind\":\"exists\",\"path\":\"/a/b\"}\n\
    alias\tx@.service\ty@.service\t\
        {\"kind\":\"alias\",\"real\":\"y@.service\",\"unit\":\"x@.service\"}\n\
    too-many\t\t\t{\"kind\":\"too-many\"}\n\
    clash\t/a/b\t\t{\"kind\":\"clash\",\"path\":\"/a/b\"}\n\
    ";

/// The row of an undo with this reply.
fn row_with(alloc: Global, reply: RowReply) -> Result<Box<HistoryRow<Action>>, AllocError> {
    let Ok(operator) = Operator::parse(b"root") else {
        return Err(AllocError);
    };
    let row = HistoryRow {
        operator,
        request: Request::Undo(3),
        reply,
        changes: Changes::none(alloc),
        reading: Reading::none(alloc),
        undone_by: None,
    };
    Ok(Box::new(alloc, row)?)
}

/// The line of an accepted undo in line 12, with these words, of a run that changed nothing.
fn placed(alloc: Global, words: &[&[u8]]) -> Result<Vec<u8>, AllocError> {
    let mut out = Vec::new(alloc);
    let row = row_with(alloc, RowReply::Undid(3))?;
    let place = CallPlace {
        made: false,
        line: Some(12),
        words,
    };
    push_row_whole(&mut out, &[], 9, &row, &place)?;
    Ok(out)
}

/// What comes between a text and another that follow one another in a line.
fn between<'a>(line: &'a [u8], before: &[u8], after: &[u8]) -> &'a [u8] {
    match line.strip_prefix(before) {
        Some(rest) => rest.strip_suffix(after).unwrap_or(rest),
        None => line,
    }
}

/// The refusal in the line of a row with it.
fn refused(alloc: Global, row: &Row) -> Result<Vec<u8>, AllocError> {
    let mut out = Vec::new(alloc);
    let refusal = refusal(alloc, row)?;
    let row = row_with(alloc, RowReply::Answered(Answer::Refused(refusal)))?;
    let place = CallPlace {
        made: false,
        line: None,
        words: &[],
    };
    push_row_whole(&mut out, &[], 1, &row, &place)?;
    let refusal = between(
        &out,
        b"{\"changes\":[],\"made\":false,\"operator\":\"root\",\"refusal\":",
        b",\"reply\":\"refused\",\"row\":1}\n",
    );
    Vec::from_slice(alloc, refusal)
}

fn answer(alloc: Global, row: &Row) -> Result<Vec<u8>, AllocError> {
    if is(&row.kind, b"calls") {
        return rows_of(alloc, &row.one);
    }
    if is(&row.kind, b"placed") {
        return placed(alloc, &[&row.one, &row.two]);
    }
    refused(alloc, row)
}

#[test]
fn rows_have_their_members(rt: HostRuntime) -> Result<(), Fail> {
    assert_rows(rt.alloc(), ROWS, answer)
}
