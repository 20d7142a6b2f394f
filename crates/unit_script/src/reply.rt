//! The texts of replies.
ghost use Rattle.std.specs.Prelude.{◌≡◌, ◌++◌, ◌≤◌, OnOk, OnErr, codes, length};
ghost use Rattle.std.specs.List.{flat_map};
ghost use Rattle.std.specs.Option.{option_copied};
ghost use Rattle.link_tree.specs.Trees.{inverse_of};
ghost use Rattle.history.specs.declared.history.TheConstants.{MAX_ROWS};
ghost use Rattle.history.specs.Rows.{row_at};
ghost use Rattle.unit_script.specs.Texts.{entry_text, side_text, sides_text, change_text, subject_text, refusal_text, state_text, is_success, success_text, answer_text, name_line, names_lines, notices_text, numbered, two_rows, undo_refusal_text, redo_refusal_text, number_asked, reply_text, changes_at, shown_changes, row_line, row_text, rows_text};

use crate::action::Action;
use footprint::{Answer, Refusal, StateWord, Subject};
use history::{RedoRefusal, Request, Row, RowReply, UndoRefusal};
use link_tree::{Change, Entry, TreePath, push_decimal};
use std::alloc::AllocError;
use unit_name::UnitName;

fn push_entry(
    out: &mut Vec<u8>,
    sign: &[u8],
    path: &TreePath,
    entry: &Entry,
) -> Result<(), AllocError>
    ensures { OnOk result (out.new.items ≡ out.old.items ++ entry_text sign.now path.now entry.now) }
{
    out.extend_from_slice(sign)?;
    out.extend_from_slice(path.text())?;
    match entry {
        Entry::File(contents) => {
            out.extend_from_slice(b" file ")?;
            push_decimal(out, contents.bytes().len())?;
        }
        Entry::Link(target) => {
            out.extend_from_slice(b" -> ")?;
            out.extend_from_slice(target.text())?;
        }
    }
    out.extend_from_slice(b"\n")
}

fn push_side(
    out: &mut Vec<u8>,
    sign: &[u8],
    path: &TreePath,
    entry: &Option<Entry>,
) -> Result<(), AllocError>
    ensures { OnOk result (out.new.items ≡ out.old.items ++ side_text sign.now path.now entry.now) }
{
    match entry {
        Some(entry) => push_entry(out, sign, path, entry),
        None => Ok(()),
    }
}

/// The lines of the entry that was at a path, and of the one that is there now.
fn push_sides(
    out: &mut Vec<u8>,
    path: &TreePath,
    before: &Option<Entry>,
    after: &Option<Entry>,
) -> Result<(), AllocError>
    ensures { OnOk result (out.new.items ≡ out.old.items ++ sides_text path.now before.now after.now) }
{
    push_side(out, b"  - ", path, before)?;
    push_side(out, b"  + ", path, after)
}

/// Appends the lines of changes: for each the entry that was at the path, as `  - PATH -> TARGET`
/// or `  - PATH file LENGTH`, and with a `+` the one that is there now. If memory runs out, nothing
/// is appended.
pub fn push_changes(out: &mut Vec<u8>, changes: &[Change]) -> Result<(), AllocError>
    ensures ok { OnOk result (out.new.items ≡ out.old.items ++ flat_map change_text changes.now) }
    ensures err { OnErr result (out.new.items ≡ out.old.items) }
{
    let mut text = Vec::new(*out.allocator());
    push_each_change(&mut text, changes)?;
    out.extend_from_slice(&text)
}

fn push_each_change(out: &mut Vec<u8>, changes: &[Change]) -> Result<(), AllocError>
    ensures { OnOk result (out.new.items ≡ out.old.items ++ flat_map change_text changes.now) }
{
    for change in changes {
        push_sides(out, &change.path, &change.before, &change.after)?;
    }
    Ok(())
}

/// Appends the lines of the changes that revert these, in the same order: each path has at most one
/// change, so the order doesn't matter.
fn push_inverse(out: &mut Vec<u8>, changes: &[Change]) -> Result<(), AllocError>
    ensures { OnOk result (out.new.items ≡ out.old.items ++ flat_map change_text (inverse_of changes.now)) }
{
    for change in changes {
        push_sides(out, &change.path, &change.after, &change.before)?;
    }
    Ok(())
}

fn subject_text(subject: &Subject) -> &[u8]
    ensures { result.now ≡ subject_text subject.now }
{
    match subject {
        Subject::Unit(name) => name.text(),
        Subject::Path(path) => path.text(),
    }
}

/// A subject, and what is reported about it.
fn push_said(out: &mut Vec<u8>, subject: &[u8], said: &[u8]) -> Result<(), AllocError>
    ensures { OnOk result (out.new.items ≡ out.old.items ++ subject.now ++ said.now) }
{
    out.extend_from_slice(subject)?;
    out.extend_from_slice(said)
}

/// Appends why an operation was refused: the text after `refused: ` in the reply to it. If memory
/// runs out, nothing is appended.
pub fn push_refusal(out: &mut Vec<u8>, refusal: &Refusal) -> Result<(), AllocError>
    ensures ok { OnOk result (out.new.items ≡ out.old.items ++ refusal_text refusal.now) }
    ensures err { OnErr result (out.new.items ≡ out.old.items) }
{
    let mut text = Vec::new(*out.allocator());
    push_reason(&mut text, refusal)?;
    out.extend_from_slice(&text)
}

fn push_reason(out: &mut Vec<u8>, refusal: &Refusal) -> Result<(), AllocError>
    ensures { OnOk result (out.new.items ≡ out.old.items ++ refusal_text refusal.now) }
{
    match refusal {
        Refusal::NotFound(subject) => push_said(out, subject_text(subject), b" not found"),
        Refusal::Masked(subject) => push_said(out, subject_text(subject), b" is masked"),
        Refusal::Dangling(link) => push_said(out, link.text(), b" leads nowhere"),
        Refusal::BadType(subject) => push_said(out, subject_text(subject), b" has the wrong type"),
        Refusal::NeedsInstance(name) => push_said(out, name.text(), b" needs an instance"),
        Refusal::NotASlot(path) => push_said(out, path.text(), b" is not a slot"),
        Refusal::Absent(path) => push_said(out, path.text(), b" is absent"),
        Refusal::Exists(path) => push_said(out, path.text(), b" exists"),
        Refusal::IsAlias { unit, real } => {
            push_said(out, unit.text(), b" is an alias of ")?;
            out.extend_from_slice(real.text())
        }
        Refusal::TooMany => out.extend_from_slice(b"too many units"),
        Refusal::Clash(path) => push_said(out, path.text(), b" is wanted twice"),
    }
}

/// The state as `is-enabled` prints it: systemctl(1), `is-enabled`.
pub fn state_text(state: StateWord) -> &'static str
    ensures { result.now ≡ state_text state }
{
    match state {
        StateWord::NotFound => "not-found",
        StateWord::Masked => "masked",
        StateWord::MaskedRuntime => "masked-runtime",
        StateWord::Alias => "alias",
        StateWord::Enabled => "enabled",
        StateWord::EnabledRuntime => "enabled-runtime",
        StateWord::Linked => "linked",
        StateWord::LinkedRuntime => "linked-runtime",
        StateWord::Static => "static",
        StateWord::Indirect => "indirect",
        StateWord::Disabled => "disabled",
    }
}

/// Whether systemctl counts the state as enabled, so that `is-enabled` exits with 0: systemctl(1),
/// `is-enabled`.
pub fn is_success(state: StateWord) -> bool
    ensures { result ≡ is_success state }
{
    match state {
        StateWord::Alias
        | StateWord::Enabled
        | StateWord::EnabledRuntime
        | StateWord::Static
        | StateWord::Indirect => true,
        StateWord::NotFound
        | StateWord::Masked
        | StateWord::MaskedRuntime
        | StateWord::Linked
        | StateWord::LinkedRuntime
        | StateWord::Disabled => false,
    }
}

fn success_text(state: StateWord) -> &'static str
    ensures { result.now ≡ success_text (is_success state) }
{
    if is_success(state) { " yes" } else { " no" }
}

fn push_state(out: &mut Vec<u8>, state: StateWord) -> Result<(), AllocError>
    ensures { OnOk result (out.new.items ≡ out.old.items ++ codes "state " ++ state_text state ++ success_text (is_success state)) }
{
    out.extend_from_slice(b"state ")?;
    out.extend_from_slice(state_text(state).as_bytes())?;
    out.extend_from_slice(success_text(state).as_bytes())
}

fn push_answer(out: &mut Vec<u8>, answer: &Answer) -> Result<(), AllocError>
    ensures { OnOk result (out.new.items ≡ out.old.items ++ answer_text answer.now) }
{
    match answer {
        Answer::Done(_) => out.extend_from_slice(b"ok"),
        Answer::State(state) => push_state(out, *state),
        Answer::Name(name) => {
            out.extend_from_slice(b"name ")?;
            out.extend_from_slice(name.text())
        }
        Answer::Names(names) => {
            out.extend_from_slice(b"names ")?;
            push_decimal(out, names.as_slice().len())
        }
        Answer::Refused(refusal) => {
            out.extend_from_slice(b"refused: ")?;
            push_reason(out, refusal)
        }
    }
}

/// The lines of the names in the answer.
fn push_names(out: &mut Vec<u8>, reply: &RowReply) -> Result<(), AllocError>
    ensures { OnOk result (out.new.items ≡ out.old.items ++ names_lines reply.now) }
{
    match reply {
        RowReply::Answered(Answer::Names(names)) => push_name_lines(out, names.as_slice()),
        RowReply::Answered(Answer::Done(_) | Answer::State(_) | Answer::Name(_)) => Ok(()),
        RowReply::Answered(Answer::Refused(_)) => Ok(()),
        RowReply::Undid(_) | RowReply::UndoRefused(_) => Ok(()),
        RowReply::Redid(_) | RowReply::RedoRefused(_) => Ok(()),
    }
}

fn push_name_lines(out: &mut Vec<u8>, names: &[UnitName]) -> Result<(), AllocError>
    ensures { OnOk result (out.new.items ≡ out.old.items ++ flat_map name_line names.now) }
{
    for name in names {
        out.extend_from_slice(b"  ")?;
        push_said(out, name.text(), b"\n")?;
    }
    Ok(())
}

/// The lines of the words that were skipped.
fn push_skipped(out: &mut Vec<u8>, reply: &RowReply) -> Result<(), AllocError>
    ensures { OnOk result (out.new.items ≡ out.old.items ++ notices_text reply.now) }
{
    match reply {
        RowReply::Answered(Answer::Done(notices)) => notices.push_lines(out),
        RowReply::Answered(Answer::State(_) | Answer::Name(_) | Answer::Names(_)) => Ok(()),
        RowReply::Answered(Answer::Refused(_)) => Ok(()),
        RowReply::Undid(_) | RowReply::UndoRefused(_) => Ok(()),
        RowReply::Redid(_) | RowReply::RedoRefused(_) => Ok(()),
    }
}

/// A number between two texts.
fn push_numbered(out: &mut Vec<u8>, before: &[u8], n: u32, after: &[u8]) -> Result<(), AllocError>
    ensures { OnOk result (out.new.items ≡ out.old.items ++ numbered before.now n after.now) }
{
    out.extend_from_slice(before)?;
    push_decimal(out, n as usize)?;
    out.extend_from_slice(after)
}

fn push_two_rows(out: &mut Vec<u8>, n: u32, between: &[u8], by: u32) -> Result<(), AllocError>
    ensures { OnOk result (out.new.items ≡ out.old.items ++ two_rows n between.now by) }
{
    push_numbered(out, b"row ", n, between)?;
    push_decimal(out, by as usize)
}

fn push_undo_refusal(out: &mut Vec<u8>, n: u32, refusal: UndoRefusal) -> Result<(), AllocError>
    ensures { OnOk result (out.new.items ≡ out.old.items ++ undo_refusal_text n refusal) }
{
    match refusal {
        UndoRefusal::NoSuchRow => push_numbered(out, b"no row ", n, b""),
        UndoRefusal::NotACommand => { push_numbered(out, b"row ", n, b" is no accepted command") }
        UndoRefusal::AlreadyUndone(by) => push_two_rows(out, n, b" was undone by row ", by),
        UndoRefusal::Blocked(by) => push_two_rows(out, n, b" is blocked by row ", by),
    }
}

fn push_redo_refusal(out: &mut Vec<u8>, n: u32, refusal: RedoRefusal) -> Result<(), AllocError>
    ensures { OnOk result (out.new.items ≡ out.old.items ++ redo_refusal_text n refusal) }
{
    match refusal {
        RedoRefusal::NoSuchRow => push_numbered(out, b"no row ", n, b""),
        RedoRefusal::NotACommand => { push_numbered(out, b"row ", n, b" is no accepted command") }
        RedoRefusal::NotUndone => push_numbered(out, b"row ", n, b" is not undone"),
        RedoRefusal::Hindered(by) => push_two_rows(out, n, b" is hindered by row ", by),
    }
}

/// The row that an undo or a redo names; 0 for a command or a question.
pub fn number_asked(request: &Request<Action>) -> u32
    ensures { result ≡ number_asked request.now }
{
    match request {
        Request::Do(_) => 0,
        Request::Undo(n) => *n,
        Request::Redo(n) => *n,
    }
}

fn push_reply(out: &mut Vec<u8>, n: u32, reply: &RowReply) -> Result<(), AllocError>
    ensures { OnOk result (out.new.items ≡ out.old.items ++ reply_text n reply.now) }
{
    match reply {
        RowReply::Answered(answer) => push_answer(out, answer),
        RowReply::Undid(m) => push_numbered(out, b"undid ", *m, b""),
        RowReply::UndoRefused(refusal) => {
            out.extend_from_slice(b"refused: ")?;
            push_undo_refusal(out, n, *refusal)
        }
        RowReply::Redid(m) => push_numbered(out, b"redid ", *m, b""),
        RowReply::RedoRefused(refusal) => {
            out.extend_from_slice(b"refused: ")?;
            push_redo_refusal(out, n, *refusal)
        }
    }
}

fn push_row_line(out: &mut Vec<u8>, number: u32, row: &Row<Action>) -> Result<(), AllocError>
    ensures { OnOk result (out.new.items ≡ out.old.items ++ row_line number row.now) }
{
    push_numbered(out, b"", number, b" ")?;
    out.extend_from_slice(row.operator.text())?;
    out.extend_from_slice(b" ")?;
    push_reply(out, number_asked(&row.request), &row.reply)?;
    out.extend_from_slice(b"\n")
}

fn row_at(rows: &[Row<Action>], n: u32) -> Option<&Row<Action>>
    ensures { option_copied result ≡ row_at rows.now n }
{
    if n == 0 {
        return None;
    }
    rows.get(n as usize - 1)
}

/// The changes of row `n`, counted from 1; none if there is no such row.
pub fn changes_at(rows: &[Row<Action>], n: u32) -> &[Change]
    ensures { result.now ≡ changes_at (row_at rows.now n) }
{
    match row_at(rows, n) {
        Some(row) => row.changes.as_slice(),
        None => &[],
    }
}

/// The lines of what a row changed. An accepted undo shows the changes of the row that it names
/// reverted, and an accepted redo shows them as they are.
fn push_shown(out: &mut Vec<u8>, rows: &[Row<Action>], row: &Row<Action>) -> Result<(), AllocError>
    ensures { OnOk result (out.new.items ≡ out.old.items ++ flat_map change_text (shown_changes rows.now row.now.reply row.now.changes)) }
{
    match &row.reply {
        RowReply::Answered(_) => push_each_change(out, row.changes.as_slice()),
        RowReply::Undid(n) => push_inverse(out, changes_at(rows, *n)),
        RowReply::Redid(n) => push_each_change(out, changes_at(rows, *n)),
        RowReply::UndoRefused(_) | RowReply::RedoRefused(_) => {
            push_each_change(out, row.changes.as_slice())
        }
    }
}

/// Appends the reply to one call of a history: the line `ROW OPERATOR` with the answer, the names
/// in the answer, what it changed, and which words were skipped. The rows are all of the history,
/// and `number` is the row's among them, from 1: an undo shows the changes of the row that it
/// names. If memory runs out, nothing is appended.
pub fn push_row(
    out: &mut Vec<u8>,
    rows: &[Row<Action>],
    number: u32,
    row: &Row<Action>,
) -> Result<(), AllocError>
    ensures ok { OnOk result (out.new.items ≡ out.old.items ++ row_text rows.now number row.now) }
    ensures err { OnErr result (out.new.items ≡ out.old.items) }
{
    let mut text = Vec::new(*out.allocator());
    push_lines(&mut text, rows, number, row)?;
    out.extend_from_slice(&text)
}

/// The same, but if memory runs out, a part of the text may have been appended.
fn push_lines(
    out: &mut Vec<u8>,
    rows: &[Row<Action>],
    number: u32,
    row: &Row<Action>,
) -> Result<(), AllocError>
    ensures { OnOk result (out.new.items ≡ out.old.items ++ row_text rows.now number row.now) }
{
    push_row_line(out, number, row)?;
    push_names(out, &row.reply)?;
    push_shown(out, rows, row)?;
    push_skipped(out, &row.reply)
}

/// Appends the replies to all calls of a history: for each row, numbered from 1, the line
/// `ROW OPERATOR` with the answer, the names in the answer, what it changed, and which words were
/// skipped. If memory runs out, nothing is appended.
pub fn push_rows(out: &mut Vec<u8>, rows: &[Row<Action>]) -> Result<(), AllocError>
    requires { length rows.now ≤ MAX_ROWS }
    ensures ok { OnOk result (out.new.items ≡ out.old.items ++ rows_text rows.now 1 rows.now) }
    ensures err { OnErr result (out.new.items ≡ out.old.items) }
{
    let mut text = Vec::new(*out.allocator());
    push_each_row(&mut text, rows)?;
    out.extend_from_slice(&text)
}

/// The same, but if memory runs out, a part of the text may have been appended.
pub(crate) fn push_each_row(out: &mut Vec<u8>, rows: &[Row<Action>]) -> Result<(), AllocError>
    requires { length rows.now ≤ MAX_ROWS }
    ensures { OnOk result (out.new.items ≡ out.old.items ++ rows_text rows.now 1 rows.now) }
{
    let mut number = 1;
    for row in rows {
        push_lines(out, rows, number, row)?;
        number += 1;
    }
    Ok(())
}
