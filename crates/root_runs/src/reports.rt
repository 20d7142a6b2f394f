//! What a script that was run prints.
ghost use Rattle.std.specs.Prelude.{◌≡◌, ◌++◌, ◌+◌, ◌≤◌, OnOk, OnErr, length, drop, codes};
ghost use Rattle.history.specs.declared.history.TheConstants.{MAX_ROWS};
ghost use Rattle.unit_script.specs.Texts.{rows_text};
ghost use Rattle.root_runs.specs.Reports.{changes_line, report_text, would_be_ok, unmade_row, unmade_rows, refused_count, unmade_text, refused_at, refused_lines, refusals_text};

use crate::messages::push_row_messages;
use crate::statuses::{count_refused, is_refused};
use footprint::{Answer, Notices};
use history::{History, Row, RowReply};
use link_tree::{Change, push_decimal};
use std::alloc::AllocError;
use unit_script::{Action, push_changes, push_row};

fn changes_line(dry_run: bool) -> &'static str
    ensures { result.now ≡ changes_line dry_run }
{
    if dry_run {
        "== changes (dry run)\n"
    } else {
        "== changes\n"
    }
}

/// The rows among all, from the row of this number on.
fn push_rows_from(
    out: &mut Vec<u8>,
    all: &[Row<Action>],
    number: u32,
    rows: &[Row<Action>],
) -> Result<(), AllocError>
    requires { number + length rows.now ≤ 1 + MAX_ROWS }
    ensures { OnOk result (out.new.items ≡ out.old.items ++ rows_text all.now number rows.now) }
{
    let mut next = number;
    for row in rows {
        push_row(out, all, next, row)?;
        next += 1;
    }
    Ok(())
}

/// The rows after the first `before`.
#[tactic(auto, using(std::proofs::lemmas::List::drop_all))]
fn push_rows_after(out: &mut Vec<u8>, all: &[Row<Action>], before: usize) -> Result<(), AllocError>
    requires { length all.now ≤ MAX_ROWS }
    ensures { OnOk result (out.new.items ≡ out.old.items ++ rows_text all.now (before + 1) (drop before all.now)) }
{
    if before >= all.len() {
        return Ok(());
    }
    push_rows_from(out, all, before as u32 + 1, &all[before..])
}

/// Appends what standard output has for a script of which something may be made: the rows of its
/// calls as `unitadm` prints them, the line `== changes`, or `== changes (dry run)`, and what the
/// calls change in all. The first `before` rows of the history are those of earlier runs, and aren't
/// shown. If memory runs out, nothing has been appended.
pub fn push_report(
    out: &mut Vec<u8>,
    history: &History<Action>,
    before: usize,
    changes: &[Change],
    dry_run: bool,
) -> Result<(), AllocError>
    ensures ok { OnOk result (out.new.items ≡ out.old.items ++ report_text dry_run history.now.rows before changes.now) }
    ensures err { OnErr result (out.new.items ≡ out.old.items) }
{
    let mut text = Vec::new(*out.allocator());
    push_rows_after(&mut text, history.rows(), before)?;
    text.extend_from_slice(changes_line(dry_run).as_bytes())?;
    push_changes(&mut text, changes)?;
    out.extend_from_slice(&text)
}

/// The lines of an accepted command that isn't made.
fn push_would_be_ok(
    out: &mut Vec<u8>,
    number: u32,
    row: &Row<Action>,
    notices: &Notices,
) -> Result<(), AllocError>
    ensures { OnOk result (out.new.items ≡ out.old.items ++ would_be_ok number row.now notices.now) }
{
    push_decimal(out, number as usize)?;
    out.extend_from_slice(b" ")?;
    out.extend_from_slice(row.operator.text())?;
    out.extend_from_slice(b" would be ok\n")?;
    push_changes(out, row.changes.as_slice())?;
    notices.push_lines(out)
}

fn push_unmade_row(
    out: &mut Vec<u8>,
    rows: &[Row<Action>],
    number: u32,
    row: &Row<Action>,
) -> Result<(), AllocError>
    ensures { OnOk result (out.new.items ≡ out.old.items ++ unmade_row rows.now number row.now) }
{
    match &row.reply {
        RowReply::Answered(Answer::Done(notices)) => push_would_be_ok(out, number, row, notices),
        RowReply::Answered(Answer::State(_) | Answer::Name(_) | Answer::Names(_)) => {
            push_row(out, rows, number, row)
        }
        RowReply::Answered(Answer::Refused(_)) => push_row(out, rows, number, row),
        RowReply::Undid(_) | RowReply::UndoRefused(_) => push_row(out, rows, number, row),
        RowReply::Redid(_) | RowReply::RedoRefused(_) => push_row(out, rows, number, row),
    }
}

fn push_unmade_from(
    out: &mut Vec<u8>,
    all: &[Row<Action>],
    number: u32,
    rows: &[Row<Action>],
) -> Result<(), AllocError>
    requires { number + length rows.now ≤ 1 + MAX_ROWS }
    ensures { OnOk result (out.new.items ≡ out.old.items ++ unmade_rows all.now number rows.now) }
{
    let mut next = number;
    for row in rows {
        push_unmade_row(out, all, next, row)?;
        next += 1;
    }
    Ok(())
}

/// How many calls were refused, of how many.
fn push_refused_count(
    out: &mut Vec<u8>,
    rows: &[Row<Action>],
    after: &[u8],
) -> Result<(), AllocError>
    ensures { OnOk result (out.new.items ≡ out.old.items ++ refused_count rows.now after.now) }
{
    push_decimal(out, count_refused(rows))?;
    out.extend_from_slice(b" of ")?;
    push_decimal(out, rows.len())?;
    out.extend_from_slice(b" calls were refused")?;
    out.extend_from_slice(after)
}

/// The rows after the first `before`.
#[tactic(auto, using(std::proofs::lemmas::List::drop_all))]
fn rows_after(all: &[Row<Action>], before: usize) -> &[Row<Action>]
    ensures { result.now ≡ drop before all.now }
{
    if before >= all.len() {
        return &[];
    }
    &all[before..]
}

/// The rows after the first `before`, of which nothing is made.
#[tactic(auto, using(std::proofs::lemmas::List::drop_all))]
fn push_unmade_after(
    out: &mut Vec<u8>,
    all: &[Row<Action>],
    before: usize,
) -> Result<(), AllocError>
    requires { length all.now ≤ MAX_ROWS }
    ensures { OnOk result (out.new.items ≡ out.old.items ++ unmade_rows all.now (before + 1) (drop before all.now)) }
{
    if before >= all.len() {
        return Ok(());
    }
    push_unmade_from(out, all, before as u32 + 1, &all[before..])
}

/// The line that says that nothing is made.
fn push_none_made(out: &mut Vec<u8>, rows: &[Row<Action>]) -> Result<(), AllocError>
    ensures { OnOk result (out.new.items ≡ out.old.items ++ (codes "nothing was changed: " ++ refused_count rows.now (codes "\n"))) }
{
    out.extend_from_slice(b"nothing was changed: ")?;
    push_refused_count(out, rows, b"\n")
}

/// The same of the rows after the first `before`.
fn push_none_made_after(
    out: &mut Vec<u8>,
    all: &[Row<Action>],
    before: usize,
) -> Result<(), AllocError>
    ensures { OnOk result (out.new.items ≡ out.old.items ++ (codes "nothing was changed: " ++ refused_count (drop before all.now) (codes "\n"))) }
{
    push_none_made(out, rows_after(all, before))
}

/// The same, and these rows.
fn push_all_unmade(out: &mut Vec<u8>, all: &[Row<Action>], before: usize) -> Result<(), AllocError>
    requires { length all.now ≤ MAX_ROWS }
    ensures { OnOk result (out.new.items ≡ out.old.items ++ unmade_text all.now before) }
{
    push_none_made_after(out, all, before)?;
    push_unmade_after(out, all, before)
}

/// Appends what standard output has for a script of which nothing is made, since calls were refused:
/// a line that says so with their number, and the rows. Those of accepted commands say `would be ok`
/// instead of `ok`. The first `before` rows of the history are those of earlier runs, and aren't
/// shown. If memory runs out, nothing has been appended.
pub fn push_unmade(
    out: &mut Vec<u8>,
    history: &History<Action>,
    before: usize,
) -> Result<(), AllocError>
    ensures ok { OnOk result (out.new.items ≡ out.old.items ++ unmade_text history.now.rows before) }
    ensures err { OnErr result (out.new.items ≡ out.old.items) }
{
    let mut text = Vec::new(*out.allocator());
    push_all_unmade(&mut text, history.rows(), before)?;
    out.extend_from_slice(&text)
}

fn push_refused_at(out: &mut Vec<u8>, number: usize, row: &Row<Action>) -> Result<(), AllocError>
    ensures { OnOk result (out.new.items ≡ out.old.items ++ refused_at number row.now) }
{
    if !is_refused(&row.reply) {
        return Ok(());
    }
    out.extend_from_slice(b"line ")?;
    push_decimal(out, number)?;
    out.extend_from_slice(b": ")?;
    push_row_messages(out, row)
}

fn push_refused_lines(
    out: &mut Vec<u8>,
    numbers: &[usize],
    rows: &[Row<Action>],
) -> Result<(), AllocError>
    ensures { OnOk result (out.new.items ≡ out.old.items ++ refused_lines numbers.now rows.now) }
{
    let mut left = numbers;
    for row in rows {
        let Some((number, rest)) = left.split_first() else {
            return Ok(());
        };
        push_refused_at(out, *number, row)?;
        left = rest;
    }
    Ok(())
}

/// Appends what standard error has for a script of which calls were refused: a line with their
/// number, and for each the number of its line in the script and why it was refused. The numbers are
/// those of the lines of all calls, in order. If memory runs out, nothing has been appended.
pub fn push_refusals(
    out: &mut Vec<u8>,
    numbers: &[usize],
    rows: &[Row<Action>],
) -> Result<(), AllocError>
    ensures ok { OnOk result (out.new.items ≡ out.old.items ++ refusals_text numbers.now rows.now) }
    ensures err { OnErr result (out.new.items ≡ out.old.items) }
{
    let mut text = Vec::new(*out.allocator());
    push_refused_count(&mut text, rows, b":\n")?;
    push_refused_lines(&mut text, numbers, rows)?;
    out.extend_from_slice(&text)
}
