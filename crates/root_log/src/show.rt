//! `show`: one row of a history.
ghost use Rattle.std.specs.Prelude.{◌≡◌, [], Some, None, IfNone, IfOk, IfSome};
ghost use Rattle.root_log.specs.Rows.{refusal_of, row_at};

use crate::shown_row::{ShownRow, lines_of_rows, words_of_call};
use crate::zone::LocalZone;
use footprint::{Key, Observation};
use history::UndoRefusal;
use kept_log::run_of_row;
use link_tree::Scope;
use root_histories::{
    Context, Done, Failure, Kept, KeptRoot, Stop, Taken, end, note_promise_of, print, read_kept,
    shown, shown_lines, take,
};
use root_json::push_shown_row;
use root_runs::push_shown;
use std::alloc::{AllocError, Global};
use undo_orders::{ToUndoError, rows_to_undo};
use unit_script::push_row;

/// What must be undone so that a row is.
#[derive(Drop)]
struct Undoing {
    /// The rows, in an order in which each undo is accepted; none if the row can't be undone.
    rows: Vec<u32>,
    refusal: Option<UndoRefusal>,
}

fn undoing_of(alloc: Global, kept: &Kept, n: u32) -> Result<Undoing, AllocError> {
    match rows_to_undo(alloc, kept.history(), n) {
        Ok(rows) => Ok(Undoing {
            rows,
            refusal: None,
        }),
        Err(e) => refused(alloc, e),
    }
}

fn refused(alloc: Global, e: ToUndoError) -> Result<Undoing, AllocError>
    ensures { IfOk result (λ undoing. (undoing.rows.items ≡ []) × (undoing.refusal ≡ refusal_of e)) }
{
    let refusal = match e {
        ToUndoError::NoSuchRow => UndoRefusal::NoSuchRow,
        ToUndoError::NotACommand => UndoRefusal::NotACommand,
        ToUndoError::AlreadyUndone(by) => UndoRefusal::AlreadyUndone(by),
        ToUndoError::OutOfMemory => return Err(AllocError),
    };
    Ok(Undoing {
        rows: Vec::new(alloc),
        refusal: Some(refusal),
    })
}

/// The row of this number, if there is one.
fn row_of<'k>(
    alloc: Global,
    kept: &'k Kept,
    number: u32,
) -> Result<Option<ShownRow<'k>>, AllocError>
    ensures some { IfOk result (λ one. IfSome one (λ row. (row.number ≡ number) × (row_at kept.now.history.rows number ≡ Some row.row.now))) }
    ensures none { IfOk result (λ one. IfNone one (row_at kept.now.history.rows number ≡ None)) }
{
    let Some(place) = (number as usize).checked_sub(1) else {
        return Ok(None);
    };
    let Some(row) = kept.history().rows().get(place) else {
        return Ok(None);
    };
    let lines = lines_of_rows(alloc, kept)?;
    Ok(Some(ShownRow {
        number,
        row,
        run: run_of_row(kept.text().runs(), number),
        line: lines.get(place).copied().unwrap_or(&[]),
    }))
}

fn push_text(out: &mut Vec<u8>, text: &String) -> Result<(), AllocError> {
    out.extend_from_slice(text.as_str().as_bytes())
}

/// Appends which run a row is of.
fn push_run(
    alloc: Global,
    out: &mut Vec<u8>,
    zone: &LocalZone,
    one: &ShownRow<'_>,
) -> Result<(), AllocError> {
    let Some(run) = one.run else {
        return Ok(());
    };
    let time = shown(alloc, &one.time(alloc, zone)?)?;
    let login = shown(alloc, run.words.login.text())?;
    let program = shown(alloc, run.words.program.text())?;
    let line = if run.words.outside {
        format!(in alloc; "run: {time} by {login}, with {program}: what others had changed\n")?
    } else {
        format!(in alloc; "run: {time} by {login}, with {program}\n")?
    };
    push_text(out, &line)
}

/// The reply to a call, what it changed and which words were skipped, as `run` reports them, but for
/// the row's number and its operator.
fn reply_of(alloc: Global, kept: &Kept, one: &ShownRow<'_>) -> Result<Vec<u8>, AllocError> {
    let mut text = Vec::new(alloc);
    push_row(&mut text, kept.history().rows(), one.number, one.row)?;
    let operator = shown(alloc, one.row.operator.text())?;
    let number = one.number;
    let head = format!(in alloc; "{number} {operator} ")?;
    let reply = text.get(head.len()..).unwrap_or(&[]);
    shown_lines(alloc, reply)
}

fn scope_text(scope: Scope) -> &'static str {
    match scope {
        Scope::Etc => "/etc",
        Scope::Run => "/run",
    }
}

/// Appends what a call looked at.
fn push_key(alloc: Global, out: &mut Vec<u8>, key: &Key) -> Result<(), AllocError> {
    match key {
        Key::Cell(path) => push_shown(out, path.text()),
        Key::Marked(scope, name) => {
            let (scope, name) = (scope_text(*scope), shown(alloc, name.text())?);
            push_text(out, &format!(in alloc; "links of {name} in {scope}")?)
        }
        Key::Presets => out.extend_from_slice(b"all preset files"),
        Key::Links => out.extend_from_slice(b"all links of dependencies"),
    }
}

fn push_reading(
    alloc: Global,
    out: &mut Vec<u8>,
    reading: &[Observation],
) -> Result<(), AllocError> {
    if reading.is_empty() {
        return Ok(());
    }
    out.extend_from_slice(b"looked at:\n")?;
    for observation in reading {
        out.extend_from_slice(b"  ")?;
        push_key(alloc, out, &observation.key)?;
        out.push(b'\n')?;
    }
    Ok(())
}

/// The words of a command that undoes rows.
fn undo_words(alloc: Global, rows: &[u32]) -> Result<String, AllocError> {
    let mut text = String::from_str(alloc, "undo")?;
    for n in rows {
        text.push_str(format!(in alloc; " {n}")?.as_str())?;
    }
    Ok(text)
}

/// Whether a row can be undone, alone or with others.
fn undo_text(alloc: Global, undoing: &Undoing) -> Result<String, AllocError> {
    match undoing.refusal {
        Some(UndoRefusal::NoSuchRow) => String::from_str(alloc, "no such row"),
        Some(UndoRefusal::NotACommand) => String::from_str(alloc, "not a command"),
        Some(UndoRefusal::AlreadyUndone(by)) => format!(in alloc; "already undone by row {by}"),
        Some(UndoRefusal::Blocked(by)) => format!(in alloc; "blocked by row {by}"),
        None if undoing.rows.len() > 1 => {
            let words = undo_words(alloc, &undoing.rows)?;
            format!(in alloc; "can be undone with the later rows that depend on it: {words}")
        }
        None => String::from_str(alloc, "can be undone"),
    }
}

fn text_of(
    alloc: Global,
    kept: &Kept,
    zone: &LocalZone,
    one: &ShownRow<'_>,
    undoing: &Undoing,
) -> Result<Vec<u8>, AllocError> {
    let mut out = Vec::new(alloc);
    let (number, count) = (one.number, kept.history().rows().len());
    push_text(&mut out, &format!(in alloc; "row {number} of {count}\n")?)?;
    push_run(alloc, &mut out, zone, one)?;
    let operator = shown(alloc, one.row.operator.text())?;
    push_text(
        &mut out,
        &format!(in alloc; "operator: {operator}\ncall: ")?,
    )?;
    out.extend_from_slice(&one.call(alloc)?)?;
    out.extend_from_slice(b"\nreply: ")?;
    out.extend_from_slice(&reply_of(alloc, kept, one)?)?;
    push_reading(alloc, &mut out, one.row.reading.as_slice())?;
    let undo = undo_text(alloc, undoing)?;
    push_text(&mut out, &format!(in alloc; "undo: {undo}\n")?)?;
    Ok(out)
}

/// One row as JSON, and whether it can be undone: the object that docs/JSON.md calls a row of a
/// history.
fn json_of(
    alloc: Global,
    kept: &Kept,
    one: &ShownRow<'_>,
    undoing: &Undoing,
) -> Result<Vec<u8>, AllocError> {
    let rows = kept.history().rows();
    let words = words_of_call(alloc, one.line)?;
    let call = one.kept_call(&words);
    let mut out = Vec::new(alloc);
    push_shown_row(
        &mut out,
        rows,
        one.number,
        one.row,
        &call,
        &undoing.rows,
        undoing.refusal,
    )?;
    Ok(out)
}

fn print_one(
    cx: Context<'_>,
    kept: &Kept,
    zone: &LocalZone,
    one: &ShownRow<'_>,
) -> Result<u8, Failure> {
    let alloc = cx.rt.alloc();
    let undoing = undoing_of(alloc, kept, one.number)?;
    let text = if cx.asked.output.json {
        json_of(alloc, kept, one, &undoing)?
    } else {
        text_of(alloc, kept, zone, one, &undoing)?
    };
    print(cx.rt, &text, Done::Nothing)?;
    Ok(0)
}

fn print_row_of(cx: Context<'_>, kept: &Kept, zone: &LocalZone, n: u32) -> Result<u8, Failure> {
    match row_of(cx.rt.alloc(), kept, n)? {
        Some(one) => print_one(cx, kept, zone, &one),
        None => Err(Failure::NoSuchRow(n)),
    }
}

/// Prints a row of a root with a history, as the history is: a run that was cut short is only
/// mentioned.
fn print_row(
    cx: Context<'_>,
    root: &mut KeptRoot<'_>,
    zone: &LocalZone,
    n: u32,
) -> Result<u8, Stop> {
    note_promise_of(root)?;
    let kept = read_kept(cx, root)?;
    Ok(print_row_of(cx, &kept, zone, n)?)
}

/// Shows a row of a history: its run, its call, what it was answered, changed and looked at, and what
/// must be undone so that it is.
pub fn show_row(cx: Context<'_>, n: u32) -> Result<u8, Failure> {
    let zone = LocalZone::read(cx.rt);
    match take(cx)? {
        Taken::Plain(_) => Err(Failure::NoHistory),
        Taken::Kept(root) => {
            let mut root = root;
            let ended = print_row(cx, &mut root, &zone, n);
            end(cx, root, ended)
        }
    }
}
