//! Rows of a history that is kept with a root.
ghost use Rattle.std.specs.Prelude.{◌≡◌, ◌++◌, ◌∷◌, [], true, None, IfOk, OnOk, OnErr, map};
ghost use Rattle.serde_json.specs.View.{members_view, view};
ghost use Rattle.tree_access.specs.declared.key.Key.TheVariants.{Marked};
ghost use Rattle.root_json.specs.Objects.{count};
ghost use Rattle.root_json.specs.Rows.{call_members};
ghost use Rattle.root_json.specs.Lines.{AddsLine};
ghost use Rattle.root_json.specs.Logs.{with_run, row_or_null, with_changes, log_members, log_data, scope_text, key_members, key_data, keys_data, numbers_data, refusal_or_null, shown_members, shown_data};

use crate::answers::put_reply;
use crate::lines::push_line;
use crate::objects::{Object, put_value, put_word};
use crate::refusals::{kind, of_path, of_unit, undo_refusal};
use crate::rows::{CallPlace, call_object, shown_value};
use crate::texts::put_text;
use footprint::{Key, Observation};
use history::{Row, UndoRefusal};
use link_tree::Scope;
use serde_json::Value;
use std::alloc::{AllocError, Global};
use unit_script::{Action, number_asked};

/// What a history says of a row besides its reply and its changes.
#[derive(Clone, Copy)]
pub struct KeptCall<'a> {
    /// The time of its run.
    pub time: &'a [u8],
    /// Who made the run.
    pub login: &'a [u8],
    /// The name and version of the program that made it.
    pub program: &'a [u8],
    /// The words of the call after the operator.
    pub words: &'a [&'a [u8]],
}

/// Puts which run a row is of.
fn put_run(alloc: Global, object: &mut Object, call: &KeptCall<'_>) -> Result<(), AllocError>
    ensures { OnOk result (members_view object.new.entries ≡ with_run (members_view object.old.entries) call.now.time.now call.now.login.now call.now.program.now) }
{
    put_text(alloc, object, "time", call.time)?;
    put_text(alloc, object, "login", call.login)?;
    put_text(alloc, object, "program", call.program)
}

fn row_or_null(row: Option<u32>) -> Value
    ensures { view result ≡ row_or_null row }
{
    match row {
        Some(n) => Value::from(n as usize),
        None => Value::Null,
    }
}

/// Puts what a row changed, and the row that undid it.
fn put_changes(
    alloc: Global,
    object: &mut Object,
    rows: &[Row<Action>],
    row: &Row<Action>,
) -> Result<(), AllocError>
    ensures { OnOk result (members_view object.new.entries ≡ with_changes (members_view object.old.entries) rows.now row.now) }
{
    let changes = shown_value(alloc, rows, row)?;
    put_value(alloc, object, "changes", changes)?;
    put_value(alloc, object, "undone_by", row_or_null(row.undone_by))
}

/// Whose call it is, and its words.
fn whose_object(
    alloc: Global,
    call: &KeptCall<'_>,
    number: u32,
    operator: &[u8],
) -> Result<Object, AllocError>
    ensures { IfOk result (λ object. members_view object.entries ≡ call_members true None (map (λ word. word.now) call.now.words.now) number operator.now) }
{
    let place = CallPlace {
        made: true,
        line: None,
        words: call.words,
    };
    call_object(alloc, &place, number, operator)
}

/// A row among all, with its run and the words of its call.
fn log_object(
    alloc: Global,
    rows: &[Row<Action>],
    number: u32,
    row: &Row<Action>,
    call: &KeptCall<'_>,
) -> Result<Object, AllocError>
    ensures { IfOk result (λ object. members_view object.entries ≡ log_members call.now.time.now call.now.login.now call.now.program.now (map (λ word. word.now) call.now.words.now) rows.now number row.now) }
{
    let mut object = whose_object(alloc, call, number, row.operator.text())?;
    put_reply(alloc, &mut object, number_asked(&row.request), &row.reply)?;
    put_run(alloc, &mut object, call)?;
    put_changes(alloc, &mut object, rows, row)?;
    Ok(object)
}

fn log_value(
    alloc: Global,
    rows: &[Row<Action>],
    number: u32,
    row: &Row<Action>,
    call: &KeptCall<'_>,
) -> Result<Value, AllocError>
    ensures { IfOk result (λ value. view value ≡ log_data call.now.time.now call.now.login.now call.now.program.now (map (λ word. word.now) call.now.words.now) rows.now number row.now) }
{
    let object = log_object(alloc, rows, number, row, call)?;
    Ok(Value::Object(object))
}

/// Appends a row of a history, as `log` prints it: the row as `run` prints it, its run, the words of
/// its call, and the row that undid it. The rows are all of the history, and `number` is the row's
/// among them, from 1. If memory runs out, nothing has been appended.
pub fn push_log_row(
    out: &mut Vec<u8>,
    rows: &[Row<Action>],
    number: u32,
    row: &Row<Action>,
    call: &KeptCall<'_>,
) -> Result<(), AllocError>
    ensures ok { OnOk result (AddsLine (log_data call.now.time.now call.now.login.now call.now.program.now (map (λ word. word.now) call.now.words.now) rows.now number row.now) out.old.items out.new.items) }
    ensures err { OnErr result (out.new.items ≡ out.old.items) }
{
    let value = log_value(*out.allocator(), rows, number, row, call)?;
    push_line(out, &value)
}

fn scope_text(scope: Scope) -> &'static str
    ensures { result.now ≡ scope_text scope }
{
    match scope {
        Scope::Etc => "etc",
        Scope::Run => "run",
    }
}

/// The links of a scope that belong to a name.
fn links_of(alloc: Global, scope: Scope, name: &[u8]) -> Result<Object, AllocError>
    ensures { IfOk result (λ object. members_view object.entries ≡ key_members (Marked scope name.now)) }
{
    let mut object = of_unit(alloc, "links", name)?;
    put_word(alloc, &mut object, "scope", scope_text(scope))?;
    Ok(object)
}

/// What a call looked at.
fn key_object(alloc: Global, key: &Key) -> Result<Object, AllocError>
    ensures { IfOk result (λ object. members_view object.entries ≡ key_members key.now) }
{
    match key {
        Key::Cell(path) => of_path(alloc, "path", path.text()),
        Key::Marked(scope, name) => links_of(alloc, *scope, name.text()),
        Key::Presets => kind(alloc, "presets"),
        Key::Links => kind(alloc, "dependencies"),
    }
}

fn push_key(
    alloc: Global,
    values: &mut Vec<Value>,
    observation: &Observation,
) -> Result<(), AllocError>
    ensures { OnOk result (map view values.new.items ≡ map view values.old.items ++ key_data observation.now ∷ []) }
{
    let object = key_object(alloc, &observation.key)?;
    serde_json::push(values, Value::Object(object))
}

fn push_keys(
    alloc: Global,
    values: &mut Vec<Value>,
    reading: &[Observation],
) -> Result<(), AllocError>
    ensures { OnOk result (map view values.new.items ≡ map view values.old.items ++ map key_data reading.now) }
{
    for observation in reading {
        push_key(alloc, values, observation)?;
    }
    Ok(())
}

fn keys_value(alloc: Global, reading: &[Observation]) -> Result<Value, AllocError>
    ensures { IfOk result (λ value. view value ≡ keys_data reading.now) }
{
    let mut values = Vec::new(alloc);
    push_keys(alloc, &mut values, reading)?;
    Ok(Value::Array(values))
}

fn push_numbers(values: &mut Vec<Value>, numbers: &[u32]) -> Result<(), AllocError>
    ensures { OnOk result (map view values.new.items ≡ map view values.old.items ++ map count numbers.now) }
{
    for n in numbers {
        serde_json::push(values, Value::from(*n as usize))?;
    }
    Ok(())
}

fn numbers_value(alloc: Global, numbers: &[u32]) -> Result<Value, AllocError>
    ensures { IfOk result (λ value. view value ≡ numbers_data numbers.now) }
{
    let mut values = Vec::new(alloc);
    push_numbers(&mut values, numbers)?;
    Ok(Value::Array(values))
}

fn refusal_or_null(alloc: Global, n: u32, refusal: Option<UndoRefusal>) -> Result<Value, AllocError>
    ensures { IfOk result (λ value. view value ≡ refusal_or_null n refusal) }
{
    match refusal {
        Some(refusal) => Ok(Value::Object(undo_refusal(alloc, n, refusal)?)),
        None => Ok(Value::Null),
    }
}

/// Puts what a row looked at, the rows that are undone together with it, and why it can't be undone.
fn put_shown(
    alloc: Global,
    object: &mut Object,
    number: u32,
    row: &Row<Action>,
    undo: &[u32],
    refusal: Option<UndoRefusal>,
) -> Result<(), AllocError>
    ensures { OnOk result (members_view object.new.entries ≡ shown_members (members_view object.old.entries) number row.now undo.now refusal) }
{
    let keys = keys_value(alloc, row.reading.as_slice())?;
    put_value(alloc, object, "looked_at", keys)?;
    let numbers = numbers_value(alloc, undo)?;
    put_value(alloc, object, "undo", numbers)?;
    let refusal = refusal_or_null(alloc, number, refusal)?;
    put_value(alloc, object, "undo_refusal", refusal)
}

fn shown_row_value(
    alloc: Global,
    rows: &[Row<Action>],
    number: u32,
    row: &Row<Action>,
    call: &KeptCall<'_>,
    undo: &[u32],
    refusal: Option<UndoRefusal>,
) -> Result<Value, AllocError>
    ensures { IfOk result (λ value. view value ≡ shown_data call.now.time.now call.now.login.now call.now.program.now (map (λ word. word.now) call.now.words.now) rows.now number row.now undo.now refusal) }
{
    let mut object = log_object(alloc, rows, number, row, call)?;
    put_shown(alloc, &mut object, number, row, undo, refusal)?;
    Ok(Value::Object(object))
}

/// Appends a row of a history, as `show` prints it: the same as `push_log_row`, with what the call
/// looked at, the rows that must be undone so that it is, in an order in which each undo is accepted,
/// and why it can't be undone, if it can't. If memory runs out, nothing has been appended.
pub fn push_shown_row(
    out: &mut Vec<u8>,
    rows: &[Row<Action>],
    number: u32,
    row: &Row<Action>,
    call: &KeptCall<'_>,
    undo: &[u32],
    refusal: Option<UndoRefusal>,
) -> Result<(), AllocError>
    ensures ok { OnOk result (AddsLine (shown_data call.now.time.now call.now.login.now call.now.program.now (map (λ word. word.now) call.now.words.now) rows.now number row.now undo.now refusal) out.old.items out.new.items) }
    ensures err { OnErr result (out.new.items ≡ out.old.items) }
{
    let value = shown_row_value(*out.allocator(), rows, number, row, call, undo, refusal)?;
    push_line(out, &value)
}
