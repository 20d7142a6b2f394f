//! Rows as JSON.
ghost use Rattle.std.specs.Prelude.{◌≡◌, IfOk, OnOk, map};
ghost use Rattle.serde_json.specs.View.{members_view, view};
ghost use Rattle.unit_script.specs.Texts.{shown_changes};
ghost use Rattle.root_json.specs.Changes.{changes_data};
ghost use Rattle.root_json.specs.Rows.{with_line, with_words, call_members, row_data};

use crate::answers::put_reply;
use crate::changes::{changes_value, inverse_value};
use crate::objects::{Object, put_count, put_truth, put_value};
use crate::texts::{put_text, texts_value};
use history::{Row, RowReply};
use serde_json::Value;
use std::alloc::{AllocError, Global};
use unit_script::{Action, changes_at, number_asked};

/// What a run knows of a call besides its row.
#[derive(Clone, Copy)]
pub struct CallPlace<'a> {
    /// Whether what the run changes was made on the root.
    pub made: bool,
    /// The number of the call's line in its file, from 1, if it is in a file.
    pub line: Option<u32>,
    /// The words of the call after the operator, as they were given; none if they aren't to be shown.
    pub words: &'a [&'a [u8]],
}

/// Puts the number of a line, if there is one.
pub(crate) fn put_line(
    alloc: Global,
    object: &mut Object,
    line: Option<u32>,
) -> Result<(), AllocError>
    ensures { OnOk result (members_view object.new.entries ≡ with_line (members_view object.old.entries) line) }
{
    match line {
        Some(line) => put_count(alloc, object, "line", line as usize),
        None => Ok(()),
    }
}

fn put_words(alloc: Global, object: &mut Object, words: &[&[u8]]) -> Result<(), AllocError>
    ensures { OnOk result (members_view object.new.entries ≡ with_words (members_view object.old.entries) (map (λ word. word.now) words.now)) }
{
    if words.is_empty() {
        return Ok(());
    }
    let words = texts_value(alloc, words)?;
    put_value(alloc, object, "call", words)
}

/// Whose call it is, and where it is written.
pub(crate) fn call_object(
    alloc: Global,
    place: &CallPlace<'_>,
    number: u32,
    operator: &[u8],
) -> Result<Object, AllocError>
    ensures { IfOk result (λ object. members_view object.entries ≡ call_members place.now.made place.now.line (map (λ word. word.now) place.now.words.now) number operator.now) }
{
    let mut object = Object::new(alloc);
    put_count(alloc, &mut object, "row", number as usize)?;
    put_text(alloc, &mut object, "operator", operator)?;
    put_truth(alloc, &mut object, "made", place.made)?;
    put_line(alloc, &mut object, place.line)?;
    put_words(alloc, &mut object, place.words)?;
    Ok(object)
}

/// What a row changed. An accepted undo has the changes of the row that it names turned round, and an
/// accepted redo has them as they are.
pub(crate) fn shown_value(
    alloc: Global,
    rows: &[Row<Action>],
    row: &Row<Action>,
) -> Result<Value, AllocError>
    ensures { IfOk result (λ value. view value ≡ changes_data (shown_changes rows.now row.now.reply row.now.changes)) }
{
    match &row.reply {
        RowReply::Undid(n) => inverse_value(alloc, changes_at(rows, *n)),
        RowReply::Redid(n) => changes_value(alloc, changes_at(rows, *n)),
        RowReply::Answered(_) => changes_value(alloc, row.changes.as_slice()),
        RowReply::UndoRefused(_) => changes_value(alloc, row.changes.as_slice()),
        RowReply::RedoRefused(_) => changes_value(alloc, row.changes.as_slice()),
    }
}

/// A row among all.
pub(crate) fn row_value(
    alloc: Global,
    place: &CallPlace<'_>,
    rows: &[Row<Action>],
    number: u32,
    row: &Row<Action>,
) -> Result<Value, AllocError>
    ensures { IfOk result (λ value. view value ≡ row_data place.now.made place.now.line (map (λ word. word.now) place.now.words.now) rows.now number row.now) }
{
    let mut object = call_object(alloc, place, number, row.operator.text())?;
    put_reply(alloc, &mut object, number_asked(&row.request), &row.reply)?;
    let changes = shown_value(alloc, rows, row)?;
    put_value(alloc, &mut object, "changes", changes)?;
    Ok(Value::Object(object))
}
