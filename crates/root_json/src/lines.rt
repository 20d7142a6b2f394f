//! The lines that are printed.
ghost use Rattle.std.specs.Prelude.{◌≡◌, IfOk, OnOk, OnErr, map, option_map};
ghost use Rattle.serde_json.specs.View.{members_view, view};
ghost use Rattle.root_json.specs.Changes.{change_data};
ghost use Rattle.root_json.specs.Rows.{row_data};
ghost use Rattle.root_json.specs.Lines.{AddsLine, AddsTextOf, summary_data, word_data, unit_file_data, unit_members, unit_data, state_data, with_word, error_members, error_data};

use crate::answers::put_state;
use crate::changes::{change_value, changes_value};
use crate::objects::{Object, put_count, put_truth, put_value, put_word};
use crate::rows::{CallPlace, put_line, row_value};
use crate::texts::put_text;
use footprint::StateWord;
use history::Row;
use link_tree::Change;
use serde_json::Value;
use std::alloc::{AllocError, Global};
use unit_lists::listed_state_text;
use unit_name::UnitName;
use unit_script::Action;

/// How a run ended.
#[derive(Clone, Copy, Debug, PartialEq, Eq)]
pub struct Summary {
    /// How many calls it had.
    pub calls: usize,
    /// How many of them were refused.
    pub refused: usize,
    /// Whether it only shows what would be changed.
    pub dry_run: bool,
    /// Whether its changes were made on the root.
    pub made: bool,
}

/// An error, and what is known of where it is.
#[derive(Clone, Copy)]
pub struct ErrorPlace<'a> {
    /// The exit status that follows from it.
    pub status: u8,
    /// The number of the line in its file, from 1.
    pub line: Option<u32>,
    /// The word that is wrong, as it was given.
    pub word: Option<&'a [u8]>,
}

/// Appends the text of a value and LF. If memory runs out, nothing has been appended.
pub(crate) fn push_line(out: &mut Vec<u8>, value: &Value) -> Result<(), AllocError>
    ensures ok { OnOk result (AddsTextOf (view value.now) out.old.items out.new.items) }
    ensures err { OnErr result (out.new.items ≡ out.old.items) }
{
    let mut line = value.to_vec(*out.allocator())?;
    line.push(b'\n')?;
    out.extend_from_slice(&line)
}

/// Appends a row of a run: whose call it is, what it was answered, and what it changed. The rows are
/// all of the run, and `number` is the row's among them, from 1: an undo shows the changes of the row
/// that it names. If memory runs out, nothing has been appended.
pub fn push_row(
    out: &mut Vec<u8>,
    rows: &[Row<Action>],
    number: u32,
    row: &Row<Action>,
    place: &CallPlace<'_>,
) -> Result<(), AllocError>
    ensures ok { OnOk result (AddsLine (row_data place.now.made place.now.line (map (λ word. word.now) place.now.words.now) rows.now number row.now) out.old.items out.new.items) }
    ensures err { OnErr result (out.new.items ≡ out.old.items) }
{
    let value = row_value(*out.allocator(), place, rows, number, row)?;
    push_line(out, &value)
}

/// Appends a change: a path with what was there and what is there now, as `diff` prints it. If memory
/// runs out, nothing has been appended.
pub fn push_change(out: &mut Vec<u8>, change: &Change) -> Result<(), AllocError>
    ensures ok { OnOk result (AddsLine (change_data change.now) out.old.items out.new.items) }
    ensures err { OnErr result (out.new.items ≡ out.old.items) }
{
    let value = change_value(*out.allocator(), change)?;
    push_line(out, &value)
}

fn summary_value(alloc: Global, summary: Summary, changes: &[Change]) -> Result<Value, AllocError>
    ensures { IfOk result (λ value. view value ≡ summary_data summary.calls summary.refused summary.dry_run summary.made changes.now) }
{
    let mut object = Object::new(alloc);
    put_count(alloc, &mut object, "calls", summary.calls)?;
    put_count(alloc, &mut object, "refused", summary.refused)?;
    put_truth(alloc, &mut object, "dry_run", summary.dry_run)?;
    put_truth(alloc, &mut object, "made", summary.made)?;
    let changes = changes_value(alloc, changes)?;
    put_value(alloc, &mut object, "changes", changes)?;
    Ok(Value::Object(object))
}

/// Appends how a run ended, and all its changes together: the last line of a run. If memory runs out,
/// nothing has been appended.
pub fn push_summary(
    out: &mut Vec<u8>,
    summary: Summary,
    changes: &[Change],
) -> Result<(), AllocError>
    ensures ok { OnOk result (AddsLine (summary_data summary.calls summary.refused summary.dry_run summary.made changes.now) out.old.items out.new.items) }
    ensures err { OnErr result (out.new.items ≡ out.old.items) }
{
    let value = summary_value(*out.allocator(), summary, changes)?;
    push_line(out, &value)
}

fn word_value(alloc: Global, word: Option<&str>) -> Result<Value, AllocError>
    ensures { IfOk result (λ value. view value ≡ word_data (option_map (λ word. word.now) word.entry)) }
{
    match word {
        Some(word) => Value::try_from_str(alloc, word),
        None => Ok(Value::Null),
    }
}

fn unit_file_value(
    alloc: Global,
    name: &UnitName,
    state: StateWord,
    preset: Option<&str>,
) -> Result<Value, AllocError>
    ensures { IfOk result (λ value. view value ≡ unit_file_data name.now state (option_map (λ word. word.now) preset.entry)) }
{
    let mut object = Object::new(alloc);
    put_text(alloc, &mut object, "unit_file", name.text())?;
    put_word(alloc, &mut object, "state", listed_state_text(state))?;
    let preset = word_value(alloc, preset)?;
    put_value(alloc, &mut object, "preset", preset)?;
    Ok(Value::Object(object))
}

/// Appends a unit file with its state and its preset, as `list-unit-files` prints it. The state is the
/// word of that list: a link that leads nowhere is `bad`. The preset is `enabled`, `disabled` or
/// `ignored`, or none for a unit that presets don't apply to. If memory runs out, nothing has been
/// appended.
pub fn push_unit_file(
    out: &mut Vec<u8>,
    name: &UnitName,
    state: StateWord,
    preset: Option<&str>,
) -> Result<(), AllocError>
    ensures ok { OnOk result (AddsLine (unit_file_data name.now state (option_map (λ word. word.now) preset.entry)) out.old.items out.new.items) }
    ensures err { OnErr result (out.new.items ≡ out.old.items) }
{
    let value = unit_file_value(*out.allocator(), name, state, preset)?;
    push_line(out, &value)
}

/// An object with the name of a unit.
pub(crate) fn unit_object(alloc: Global, name: &UnitName) -> Result<Object, AllocError>
    ensures { IfOk result (λ object. members_view object.entries ≡ unit_members name.now) }
{
    let mut object = Object::new(alloc);
    put_text(alloc, &mut object, "unit", name.text())?;
    Ok(object)
}

fn unit_value(alloc: Global, name: &UnitName) -> Result<Value, AllocError>
    ensures { IfOk result (λ value. view value ≡ unit_data name.now) }
{
    let object = unit_object(alloc, name)?;
    Ok(Value::Object(object))
}

/// Appends the name of a unit, as `get-default` answers it, and `list-dependencies` for each. If memory
/// runs out, nothing has been appended.
pub fn push_unit(out: &mut Vec<u8>, name: &UnitName) -> Result<(), AllocError>
    ensures ok { OnOk result (AddsLine (unit_data name.now) out.old.items out.new.items) }
    ensures err { OnErr result (out.new.items ≡ out.old.items) }
{
    let value = unit_value(*out.allocator(), name)?;
    push_line(out, &value)
}

fn state_value(alloc: Global, name: &UnitName, state: StateWord) -> Result<Value, AllocError>
    ensures { IfOk result (λ value. view value ≡ state_data name.now state) }
{
    let mut object = unit_object(alloc, name)?;
    put_state(alloc, &mut object, state)?;
    Ok(Value::Object(object))
}

/// Appends a unit's state, as `is-enabled` answers it, and whether systemctl counts it as enabled. If
/// memory runs out, nothing has been appended.
pub fn push_state(out: &mut Vec<u8>, name: &UnitName, state: StateWord) -> Result<(), AllocError>
    ensures ok { OnOk result (AddsLine (state_data name.now state) out.old.items out.new.items) }
    ensures err { OnErr result (out.new.items ≡ out.old.items) }
{
    let value = state_value(*out.allocator(), name, state)?;
    push_line(out, &value)
}

/// Puts a word, if there is one.
fn put_bad_word(alloc: Global, object: &mut Object, word: &Option<&[u8]>) -> Result<(), AllocError>
    ensures { OnOk result (members_view object.new.entries ≡ with_word (members_view object.old.entries) (option_map (λ word. word.now) word.now)) }
{
    match word {
        Some(word) => put_text(alloc, object, "word", word),
        None => Ok(()),
    }
}

/// An error's text and status.
fn error_object(alloc: Global, text: &[u8], status: u8) -> Result<Object, AllocError>
    ensures { IfOk result (λ object. members_view object.entries ≡ error_members text.now status) }
{
    let mut object = Object::new(alloc);
    put_text(alloc, &mut object, "error", text)?;
    put_count(alloc, &mut object, "status", status as usize)?;
    Ok(object)
}

fn error_value(alloc: Global, text: &[u8], place: &ErrorPlace<'_>) -> Result<Value, AllocError>
    ensures { IfOk result (λ value. view value ≡ error_data text.now place.now.status place.now.line (option_map (λ word. word.now) place.now.word)) }
{
    let mut object = error_object(alloc, text, place.status)?;
    put_line(alloc, &mut object, place.line)?;
    put_bad_word(alloc, &mut object, &place.word)?;
    Ok(Value::Object(object))
}

/// Appends an error: its text, the exit status that follows from it, and where it is. If memory runs
/// out, nothing has been appended.
pub fn push_error(out: &mut Vec<u8>, text: &[u8], place: &ErrorPlace<'_>) -> Result<(), AllocError>
    ensures ok { OnOk result (AddsLine (error_data text.now place.now.status place.now.line (option_map (λ word. word.now) place.now.word)) out.old.items out.new.items) }
    ensures err { OnErr result (out.new.items ≡ out.old.items) }
{
    let value = error_value(*out.allocator(), text, place)?;
    push_line(out, &value)
}
