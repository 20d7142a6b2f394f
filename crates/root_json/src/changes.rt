//! Changes as JSON.
ghost use Rattle.std.specs.Prelude.{◌≡◌, ◌++◌, ◌∷◌, [], IfOk, OnOk, map};
ghost use Rattle.link_tree.specs.Trees.{inverse_of};
ghost use Rattle.serde_json.specs.View.{members_view, view};
ghost use Rattle.root_json.specs.Changes.{with_entry, entry_data, side_data, sides_data, change_data, changes_data};

use crate::objects::{Object, put_count, put_value};
use crate::texts::put_text;
use link_tree::{Change, Entry, TreePath};
use serde_json::Value;
use std::alloc::{AllocError, Global};

/// Puts the length of a file, or the target of a link.
fn put_entry(alloc: Global, object: &mut Object, entry: &Entry) -> Result<(), AllocError>
    ensures { OnOk result (members_view object.new.entries ≡ with_entry (members_view object.old.entries) entry.now) }
{
    match entry {
        Entry::File(contents) => put_count(alloc, object, "file", contents.bytes().len()),
        Entry::Link(target) => put_text(alloc, object, "link", target.text()),
    }
}

/// `{"file": LENGTH}` or `{"link": TARGET}`.
fn entry_value(alloc: Global, entry: &Entry) -> Result<Value, AllocError>
    ensures { IfOk result (λ value. view value ≡ entry_data entry.now) }
{
    let mut object = Object::new(alloc);
    put_entry(alloc, &mut object, entry)?;
    Ok(Value::Object(object))
}

fn side_value(alloc: Global, entry: &Option<Entry>) -> Result<Value, AllocError>
    ensures { IfOk result (λ value. view value ≡ side_data entry.now) }
{
    match entry {
        Some(entry) => entry_value(alloc, entry),
        None => Ok(Value::Null),
    }
}

/// The entry that was at a path, and the one that is there now.
fn sides_value(
    alloc: Global,
    path: &TreePath,
    before: &Option<Entry>,
    after: &Option<Entry>,
) -> Result<Value, AllocError>
    ensures { IfOk result (λ value. view value ≡ sides_data path.now before.now after.now) }
{
    let mut object = Object::new(alloc);
    put_text(alloc, &mut object, "path", path.text())?;
    put_value(alloc, &mut object, "before", side_value(alloc, before)?)?;
    put_value(alloc, &mut object, "after", side_value(alloc, after)?)?;
    Ok(Value::Object(object))
}

pub(crate) fn change_value(alloc: Global, change: &Change) -> Result<Value, AllocError>
    ensures { IfOk result (λ value. view value ≡ change_data change.now) }
{
    sides_value(alloc, &change.path, &change.before, &change.after)
}

pub(crate) fn changes_value(alloc: Global, changes: &[Change]) -> Result<Value, AllocError>
    ensures { IfOk result (λ value. view value ≡ changes_data changes.now) }
{
    let mut values = Vec::new(alloc);
    push_changes(alloc, &mut values, changes)?;
    Ok(Value::Array(values))
}

fn push_changes(
    alloc: Global,
    values: &mut Vec<Value>,
    changes: &[Change],
) -> Result<(), AllocError>
    ensures { OnOk result (map view values.new.items ≡ map view values.old.items ++ map change_data changes.now) }
{
    for change in changes {
        push_sides(alloc, values, &change.path, &change.before, &change.after)?;
    }
    Ok(())
}

/// The changes that take these back.
pub(crate) fn inverse_value(alloc: Global, changes: &[Change]) -> Result<Value, AllocError>
    ensures { IfOk result (λ value. view value ≡ changes_data (inverse_of changes.now)) }
{
    let mut values = Vec::new(alloc);
    push_inverse(alloc, &mut values, changes)?;
    Ok(Value::Array(values))
}

fn push_inverse(
    alloc: Global,
    values: &mut Vec<Value>,
    changes: &[Change],
) -> Result<(), AllocError>
    ensures { OnOk result (map view values.new.items ≡ map view values.old.items ++ map change_data (inverse_of changes.now)) }
{
    for change in changes {
        push_sides(alloc, values, &change.path, &change.after, &change.before)?;
    }
    Ok(())
}

fn push_sides(
    alloc: Global,
    values: &mut Vec<Value>,
    path: &TreePath,
    before: &Option<Entry>,
    after: &Option<Entry>,
) -> Result<(), AllocError>
    ensures { OnOk result (map view values.new.items ≡ map view values.old.items ++ sides_data path.now before.now after.now ∷ []) }
{
    let value = sides_value(alloc, path, before, after)?;
    serde_json::push(values, value)
}
