//! Units as lines.
ghost use Rattle.std.specs.Prelude.{◌≡◌, ◌++◌, IfOk, OnOk, OnErr, map, option_map};
ghost use Rattle.serde_json.specs.View.{members_view, view};
ghost use Rattle.unit_lists.specs.UnitLines.{preset_text};
ghost use Rattle.root_json.specs.Objects.{text_data, texts_data};
ghost use Rattle.root_json.specs.Lines.{AddsLine, word_data, path_data, found_members, with_states, with_links, status_data, warning_data, with_maker, maker_data};

use crate::lines::{push_line, unit_object};
use crate::objects::{Object, put_count, put_value, put_word};
use crate::texts::{push_text, put_text, text_value};
use link_tree::TreePath;
use serde_json::Value;
use std::alloc::{AllocError, Global};
use unit_lists::{PresetWord, UnitStatus};
use unit_name::UnitName;
use unit_script::state_text;

fn path_value(alloc: Global, path: &[u8]) -> Result<Value, AllocError>
    ensures { IfOk result (λ value. view value ≡ path_data path.now) }
{
    match path {
        [] => Ok(Value::Null),
        [_, ..] => text_value(alloc, path),
    }
}

fn preset_value(alloc: Global, preset: Option<PresetWord>) -> Result<Value, AllocError>
    ensures { IfOk result (λ value. view value ≡ word_data (option_map preset_text preset)) }
{
    match preset {
        Some(preset) => Value::try_from_str(alloc, preset.text()),
        None => Ok(Value::Null),
    }
}

fn push_paths(alloc: Global, values: &mut Vec<Value>, paths: &[TreePath]) -> Result<(), AllocError>
    ensures { OnOk result (map view values.new.items ≡ map view values.old.items ++ map text_data paths.now) }
{
    for path in paths {
        push_text(alloc, values, path.text())?;
    }
    Ok(())
}

fn paths_value(alloc: Global, paths: &[TreePath]) -> Result<Value, AllocError>
    ensures { IfOk result (λ value. view value ≡ texts_data paths.now) }
{
    let mut values = Vec::new(alloc);
    push_paths(alloc, &mut values, paths)?;
    Ok(Value::Array(values))
}

/// Whether and where a unit is found.
fn found_object(alloc: Global, status: &UnitStatus) -> Result<Object, AllocError>
    ensures { IfOk result (λ object. members_view object.entries ≡ found_members status.now) }
{
    let mut object = Object::new(alloc);
    put_text(alloc, &mut object, "unit", status.name.text())?;
    put_word(alloc, &mut object, "load", status.loaded())?;
    let path = path_value(alloc, status.path())?;
    put_value(alloc, &mut object, "path", path)?;
    Ok(object)
}

/// Puts the state and the preset of a unit.
fn put_states(alloc: Global, object: &mut Object, status: &UnitStatus) -> Result<(), AllocError>
    ensures { OnOk result (members_view object.new.entries ≡ with_states (members_view object.old.entries) status.now) }
{
    put_word(alloc, object, "state", state_text(status.state))?;
    let preset = preset_value(alloc, status.preset)?;
    put_value(alloc, object, "preset", preset)
}

/// Puts the links of `/etc` and of `/run` that belong to the name of a unit.
fn put_links(alloc: Global, object: &mut Object, status: &UnitStatus) -> Result<(), AllocError>
    ensures { OnOk result (members_view object.new.entries ≡ with_links (members_view object.old.entries) status.now) }
{
    let links = paths_value(alloc, &status.etc)?;
    put_value(alloc, object, "links", links)?;
    let links = paths_value(alloc, &status.run)?;
    put_value(alloc, object, "runtime_links", links)
}

fn status_value(alloc: Global, status: &UnitStatus) -> Result<Value, AllocError>
    ensures { IfOk result (λ value. view value ≡ status_data status.now) }
{
    let mut object = found_object(alloc, status)?;
    put_states(alloc, &mut object, status)?;
    put_links(alloc, &mut object, status)?;
    Ok(Value::Object(object))
}

/// Appends all that is known of a unit, as `status` prints it: whether it is found, at which path,
/// its state, what the preset files say, and the links of `/etc` and of `/run` that belong to its
/// name. If memory runs out, nothing has been appended.
pub fn push_unit_status(out: &mut Vec<u8>, status: &UnitStatus) -> Result<(), AllocError>
    ensures ok { OnOk result (AddsLine (status_data status.now) out.old.items out.new.items) }
    ensures err { OnErr result (out.new.items ≡ out.old.items) }
{
    let value = status_value(*out.allocator(), status)?;
    push_line(out, &value)
}

fn warning_value(alloc: Global, unit: &UnitName, warning: &[u8]) -> Result<Value, AllocError>
    ensures { IfOk result (λ value. view value ≡ warning_data unit.now warning.now) }
{
    let mut object = unit_object(alloc, unit)?;
    put_text(alloc, &mut object, "warning", warning)?;
    Ok(Value::Object(object))
}

/// Appends a warning on a unit, as `does not exist`. If memory runs out, nothing has been appended.
pub fn push_warning(out: &mut Vec<u8>, unit: &UnitName, warning: &[u8]) -> Result<(), AllocError>
    ensures ok { OnOk result (AddsLine (warning_data unit.now warning.now) out.old.items out.new.items) }
    ensures err { OnErr result (out.new.items ≡ out.old.items) }
{
    let value = warning_value(*out.allocator(), unit, warning)?;
    push_line(out, &value)
}

/// Puts which row made what is at a path, and whose row it is.
fn put_maker(
    alloc: Global,
    object: &mut Object,
    path: &TreePath,
    row: u32,
    operator: &[u8],
) -> Result<(), AllocError>
    ensures { OnOk result (members_view object.new.entries ≡ with_maker (members_view object.old.entries) path.now row operator.now) }
{
    put_text(alloc, object, "path", path.text())?;
    put_count(alloc, object, "made_by", row as usize)?;
    put_text(alloc, object, "operator", operator)
}

fn maker_value(
    alloc: Global,
    unit: &UnitName,
    path: &TreePath,
    row: u32,
    operator: &[u8],
) -> Result<Value, AllocError>
    ensures { IfOk result (λ value. view value ≡ maker_data unit.now path.now row operator.now) }
{
    let mut object = unit_object(alloc, unit)?;
    put_maker(alloc, &mut object, path, row, operator)?;
    Ok(Value::Object(object))
}

/// Appends which row of a history made what is at a path of a unit, as `status` prints it, and whose
/// row it is. If memory runs out, nothing has been appended.
pub fn push_maker(
    out: &mut Vec<u8>,
    unit: &UnitName,
    path: &TreePath,
    row: u32,
    operator: &[u8],
) -> Result<(), AllocError>
    ensures ok { OnOk result (AddsLine (maker_data unit.now path.now row operator.now) out.old.items out.new.items) }
    ensures err { OnErr result (out.new.items ≡ out.old.items) }
{
    let value = maker_value(*out.allocator(), unit, path, row, operator)?;
    push_line(out, &value)
}
