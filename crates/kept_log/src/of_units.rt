//! Which rows concern a unit.
ghost use Rattle.std.specs.Prelude.{◌≡◌, ◌||◌};
ghost use Rattle.std.specs.List.{list_any};
ghost use Rattle.std.specs.Option.{option_copied};
ghost use Rattle.history.specs.Rows.{row_at};
ghost use Rattle.kept_log.specs.Concerns.{is_name, is_among, is_at, leads_to, side_leads_to, is_named, is_called, is_changed, changes_of, concerns};

use footprint::Units;
use history::{Request, Row, RowReply};
use link_tree::{Change, Entry, TreePath, last_part};
use unit_name::UnitName;
use unit_script::{Action, changes_at};

fn is_name(unit: &UnitName, name: &[u8]) -> bool
    ensures { result ≡ is_name unit.now name.now }
{
    name == unit.text()
}

/// Whether a unit is among these names.
fn is_among(unit: &UnitName, names: &[UnitName]) -> bool
    ensures { result ≡ is_among unit.now names.now }
{
    names.iter().any(|name| is_name(unit, name.text()))
}

/// Whether a path ends with its name.
fn is_at(unit: &UnitName, path: &TreePath) -> bool
    ensures { result ≡ is_at unit.now path.now }
{
    is_name(unit, path.file_name())
}

fn is_at_any(unit: &UnitName, paths: &[TreePath]) -> bool
    ensures { result ≡ list_any (is_at unit.now) paths.now }
{
    paths.iter().any(|path| is_at(unit, path))
}

/// Whether a link leads to a path that ends with its name.
fn leads_to(unit: &UnitName, entry: &Entry) -> bool
    ensures { result ≡ leads_to unit.now entry.now }
{
    match entry {
        Entry::File(_) => false,
        Entry::Link(target) => is_name(unit, last_part(target.text())),
    }
}

fn side_leads_to(unit: &UnitName, entry: &Option<Entry>) -> bool
    ensures { result ≡ side_leads_to unit.now entry.now }
{
    match entry {
        Some(entry) => leads_to(unit, entry),
        None => false,
    }
}

/// Whether a command or a question names it.
fn is_named(unit: &UnitName, action: &Action) -> bool
    ensures { result ≡ is_named unit.now action.now }
{
    match action {
        Action::Enable(enable) => is_among(unit, enable.units.as_slice()),
        Action::Disable(disable) => is_among(unit, disable.units.as_slice()),
        Action::Reenable(reenable) => is_among(unit, reenable.units.as_slice()),
        Action::Preset(preset) => is_among(unit, preset.units.as_slice()),
        Action::Mask(mask) => is_among(unit, mask.units.as_slice()),
        Action::Unmask(unmask) => is_among(unit, unmask.units.as_slice()),
        Action::LinkUnits(link) => is_at_any(unit, link.paths.as_slice()),
        Action::AddTo(add) => is_added(unit, &add.target, &add.units),
        Action::SetDefault(set) => is_name(unit, set.unit.text()),
        Action::PlaceEntry(place) => is_placed(unit, &place.path, &place.entry),
        Action::RemoveEntry(remove) => is_at(unit, &remove.path),
        Action::IsEnabled(question) => is_name(unit, question.unit.text()),
        Action::GetDefault(_) => false,
        Action::Dependencies(question) => is_name(unit, question.unit.text()),
    }
}

fn is_added(unit: &UnitName, target: &UnitName, units: &Units) -> bool
    ensures { result ≡ (is_name unit.now target.now || is_among unit.now units.now) }
{
    is_name(unit, target.text()) || is_among(unit, units.as_slice())
}

fn is_placed(unit: &UnitName, path: &TreePath, entry: &Entry) -> bool
    ensures { result ≡ (is_at unit.now path.now || leads_to unit.now entry.now) }
{
    is_at(unit, path) || leads_to(unit, entry)
}

/// Whether a call names it. An undo and a redo name a row, and no unit.
fn is_called(unit: &UnitName, request: &Request<Action>) -> bool
    ensures { result ≡ is_called unit.now request.now }
{
    match request {
        Request::Do(action) => is_named(unit, action),
        Request::Undo(_) | Request::Redo(_) => false,
    }
}

fn is_changed(unit: &UnitName, change: &Change) -> bool
    ensures { result ≡ is_changed unit.now change.now }
{
    is_at(unit, &change.path)
        || (side_leads_to(unit, &change.before) || side_leads_to(unit, &change.after))
}

fn is_in_changes(unit: &UnitName, changes: &[Change]) -> bool
    ensures { result ≡ list_any (is_changed unit.now) changes.now }
{
    changes.iter().any(|change| is_changed(unit, change))
}

/// The changes of a row among all. An undo and a redo have none of their own: theirs are those of
/// the row that they took back or made again.
pub fn changes_of<'a>(rows: &'a [Row<Action>], row: &'a Row<Action>) -> &'a [Change]
    ensures { result.now ≡ changes_of rows.now row.now }
{
    match &row.reply {
        RowReply::Undid(n) | RowReply::Redid(n) => changes_at(rows, *n),
        RowReply::Answered(_) => row.changes.as_slice(),
        RowReply::UndoRefused(_) | RowReply::RedoRefused(_) => row.changes.as_slice(),
    }
}

/// Whether a row among all concerns a unit: its call names the unit, or one of its changes is at a
/// path that ends with the unit's name, or at a link that leads to such a path.
pub fn concerns(unit: &UnitName, rows: &[Row<Action>], row: &Row<Action>) -> bool
    ensures { result ≡ concerns unit.now rows.now row.now }
{
    is_called(unit, &row.request) || is_in_changes(unit, changes_of(rows, row))
}
