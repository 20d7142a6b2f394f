//! Warnings on units that exist nowhere.
ghost use Rattle.std.specs.Prelude.{◌≡◌};
ghost use Rattle.std.specs.Option.{option_copied};
ghost use Rattle.root_reports.specs.Warnings as warnings;

use disk::{Disk, DiskError, Found as Looked};
use footprint::Units;
use history::{Request, Row};
use link_tree::{Change, Entry, Place, TreePath, last_part};
use root_json::push_warning;
use root_runs::push_missing_warning;
use std::alloc::{AllocError, Global};
use unit_name::{Kind, UnitName};
use unit_script::Action;

/// Whether something is at a slot of a name in one of the directories of units.
fn has_entry<D: Disk>(alloc: Global, disk: &mut D, name: &UnitName) -> Result<bool, DiskError> {
    for place in [Place::Etc, Place::Run, Place::Local, Place::Vendor] {
        let slot = place.slot(alloc, name)?;
        match disk.look(alloc, &slot)? {
            Looked::Nothing => {}
            Looked::Entry(_) | Looked::Odd(_) => return Ok(true),
        }
    }
    Ok(false)
}

/// Whether no directory has an entry for a name, nor for its template if the name is an instance.
fn is_missing<D: Disk>(alloc: Global, disk: &mut D, name: &UnitName) -> Result<bool, DiskError> {
    if has_entry(alloc, disk, name)? {
        return Ok(false);
    }
    match name.kind() {
        Kind::Plain | Kind::Template => Ok(true),
        Kind::Instance => {
            let template = name.template(alloc)?;
            Ok(!has_entry(alloc, disk, &template)?)
        }
    }
}

/// Whether an entry is one of this name, or a link to one.
fn is_of(path: &TreePath, entry: &Entry, name: &UnitName) -> bool
    ensures { result ≡ warnings.is_of name.now path.now entry.now }
{
    match entry {
        Entry::Link(target) if last_part(target.text()) == name.text() => true,
        _ => path.file_name() == name.text(),
    }
}

/// Whether an entry of this name is removed: a link in a `.wants`, an alias, or the entry at a
/// slot.
fn is_removed(changes: &[Change], name: &UnitName) -> bool
    ensures { result ≡ warnings.is_removed changes.now name.now }
{
    changes.iter().any(|change| match (&change.before, &change.after) {
        (Some(before), None) => is_of(&change.path, before, name),
        _ => false,
    })
}

/// Appends a warning for each of the units that exists nowhere, and of which the call removes
/// nothing. It isn't given if the disk fails: what the calls looked at was read before.
fn push_missing<D: Disk>(
    alloc: Global,
    out: &mut Vec<u8>,
    disk: &mut D,
    units: &Units,
    changes: &[Change],
    json: bool,
) -> Result<(), AllocError> {
    for name in units.as_slice() {
        let is_missing = !is_removed(changes, name)
            && is_missing(alloc, disk, name).unwrap_or(false);
        if is_missing && json {
            push_warning(out, name, b"does not exist")?;
        } else if is_missing {
            push_missing_warning(out, name.text())?;
        }
    }
    Ok(())
}

/// The units of a `disable` or an `unmask`.
fn units_of(action: &Action) -> Option<&Units>
    ensures { option_copied result ≡ warnings.removed_units action.now }
{
    match action {
        Action::Disable(disable) => Some(&disable.units),
        Action::Unmask(unmask) => Some(&unmask.units),
        Action::Enable(_) | Action::Reenable(_) | Action::Preset(_) | Action::Mask(_) => None,
        Action::LinkUnits(_) | Action::AddTo(_) | Action::SetDefault(_) => None,
        Action::PlaceEntry(_) | Action::RemoveEntry(_) => None,
        Action::IsEnabled(_) | Action::GetDefault(_) | Action::Dependencies(_) => None,
    }
}

/// Appends warnings on the units of a `disable` or an `unmask` that exist nowhere. The changes of
/// the row are not made on the disk yet.
pub fn push_warnings<D: Disk>(
    alloc: Global,
    out: &mut Vec<u8>,
    disk: &mut D,
    row: &Row<Action>,
    json: bool,
) -> Result<(), AllocError> {
    let changes = row.changes.as_slice();
    match &row.request {
        Request::Do(action) => match units_of(action) {
            Some(units) => push_missing(alloc, out, disk, units, changes, json),
            None => Ok(()),
        },
        Request::Undo(_) | Request::Redo(_) => Ok(()),
    }
}
