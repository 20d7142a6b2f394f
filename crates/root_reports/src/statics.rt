//! Warnings on units that were to be enabled, and whose files ask for no links.
ghost use Rattle.std.specs.Prelude.{◌≡◌};
ghost use Rattle.std.specs.Option.{option_copied};
ghost use Rattle.root_reports.specs.Warnings as warnings;

use crate::made::Made;
use footprint::{StateWord, Units};
use history::{Request, Row};
use link_tree::Tree;
use root_json::push_warning;
use std::alloc::{AllocError, Global};
use unit_lists::unit_lines;
use unit_name::UnitName;
use unit_script::Action;

/// What is wrong with such a unit.
const NOTHING: &[u8] =
    b"has nothing to enable: no WantedBy=, RequiredBy=, UpheldBy=, Also= or Alias= in [Install]";

/// The units of an `enable` or a `reenable`.
fn units_of(action: &Action) -> Option<&Units>
    ensures { option_copied result ≡ warnings.enabled_units action.now }
{
    match action {
        Action::Enable(enable) => Some(&enable.units),
        Action::Reenable(reenable) => Some(&reenable.units),
        Action::Disable(_) | Action::Preset(_) | Action::Mask(_) | Action::Unmask(_) => None,
        Action::LinkUnits(_) | Action::AddTo(_) | Action::SetDefault(_) => None,
        Action::PlaceEntry(_) | Action::RemoveEntry(_) => None,
        Action::IsEnabled(_) | Action::GetDefault(_) | Action::Dependencies(_) => None,
    }
}

fn push_one(out: &mut Vec<u8>, name: &UnitName, json: bool) -> Result<(), AllocError> {
    if json {
        return push_warning(out, name, NOTHING);
    }
    out.extend_from_slice(name.text())?;
    out.push(b' ')?;
    out.extend_from_slice(NOTHING)?;
    Ok(out.extend_from_slice(b".\n")?)
}

/// Appends a warning for each of the units that is static in a tree: its file asks for no links.
fn push_static(
    alloc: Global,
    out: &mut Vec<u8>,
    tree: &Tree,
    units: &Units,
    json: bool,
) -> Result<(), AllocError> {
    for line in &unit_lines(alloc, tree, units.as_slice())? {
        if line.state == StateWord::Static {
            push_one(out, &line.name, json)?;
        }
    }
    Ok(())
}

fn push_of_row(
    alloc: Global,
    out: &mut Vec<u8>,
    tree: &Tree,
    row: &Row<Action>,
    json: bool,
) -> Result<(), AllocError> {
    match &row.request {
        Request::Do(action) => match units_of(action) {
            Some(units) => push_static(alloc, out, tree, units, json),
            None => Ok(()),
        },
        Request::Undo(_) | Request::Redo(_) => Ok(()),
    }
}

/// Appends warnings on the units of an `enable` or a `reenable` that can't be enabled, unless a call
/// was refused. systemctl(1), `enable`.
pub fn push_static_warnings(
    alloc: Global,
    out: &mut Vec<u8>,
    made: &Made<'_>,
    json: bool,
) -> Result<(), AllocError> {
    if made.is_refused() {
        return Ok(());
    }
    for row in made.rows() {
        push_of_row(alloc, out, made.history.tree(), row, json)?;
    }
    Ok(())
}
