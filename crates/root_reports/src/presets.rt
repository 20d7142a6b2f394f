//! The units that presets take: all of a tree, or those that a mode leaves.
ghost use Rattle.std.specs.Prelude.{◌≡◌};
ghost use Rattle.std.specs.List.{list_any};
ghost use Rattle.std.specs.Str.{bytes_eq};
ghost use Rattle.root_reports.specs.Calls as calling;

use footprint::Units;
use history::Operator;
use link_tree::Tree;
use load_path::{Found, find};
use root_access::Failure;
use root_words::PresetMode;
use std::alloc::{AllocError, Global};
use unit_lists::{Chosen, Mode, PresetError, names_in_mode, preset_names};
use unit_name::UnitName;

pub fn mode_of(mode: PresetMode) -> Mode
    ensures { result ≡ calling.mode_of mode }
{
    match mode {
        PresetMode::Full => Mode::Full,
        PresetMode::EnableOnly => Mode::EnableOnly,
        PresetMode::DisableOnly => Mode::DisableOnly,
    }
}

/// Whether a name is found as a unit. Of any other name a `preset` says why not.
fn is_unit(alloc: Global, tree: &Tree, name: &UnitName) -> Result<bool, AllocError> {
    Ok(match find(alloc, tree, name)?.found {
        Found::Unit { .. } => true,
        Found::Missing | Found::Masked(_) | Found::Dangling(_) => false,
    })
}

fn has(names: &[UnitName], name: &UnitName) -> bool
    ensures { result ≡ list_any (λ other. bytes_eq other name.now) names.now }
{
    names.iter().any(|other| other.text() == name.text())
}

/// The units of a `preset` that its mode takes, and those for which it is refused.
pub fn units_in_mode(
    alloc: Global,
    tree: &Tree,
    mode: Mode,
    units: &Units,
) -> Result<Units, AllocError> {
    let taken = names_in_mode(alloc, tree, mode, units.as_slice())?;
    let mut units_left = Units::none(alloc);
    for name in units.as_slice() {
        if has(taken.as_slice(), name) || !is_unit(alloc, tree, name)? {
            units_left.push(name.copy()?)?;
        }
    }
    Ok(units_left)
}

/// The units that `preset-all` names.
pub fn choose_all(
    alloc: Global,
    tree: &Tree,
    operator: Operator,
    mode: Mode,
) -> Result<Chosen, Failure> {
    // OPERATOR preset --runtime
    let before = operator.text().len() + 17;
    match preset_names(alloc, tree, mode, before) {
        Ok(chosen) => Ok(chosen),
        Err(PresetError::TooManyUnits) => Err(Failure::units(
            alloc,
            "preset-all: over 1,024 units",
        )),
        Err(PresetError::LineTooLong) => {
            Err(Failure::units(alloc, "preset-all: over 65,536 bytes of names"))
        }
        Err(PresetError::OutOfMemory) => Err(Failure::OutOfMemory),
    }
}

/// How many names `preset-all` leaves out, if there are any.
pub fn left_out_text(alloc: Global, chosen: &Chosen) -> Result<Option<String>, AllocError> {
    let Chosen {
        masked,
        aliases,
        dangling,
        ..
    } = chosen;
    if *masked == 0 && *aliases == 0 && *dangling == 0 {
        return Ok(None);
    }
    Ok(Some(format!(in alloc;
        "left out: {masked} masked, {aliases} aliases, {dangling} dangling links"
    )?))
}
