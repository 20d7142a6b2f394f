//! The calls of presets on a tree.
ghost use Rattle.std.specs.Prelude.{◌≡◌, ◌++◌, IfOk, OnOk};
ghost use Rattle.root_reports.specs.Calls as calling;

use crate::presets::units_in_mode;
use footprint::Units;
use history::{Operator, Request};
use install_commands::{Disable, Preset};
use link_tree::{Scope, Tree};
use std::alloc::{AllocError, Global};
use unit_lists::{Chosen, Mode};
use unit_script::{Action, Call};

/// Adds a call of an operator, unless it names no unit.
fn push_units_call(
    calls: &mut Vec<Call>,
    operator: Operator,
    units: &Units,
    action: Action,
) -> Result<(), AllocError>
    ensures { OnOk result (calls.new.items ≡ calls.old.items ++ calling.call_for operator units.now action) }
{
    if units.as_slice().is_empty() {
        return Ok(());
    }
    let request = Request::Do(action);
    Ok(calls.push(Call { operator, request })?)
}

/// The calls, of which each `preset` has only the units that the mode takes.
pub fn calls_in_mode(
    alloc: Global,
    tree: &Tree,
    mode: Mode,
    calls: &[Call],
) -> Result<Vec<Call>, AllocError> {
    let mut taken = Vec::new(alloc);
    for call in calls {
        if let Request::Do(Action::Preset(preset)) = &call.request {
            let units = units_in_mode(alloc, tree, mode, &preset.units)?;
            push_preset(&mut taken, call.operator, preset.scope, &units)?;
        }
    }
    Ok(taken)
}

fn push_preset(
    calls: &mut Vec<Call>,
    operator: Operator,
    scope: Scope,
    units: &Units,
) -> Result<(), AllocError>
    ensures { OnOk result (calls.new.items ≡ calls.old.items ++ calling.preset_for operator scope units.now) }
{
    let preset = Action::Preset(Preset {
        scope,
        units: units.copy()?,
    });
    push_units_call(calls, operator, units, preset)
}

/// The calls of `preset-all`: a `disable` of the units without install words that have links, and a
/// `preset` of all others.
pub fn preset_all_calls(
    alloc: Global,
    chosen: &Chosen,
    operator: Operator,
    scope: Scope,
) -> Result<Vec<Call>, AllocError>
    ensures { IfOk result (λ calls. calls.items ≡ calling.preset_all_calls operator scope chosen.now) }
{
    let mut calls = Vec::new(alloc);
    let units = chosen.bare.copy()?;
    let disable = Action::Disable(Disable { scope, units });
    push_units_call(&mut calls, operator, &chosen.bare, disable)?;
    push_preset(&mut calls, operator, scope, &chosen.names)?;
    Ok(calls)
}
