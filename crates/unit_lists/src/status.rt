//! All that a tree says of one unit.
ghost use Rattle.std.specs.Prelude.{◌≡◌, ◌++◌, IfOk, OnOk, OnErr, is_some};
ghost use Rattle.std.specs.FinMap as map;
ghost use Rattle.std.specs.Option.{option_copied};
ghost use Rattle.load_path.specs.Find.{find};
ghost use Rattle.link_tree.specs.Belonging.{belonging};
ghost use Rattle.unit_paths.specs.declared.place.Scope.TheVariants as scopes;
ghost use Rattle.preset_rules.specs.Files.{policy_of};
ghost use Rattle.preset_rules.specs.Verdicts.{verdict};
ghost use Rattle.unit_lists.specs.UnitLines.{state_of, preset_shown};
ghost use Rattle.unit_lists.specs.Statuses.{entry_slot, mask_of};

use crate::unit_line::{PresetWord, preset_shown, state_of};
use footprint::StateWord;
use link_tree::{Place, Scope, Tree, TreePath};
use load_path::{Found, find};
use preset_rules::Policy;
use std::alloc::{AllocError, Global};
use unit_name::{Kind, UnitName};

/// All that a tree says of one unit.
#[derive(Debug, Drop)]
pub struct UnitStatus {
    pub name: UnitName,
    /// What the name is found as, and in which file.
    pub found: Found,
    pub state: StateWord,
    /// What the preset files say. It is shown for each state but `Alias` and `Static`.
    pub preset: Option<PresetWord>,
    /// The path of the entry that masks it.
    pub mask: Option<TreePath>,
    /// The paths of the links of `/etc` that belong to the name, in byte order.
    pub etc: Vec<TreePath>,
    /// Those of `/run`.
    pub run: Vec<TreePath>,
}

/// The slot of the directory at which the entry of a name is: its own, or that of its template.
fn entry_slot(
    alloc: Global,
    tree: &Tree,
    place: Place,
    name: &UnitName,
) -> Result<TreePath, AllocError>
    ensures { IfOk result (λ path. path ≡ entry_slot tree.now place name.now) }
{
    let own = place.slot(alloc, name)?;
    if tree.get(&own).is_some() {
        return Ok(own);
    }
    match name.kind() {
        Kind::Plain | Kind::Template => Ok(own),
        Kind::Instance => place.slot(alloc, &name.template(alloc)?),
    }
}

/// The path of the entry that masks a unit, if one does.
fn mask_of(
    alloc: Global,
    tree: &Tree,
    name: &UnitName,
    found: &Found,
) -> Result<Option<TreePath>, AllocError>
    ensures { IfOk result (λ mask. mask ≡ mask_of tree.now name.now found.now) }
{
    match found {
        Found::Masked(place) => Ok(Some(entry_slot(alloc, tree, *place, name)?)),
        Found::Missing | Found::Dangling(_) | Found::Unit { .. } => Ok(None),
    }
}

fn copied(alloc: Global, paths: &[TreePath]) -> Result<Vec<TreePath>, AllocError>
    ensures { IfOk result (λ copy. copy.items ≡ paths.now) }
{
    let mut copy = Vec::new(alloc);
    for path in paths {
        copy.push(path.copy()?)?;
    }
    Ok(copy)
}

/// What a tree says of a unit: where it is found, its state, what the preset files say of it, what
/// masks it, and the links of `/etc` and `/run` that belong to its name, which enable it. Fails
/// only if memory runs out.
///
/// systemctl(1), `status`, `is-enabled`, `disable` and `mask`; systemd.preset(5).
pub fn unit_status(alloc: Global, tree: &Tree, name: &UnitName) -> Result<UnitStatus, AllocError>
    ensures name { IfOk result (λ status. status.name ≡ name.now) }
    ensures found { IfOk result (λ status. status.found ≡ (find name.now).conclusion tree.now) }
    ensures state { IfOk result (λ status. status.state ≡ state_of tree.now name.now) }
    ensures preset { IfOk result (λ status. status.preset ≡ preset_shown (state_of tree.now name.now) (verdict ((policy_of tree.now).conclusion tree.now) name.now)) }
    ensures mask { IfOk result (λ status. status.mask ≡ mask_of tree.now name.now ((find name.now).conclusion tree.now)) }
    ensures etc { IfOk result (λ status. status.etc.items ≡ belonging scopes.Etc name.now tree.now) }
    ensures run { IfOk result (λ status. status.run.items ≡ belonging scopes.Run name.now tree.now) }
{
    let policy = Policy::of(alloc, tree)?;
    let found = find(alloc, tree, name)?.found;
    let state = state_of(alloc, tree, name)?;
    let mask = mask_of(alloc, tree, name, &found)?;
    Ok(UnitStatus {
        name: name.copy()?,
        found,
        state,
        preset: preset_shown(alloc, &policy, name, state)?,
        mask,
        etc: copied(alloc, tree.belonging(Scope::Etc, name))?,
        run: copied(alloc, tree.belonging(Scope::Run, name))?,
    })
}
