//! The units of which a preset of all units is one: systemctl(1), `preset-all`.
ghost use Rattle.std.specs.Prelude.{◌≡◌, ◌-◌, IfOk, None, Some, Err, nat_le, map as list_map};
ghost use Rattle.std.specs.List.{count_by, filter, filter_map};
ghost use Rattle.std.specs.Option.{option_copied};
ghost use Rattle.unit_lists.specs.UnitFiles.{unit_files};
ghost use Rattle.unit_lists.specs.Modes.{names_in_mode};
ghost use Rattle.unit_lists.specs.Chosen.{section_role, found_role, named_role, role_of, all_with_roles, is_chosen, is_bare, is_linked, is_masked, is_alias, is_dangling, names_chosen, names_bare, bare_in_mode, chosen_of, all_chosen, line_len, fault_of, chosen_fault};

use crate::listing::unit_files;
use crate::mode::{Mode, names_in_mode};
use footprint::Units;
use install_section::{Section, section_into};
use link_tree::{Scope, Tree};
use load_path::{Cells, Found, find};
use std::alloc::{AllocError, Global};
use unit_name::UnitName;

/// The most units that are preset together.
pub const MAX_UNITS: usize = 1024;

/// The most bytes that a line of a script has before its end.
pub const MAX_LINE: usize = 65_536;

/// What a listed name is for a preset of all units.
#[derive(Clone, Copy, Debug)]
enum Role {
    /// It is found as itself, and its [Install] section names a unit or asks for a link.
    Chosen,
    /// It is found as itself, and its section does neither.
    Bare,
    Masked,
    /// It is another name of a unit.
    Alias,
    /// Its links lead nowhere.
    Dangling,
}

/// A name with its role.
#[derive(Drop)]
struct Listed {
    name: UnitName,
    role: Role,
}

/// The units of which a preset of all units is one, in the order in which they are listed, and how
/// many of the other names are left out for what reason.
#[derive(Debug, Drop)]
pub struct Chosen {
    pub names: Units,
    /// The units that a `preset` passes over, and of which `preset-all` removes the links: they are
    /// found as themselves, their [Install] section names no unit and asks for no link, the preset
    /// files disable them, and links of `/etc` or `/run` belong to them. A `disable` of these
    /// before the `preset` does the same.
    pub bare: Units,
    /// How many lead to `/dev/null` or to an empty file.
    pub masked: usize,
    /// How many are another name of a unit.
    pub aliases: usize,
    /// How many are links that lead to no file of such a unit.
    pub dangling: usize,
}

/// Why there is no preset of all units.
#[derive(Clone, Copy, Debug, PartialEq, Eq)]
pub enum PresetFault {
    /// There are over 1,024 of them.
    TooManyUnits,
    /// A line with their names has over 65,536 bytes.
    LineTooLong,
}

/// Why `preset_names` gives no names.
#[derive(Clone, Copy, Debug, PartialEq, Eq)]
pub enum PresetError {
    /// See `PresetFault`.
    TooManyUnits,
    /// See `PresetFault`.
    LineTooLong,
    /// Memory ran out.
    OutOfMemory,
}

impl From<AllocError> for PresetError {
    ghost use Rattle.unit_lists.specs.declared.chosen.PresetError.TheVariants as errors;

    ghost from_gives = { λ _ e. e ≡ errors.OutOfMemory };

    fn from(_e: AllocError) -> PresetError {
        PresetError::OutOfMemory
    }
}

/// By the section of a unit that is found as itself.
fn section_role(section: Option<&Section>) -> Role
    ensures { result ≡ section_role (option_copied section.entry) }
{
    match section {
        Some(section) if !section.is_empty() => Role::Chosen,
        Some(_) | None => Role::Bare,
    }
}

/// By what a name is found as.
fn found_role(
    alloc: Global,
    tree: &Tree,
    name: &UnitName,
    found: &Found,
) -> Result<Role, AllocError>
    ensures { IfOk result (λ role. role ≡ found_role tree.now name.now found.now) }
{
    match found {
        Found::Missing | Found::Dangling(_) => Ok(Role::Dangling),
        Found::Masked(_) => Ok(Role::Masked),
        Found::Unit { real, .. } => named_role(alloc, tree, name, real),
    }
}

/// By the name that the unit has.
fn named_role(
    alloc: Global,
    tree: &Tree,
    name: &UnitName,
    real: &UnitName,
) -> Result<Role, AllocError>
    ensures { IfOk result (λ role. role ≡ named_role tree.now name.now real.now) }
{
    if real.text() != name.text() {
        return Ok(Role::Alias);
    }
    let mut cells = Cells::new(alloc);
    let section = section_into(alloc, tree, name, &mut cells)?;
    Ok(section_role(section.as_ref()))
}

fn role_of(alloc: Global, tree: &Tree, name: &UnitName) -> Result<Role, AllocError>
    ensures { IfOk result (λ role. role ≡ role_of tree.now name.now) }
{
    let look = find(alloc, tree, name)?;
    found_role(alloc, tree, name, &look.found)
}

fn all_with_roles(alloc: Global, tree: &Tree, names: &[UnitName]) -> Result<Vec<Listed>, AllocError>
    ensures { IfOk result (λ listed. listed.items ≡ all_with_roles tree.now names.now) }
{
    let mut listed = Vec::new(alloc);
    for name in names {
        listed.push(Listed {
            name: name.copy()?,
            role: role_of(alloc, tree, name)?,
        })?;
    }
    Ok(listed)
}

fn is_chosen(role: Role) -> bool
    ensures { result ≡ is_chosen role }
{
    matches!(role, Role::Chosen)
}

fn is_masked(role: Role) -> bool
    ensures { result ≡ is_masked role }
{
    matches!(role, Role::Masked)
}

fn is_alias(role: Role) -> bool
    ensures { result ≡ is_alias role }
{
    matches!(role, Role::Alias)
}

fn is_dangling(role: Role) -> bool
    ensures { result ≡ is_dangling role }
{
    matches!(role, Role::Dangling)
}

fn is_bare(role: Role) -> bool
    ensures { result ≡ is_bare role }
{
    matches!(role, Role::Bare)
}

/// Whether links of one of the scopes belong to a name.
fn is_linked(tree: &Tree, name: &UnitName) -> bool
    ensures { result ≡ is_linked tree.now name.now }
{
    !tree.belonging(Scope::Etc, name).is_empty() || !tree.belonging(Scope::Run, name).is_empty()
}

fn names_chosen(alloc: Global, listed: &[Listed]) -> Result<Units, AllocError>
    ensures { IfOk result (λ names. names ≡ names_chosen listed.now) }
{
    let mut names = Units::none(alloc);
    for one in listed {
        if is_chosen(one.role) {
            names.push(one.name.copy()?)?;
        }
    }
    Ok(names)
}

/// The names that are found as themselves and ask for nothing, but have links.
fn names_bare(alloc: Global, tree: &Tree, listed: &[Listed]) -> Result<Units, AllocError>
    ensures { IfOk result (λ names. names ≡ names_bare tree.now listed.now) }
{
    let mut names = Units::none(alloc);
    for one in listed {
        if is_bare(one.role) && is_linked(tree, &one.name) {
            names.push(one.name.copy()?)?;
        }
    }
    Ok(names)
}

/// Those of them that the preset files disable, if the mode disables units.
fn bare_in_mode(
    alloc: Global,
    tree: &Tree,
    mode: Mode,
    names: &[UnitName],
) -> Result<Units, AllocError>
    ensures { IfOk result (λ these. these ≡ bare_in_mode tree.now mode names.now) }
{
    match mode {
        Mode::EnableOnly => Ok(Units::none(alloc)),
        Mode::Full | Mode::DisableOnly => names_in_mode(alloc, tree, Mode::DisableOnly, names),
    }
}

fn count_masked(listed: &[Listed]) -> usize
    ensures { result ≡ count_by (λ one. is_masked one.role) listed.now }
{
    listed.iter().filter(|one| is_masked(one.role)).count()
}

fn count_aliases(listed: &[Listed]) -> usize
    ensures { result ≡ count_by (λ one. is_alias one.role) listed.now }
{
    listed.iter().filter(|one| is_alias(one.role)).count()
}

fn count_dangling(listed: &[Listed]) -> usize
    ensures { result ≡ count_by (λ one. is_dangling one.role) listed.now }
{
    listed.iter().filter(|one| is_dangling(one.role)).count()
}

/// How many have a role are counted, and the names of those that are chosen are kept.
fn chosen_of(
    alloc: Global,
    tree: &Tree,
    mode: Mode,
    listed: &[Listed],
) -> Result<Chosen, AllocError>
    ensures { IfOk result (λ chosen. chosen ≡ chosen_of tree.now mode listed.now) }
{
    let names = names_chosen(alloc, listed)?;
    let bare = names_bare(alloc, tree, listed)?;
    Ok(Chosen {
        names: names_in_mode(alloc, tree, mode, names.as_slice())?,
        bare: bare_in_mode(alloc, tree, mode, bare.as_slice())?,
        masked: count_masked(listed),
        aliases: count_aliases(listed),
        dangling: count_dangling(listed),
    })
}

/// Whether the names, each after a space, fit into this many bytes.
fn have_room(names: &[UnitName], room: usize) -> bool
    ensures { result ≡ nat_le (line_len names.now) room }
{
    let mut room = room;
    for name in names {
        match room.checked_sub(name.text().len() + 1) {
            Some(left) => room = left,
            None => return false,
        }
    }
    true
}

/// What keeps these names from a line with this many bytes before them.
fn fault_of(before: usize, names: &[UnitName]) -> Option<PresetFault>
    ensures { result ≡ fault_of before names.now }
{
    if names.len() > MAX_UNITS {
        Some(PresetFault::TooManyUnits)
    } else if have_room(names, MAX_LINE.saturating_sub(before)) {
        None
    } else {
        Some(PresetFault::LineTooLong)
    }
}

/// What keeps one of the two lists from its line.
fn chosen_fault(before: usize, chosen: &Chosen) -> Option<PresetFault>
    ensures { result ≡ chosen_fault before chosen.now }
{
    match fault_of(before, chosen.names.as_slice()) {
        Some(fault) => Some(fault),
        None => fault_of(before, chosen.bare.as_slice()),
    }
}

/// The units of a tree of which a preset of all units is one: each listed name that is found as
/// itself, and whose [Install] section names a unit or asks for a link; of these, those that the
/// mode takes by what the preset files say. `before` is how many bytes a line has before the first
/// name and its space.
///
/// systemctl(1), `preset-all` and `--preset-mode=`.
///
/// - `TooManyUnits`: there are over 1,024 of them, or of the units that a `disable` is for.
/// - `LineTooLong`: a line with them has over 65,536 bytes: those before, and for each name a space
///   and the name.
/// - `OutOfMemory`.
pub fn preset_names(
    alloc: Global,
    tree: &Tree,
    mode: Mode,
    before: usize,
) -> Result<Chosen, PresetError>
    ensures chosen { IfOk result (λ chosen. chosen ≡ all_chosen mode tree.now) }
    ensures fits { IfOk result (λ chosen. chosen_fault before chosen ≡ None) }
    ensures many { result ≡ Err PresetError.TooManyUnits → chosen_fault before (all_chosen mode tree.now) ≡ Some PresetFault.TooManyUnits }
    ensures long { result ≡ Err PresetError.LineTooLong → chosen_fault before (all_chosen mode tree.now) ≡ Some PresetFault.LineTooLong }
{
    let names = unit_files(alloc, tree)?;
    let listed = all_with_roles(alloc, tree, names.as_slice())?;
    let chosen = chosen_of(alloc, tree, mode, &listed)?;
    match chosen_fault(before, &chosen) {
        None => Ok(chosen),
        Some(PresetFault::TooManyUnits) => Err(PresetError::TooManyUnits),
        Some(PresetFault::LineTooLong) => Err(PresetError::LineTooLong),
    }
}
