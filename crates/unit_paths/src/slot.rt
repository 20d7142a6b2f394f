//! Slots: the paths at which commands place entries.
ghost use Rattle.std.specs.Prelude.{◌≡◌, Some, IfOk};
ghost use Rattle.unit_paths.specs.Paths.{parent, name_at};
ghost use Rattle.unit_paths.specs.Places.{place_of};
ghost use Rattle.unit_paths.specs.Slots.{unit_slot, dependency_ending, dependency_slot, slot_of_dependency, is_dependency_directory, dependency_directory_slots, dependency_slots_in, slots_in, is_preset_name, is_name_for, named_slot, slot_of};
ghost use Rattle.unit_paths.specs.Kinds.{is_unit_slot, is_preset, dependency_of, is_dependency, scope_of};

use crate::path::TreePath;
use crate::place::{Place, Scope, place_of, preset_place_of};
use crate::text::cut_at_last_slash;
use std::alloc::{AllocError, Global};
use unit_name::{UnitName, is_unit_name};

/// How a unit depends on another by a link in a dependency directory: systemd.unit(5), `Wants=`,
/// `Requires=` and `Upholds=`.
#[derive(Clone, Copy, Debug, PartialEq, Eq, Hash)]
pub enum Dependency {
    /// By a link in `OF.wants/`.
    Wants,
    /// By a link in `OF.requires/`.
    Requires,
    /// By a link in `OF.upholds/`.
    Upholds,
}

impl Dependency {
    /// How the name of the dependency directory ends: `.wants`, `.requires` or `.upholds`.
    #[tactic(auto, unfolding(crate::specs::Slots::dependency_ending))]
    pub fn ending(self) -> &'static str
        ensures { result.now ≡ dependency_ending self }
    {
        match self {
            Dependency::Wants => ".wants",
            Dependency::Requires => ".requires",
            Dependency::Upholds => ".upholds",
        }
    }
}

/// What kind of slot a path is. A slot is a path at which commands create, replace or remove an
/// entry.
#[derive(Clone, Copy, Debug, PartialEq, Eq, Hash)]
pub enum Slot {
    /// `DIR/NAME`: a unit's file, or a link in its place.
    Unit(Place),
    /// `DIR/OF.wants/NAME`: a link by which the unit `OF` wants the unit `NAME`.
    Wants(Place),
    /// `DIR/OF.requires/NAME`: a link by which the unit `OF` requires the unit `NAME`.
    Requires(Place),
    /// `DIR/OF.upholds/NAME`: a link by which the unit `OF` upholds the unit `NAME`.
    Upholds(Place),
    /// `FILE.preset` in a directory of presets: systemd.preset(5).
    Preset(Place),
}

impl Slot {
    /// Which slot the path is; `None` if it is none.
    pub fn of(path: &TreePath) -> Option<Slot>
        ensures { result ≡ slot_of path.now }
    {
        slot_of(path.text())
    }

    /// Whether the path is the slot of a unit: a unit's name in one of the four directories of
    /// units.
    pub fn is_of_unit(path: &TreePath) -> bool
        ensures { result ≡ is_unit_slot (slot_of path.now) }
    {
        match Slot::of(path) {
            Some(Slot::Unit(_)) => true,
            Some(Slot::Wants(_) | Slot::Requires(_) | Slot::Upholds(_) | Slot::Preset(_)) => false,
            None => false,
        }
    }

    /// Whether the path is the slot of a file of presets: `FILE.preset` in a directory of presets.
    pub fn is_of_preset(path: &TreePath) -> bool
        ensures { result ≡ is_preset (slot_of path.now) }
    {
        match Slot::of(path) {
            Some(Slot::Preset(_)) => true,
            Some(Slot::Unit(_) | Slot::Wants(_) | Slot::Requires(_) | Slot::Upholds(_)) => false,
            None => false,
        }
    }

    /// How the unit of the directory depends on the unit of the slot: at `DIR/OF.wants/NAME` the
    /// unit `OF` wants the unit `NAME`. `None` if the path is no slot in a dependency directory.
    pub fn dependency_of(path: &TreePath) -> Option<Dependency>
        ensures { result ≡ dependency_of (slot_of path.now) }
    {
        match Slot::of(path) {
            Some(Slot::Wants(_)) => Some(Dependency::Wants),
            Some(Slot::Requires(_)) => Some(Dependency::Requires),
            Some(Slot::Upholds(_)) => Some(Dependency::Upholds),
            None | Some(Slot::Unit(_) | Slot::Preset(_)) => None,
        }
    }

    /// Whether the path is a slot in a dependency directory: a unit's name in `OF.wants`,
    /// `OF.requires` or `OF.upholds` below one of the four directories of units.
    pub fn is_of_dependency(path: &TreePath) -> bool
        ensures { result ≡ is_dependency (slot_of path.now) }
    {
        Slot::dependency_of(path).is_some()
    }

    /// The scope in whose directory of units the path is the slot of a unit or of a dependency;
    /// `None` if it is no such slot, or one below `/usr`.
    pub fn scope_of(path: &TreePath) -> Option<Scope>
        ensures { result ≡ scope_of (slot_of path.now) }
    {
        match Slot::of(path) {
            Some(
                Slot::Unit(place)
                | Slot::Wants(place)
                | Slot::Requires(place)
                | Slot::Upholds(place),
            ) => place.scope(),
            None | Some(Slot::Preset(_)) => None,
        }
    }
}

impl Place {
    /// The slot of a unit in the directory: `DIR/NAME`. The only error is that memory runs out.
    pub fn slot(self, alloc: Global, name: &UnitName) -> Result<TreePath, AllocError>
        ensures path { IfOk result (λ path. path ≡ unit_slot self name.now) }
        ensures slot { IfOk result (λ path. slot_of path ≡ Some (Slot.Unit self)) }
    {
        let text = unit_slot(alloc, self, name.text())?;
        Ok(TreePath::of_text(text).unwrap())
    }

    /// The slot of the link by which the unit `of` depends on the unit `name`: `DIR/OF.wants/NAME`,
    /// `DIR/OF.requires/NAME` or `DIR/OF.upholds/NAME`. The only error is that memory runs out.
    pub fn dependency_slot(
        self,
        alloc: Global,
        dependency: Dependency,
        of: &UnitName,
        name: &UnitName,
    ) -> Result<TreePath, AllocError>
        ensures path { IfOk result (λ path. path ≡ dependency_slot self dependency of.now name.now) }
        ensures slot { IfOk result (λ path. slot_of path ≡ Some (slot_of_dependency self dependency)) }
    {
        let text = dependency_slot(alloc, self, dependency, of.text(), name.text())?;
        Ok(TreePath::of_text(text).unwrap())
    }
}

fn unit_slot(alloc: Global, place: Place, name: &[u8]) -> Result<Vec<u8>, AllocError>
    ensures { IfOk result (λ text. text.items ≡ unit_slot place name.now) }
{
    let mut text = Vec::from_slice(alloc, place.directory().as_bytes())?;
    text.push(b'/')?;
    text.extend_from_slice(name)?;
    Ok(text)
}

fn dependency_slot(
    alloc: Global,
    place: Place,
    dependency: Dependency,
    of: &[u8],
    name: &[u8],
) -> Result<Vec<u8>, AllocError>
    ensures { IfOk result (λ text. text.items ≡ dependency_slot place dependency of.now name.now) }
{
    let mut path = unit_slot(alloc, place, of)?;
    path.extend_from_slice(dependency.ending().as_bytes())?;
    path.push(b'/')?;
    path.extend_from_slice(name)?;
    Ok(path)
}

/// Whether a name is that of a dependency directory: a unit's name and the ending.
#[tactic(auto, unfolding(crate::specs::Slots::is_dependency_directory))]
fn is_dependency_directory(ending: &[u8], name: &[u8]) -> bool
    ensures { result ≡ is_dependency_directory ending.now name.now }
{
    name.ends_with(ending) && is_unit_name(&name[..name.len() - ending.len()])
}

/// Which slots the dependency directory of this name contains, if it is one.
#[tactic(auto, unfolding(crate::specs::Slots::dependency_directory_slots))]
fn dependency_directory_slots(place: Place, name: &[u8]) -> Option<Slot>
    ensures { result ≡ dependency_directory_slots place name.now }
{
    if is_dependency_directory(b".wants", name) {
        Some(Slot::Wants(place))
    } else if is_dependency_directory(b".requires", name) {
        Some(Slot::Requires(place))
    } else if is_dependency_directory(b".upholds", name) {
        Some(Slot::Upholds(place))
    } else {
        None
    }
}

/// Which slots this dependency directory contains, if it is one.
fn dependency_slots_in(dir: &[u8]) -> Option<Slot>
    ensures { result ≡ dependency_slots_in (place_of (parent dir.now)) (name_at dir.now) }
{
    let (dir, name) = cut_at_last_slash(dir);
    match place_of(dir) {
        Some(place) => dependency_directory_slots(place, name),
        None => None,
    }
}

/// Which slots a directory contains, if it can contain any.
#[tactic(auto, unfolding(crate::specs::Slots::slots_in))]
pub(crate) fn slots_in(dir: &[u8]) -> Option<Slot>
    ensures { result ≡ slots_in dir.now }
{
    match place_of(dir) {
        Some(place) => Some(Slot::Unit(place)),
        None => match preset_place_of(dir) {
            Some(place) => Some(Slot::Preset(place)),
            None => dependency_slots_in(dir),
        },
    }
}

/// Whether a name is that of a file of presets: a name and `.preset`.
#[tactic(auto, unfolding(crate::specs::Slots::is_preset_name))]
fn is_preset_name(name: &[u8]) -> bool
    ensures { result ≡ is_preset_name name.now }
{
    name.ends_with(b".preset") && name != b".preset".as_slice()
}

/// Whether an entry at a slot of this kind may have the name.
fn is_name_for(slot: Slot, name: &[u8]) -> bool
    ensures { result ≡ is_name_for slot name.now }
{
    match slot {
        Slot::Unit(_) | Slot::Wants(_) | Slot::Requires(_) | Slot::Upholds(_) => {
            is_unit_name(name)
        }
        Slot::Preset(_) => is_preset_name(name),
    }
}

fn named_slot(slot: Slot, name: &[u8]) -> Option<Slot>
    ensures { result ≡ named_slot (Some slot) name.now }
{
    if is_name_for(slot, name) {
        Some(slot)
    } else {
        None
    }
}

#[tactic(auto, unfolding(crate::specs::Slots::slot_of))]
pub(crate) fn slot_of(path: &[u8]) -> Option<Slot>
    ensures { result ≡ slot_of path.now }
{
    let (dir, name) = cut_at_last_slash(path);
    match slots_in(dir) {
        Some(slot) => named_slot(slot, name),
        None => None,
    }
}
