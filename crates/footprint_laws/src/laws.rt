//! What operations look at: each function does nothing, and its contract is the law. The keys are
//! those of the reading of the operation in any tree, with any arguments, also if it is refused.
ghost use Rattle.footprint.specs.Operations.{OperationLaws};
ghost use Rattle.footprint_laws.specs.Discovery.{ClosureLooksInOrder};
ghost use Rattle.footprint_laws.specs.Installs.{CheckLooks, ClosureLooks, DisableLooks, EnableLooks, PresetLooks, ReenableLooks};
ghost use Rattle.footprint_laws.specs.Questions.{DependenciesLook, GetDefaultLooks, IsEnabledLooks};
ghost use Rattle.footprint_laws.specs.Slots.{AddLooks, LinkLooks, MaskLooks, PlaceLooks, RemoveLooks, SetDefaultLooks, UnmaskLooks};
ghost use Rattle.footprint_laws.specs.Whole.{OthersNeverLookAtAllLinks};

use footprint::Operation;

/// An operation looks at each path that it changes. Its changes start from what is in the tree and
/// are in byte order of their paths, each path once. If it is refused, or is a question, it changes
/// nothing.
pub fn operations_look_at_what_they_change<O: Operation>()
    ensures { OperationLaws O.asks O.meaning }
{}

/// `get-default` looks at exactly the paths at which `default.target` is looked up.
pub fn get_default_looks_its_target_up()
    ensures { GetDefaultLooks }
{}

/// `is-enabled` looks at exactly the paths at which its unit is looked up; and, if that is found
/// under its own name, at the links that belong to it, in both scopes.
pub fn is_enabled_looks_at_its_unit_and_its_links()
    ensures { IsEnabledLooks }
{}

/// `list-dependencies` looks at all slots of dependencies, and at nothing else.
pub fn dependencies_look_at_all_links()
    ensures { DependenciesLook }
{}

/// No other operation looks at all slots of dependencies, in any tree: a key of them in what it
/// looks at makes this false.
pub fn other_operations_never_look_at_all_links()
    ensures { OthersNeverLookAtAllLinks }
{}

/// `mask` looks at exactly the slots of its units, up to the first that has anything but a link to
/// `/dev/null`.
pub fn mask_looks_at_its_slots()
    ensures { MaskLooks }
{}

/// `unmask` looks at exactly the slots of its units.
pub fn unmask_looks_at_its_slots()
    ensures { UnmaskLooks }
{}

/// Placing an entry by hand looks at exactly its path, if that is a slot, and else at nothing.
pub fn place_looks_at_its_slot()
    ensures { PlaceLooks }
{}

/// Removing an entry by hand looks at exactly its path, if that is a slot, and else at nothing.
pub fn remove_looks_at_its_slot()
    ensures { RemoveLooks }
{}

/// `set-default` looks at exactly the paths at which its unit is looked up; and, if the unit is
/// found and may be the default, at the link of `default.target`.
pub fn set_default_looks_its_unit_up_and_at_the_link()
    ensures { SetDefaultLooks }
{}

/// `link` looks at exactly these: for each of its paths, up to the first that is refused, in the
/// tree that has the links to the earlier ones, the path and the paths to which links lead from it;
/// and, if they lead to a file that will be linked, the file's slot.
pub fn link_follows_its_paths_and_looks_at_their_slots()
    ensures { LinkLooks }
{}

/// `add-wants` and `add-requires` look at exactly these: the paths at which the target is looked
/// up; if it is found, for each unit, up to the first that is refused, in the tree that has the
/// links to the earlier ones, the paths at which it is looked up, and the slot of its link.
pub fn add_looks_its_units_up_and_at_their_slots()
    ensures { AddLooks }
{}

/// A closure over `Also=` looks at exactly the paths at which one of its units is looked up, or a
/// name that a word of its `Also=` gives. One that is refused looks at no others.
pub fn closures_look_their_units_up()
    ensures { ClosureLooks }
{}

/// A closure looks at exactly these paths, also if it is refused for over 1,024 units: those of the
/// finds in the order of discovery, up to the one that gives one unit too many. If too many units
/// are given, it looks at nothing.
pub fn closures_look_in_order_of_discovery()
    ensures { ClosureLooksInOrder }
{}

/// `check` looks at exactly the paths at which its units are looked up, up to the first that isn't
/// found under its own name.
pub fn check_looks_its_units_up()
    ensures { CheckLooks }
{}

/// `enable` looks at exactly these: the paths at which its units are looked up, up to the first
/// that isn't found under its own name; if there is none, those at which the units that they reach
/// by `Also=` are, together with what these name; and, once it is settled which links are wanted,
/// the path of each. If the units are too many it looks at no others.
pub fn enable_looks_its_units_up_and_at_its_links()
    ensures { EnableLooks }
{}

/// An accepted `disable` looks at exactly these: the paths at which its names are looked up (each
/// unit, the own name of each that is found, and the units that are included with them, together
/// with what those name); for each of the names, the links of the scope that belong to it, and the
/// paths of those links. One that is refused looks at no others.
pub fn disable_looks_its_units_up_and_at_their_links()
    ensures { DisableLooks }
{}

/// `reenable` looks at exactly these: the keys of a `check`; if all units pass it, the paths at
/// which the names of a `disable` are looked up, the links of the scope that belong to one of them,
/// and the paths of those that are removed; and, in the tree that is left, the keys of an `enable`.
/// If the units are too many it looks at no others.
pub fn reenable_looks_as_disable_and_then_as_enable()
    ensures { ReenableLooks }
{}

/// `preset` looks at exactly these: the paths at which its units are looked up, up to the first
/// that isn't found; if all are, all slots of presets, and the paths to which the winning ones
/// lead; the keys of a `disable` of the units that are disabled; and, in the tree that is left,
/// those of an `enable` of the units that are enabled. A unit that the presets ignore is in neither
/// part. If the units are too many it looks at no others.
pub fn preset_looks_as_disable_and_then_as_enable()
    ensures { PresetLooks }
{}
