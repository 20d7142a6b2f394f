//! Laws of the commands on all trees: each function does nothing, and its contract is the law.
ghost use Rattle.slot_commands.specs.Masks.{MaskFills, UnmaskEmpties};
ghost use Rattle.slot_commands.specs.LinkUnits.{FilesAreLinked};
ghost use Rattle.slot_commands.specs.AddTo.{DependenciesAreAdded};
ghost use Rattle.slot_commands.specs.SetDefault.{DefaultIsSet};
ghost use Rattle.slot_commands.specs.ByHand.{PlaceFills, RemoveEmpties};

/// Links to `/dev/null` fill empty slots. The command is refused for the first slot where anything
/// else is, even a file.
pub fn masks_fill_empty_slots()
    ensures { MaskFills }
{}

/// `unmask` removes links to `/dev/null` and empty files, and is never refused.
pub fn unmask_takes_masks_away()
    ensures { UnmaskEmpties }
{}

/// An accepted `link` fills empty slots of the scope with links to the files, under their names.
/// Nothing else changes, and afterwards each file that isn't in a directory of units is linked.
pub fn files_are_linked_under_their_names()
    ensures { FilesAreLinked }
{}

/// An accepted `add-wants` or `add-requires` has found its target and each of the units. Afterwards
/// a link in the target's directory, under the name by which each unit is listed, leads to the
/// unit's file. Only these links are new, and nothing else changes.
pub fn dependencies_are_links_of_the_target()
    ensures { DependenciesAreAdded }
{}

/// An accepted `set-default` has found its unit, and the link `default.target` leads to the unit's
/// file: a link that led there before stays, and any other is replaced by one to the file's path.
/// Nothing else changes.
pub fn the_default_leads_to_the_units_file()
    ensures { DefaultIsSet }
{}

/// By hand, an entry is placed exactly if its slot is empty. Nothing else changes.
pub fn entries_are_placed_in_empty_slots()
    ensures { PlaceFills }
{}

/// By hand, an entry is removed exactly if its slot has one. Nothing else changes.
pub fn entries_are_removed_from_slots()
    ensures { RemoveEmpties }
{}
