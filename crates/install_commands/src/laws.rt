//! Properties of the commands that hold for all trees: each function does nothing, and its contract
//! is the law.
ghost use Rattle.install_commands.specs.CompositeLaws.{PresetAgain, PresetDisablesAll, PresetEnablesAll, PresetInTurn, PresetJudges, ReenableClears, ReenableInTurn, ReenableOfEnabled};
ghost use Rattle.install_commands.specs.Laws.{CheckPasses, CheckRefusesFirst, DisableAfterEnable, DisableAgain, DisableRefused, DisableRemoves, EnableAgain, EnableJoins};

/// Units pass the check of `enable` exactly if each is found under its own name; otherwise the
/// first that isn't is refused.
pub fn the_first_unit_amiss_is_refused()
    ensures passes { CheckPasses }
    ensures refused { CheckRefusesFirst }
{}

/// After an accepted `enable` the tree is the old tree with the links added that the units ask for,
/// and those that the units in their `Also=` (transitively) ask for; everything that existed before
/// still exists.
pub fn enable_joins_the_wanted_links()
    ensures { EnableJoins }
{}

/// An `enable` after an accepted one of the same units makes no change, if everything that it looks
/// up is unchanged.
///
/// Without that condition it may: an instance that dangled may be found by a link that was made,
/// and join by an `Also=`.
pub fn enable_again_changes_nothing()
    ensures { EnableAgain }
{}

/// After a `disable` the tree is the old tree without the links of the scope that belong to one of
/// the names: those that are given, the own names of those that are found, and those of the units
/// that are included through `Also=`. It is refused exactly if there are over 1,024 such units.
pub fn disable_removes_what_belongs_to_the_names()
    ensures removes { DisableRemoves }
    ensures refused { DisableRefused }
{}

/// A `disable` after one of the same units makes no change, if everything that it looks up is
/// unchanged.
///
/// Without that condition it may: if a unit was found through a link, another file of that name may
/// be found after it is removed, with an `Also=` of its own.
pub fn disable_again_changes_nothing()
    ensures { DisableAgain }
{}

/// After an `enable` and a `disable` of the same units, no link of the scope belongs to one of the
/// units that were enabled, if everything that `disable` looks up is as it was before.
///
/// Without that condition one may be left: if an alias that was made hides a unit, `Also=` no
/// longer names that unit.
pub fn disable_takes_enabled_units_away()
    ensures { DisableAfterEnable }
{}

/// A `reenable` leaves the tree that `enable` makes from the tree that its disable part leaves, and
/// is refused exactly if one of the two is refused, each in its own tree.
pub fn reenable_is_disable_and_then_enable()
    ensures { ReenableInTurn }
{}

/// The disable part of a `reenable` accepts the units that `enable` accepts, and leaves the tree
/// without the links of the scope that belong to one of the names of a `disable`, except those
/// through which a file outside the unit directories is found.
pub fn reenable_keeps_the_ways_to_linked_units()
    ensures { ReenableClears }
{}

/// A `reenable` of units whose links are as `enable` makes them changes nothing: everything that is
/// removed is wanted exactly as it was, and everything that is wanted exists. The condition is that
/// what is looked up is unchanged after the links are removed.
///
/// Without that condition it may change something: if a unit was found through one of these links,
/// another file of that name may be found instead.
pub fn reenable_of_enabled_units_changes_nothing()
    ensures { ReenableOfEnabled }
{}

/// A `preset` disables those of its units that count and that the preset files of the first tree
/// say to disable, and enables what the other units give: for a template with listed instances each
/// of these that makes a valid name, and for any other unit the unit itself.
pub fn preset_judges_by_the_first_tree()
    ensures { PresetJudges }
{}

/// A `preset` leaves the tree that `enable` makes from the tree that `disable` leaves, with the
/// units that its verdicts give to each. It is refused exactly if one of the two is refused, each
/// in its own tree; and before both, if a unit isn't found, for the first such unit.
pub fn preset_is_disable_and_then_enable()
    ensures { PresetInTurn }
{}

/// If there is no preset file, `preset` does what `enable` does with those of its units that count,
/// except that a word that would need an instance is skipped; and if the only rule is `disable *`,
/// it does what `disable` does with them.
pub fn preset_without_rules_enables_and_under_disable_all_disables()
    ensures enables { PresetEnablesAll }
    ensures disables { PresetDisablesAll }
{}

/// A `preset` after the same `preset` makes no change, if for each part everything that it looks up
/// is unchanged.
///
/// Without that condition it may: a unit that wasn't found before may be found through a link that
/// was made.
pub fn preset_again_changes_nothing()
    ensures { PresetAgain }
{}
