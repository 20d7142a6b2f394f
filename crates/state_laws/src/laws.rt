//! Properties that hold for all trees: each function does nothing, and its contract is the law.
ghost use Rattle.state_laws.specs.Laws.{DisabledIsNotEnabled, EnabledAfterEnable, MaskedAfterMask};

/// After an accepted `enable`, `is-enabled` answers `enabled` for each of its units, and
/// (transitively) each unit in their `Also=`, that asks for a link other than one under its own
/// name in a unit directory: a link under its name in the directory of a unit that wants or
/// requires it; or, if it is no instance and nothing was there before, one under the name of its
/// default instance, or an alias. With `--runtime` it answers `enabled-runtime`, if no link of /etc
/// belongs to the unit.
///
/// The unit must be found under its own name afterwards: an alias of another unit may hide it.
pub fn enabled_units_are_told_enabled()
    ensures { EnabledAfterEnable }
{}

/// After an accepted `mask`, `is-enabled` answers `masked` for each of its units; with `--runtime`
/// it answers `masked-runtime`, if there is nothing at the unit's path in /etc.
pub fn masked_units_are_told_masked()
    ensures { MaskedAfterMask }
{}

/// After an accepted `disable`, `is-enabled` doesn't answer `enabled` for any of its names, and
/// with `--runtime` not `enabled-runtime`.
pub fn names_disabled_are_not_told_enabled()
    ensures { DisabledIsNotEnabled }
{}
