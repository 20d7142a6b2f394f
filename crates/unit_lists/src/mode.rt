//! Which units a preset is for.
ghost use Rattle.std.specs.Prelude.{◌≡◌, IfOk};
ghost use Rattle.std.specs.List.{filter};
ghost use Rattle.preset_rules.specs.Verdicts.{verdict};
ghost use Rattle.unit_lists.specs.Modes.{is_in_mode, names_by, names_in_mode};

use footprint::Units;
use link_tree::Tree;
use preset_rules::{Policy, Verdict};
use std::alloc::{AllocError, Global};
use unit_name::UnitName;

/// Which units a preset is for: systemctl(1), `--preset-mode=`.
#[derive(Clone, Copy, Debug, PartialEq, Eq)]
pub enum Mode {
    /// All of them.
    Full,
    /// Those that the preset files enable.
    EnableOnly,
    /// Those that the preset files disable.
    DisableOnly,
}

/// Whether a unit of which the preset files say this is one of the mode's.
fn is_in_mode(mode: Mode, verdict: &Verdict) -> bool
    ensures { result ≡ is_in_mode mode verdict.now }
{
    match (mode, verdict) {
        (Mode::Full, Verdict::Enable(_) | Verdict::Disable | Verdict::Ignore) => true,
        (Mode::EnableOnly, Verdict::Enable(_)) => true,
        (Mode::EnableOnly, Verdict::Disable | Verdict::Ignore) => false,
        (Mode::DisableOnly, Verdict::Disable) => true,
        (Mode::DisableOnly, Verdict::Enable(_) | Verdict::Ignore) => false,
    }
}

fn names_by(
    alloc: Global,
    policy: &Policy,
    mode: Mode,
    names: &[UnitName],
) -> Result<Units, AllocError>
    ensures { IfOk result (λ these. these ≡ names_by mode policy.now.rules names.now) }
{
    let mut these = Units::none(alloc);
    for name in names {
        let verdict = policy.verdict(alloc, name)?;
        if is_in_mode(mode, &verdict) {
            these.push(name.copy()?)?;
        }
    }
    Ok(these)
}

/// Those of the units that a preset with this mode is for, in the same order, by what the tree's
/// preset files say of them. A `preset` of these alone does what a preset of all of them with the
/// mode does. Fails only if memory runs out.
///
/// systemctl(1), `preset` and `--preset-mode=`; systemd.preset(5).
pub fn names_in_mode(
    alloc: Global,
    tree: &Tree,
    mode: Mode,
    names: &[UnitName],
) -> Result<Units, AllocError>
    ensures { IfOk result (λ these. these ≡ names_in_mode tree.now mode names.now) }
{
    let policy = Policy::of(alloc, tree)?;
    names_by(alloc, &policy, mode, names)
}
