//! The states and presets of units.
ghost use Rattle.std.specs.Prelude.{◌≡◌, IfOk, map as list_map};
ghost use Rattle.preset_rules.specs.Files.{policy_of};
ghost use Rattle.preset_rules.specs.Verdicts.{verdict};
ghost use Rattle.states.specs.IsEnabled.{state_word};
ghost use Rattle.unit_lists.specs.UnitLines.{listed_state_text, preset_text, shows_preset, preset_word, preset_shown, state_of, line_by, line_of};

use footprint::{Answer, Operation, StateWord};
use link_tree::Tree;
use preset_rules::{Policy, Verdict};
use states::IsEnabled;
use std::alloc::{AllocError, Global};
use unit_name::UnitName;

/// What the preset files say of a unit: systemd.preset(5).
#[derive(Clone, Copy, Debug, PartialEq, Eq)]
pub enum PresetWord {
    Enabled,
    Disabled,
    Ignored,
}

impl PresetWord {
    /// The word: `enabled`, `disabled` or `ignored`.
    pub fn text(self) -> &'static str
        ensures { result.now ≡ preset_text self }
    {
        match self {
            PresetWord::Enabled => "enabled",
            PresetWord::Disabled => "disabled",
            PresetWord::Ignored => "ignored",
        }
    }
}

/// A unit with its state, and what the preset files say of it. This is shown for each state but
/// `Alias` and `Static`.
#[derive(Debug, Drop)]
pub struct UnitLine {
    pub name: UnitName,
    pub state: StateWord,
    pub preset: Option<PresetWord>,
}

/// The word for a state in a list: that of systemctl(1), `is-enabled`, but `bad` for a name whose
/// links lead nowhere, which `is-enabled` doesn't find.
pub fn listed_state_text(state: StateWord) -> &'static str
    ensures { result.now ≡ listed_state_text state }
{
    match state {
        StateWord::NotFound => "bad",
        StateWord::Masked => "masked",
        StateWord::MaskedRuntime => "masked-runtime",
        StateWord::Alias => "alias",
        StateWord::Enabled => "enabled",
        StateWord::EnabledRuntime => "enabled-runtime",
        StateWord::Linked => "linked",
        StateWord::LinkedRuntime => "linked-runtime",
        StateWord::Static => "static",
        StateWord::Indirect => "indirect",
        StateWord::Disabled => "disabled",
    }
}

/// Whether what preset files say is shown for units of this state.
fn shows_preset(state: StateWord) -> bool
    ensures { result ≡ shows_preset state }
{
    match state {
        StateWord::Alias | StateWord::Static => false,
        StateWord::NotFound | StateWord::Masked | StateWord::MaskedRuntime => true,
        StateWord::Enabled | StateWord::EnabledRuntime => true,
        StateWord::Linked | StateWord::LinkedRuntime => true,
        StateWord::Indirect | StateWord::Disabled => true,
    }
}

fn preset_word(verdict: &Verdict) -> PresetWord
    ensures { result ≡ preset_word verdict.now }
{
    match verdict {
        Verdict::Enable(_) => PresetWord::Enabled,
        Verdict::Disable => PresetWord::Disabled,
        Verdict::Ignore => PresetWord::Ignored,
    }
}

/// What is shown for a unit of a state.
pub(crate) fn preset_shown(
    alloc: Global,
    policy: &Policy,
    name: &UnitName,
    state: StateWord,
) -> Result<Option<PresetWord>, AllocError>
    ensures { IfOk result (λ shown. shown ≡ preset_shown state (verdict policy.now.rules name.now)) }
{
    if !shows_preset(state) {
        return Ok(None);
    }
    let verdict = policy.verdict(alloc, name)?;
    Ok(Some(preset_word(&verdict)))
}

/// The state of a unit, as `is-enabled` answers.
pub(crate) fn state_of(alloc: Global, tree: &Tree, name: &UnitName) -> Result<StateWord, AllocError>
    ensures { IfOk result (λ state. state ≡ state_of tree.now name.now) }
{
    let question = IsEnabled { unit: name.copy()? };
    let outcome = question.run(alloc, tree)?;
    match outcome.answer {
        Answer::State(state) => Ok(state),
        Answer::Done(_) | Answer::Name(_) | Answer::Names(_) | Answer::Refused(_) => unreachable!(),
    }
}

fn unit_line(
    alloc: Global,
    tree: &Tree,
    policy: &Policy,
    name: &UnitName,
) -> Result<UnitLine, AllocError>
    ensures { IfOk result (λ line. line ≡ line_by tree.now policy.now.rules name.now) }
{
    let state = state_of(alloc, tree, name)?;
    Ok(UnitLine {
        name: name.copy()?,
        state,
        preset: preset_shown(alloc, policy, name, state)?,
    })
}

/// The lines of units, in this order: each with its state, and with what the preset files of the
/// tree say of it. The preset files are read once. Fails only if memory runs out.
///
/// systemctl(1), `list-unit-files` and `is-enabled`; systemd.preset(5).
pub fn unit_lines(
    alloc: Global,
    tree: &Tree,
    names: &[UnitName],
) -> Result<Vec<UnitLine>, AllocError>
    ensures { IfOk result (λ lines. lines.items ≡ list_map (line_of tree.now) names.now) }
{
    let policy = Policy::of(alloc, tree)?;
    let mut lines = Vec::new(alloc);
    for name in names {
        lines.push(unit_line(alloc, tree, &policy, name)?)?;
    }
    Ok(lines)
}
