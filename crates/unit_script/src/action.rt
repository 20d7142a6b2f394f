//! The commands and questions of scripts, as one type of operation.

use footprint::{Operation, Outcome};
use install_commands::{Disable, Enable, Preset, Reenable};
use link_tree::Tree;
use slot_commands::{AddTo, LinkUnits, Mask, PlaceEntry, RemoveEntry, SetDefault, Unmask};
use states::{Dependencies, GetDefault, IsEnabled};
use std::alloc::{AllocError, Global};

/// A command or a question of a script with its arguments. systemctl(1), "Unit File Commands".
///
/// Each variant is an operation of `install_commands`, `slot_commands` or `states`, and behaves as
/// that one does: its meaning, and so its answer, its changes and what it looks at, are that
/// operation's. Those of `states` are questions, which change nothing and aren't commands.
///
/// `run` and `copy` fail only if memory runs out, and then nothing has changed.
#[derive(Debug, Drop)]
pub enum Action {
    /// `enable`
    Enable(Enable),
    /// `disable`
    Disable(Disable),
    /// `reenable`
    Reenable(Reenable),
    /// `preset`
    Preset(Preset),
    /// `mask`
    Mask(Mask),
    /// `unmask`
    Unmask(Unmask),
    /// `link`
    LinkUnits(LinkUnits),
    /// `add-wants` and `add-requires`
    AddTo(AddTo),
    /// `set-default`
    SetDefault(SetDefault),
    /// `place`, which systemctl doesn't have: puts an entry at an empty slot.
    PlaceEntry(PlaceEntry),
    /// `remove`, which systemctl doesn't have: removes the entry at a slot.
    RemoveEntry(RemoveEntry),
    /// `is-enabled`
    IsEnabled(IsEnabled),
    /// `get-default`
    GetDefault(GetDefault),
    /// `dependencies`, which is `list-dependencies` of systemctl, but follows only links.
    Dependencies(Dependencies),
}

impl Operation for Action {
    ghost use Rattle.unit_script.specs.Actions as actions;
    ghost use Rattle.unit_script.specs.ActionLaws.{action_laws};

    ghost meaning = { actions.meaning };

    ghost asks = { actions.asks };

    ghost laws = { action_laws };

    fn run(&self, alloc: Global, tree: &Tree) -> Result<Outcome, AllocError> {
        match self {
            Action::Enable(enable) => enable.run(alloc, tree),
            Action::Disable(disable) => disable.run(alloc, tree),
            Action::Reenable(reenable) => reenable.run(alloc, tree),
            Action::Preset(preset) => preset.run(alloc, tree),
            Action::Mask(mask) => mask.run(alloc, tree),
            Action::Unmask(unmask) => unmask.run(alloc, tree),
            Action::LinkUnits(link) => link.run(alloc, tree),
            Action::AddTo(add) => add.run(alloc, tree),
            Action::SetDefault(set) => set.run(alloc, tree),
            Action::PlaceEntry(place) => place.run(alloc, tree),
            Action::RemoveEntry(remove) => remove.run(alloc, tree),
            Action::IsEnabled(question) => question.run(alloc, tree),
            Action::GetDefault(question) => question.run(alloc, tree),
            Action::Dependencies(question) => question.run(alloc, tree),
        }
    }

    fn asks_only(&self) -> bool {
        match self {
            Action::IsEnabled(_) | Action::GetDefault(_) | Action::Dependencies(_) => true,
            Action::Enable(_)
            | Action::Disable(_)
            | Action::Reenable(_)
            | Action::Preset(_)
            | Action::Mask(_)
            | Action::Unmask(_)
            | Action::LinkUnits(_)
            | Action::AddTo(_)
            | Action::SetDefault(_)
            | Action::PlaceEntry(_)
            | Action::RemoveEntry(_) => false,
        }
    }

    fn copy(&self) -> Result<Action, AllocError> {
        match self {
            Action::Enable(enable) => Ok(Action::Enable(enable.copy()?)),
            Action::Disable(disable) => Ok(Action::Disable(disable.copy()?)),
            Action::Reenable(reenable) => Ok(Action::Reenable(reenable.copy()?)),
            Action::Preset(preset) => Ok(Action::Preset(preset.copy()?)),
            Action::Mask(mask) => Ok(Action::Mask(mask.copy()?)),
            Action::Unmask(unmask) => Ok(Action::Unmask(unmask.copy()?)),
            Action::LinkUnits(link) => Ok(Action::LinkUnits(link.copy()?)),
            Action::AddTo(add) => Ok(Action::AddTo(add.copy()?)),
            Action::SetDefault(set) => Ok(Action::SetDefault(set.copy()?)),
            Action::PlaceEntry(place) => Ok(Action::PlaceEntry(place.copy()?)),
            Action::RemoveEntry(remove) => Ok(Action::RemoveEntry(remove.copy()?)),
            Action::IsEnabled(question) => Ok(Action::IsEnabled(question.copy()?)),
            Action::GetDefault(question) => Ok(Action::GetDefault(question.copy()?)),
            Action::Dependencies(question) => Ok(Action::Dependencies(question.copy()?)),
        }
    }

    fn same(&self, other: &Action) -> bool {
        match (self, other) {
            (Action::Enable(one), Action::Enable(other)) => one.same(other),
            (Action::Disable(one), Action::Disable(other)) => one.same(other),
            (Action::Reenable(one), Action::Reenable(other)) => one.same(other),
            (Action::Preset(one), Action::Preset(other)) => one.same(other),
            (Action::Mask(one), Action::Mask(other)) => one.same(other),
            (Action::Unmask(one), Action::Unmask(other)) => one.same(other),
            (Action::LinkUnits(one), Action::LinkUnits(other)) => one.same(other),
            (Action::AddTo(one), Action::AddTo(other)) => one.same(other),
            (Action::SetDefault(one), Action::SetDefault(other)) => one.same(other),
            (Action::PlaceEntry(one), Action::PlaceEntry(other)) => one.same(other),
            (Action::RemoveEntry(one), Action::RemoveEntry(other)) => one.same(other),
            (Action::IsEnabled(one), Action::IsEnabled(other)) => one.same(other),
            (Action::GetDefault(one), Action::GetDefault(other)) => one.same(other),
            (Action::Dependencies(one), Action::Dependencies(other)) => one.same(other),
            _ => false,
        }
    }
}
