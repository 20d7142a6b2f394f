//! The order in which changes are made.
ghost use Rattle.std.specs.Prelude.{◌≡◌, ◌++◌, IfOk, OnOk};
ghost use Rattle.tree_steps.specs.Steps.{is_file, is_link, comes_in, those, in_turn};

use link_tree::{Change, Entry};
use std::alloc::{AllocError, Global};

/// The turn in which a change is made, by what it does.
#[derive(Clone, Copy, Debug)]
pub(crate) enum Turn {
    FilesPut,
    LinksPut,
    LinksTaken,
    FilesTaken,
}

fn is_file(entry: &Option<Entry>) -> bool
    ensures { result ≡ is_file entry.now }
{
    matches!(entry, Some(Entry::File(_)))
}

fn is_link(entry: &Option<Entry>) -> bool
    ensures { result ≡ is_link entry.now }
{
    matches!(entry, Some(Entry::Link(_)))
}

impl Turn {
    /// Whether the change is made in this turn.
    fn has(self, change: &Change) -> bool
        ensures { result ≡ comes_in self change.now }
    {
        match self {
            Turn::FilesPut => is_file(&change.after),
            Turn::LinksPut => is_link(&change.after),
            Turn::LinksTaken => change.after.is_none() && is_link(&change.before),
            Turn::FilesTaken => change.after.is_none() && !is_link(&change.before),
        }
    }
}

/// Appends the changes of one turn.
fn push_those(steps: &mut Vec<Change>, turn: Turn, changes: &[Change]) -> Result<(), AllocError>
    ensures { OnOk result (steps.new.items ≡ steps.old.items ++ those turn changes.now) }
{
    for change in changes {
        if turn.has(change) {
            steps.push(change.copy()?)?;
        }
    }
    Ok(())
}

/// The changes, in the order of their turns.
pub(crate) fn in_turn(alloc: Global, changes: &[Change]) -> Result<Vec<Change>, AllocError>
    ensures { IfOk result (λ steps. steps.items ≡ in_turn changes.now) }
{
    let mut steps = Vec::with_capacity(alloc, changes.len())?;
    push_those(&mut steps, Turn::FilesPut, changes)?;
    push_those(&mut steps, Turn::LinksPut, changes)?;
    push_those(&mut steps, Turn::LinksTaken, changes)?;
    push_those(&mut steps, Turn::FilesTaken, changes)?;
    Ok(steps)
}
