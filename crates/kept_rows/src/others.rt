//! What others did to a root, as calls.
ghost use Rattle.std.specs.Prelude.{◌≡◌, ◌∷◌, [], ◌++◌, IfOk, OnOk};
ghost use Rattle.std.specs.List.{flat_map};
ghost use Rattle.kept_rows.specs.Others.{outside, removal, placement, calls_of_change, calls_of_others, MakeChanges};

use history::{BadOperator, Operator, Request};
use link_tree::{Change, Entry, TreePath};
use slot_commands::{PlaceEntry, RemoveEntry};
use std::alloc::{AllocError, Global};
use unit_script::{Action, Call};

/// The operator of what others did.
#[tactic(auto, unfolding(history::specs::Operators::is_operator, history::specs::Operators::is_operator_byte))]
fn outside() -> Operator
    ensures { result ≡ outside }
{
    match Operator::parse(b"outside") {
        Ok(operator) => operator,
        Err(BadOperator) => unreachable!(),
    }
}

fn push_removal(calls: &mut Vec<Call>, path: &TreePath) -> Result<(), AllocError>
    ensures { OnOk result (calls.new.items ≡ calls.old.items ++ removal path.now ∷ []) }
{
    let remove = RemoveEntry { path: path.copy()? };
    Ok(calls.push(Call {
        operator: outside(),
        request: Request::Do(Action::RemoveEntry(remove)),
    })?)
}

fn push_placement(calls: &mut Vec<Call>, path: &TreePath, entry: &Entry) -> Result<(), AllocError>
    ensures { OnOk result (calls.new.items ≡ calls.old.items ++ placement path.now entry.now ∷ []) }
{
    let place = PlaceEntry {
        path: path.copy()?,
        entry: entry.copy()?,
    };
    Ok(calls.push(Call {
        operator: outside(),
        request: Request::Do(Action::PlaceEntry(place)),
    })?)
}

/// Adds the calls that make a change.
fn push_change(calls: &mut Vec<Call>, change: &Change) -> Result<(), AllocError>
    ensures { OnOk result (calls.new.items ≡ calls.old.items ++ calls_of_change change.now) }
{
    match (&change.before, &change.after) {
        (None, None) => Ok(()),
        (Some(_), None) => push_removal(calls, &change.path),
        (None, Some(new)) => push_placement(calls, &change.path, new),
        (Some(_), Some(new)) => {
            push_removal(calls, &change.path)?;
            push_placement(calls, &change.path, new)
        }
    }
}

fn push_changes(calls: &mut Vec<Call>, changes: &[Change]) -> Result<(), AllocError>
    ensures { OnOk result (calls.new.items ≡ calls.old.items ++ flat_map calls_of_change changes.now) }
{
    for change in changes {
        push_change(calls, change)?;
    }
    Ok(())
}

/// The calls by which the operator `outside` makes the changes that others made: for each change,
/// the old entry is removed if there is one, and the new one is placed if there is one. If the
/// changes are those at slots from the tree of a history to the tree that was captured
/// (`slot_changes_between` of `tree_steps`), each call is accepted, and together they lead there.
/// Fails only if memory runs out.
pub fn calls_of_others(alloc: Global, changes: &[Change]) -> Result<Vec<Call>, AllocError>
    ensures calls { IfOk result (λ calls. calls.items ≡ calls_of_others changes.now) }
    ensures lead { IfOk result (λ calls. MakeChanges changes.now calls.items) }
{
    let mut calls = Vec::new(alloc);
    push_changes(&mut calls, changes)?;
    Ok(calls)
}
