//! Copies of actions.

use crate::lines;
use footprint::{Answer, Operation, Outcome};
use link_tree::{Tree, push_decimal};
use sample_rows::{Row, assert_rows};
use std::alloc::{AllocError, Global};
use std::test::Fail;
use unit_script::Action;

/// The line of an action and that of another one; what the copy of the first is, and how many
/// changes it makes on the empty tree. There is no such unit, so what looks one up is refused.
const ROWS: &[u8] = b"\
    copy\ta enable x.service\ta disable x.service\ta command, not done\n\
    copy\ta disable x.service\ta disable y.service\ta command, changes: 0\n\
    copy\ta reenable x.service\ta enable x.service\ta command, not done\n\
    copy\ta preset x.service\ta preset --runtime x.service\ta command, not done\n\
    copy\ta mask x.service\ta unmask x.service\ta command, changes: 1\n\
    copy\ta unmask x.service\ta unmask --runtime x.service\ta command, changes: 0\n\
    copy\ta link /x.service\ta link /y.service\ta command, not done\n\
    copy\ta add-wants x.target y.service\ta add-requires x.target y.service\ta command, not done\n\
    copy\ta set-default x.target\ta set-default y.target\ta command, not done\n\
    copy\ta place /etc/systemd/system/x.service file a\t\
        a place /etc/systemd/system/x.service file b\ta command, changes: 1\n\
    copy\ta remove /etc/systemd/system/x.service\t\
        a remove /etc/systemd/system/y.service\ta command, not done\n\
    copy\ta is-enabled x.service\ta is-enabled y.service\ta question, not done\n\
    copy\ta get-default\ta is-enabled default.target\ta question, not done\n\
    copy\ta dependencies x.service\ta dependencies --reverse x.service\ta question, not done\n\
    ";

/// Adds how many changes there are, or that the answer isn't `Done`.
fn push_outcome(out: &mut Vec<u8>, outcome: &Outcome) -> Result<(), AllocError> {
    match outcome.answer {
        Answer::Done(_) => {
            out.extend_from_slice(b"changes: ")?;
            push_decimal(out, outcome.changes.as_slice().len())
        }
        _ => out.extend_from_slice(b"not done"),
    }
}

/// Adds what an action results in on the empty tree.
fn push_run(alloc: Global, action: &Action, out: &mut Vec<u8>) -> Result<(), AllocError> {
    let tree = Box::new(alloc, Tree::empty(alloc)?)?;
    push_outcome(out, &*Box::new(alloc, action.run(alloc, &tree)?)?)
}

/// Says whether a copy is the same as its action and not as another one, and whether it is only a
/// question.
fn kind_of(copy: &Action, action: &Action, other: &Action) -> &'static [u8] {
    if !copy.same(action) || copy.same(other) {
        return b"another action, ";
    }
    if copy.asks_only() {
        b"a question, "
    } else {
        b"a command, "
    }
}

fn push_copy(
    alloc: Global,
    action: &Action,
    other: &Action,
    out: &mut Vec<u8>,
) -> Result<(), AllocError> {
    let copy = Box::new(alloc, action.copy()?)?;
    out.extend_from_slice(kind_of(&copy, action, other))?;
    push_run(alloc, &copy, out)
}

fn answer(alloc: Global, row: &Row) -> Result<Vec<u8>, AllocError> {
    let mut out = Vec::new(alloc);
    let action = lines::action(alloc, &row.one)?;
    let other = lines::action(alloc, &row.two)?;
    push_copy(alloc, &action, &other, &mut out)?;
    Ok(out)
}

#[test]
fn a_copy_does_the_same(rt: HostRuntime) -> Result<(), Fail> {
    assert_rows(rt.alloc(), ROWS, answer)
}
