//! Calls on a tree, one after another.
ghost use Rattle.std.specs.Prelude.{◌≡◌, ◌<◌, ◌≤◌, [], length, IfOk, OnOk};
ghost use Rattle.history.specs.Rows.{run, rows_after};

use footprint::Operation;
use history::{History, Operator, Request};
use link_tree::Tree;
use std::alloc::{AllocError, Global};

/// Makes one call. The history has room for its row, so only memory may be missing.
fn make_call<O: Operation>(
    alloc: Global,
    history: &mut History<O>,
    operator: Operator,
    request: &Request<O>,
) -> Result<(), AllocError>
    requires room { length history.old.rows < history.old.limit }
    ensures first { history.new.first ≡ history.old.first }
    ensures limit { history.new.limit ≡ history.old.limit }
    ensures rows { OnOk result (history.new.rows ≡ rows_after O.asks O.meaning history.old.first history.old.rows (operator, request.now)) }
{
    match request {
        Request::Do(operation) => match history.call(alloc, operator, operation.copy()?) {
            Ok(_row) => Ok(()),
            Err(_unrun) => Err(AllocError),
        },
        Request::Undo(n) => match history.undo(alloc, operator, *n) {
            Ok(_row) => Ok(()),
            Err(_why) => Err(AllocError),
        },
        Request::Redo(n) => match history.redo(alloc, operator, *n) {
            Ok(_row) => Ok(()),
            Err(_why) => Err(AllocError),
        },
    }
}

/// The history of calls on a tree, at most as many as a history has rows. The calls are borrowed,
/// since they are made again if the tree turns out to lack a part.
pub(crate) fn make_calls<O: Operation>(
    alloc: Global,
    tree: Tree,
    calls: &[(Operator, Request<O>)],
) -> Result<History<O>, AllocError>
    requires few { length calls.now ≤ 1000000 }
    ensures first { IfOk result (λ history. history.first ≡ tree) }
    ensures rows { IfOk result (λ history. history.rows ≡ run O.asks O.meaning tree [] calls.now) }
{
    let mut history = History::new(alloc, tree)?;
    for (operator, request) in calls {
        make_call(alloc, &mut history, *operator, request)?;
    }
    Ok(history)
}
