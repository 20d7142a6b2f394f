//! A history at one moment, and plans that are made on it.
ghost use Rattle.std.specs.Prelude.{◌≡◌, IfOk, IfErr};
ghost use Rattle.history.specs.Plans.{planned};
ghost use Rattle.history.specs.declared.history.CallError.TheVariants.{OutOfMemory};
ghost use Rattle.shared_admin.specs.Events.{snapshot_of};

use footprint::Operation;
use history::{History, Plan, Unrun};
use link_tree::Tree;
use std::alloc::{AllocError, Global};

/// A history's tree as it was after this many rows. Calls on the history don't change it.
#[derive(Drop)]
pub struct Snapshot {
    pub tree: Tree,
    /// How many rows there were.
    pub front: u32,
}

/// A snapshot of a history as it is now. The tree is shared, not copied, until one of the two is
/// changed.
pub(crate) fn snapshot_of<O: Operation>(history: &History<O>) -> Result<Snapshot, AllocError>
    ensures { IfOk result (λ snapshot. snapshot ≡ snapshot_of O.asks O.meaning history.now) }
{
    Ok(Snapshot {
        tree: history.tree().share()?,
        front: history.rows().len() as u32,
    })
}

/// Runs an operation on a snapshot, which is unchanged; no history is changed. Fails only if memory
/// runs out, and then returns the operation.
pub fn plan<O: Operation>(
    alloc: Global,
    snapshot: &Snapshot,
    operation: O,
) -> Result<Plan<O>, Unrun<O>>
    ensures plan { IfOk result (λ plan. plan ≡ planned O.meaning operation snapshot.now.tree) }
    ensures handed_back { IfErr result (λ unrun. unrun.operation ≡ operation) }
    ensures why { IfErr result (λ unrun. unrun.why ≡ OutOfMemory) }
{
    Plan::make(alloc, operation, &snapshot.tree)
}
