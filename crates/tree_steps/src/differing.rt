//! How two trees differ.
ghost use Rattle.std.specs.Prelude.{◌≡◌, IfOk, OnOk};
ghost use Rattle.link_tree.specs.Differences.{changes_between};
ghost use Rattle.tree_steps.specs.Walks.{NotesAll};

use crate::net::NetChanges;
use link_tree::{Change, Tree};
use std::alloc::{AllocError, Global};

/// Notes how two trees differ at the paths of one of them.
fn note_all(net: &mut NetChanges, walked: &Tree, old: &Tree, new: &Tree) -> Result<(), AllocError>
    ensures { OnOk result (NotesAll walked.now old.now new.now net.old net.new) }
{
    for (path, _entry) in walked.iter() {
        net.note(path, old.get(path), new.get(path))?;
    }
    Ok(())
}

/// The changes from one tree to another, in byte order of their paths: one at each path where they
/// differ, from what is there in the old tree to what is there in the new one. Fails only if memory
/// runs out.
pub fn changes_between(alloc: Global, old: &Tree, new: &Tree) -> Result<Vec<Change>, AllocError>
    ensures { IfOk result (λ changes. changes.items ≡ changes_between old.now new.now) }
{
    let mut net = NetChanges::none(alloc);
    note_all(&mut net, old, old, new)?;
    note_all(&mut net, new, old, new)?;
    net.into_changes(alloc)
}
