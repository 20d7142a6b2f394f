//! Lists of changes.
ghost use Rattle.std.specs.Prelude.{◌≡◌, ◌++◌, ◌∷◌, [], IfOk, OnOk, OnErr};
ghost use Rattle.link_tree.specs.Trees.{inverse_of};

use link_tree::Change;
use std::alloc::{AllocError, Global};
use std::marker::Model;

/// The changes that an operation makes, in byte order of their paths, each path once. Contracts see
/// the list of them.
#[derive(Debug, Drop)]
pub struct Changes {
    items: Vec<Change>,
}

impl Model for Changes {
    ghost use Rattle.std.specs.Prelude.{List};
    ghost use Rattle.link_tree.specs.declared.change.Change.{Change};

    ghost Value = { List Change };

    ghost view = { λ changes. changes.items.items };
}

impl Changes {
    /// No changes, as for a refusal or a question. Allocates no memory.
    pub fn none(alloc: Global) -> Changes
        ensures { result ≡ [] }
    {
        Changes {
            items: Vec::new(alloc),
        }
    }

    /// Adds a change. If memory runs out, the list stays as it was.
    pub(crate) fn push(&mut self, change: Change) -> Result<(), AllocError>
        ensures ok { OnOk result (self.new ≡ self.old ++ change ∷ []) }
        ensures err { OnErr result (self.new ≡ self.old) }
    {
        Ok(self.items.push(change)?)
    }

    /// The changes, in order.
    pub fn as_slice(&self) -> &[Change]
        ensures { result.now ≡ self.now }
    {
        &self.items
    }

    /// A copy of the changes. Fails only if memory runs out.
    pub fn copy(&self) -> Result<Changes, AllocError>
        ensures { IfOk result (λ changes. changes ≡ self.now) }
    {
        let mut copy = Changes::none(*self.items.allocator());
        for change in self.as_slice() {
            copy.push(change.copy()?)?;
        }
        Ok(copy)
    }

    /// The changes that undo these, in the same order: after them, each path has the entry that it
    /// had before these. Fails only if memory runs out.
    pub fn inverse(&self) -> Result<Changes, AllocError>
        ensures { IfOk result (λ changes. changes ≡ inverse_of self.now) }
    {
        let mut inverse = Changes::none(*self.items.allocator());
        for change in self.as_slice() {
            inverse.push(change.taken_back()?)?;
        }
        Ok(inverse)
    }
}
