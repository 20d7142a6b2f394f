//! Lists of paths.
ghost use Rattle.std.specs.Prelude.{◌≡◌, ◌↔◌, ◌++◌, ◌∷◌, [], IfOk, IsTrue, OnOk, OnErr};

use link_tree::TreePath;
use std::alloc::{AllocError, Global};
use std::marker::Model;

/// The paths that a command is given, in order. Contracts see their list.
#[derive(Debug, Drop)]
pub struct Paths {
    paths: Vec<TreePath>,
}

impl Model for Paths {
    ghost use Rattle.std.specs.Prelude.{List, ℕ};

    ghost Value = { List (List ℕ) };

    ghost view = { λ paths. paths.paths.items };
}

impl Paths {
    /// No paths. Takes no memory.
    pub fn none(alloc: Global) -> Paths
        ensures { result ≡ [] }
    {
        Paths {
            paths: Vec::new(alloc),
        }
    }

    /// Adds a path. If memory runs out, the list stays as it was.
    pub fn push(&mut self, path: TreePath) -> Result<(), AllocError>
        ensures ok { OnOk result (self.new ≡ self.old ++ path ∷ []) }
        ensures err { OnErr result (self.new ≡ self.old) }
    {
        Ok(self.paths.push(path)?)
    }

    /// The paths, in order.
    pub fn as_slice(&self) -> &[TreePath]
        ensures { result.now ≡ self.now }
    {
        &self.paths
    }

    /// Whether these are the same paths, in the same order.
    pub fn same(&self, other: &Paths) -> bool
        ensures { IsTrue result ↔ (self.now ≡ other.now) }
    {
        self.as_slice() == other.as_slice()
    }

    /// A copy of the paths. Fails only if memory runs out.
    pub fn copy(&self) -> Result<Paths, AllocError>
        ensures { IfOk result (λ paths. paths ≡ self.now) }
    {
        let mut copy = Paths::none(*self.paths.allocator());
        for path in self.as_slice() {
            copy.push(path.copy()?)?;
        }
        Ok(copy)
    }
}
