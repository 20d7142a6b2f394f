//! The paths that were looked at.
ghost use Rattle.std.specs.Prelude.{◌≡◌, ◌++◌, ◌∷◌, [], OnOk, OnErr, IfOk};
ghost use Rattle.load_path.specs.Search.{with_cell, each_once};

use link_tree::TreePath;
use std::alloc::{AllocError, Global};
use std::marker::Model;

/// Paths that were looked at, in the order in which they were looked at. `find` and `follow` return
/// each once; a list that is passed from one lookup to the next may contain a path twice, until
/// `each_once` is called. Contracts see the list.
#[derive(Debug, Drop)]
pub struct Cells {
    paths: Vec<TreePath>,
}

impl Model for Cells {
    ghost use Rattle.std.specs.Prelude.{List, ℕ};

    ghost Value = { List (List ℕ) };

    ghost view = { λ cells. cells.paths.items };
}

impl Cells {
    /// No paths.
    pub fn new(alloc: Global) -> Cells
        ensures { result ≡ [] }
    {
        Cells {
            paths: Vec::new(alloc),
        }
    }

    /// Adds a path, even if it is there already.
    pub fn push(&mut self, path: TreePath) -> Result<(), AllocError>
        ensures ok { OnOk result (self.new ≡ self.old ++ path ∷ []) }
        ensures err { OnErr result (self.new ≡ self.old) }
    {
        Ok(self.paths.push(path)?)
    }

    /// Adds these paths after the others. If memory runs out, nothing has changed.
    pub fn append(&mut self, mut more: Cells) -> Result<(), AllocError>
        ensures ok { OnOk result (self.new ≡ self.old ++ more) }
        ensures err { OnErr result (self.new ≡ self.old) }
    {
        self.paths.append(&mut more.paths)
    }

    pub fn as_slice(&self) -> &[TreePath]
        ensures { result.now ≡ self.now }
    {
        &self.paths
    }

    /// The paths, in the order in which they were looked at.
    pub fn into_paths(self) -> Vec<TreePath>
        ensures { result.items ≡ self }
    {
        let Cells { paths } = self;
        paths
    }

    /// Each of the paths once, at the position where it was looked at first.
    pub fn each_once(self) -> Result<Cells, AllocError>
        ensures { IfOk result (λ cells. cells ≡ each_once self) }
    {
        let mut cells = Cells::new(*self.paths.allocator());
        for path in self.paths {
            cells.note(path)?;
        }
        Ok(cells)
    }

    /// Adds a path, unless it is there.
    #[tactic(auto, unfolding(crate::specs::Search::with_cell))]
    fn note(&mut self, path: TreePath) -> Result<(), AllocError>
        ensures { OnOk result (self.new ≡ with_cell self.old path) }
    {
        if self.as_slice().contains(&path) {
            return Ok(());
        }
        self.push(path)
    }
}
