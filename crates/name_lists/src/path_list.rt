//! The paths that are listed under one name.
ghost use Rattle.std.specs.Prelude.{◌≡◌, ◌++◌, ◌∷◌, [], IfOk, OnErr, OnOk};
ghost use Rattle.name_lists.specs.Lists.{changed};

use std::alloc::{AllocError, Global};
use std::marker::Model;
use std::sync::Arc;
use unit_paths::TreePath;

/// How the list of a name changes.
#[derive(Debug, Drop)]
pub enum Listing {
    /// These paths, instead of those before.
    Whole(Vec<TreePath>),
    /// One more path, after the others.
    OneMore(TreePath),
}

/// Paths, shared by copies until one of them is changed. Contracts see their list.
#[derive(Debug, Drop)]
pub(crate) struct PathList {
    paths: Arc<Vec<TreePath>>,
}

impl Model for PathList {
    ghost use Rattle.std.specs.Prelude.{List, ℕ};
    ghost use Rattle.std.specs.Arc.{arc_value};
    ghost use Rattle.std.specs.Coded.{coded_list, coded_ℕ};

    ghost Value = { List (List ℕ) };

    ghost coded = { coded_list (coded_list coded_ℕ) };

    ghost view = { λ list. (arc_value list.paths).items };
}

impl Clone for PathList {
    ghost is_clone = { λ list copy. copy ≡ list };

    fn clone(&self) -> Result<PathList, AllocError> {
        Ok(PathList {
            paths: self.paths.clone()?,
        })
    }
}

impl PathList {
    /// The list of a name under which no path was listed.
    pub(crate) fn first(alloc: Global, listing: Listing) -> Result<PathList, AllocError>
        ensures { IfOk result (λ list. list ≡ changed listing []) }
    {
        match listing {
            Listing::Whole(paths) => PathList::of(alloc, paths),
            Listing::OneMore(path) => {
                let mut paths = Vec::new(alloc);
                paths.push(path)?;
                PathList::of(alloc, paths)
            }
        }
    }

    fn of(alloc: Global, paths: Vec<TreePath>) -> Result<PathList, AllocError>
        ensures { IfOk result (λ list. list ≡ paths.items) }
    {
        Ok(PathList {
            paths: Arc::new(alloc, paths)?,
        })
    }

    /// The paths.
    pub(crate) fn paths(&self) -> &[TreePath]
        ensures { result.now ≡ self.now }
    {
        &self.paths
    }

    /// Changes the list. If memory runs out, it is unchanged.
    pub(crate) fn change(&mut self, alloc: Global, listing: Listing) -> Result<(), AllocError>
        ensures ok { OnOk result (self.new ≡ changed listing self.old) }
        ensures err { OnErr result (self.new ≡ self.old) }
    {
        match listing {
            Listing::Whole(paths) => {
                *self = PathList::of(alloc, paths)?;
                Ok(())
            }
            Listing::OneMore(path) => self.push(path),
        }
    }

    fn push(&mut self, path: TreePath) -> Result<(), AllocError>
        ensures ok { OnOk result (self.new ≡ self.old ++ path ∷ []) }
        ensures err { OnErr result (self.new ≡ self.old) }
    {
        Arc::make_mut(&mut self.paths)?.push(path)?;
        Ok(())
    }
}
