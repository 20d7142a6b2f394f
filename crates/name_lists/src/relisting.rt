//! Lists to which a path is added, or from which one is removed.
ghost use Rattle.std.specs.Prelude.{◌≡◌, ◌++◌, ◌∷◌, List, ℕ, cond, IfOk};
ghost use Rattle.name_lists.specs.Lists.{relisted, with_path, without_path, still_with};

use std::alloc::{AllocError, Global};
use std::cmp::Ordering;
use unit_paths::TreePath;

/// The paths, with this one in its place, or without it.
pub fn relisted(
    alloc: Global,
    listed: bool,
    path: &TreePath,
    paths: &[TreePath],
) -> Result<Vec<TreePath>, AllocError>
    ensures { IfOk result (λ list. list.items ≡ relisted listed path.now paths.now) }
{
    if listed {
        with_path(alloc, path, paths)
    } else {
        without_path(alloc, path, paths)
    }
}

/// The paths with one more before the first that comes after it, unless it is already there.
fn with_path(
    alloc: Global,
    path: &TreePath,
    paths: &[TreePath],
) -> Result<Vec<TreePath>, AllocError>
    ensures { IfOk result (λ list. list.items ≡ with_path path.now paths.now) }
{
    let mut list = Vec::new(alloc);
    list.reserve(paths.len())?;
    let mut placed = false;
    for next in paths {
        placed = push_with(&mut list, placed, path, next)?;
    }
    if !placed {
        list.push(path.copy()?)?;
    }
    Ok(list)
}

/// Adds the next of the paths, after the path that must come before it, and returns whether that
/// one is there now.
fn push_with(
    list: &mut Vec<TreePath>,
    placed: bool,
    path: &TreePath,
    next: &TreePath,
) -> Result<bool, AllocError>
    ensures { IfOk result (λ now. (rest : List (List ℕ)) → list.new.items ++ still_with now path.now rest ≡ list.old.items ++ still_with placed path.now (next.now ∷ rest)) }
{
    if placed {
        list.push(next.copy()?)?;
        return Ok(true);
    }
    match path.cmp(next) {
        Ordering::Less => {
            list.push(path.copy()?)?;
            list.push(next.copy()?)?;
            Ok(true)
        }
        Ordering::Equal => {
            list.push(next.copy()?)?;
            Ok(true)
        }
        Ordering::Greater => {
            list.push(next.copy()?)?;
            Ok(false)
        }
    }
}

/// The paths without this one.
fn without_path(
    alloc: Global,
    path: &TreePath,
    paths: &[TreePath],
) -> Result<Vec<TreePath>, AllocError>
    ensures { IfOk result (λ list. list.items ≡ without_path path.now paths.now) }
{
    let mut list = Vec::new(alloc);
    list.reserve(paths.len())?;
    for next in paths {
        if path.cmp(next) != Ordering::Equal {
            list.push(next.copy()?)?;
        }
    }
    Ok(list)
}
