//! Capturing all slots of a root.

use crate::failure::Failure;
use crate::passing_over::captured_but_odd;
use crate::printing::print_passed_over;
use crate::root::{captured_in, paths_of};
use link_tree::{Tree, TreePath};
use real_roots::RealDisk;
use root_words::Asked;
use std::alloc::Global;

/// Captures all slots of a root, and the paths of `--with`.
///
/// Errors: a path is none; something at one can't be captured; the system's own.
pub fn capture_for(alloc: Global, asked: &Asked, disk: &mut RealDisk<'_>) -> Result<Tree, Failure> {
    let paths = paths_of(alloc, &asked.with)?;
    captured_in(alloc, disk, &paths)
}

/// Captures all slots of a root, and these paths, but for what is odd there: of each such entry a
/// warning is printed.
///
/// Errors: the system's own; out of memory.
pub fn capture_to_list(
    rt: &HostRuntime,
    asked: &Asked,
    disk: RealDisk<'_>,
    paths: &[TreePath],
) -> Result<Tree, Failure> {
    let (tree, warnings) = captured_but_odd(rt.alloc(), disk, paths)?;
    if !asked.output.quiet {
        print_passed_over(rt, &warnings, asked.output.json)?;
    }
    Ok(tree)
}
