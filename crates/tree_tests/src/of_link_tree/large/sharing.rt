//! Sharing of a large tree: it doesn't take longer if the tree has more entries. If sharing copied
//! them, it would, even if there is enough memory.

use crate::of_link_tree::large::tree_of;
use link_tree::Tree;
use std::alloc::{AllocError, Global};
use std::test::Fail;
use std::time::{Clock, Duration, Instant};

/// How many entries the tree has.
const ENTRIES: u32 = 5_000;

/// How often it is shared: a copy of the entries takes more than a thousandth of the time in which
/// they are made.
const SHARES: u32 = 4_000;

/// How often that is tried, since other programs may take the processor meanwhile.
const TRIES: u32 = 10;

/// Shares a tree once, and leaves what it gives.
fn share(tree: &Tree) -> Result<(), AllocError> {
    tree.share()?;
    Ok(())
}

/// Whether a tree is shared `SHARES` times within a time.
fn is_shared_within(rt: &impl Clock, tree: &Tree, time: Duration) -> Result<bool, Fail> {
    let start = Instant::now(rt)?;
    for _ in 0..SHARES {
        share(tree)?;
        if start.elapsed(rt)? > time {
            return Ok(false);
        }
    }
    Ok(true)
}

/// Whether the tree is shared `SHARES` times within the time in which it was made.
fn is_shared_at_once(rt: &impl Clock, alloc: Global) -> Result<bool, Fail> {
    let start = Instant::now(rt)?;
    let tree = tree_of(alloc, ENTRIES)?;
    let time = start.elapsed(rt)?;
    for _ in 0..TRIES {
        if is_shared_within(rt, &tree, time)? {
            return Ok(true);
        }
    }
    Ok(false)
}

#[test]
fn a_large_tree_is_shared_at_once(rt: HostRuntime) -> Result<(), Fail> {
    let is_shared = is_shared_at_once(&rt, rt.alloc())?;
    assert!(rt; is_shared);
    Ok(())
}
