//! Snapshots of a large tree: they don't take longer if the tree has more entries. A snapshot that
//! copied them would, even if there is enough memory.

use crate::sharing::operators;
use link_tree::{Tree, push_decimal};
use sample_steps::Step;
use sample_values::tree;
use shared_admin::SharedAdmin;
use std::alloc::{AllocError, Global};
use std::sync::Wait;
use std::test::Fail;
use std::time::{Clock, Duration, Instant};

/// How many entries the tree has.
const ENTRIES: usize = 5_000;

/// How many snapshots are taken of it: a copy of the entries takes more than a thousandth of the
/// time in which they are read.
const SNAPSHOTS: u32 = 4_000;

/// How often that is tried, since other programs may take the processor meanwhile.
const TRIES: u32 = 10;

/// Adds the line of a masked unit.
fn push_line(number: usize, out: &mut Vec<u8>) -> Result<(), AllocError> {
    out.extend_from_slice(b"L\t/etc/systemd/system/")?;
    push_decimal(out, number)?;
    out.extend_from_slice(b".service\t/dev/null\n")
}

/// An inventory of masked units.
fn inventory(alloc: Global) -> Result<Vec<u8>, AllocError> {
    let mut out = Vec::from_slice(alloc, b"unitadm-inventory 1\n")?;
    for number in 0..ENTRIES {
        push_line(number, &mut out)?;
    }
    out.extend_from_slice(b"end\n")?;
    Ok(out)
}

/// A history of a tree, which alice shares with nobody.
fn shared(alloc: Global, tree: Box<Tree>) -> Result<Box<SharedAdmin<Step>>, AllocError> {
    let operators = operators(alloc, b"alice")?;
    match SharedAdmin::new(alloc, Box::into_inner(tree), operators) {
        Ok(admin) => Ok(Box::new(alloc, admin)?),
        Err(_) => Err(AllocError),
    }
}

/// Takes a snapshot, and leaves it.
fn take(rt: &impl Wait, admin: &SharedAdmin<Step>) -> Result<(), AllocError> {
    admin.snapshot(rt)?;
    Ok(())
}

/// Whether `SNAPSHOTS` snapshots are taken within a time.
fn are_taken_within<R: Clock + Wait>(
    rt: &R,
    admin: &SharedAdmin<Step>,
    time: Duration,
) -> Result<bool, Fail> {
    let start = Instant::now(rt)?;
    for _ in 0..SNAPSHOTS {
        take(rt, admin)?;
        if start.elapsed(rt)? > time {
            return Ok(false);
        }
    }
    Ok(true)
}

/// Whether `SNAPSHOTS` snapshots are taken within the time in which the tree is read.
fn are_taken_at_once<R: Clock + Wait>(rt: &R, alloc: Global) -> Result<bool, Fail> {
    let inventory = inventory(alloc)?;
    let start = Instant::now(rt)?;
    let tree = tree(alloc, &inventory)?;
    let time = start.elapsed(rt)?;
    let admin = shared(alloc, tree)?;
    for _ in 0..TRIES {
        if are_taken_within(rt, &admin, time)? {
            return Ok(true);
        }
    }
    Ok(false)
}

#[test]
fn snapshots_of_a_large_tree_are_taken_at_once(rt: HostRuntime) -> Result<(), Fail> {
    let are_taken = are_taken_at_once(&rt, rt.alloc())?;
    assert!(rt; are_taken);
    Ok(())
}
