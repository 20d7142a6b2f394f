//! Steps between trees of 65,536 entries. No contract says when memory runs out, so code that gave
//! up on such trees would be proved too; these tests show that it doesn't give up.
use crate::slots::set;
use link_tree::{Change, Entry, Tree, TreePath};
use sample_values::{file, link, path};
use std::alloc::{AllocError, Global};
use std::test::Fail;
use tree_steps::{are_same, changes_between, steps_between};
use unit_name::ample;

const FIRST: u32 = 100_000;

const LAST: u32 = 165_535;

const ENTRIES: usize = 65_536;

/// The slot of the unit of this number: half of the units are in `/usr`.
fn slot(alloc: Global, number: u32) -> Result<TreePath, AllocError> {
    let text = if number % 2 == 0 {
        format!(in alloc; "/etc/systemd/system/{number}.service")?
    } else {
        format!(in alloc; "/usr/lib/systemd/system/{number}.service")?
    };
    path(alloc, text.as_bytes())
}

/// A link to `/dev/null`, or to a file for the unit of this number. No two links lead to the same
/// file: each further link to one file would copy the list of all links to it.
fn unit_link(alloc: Global, number: u32, is_null: bool) -> Result<Entry, AllocError> {
    if is_null {
        return link(alloc, b"/dev/null");
    }
    let target = format!(in alloc; "/opt/{number}.service")?;
    link(alloc, target.as_bytes())
}

/// Puts the unit of this number into a tree: a link, or for every third unit a file, if files are
/// allowed.
fn put(
    alloc: Global,
    tree: &mut Tree,
    number: u32,
    is_null: bool,
    with_files: bool,
) -> Result<(), AllocError> {
    let entry = if with_files && number % 3 == 0 {
        file(alloc, b"[Unit]\n")?
    } else {
        unit_link(alloc, number, is_null)?
    };
    set(tree, &slot(alloc, number)?, entry)
}

/// The tree of all these units.
fn tree(alloc: Global, are_null: bool, with_files: bool) -> Result<Box<Tree>, AllocError> {
    let mut tree = Box::new(alloc, Tree::empty(alloc)?)?;
    for number in FIRST..=LAST {
        put(alloc, &mut tree, number, are_null, with_files)?;
    }
    Ok(tree)
}

fn files_put(steps: &[Change]) -> usize {
    steps
        .iter()
        .filter(|step| matches!(step.after, Some(Entry::File(_))))
        .count()
}

/// The number of changes and of steps between two trees, how many of the steps put a file, and
/// whether the trees are equal.
fn counted(
    alloc: Global,
    old: &Tree,
    new: &Tree,
) -> Result<(usize, usize, usize, bool), AllocError> {
    let changes = changes_between(alloc, old, new)?.len();
    let steps = steps_between(alloc, old, new)?;
    Ok((changes, steps.len(), files_put(&steps), are_same(old, new)))
}

/// The same, from a tree of links to `/dev/null`, which may have files, to a tree with files.
fn counted_from(
    alloc: Global,
    old_has_files: bool,
    are_null: bool,
) -> Result<(usize, usize, usize, bool), AllocError> {
    let old = tree(alloc, true, old_has_files)?;
    let new = tree(alloc, are_null, true)?;
    counted(alloc, &old, &new)
}

#[test]
fn all_entries_change(rt: HostRuntime) -> Result<(), Fail> {
    assert_eq!(rt;
        ample!(counted_from(rt.alloc(), false, false), AllocError)?,
        (ENTRIES, ENTRIES, 21_845, false)
    );
    Ok(())
}

#[test]
fn no_entry_changes(rt: HostRuntime) -> Result<(), Fail> {
    assert_eq!(rt;
        ample!(counted_from(rt.alloc(), true, true), AllocError)?,
        (0, 0, 0, true)
    );
    Ok(())
}
