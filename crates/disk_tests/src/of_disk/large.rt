//! Roots with 65,536 entries and with one more.
use super::fake::Failing;
use super::root::Root;
use crate::slots::set;
use disk::{Area, CaptureError, Partial, capture};
use link_tree::{Place, Tree};
use sample_values::{link, path};
use std::alloc::{AllocError, Global};
use std::test::Fail;
use unit_name::ample;

const FIRST: u32 = 100_000;

/// As many entries as a tree may have.
const ENTRIES: u32 = 65_536;

fn mask(alloc: Global, tree: &mut Tree, number: u32) -> Result<(), AllocError> {
    let text = format!(in alloc; "/etc/systemd/system/{number}.service")?;
    let slot = path(alloc, text.as_bytes())?;
    set(tree, &slot, link(alloc, b"/dev/null")?)
}

/// This number of masked units.
fn tree(alloc: Global, entries: u32) -> Result<Box<Tree>, AllocError> {
    let mut tree = Box::new(alloc, Tree::empty(alloc)?)?;
    for number in 0..entries {
        mask(alloc, &mut tree, number.saturating_add(FIRST))?;
    }
    Ok(tree)
}

/// How many entries are captured, or `None` if there are too many.
fn captured(alloc: Global, entries: u32) -> Result<Option<usize>, AllocError> {
    let mut root = Root::new(alloc, tree(alloc, entries)?, Failing::NEVER)?;
    match capture(alloc, &mut *root, &[]) {
        Ok(tree) => Ok(Some(tree.len())),
        Err(CaptureError::TooMany) => Ok(None),
        Err(_) => Err(AllocError),
    }
}

/// How many entries are found in one area, or `None` if there are too many.
fn captured_in_area(alloc: Global, entries: u32) -> Result<Option<usize>, AllocError> {
    let mut root = Root::new(alloc, tree(alloc, entries)?, Failing::NEVER)?;
    let mut partial = Partial::none(alloc);
    match partial.take_area(alloc, &mut *root, Area::Units(Place::Etc)) {
        Ok(()) => Ok(Some(partial.len())),
        Err(CaptureError::TooMany) => Ok(None),
        Err(_) => Err(AllocError),
    }
}

#[test]
fn as_many_as_a_tree_may_have_are_captured(rt: HostRuntime) -> Result<(), Fail> {
    let alloc = rt.alloc();
    let most = Some(ENTRIES as usize);
    assert_eq!(rt; ample!(captured(alloc, ENTRIES), AllocError)?, most);
    assert_eq!(rt; ample!(captured(alloc, ENTRIES + 1), AllocError)?, None);
    assert_eq!(rt; ample!(captured_in_area(alloc, ENTRIES), AllocError)?, most);
    assert_eq!(rt;
        ample!(captured_in_area(alloc, ENTRIES + 1), AllocError)?,
        None
    );
    Ok(())
}
