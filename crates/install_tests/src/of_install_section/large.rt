//! The maximum number of units, and one more.
use crate::of_install_section::units::{names, push_name};
use crate::trees::tree;
use install_section::{ClosureError, closure};
use link_tree::Tree;
use std::alloc::{AllocError, Global};
use std::test::Fail;
use unit_name::{UnitName, ample};

fn push_number(text: &mut Vec<u8>, n: usize) -> Result<(), AllocError> {
    for digit in [n / 1000 % 10, n / 100 % 10, n / 10 % 10, n % 10] {
        text.push(b'0' + digit as u8)?;
    }
    Ok(())
}

/// `u@NNNN.service`
fn push_numbered(text: &mut Vec<u8>, n: usize) -> Result<(), AllocError> {
    text.extend_from_slice(b"u@")?;
    push_number(text, n)?;
    text.extend_from_slice(b".service")
}

fn push_given(alloc: Global, given: &mut Vec<UnitName>, n: usize) -> Result<(), AllocError> {
    let mut text = Vec::new(alloc);
    push_numbered(&mut text, n)?;
    push_name(alloc, given, &text)
}

/// This number of different units.
fn numbered(alloc: Global, count: usize) -> Result<Vec<UnitName>, AllocError> {
    let mut given = Vec::new(alloc);
    for n in 0..count {
        push_given(alloc, &mut given, n)?;
    }
    Ok(given)
}

/// A tree with a unit whose section names this number of different units.
fn naming(alloc: Global, count: usize) -> Result<Vec<u8>, AllocError> {
    let mut text = Vec::from_slice(alloc, b"u@.service [Install]\n|a.service [Install]\nAlso=")?;
    for n in 0..count {
        push_numbered(&mut text, n)?;
        text.push(b' ')?;
    }
    Ok(text)
}

/// How many units a closure has, and how many notices; or that they are too many, and how many
/// paths were looked at until then.
type Counts = Result<(usize, usize), usize>;

fn counts(alloc: Global, tree: &Tree, given: &[UnitName]) -> Result<Counts, AllocError> {
    match closure(alloc, tree, given) {
        Ok(closure) => Ok(Ok((closure.units.len(), closure.notices.len()))),
        Err(ClosureError::TooMany(cells)) => Ok(Err(cells.as_slice().len())),
        Err(ClosureError::OutOfMemory) => Err(AllocError),
    }
}

fn given_counted(alloc: Global, count: usize) -> Result<Counts, AllocError> {
    let tree = tree(alloc, b"u@.service [Install]\n")?;
    let given = numbered(alloc, count)?;
    counts(alloc, &tree, &given)
}

/// The counts of units that are given, of which there is this number, all different.
fn counts_given(alloc: Global, count: usize) -> Result<Counts, AllocError> {
    ample!(given_counted(alloc, count), AllocError)
}

#[test]
fn a_thousand_given_units(rt: HostRuntime) -> Result<(), Fail> {
    let most = counts_given(rt.alloc(), 1024)?;
    assert_eq!(rt; most, Ok((1024, 0)));
    // None is looked up if they are too many.
    let more = counts_given(rt.alloc(), 1025)?;
    assert_eq!(rt; more, Err(0));
    Ok(())
}

fn unit_counted(alloc: Global, tree_text: &[u8], unit: &[u8]) -> Result<Counts, AllocError> {
    let tree = tree(alloc, tree_text)?;
    let given = names(alloc, unit)?;
    counts(alloc, &tree, &given)
}

/// The counts of a unit that is given, in a tree of this text.
fn counts_of(alloc: Global, tree_text: &[u8], unit: &[u8]) -> Result<Counts, AllocError> {
    ample!(unit_counted(alloc, tree_text, unit), AllocError)
}

/// A tree with a unit whose section names this many different units, and one that isn't found.
fn naming_one_more(alloc: Global, count: usize) -> Result<Vec<u8>, AllocError> {
    let mut text = naming(alloc, count)?;
    text.extend_from_slice(b"none.service")?;
    Ok(text)
}

/// The counts of a unit whose section names this many different units, and one that isn't found.
fn counts_skipping(alloc: Global, count: usize) -> Result<Counts, AllocError> {
    let tree_text = ample!(naming_one_more(alloc, count), AllocError)?;
    counts_of(alloc, &tree_text, b"a.service")
}

/// The counts of a unit whose section names this number of different units.
fn counts_named(alloc: Global, count: usize) -> Result<Counts, AllocError> {
    let tree_text = ample!(naming(alloc, count), AllocError)?;
    counts_of(alloc, &tree_text, b"a.service")
}

#[test]
fn a_thousand_named_units(rt: HostRuntime) -> Result<(), Fail> {
    let most = counts_named(rt.alloc(), 1023)?;
    assert_eq!(rt; most, Ok((1024, 0)));
    // Four paths for the first unit; for each word its own four; the template's are the same four
    // each time.
    let more = counts_named(rt.alloc(), 1024)?;
    assert_eq!(rt; more, Err(4 + 4 * 1024 + 4));
    let many = counts_named(rt.alloc(), 2000)?;
    assert_eq!(rt; many, Err(4 + 4 * 1024 + 4));
    // A word that names no unit is skipped, with a notice.
    let skipping = counts_skipping(rt.alloc(), 699)?;
    assert_eq!(rt; skipping, Ok((700, 1)));
    Ok(())
}

/// How many units a closure has, and how long the name of the last one is.
fn last_length(
    alloc: Global,
    tree: &Tree,
    given: &[UnitName],
) -> Result<(usize, usize), AllocError> {
    let Ok(closure) = closure(alloc, tree, given) else {
        return Err(AllocError);
    };
    let length = match closure.units.as_slice().last() {
        Some(unit) => unit.text().len(),
        None => 0,
    };
    Ok((closure.units.len(), length))
}

/// The same for a unit that is given, in a tree of this text.
fn last_length_of(
    alloc: Global,
    tree_text: &[u8],
    unit: &[u8],
) -> Result<(usize, usize), AllocError> {
    let tree = tree(alloc, tree_text)?;
    let given = names(alloc, unit)?;
    last_length(alloc, &tree, &given)
}

#[test]
fn names_grow_until_they_are_too_long(rt: HostRuntime) -> Result<(), Fail> {
    let tree = b"g@.service [Install]\nAlso=g@x%i.service\n";
    let counts = counts_of(rt.alloc(), tree, b"g@a.service")?;
    assert_eq!(rt; counts, Ok((245, 1)));
    let last = ample!(last_length_of(rt.alloc(), tree, b"g@a.service"), AllocError)?;
    assert_eq!(rt; last, (245, 255));
    Ok(())
}

#[test]
fn units_that_double_are_too_many(rt: HostRuntime) -> Result<(), Fail> {
    let tree = b"d@.service [Install]\nAlso=d@%i0.service d@%i1.service\n";
    let counts = counts_of(rt.alloc(), tree, b"d@x.service")?;
    // Each word looks at four paths of its own, and all look at the four of the template.
    assert_eq!(rt; counts, Err(4 * 1025 + 4));
    Ok(())
}
