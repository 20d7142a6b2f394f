//! What is reported about units in trees, as texts.
use crate::trees::tree;
use install_section::{
    Closure, ClosureError, Links, Members, Wanted, WantedError, closure, wanted,
};
use link_tree::{Scope, Tree};
use sample_values::name;
use std::alloc::{AllocError, Global};
use unit_name::UnitName;

/// Adds a name to others.
pub(crate) fn push_name(
    alloc: Global,
    names: &mut Vec<UnitName>,
    text: &[u8],
) -> Result<(), AllocError> {
    let name = name(alloc, text)?;
    Ok(names.push(name)?)
}

/// The names in a text, separated by spaces.
pub(crate) fn names(alloc: Global, text: &[u8]) -> Result<Vec<UnitName>, AllocError> {
    let mut names = Vec::new(alloc);
    for word in text.split(|b| *b == b' ') {
        push_name(alloc, &mut names, word)?;
    }
    Ok(names)
}

/// A count, or `none` if `is_none`.
pub(crate) fn text_of_count(
    alloc: Global,
    count: usize,
    is_none: bool,
) -> Result<Vec<u8>, AllocError> {
    if is_none {
        return Vec::from_slice(alloc, b"none");
    }
    Ok(format!(in alloc; "{count}")?.into_bytes())
}

fn members_text(alloc: Global, members: &Members) -> Result<Vec<u8>, AllocError> {
    let mut text = Vec::new(alloc);
    for name in members.as_slice() {
        text.extend_from_slice(name.text())?;
        text.push(b'\n')?;
    }
    Ok(text)
}

fn closure_told(alloc: Global, closure: &Closure) -> Result<Vec<u8>, AllocError> {
    let mut text = members_text(alloc, &closure.units)?;
    closure.notices.push_lines(&mut text)?;
    Ok(text)
}

fn links_text(alloc: Global, links: &Links) -> Result<Vec<u8>, AllocError> {
    let mut text = Vec::new(alloc);
    for (path, file) in links.iter() {
        text.extend_from_slice(path.text())?;
        text.extend_from_slice(b" -> ")?;
        text.extend_from_slice(file.text())?;
        text.push(b'\n')?;
    }
    Ok(text)
}

fn wanted_told(alloc: Global, wanted: &Wanted) -> Result<Vec<u8>, AllocError> {
    let mut text = links_text(alloc, &wanted.links)?;
    wanted.notices.push_lines(&mut text)?;
    Ok(text)
}

fn found(alloc: Global, tree: &Tree, given: &[UnitName]) -> Result<Vec<u8>, AllocError> {
    match closure(alloc, tree, given) {
        Ok(closure) => closure_told(alloc, &closure),
        Err(ClosureError::TooMany(_)) => Vec::from_slice(alloc, b"too many"),
        Err(ClosureError::OutOfMemory) => Err(AllocError),
    }
}

/// The units of a closure and its notices, a line each; or `too many`.
pub(crate) fn closure_text(
    alloc: Global,
    tree_text: &[u8],
    given: &[u8],
) -> Result<Vec<u8>, AllocError> {
    let tree = tree(alloc, tree_text)?;
    let given = names(alloc, given)?;
    found(alloc, &tree, &given)
}

fn joined(alloc: Global, before: &[u8], text: &[u8]) -> Result<Vec<u8>, AllocError> {
    let mut joined = Vec::from_slice(alloc, before)?;
    joined.extend_from_slice(text)?;
    Ok(joined)
}

/// The units that are enabled together with these.
pub(crate) fn closed(
    alloc: Global,
    tree: &Tree,
    units: &[UnitName],
) -> Result<Box<Closure>, AllocError> {
    match closure(alloc, tree, units) {
        Ok(closure) => Ok(Box::new(alloc, closure)?),
        Err(_) => Err(AllocError),
    }
}

fn asked(
    alloc: Global,
    tree: &Tree,
    units: &[UnitName],
    scope: Scope,
    skip: bool,
) -> Result<Vec<u8>, AllocError> {
    let closure = closed(alloc, tree, units)?;
    match wanted(alloc, tree, &closure, scope, skip) {
        Ok(wanted) => wanted_told(alloc, &wanted),
        Err(WantedError::NeedsInstance(unit)) => joined(alloc, b"needs an instance: ", unit.text()),
        Err(WantedError::Clash(path)) => joined(alloc, b"clash at ", path.text()),
        Err(WantedError::OutOfMemory) => Err(AllocError),
    }
}

/// The links that units want and the notices, a line each; or what is wrong with them.
pub(crate) fn wanted_text(
    alloc: Global,
    tree_text: &[u8],
    units: &[u8],
    scope: Scope,
    skip: bool,
) -> Result<Vec<u8>, AllocError> {
    let tree = tree(alloc, tree_text)?;
    let units = names(alloc, units)?;
    asked(alloc, &tree, &units, scope, skip)
}
