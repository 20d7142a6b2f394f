//! Keys and readings from texts.
use footprint::{Key, Keys, Reading};
use link_tree::Scope;
use sample_values::{name, path, tree};
use std::alloc::{AllocError, Global};
use unit_name::ample;

/// The inventory of no entries.
pub(crate) const EMPTY: &[u8] = b"unitadm-inventory 1\nend\n";

/// A key: `etc:NAME`, `run:NAME`, `presets`, `links`, or the path of a cell.
pub(crate) fn key(alloc: Global, text: &[u8]) -> Result<Key, AllocError> {
    if text == b"presets".as_slice() {
        return Ok(Key::Presets);
    }
    if text == b"links".as_slice() {
        return Ok(Key::Links);
    }
    if let Some(text) = text.strip_prefix(b"etc:") {
        return Ok(Key::Marked(Scope::Etc, name(alloc, text)?));
    }
    if let Some(text) = text.strip_prefix(b"run:") {
        return Ok(Key::Marked(Scope::Run, name(alloc, text)?));
    }
    Ok(Key::Cell(path(alloc, text)?))
}

fn push_parsed(alloc: Global, keys: &mut Keys, text: &[u8]) -> Result<(), AllocError> {
    keys.push(key(alloc, text)?)
}

/// Keys separated by spaces.
pub(crate) fn keys(alloc: Global, texts: &[u8]) -> Result<Keys, AllocError> {
    let mut keys = Keys::none(alloc);
    for text in texts.split(|b| *b == b' ') {
        push_parsed(alloc, &mut keys, text)?;
    }
    Ok(keys)
}

fn read(alloc: Global, inventory: &[u8], texts: &[u8]) -> Result<Box<Reading>, AllocError> {
    let tree = tree(alloc, inventory)?;
    let keys = keys(alloc, texts)?;
    Ok(Box::new(alloc, Reading::of(alloc, &tree, keys)?)?)
}

/// What keys, separated by spaces, read in the tree of an inventory; read again if a growth was
/// refused.
pub(crate) fn reading(
    alloc: Global,
    inventory: &[u8],
    texts: &[u8],
) -> Result<Box<Reading>, AllocError> {
    ample!(read(alloc, inventory, texts), AllocError)
}
