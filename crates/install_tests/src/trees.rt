//! Trees from texts.
use link_tree::{Entry, Slot, Tree, TreePath};
use sample_values::{file, link, path};
use std::alloc::{AllocError, Global};

/// The path of a unit's file, from its name; or the path itself.
fn path_of(alloc: Global, name: &[u8]) -> Result<TreePath, AllocError> {
    if name.starts_with(b"/") {
        return path(alloc, name);
    }
    let mut text = Vec::from_slice(alloc, b"/usr/lib/systemd/system/")?;
    text.extend_from_slice(name)?;
    path(alloc, &text)
}

fn entry(alloc: Global, text: &[u8]) -> Result<Entry, AllocError> {
    match text {
        [b'-', b'>', b' ', target @ ..] => link(alloc, target),
        _ => file(alloc, text),
    }
}

/// Puts an entry at a path. If that isn't a slot, the result is `AllocError`, which makes a test
/// fail.
fn put(tree: &mut Tree, path: &TreePath, entry: Entry) -> Result<(), AllocError> {
    if Slot::of(path).is_none() {
        return Err(AllocError);
    }
    tree.set(path, Some(entry))
}

fn put_text(alloc: Global, tree: &mut Tree, text: &[u8]) -> Result<(), AllocError> {
    let name = text.split(|b| *b == b' ').next().unwrap_or(b"");
    let rest = text.get(name.len().saturating_add(1)..).unwrap_or(b"");
    let path = path_of(alloc, name)?;
    let entry = entry(alloc, rest)?;
    put(tree, &path, entry)
}

/// A tree with entries separated by `|`. Each is the name of a unit, whose file is in
/// `/usr/lib/systemd/system`, or a whole path, and after a space the bytes of a file, or `-> ` and
/// the target of a link.
pub(crate) fn tree(alloc: Global, text: &[u8]) -> Result<Box<Tree>, AllocError> {
    let mut tree = Box::new(alloc, Tree::empty(alloc)?)?;
    for entry in text.split(|b| *b == b'|') {
        if !entry.is_empty() {
            put_text(alloc, &mut tree, entry)?;
        }
    }
    Ok(tree)
}
