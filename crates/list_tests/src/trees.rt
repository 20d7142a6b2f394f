//! Trees from texts.
use link_tree::{Entry, Slot, Tree, TreePath};
use sample_values::{file, link, path};
use std::alloc::{AllocError, Global};

/// The directory that a letter represents.
fn directory(letter: u8) -> &'static [u8] {
    match letter {
        b'E' => b"/etc/systemd/system",
        b'R' => b"/run/systemd/system",
        b'L' => b"/usr/local/lib/systemd/system",
        b'S' => b"/usr/lib/systemd/system",
        b'P' => b"/etc/systemd/system-preset",
        _ => b"",
    }
}

/// A text that begins with one of the letters and a slash, with the directory instead of the
/// letter.
fn in_full(alloc: Global, text: &[u8]) -> Result<Vec<u8>, AllocError> {
    match text {
        [letter, b'/', rest @ ..] => {
            let mut full = Vec::from_slice(alloc, directory(*letter))?;
            full.push(b'/')?;
            full.extend_from_slice(rest)?;
            Ok(full)
        }
        _ => Vec::from_slice(alloc, text),
    }
}

fn entry(alloc: Global, text: &[u8]) -> Result<Entry, AllocError> {
    match text {
        [b'-', b'>', b' ', target @ ..] => {
            let target = in_full(alloc, target)?;
            link(alloc, &target)
        }
        _ => file(alloc, text),
    }
}

/// Puts an entry at a path. If that isn't a slot, the result is `AllocError`, which makes a test
/// fail.
fn put(tree: &mut Tree, path: &TreePath, entry: Entry) -> Result<(), AllocError> {
    if Slot::of(path).is_none() {
        return Err(AllocError);
    }
    tree.set(path, Some(entry))
}

fn put_text(alloc: Global, tree: &mut Tree, text: &[u8]) -> Result<(), AllocError> {
    let name = text.split(|b| *b == b' ').next().unwrap_or(b"");
    let rest = text.get(name.len().saturating_add(1)..).unwrap_or(b"");
    let full = in_full(alloc, name)?;
    let path = path(alloc, &full)?;
    let entry = entry(alloc, rest)?;
    put(tree, &path, entry)
}

/// A tree with entries separated by `|`. Each is a path, whose directory may be one of the letters
/// E, R, L, S and P, and after a space the bytes of a file, or `-> ` and the target of a link.
pub(crate) fn tree(alloc: Global, text: &[u8]) -> Result<Box<Tree>, AllocError> {
    let mut tree = Box::new(alloc, Tree::empty(alloc)?)?;
    for entry in text.split(|b| *b == b'|') {
        if !entry.is_empty() {
            put_text(alloc, &mut tree, entry)?;
        }
    }
    Ok(tree)
}
