//! Changes from texts.
use link_tree::{Change, Entry};
use sample_values::{file, link, path};
use std::alloc::{AllocError, Global};

/// An entry: a link to a target, a file of the bytes after `:`, or none.
fn entry(alloc: Global, text: &[u8]) -> Result<Option<Entry>, AllocError> {
    match text {
        b"" => Ok(None),
        [b':', bytes @ ..] => Ok(Some(file(alloc, bytes)?)),
        _ => Ok(Some(link(alloc, text)?)),
    }
}

/// The change at a path from one entry to another: these three, separated by `|`.
pub(crate) fn change(alloc: Global, text: &[u8]) -> Result<Change, AllocError> {
    let mut parts = text.split(|b| *b == b'|');
    let at = parts.next().unwrap_or(b"");
    let before = entry(alloc, parts.next().unwrap_or(b""))?;
    let after = entry(alloc, parts.next().unwrap_or(b""))?;
    let path = path(alloc, at)?;
    Ok(Change {
        path,
        before,
        after,
    })
}
