//! Histories and trees for tests.
use crate::words::label;
use kept_runs::Kept;
use kept_texts::Header;
use link_tree::Tree;
use sample_values::tree;
use std::alloc::{AllocError, Global};

/// The tree of these entries.
pub(crate) fn entries(alloc: Global, lines: &[u8]) -> Result<Box<Tree>, AllocError> {
    let mut inventory = Vec::from_slice(alloc, b"unitadm-inventory 1\n")?;
    inventory.extend_from_slice(lines)?;
    inventory.extend_from_slice(b"end\n")?;
    tree(alloc, &inventory)
}

/// A history without rows.
pub(crate) fn begun(alloc: Global, first: &Tree) -> Result<Box<Kept>, AllocError> {
    let header = Header {
        id: [7; 16],
        root: label(alloc, b"/srv/a b")?,
    };
    Ok(Box::new(alloc, Kept::begin(alloc, first.share()?, header)?)?)
}
