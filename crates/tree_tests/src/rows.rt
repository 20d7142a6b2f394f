//! Texts of answers.
use link_tree::TreePath;
use std::alloc::{AllocError, Global};

/// The texts of paths, each with a LF.
pub(crate) fn texts_of(alloc: Global, paths: &[TreePath]) -> Result<Vec<u8>, AllocError> {
    let mut texts = Vec::new(alloc);
    for path in paths {
        texts.extend_from_slice(path.text())?;
        texts.push(b'\n')?;
    }
    Ok(texts)
}
