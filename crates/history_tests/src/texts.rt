//! All that can be looked up in a history, as a text.

use crate::index::push_index;
use footprint::Operation;
use history::{History, Row};
use link_tree::{Scope, Tree};
use sample_steps::{begin_word, push_numbered, push_pair, push_reply};
use sample_values::name;
use std::alloc::{AllocError, Global};

/// Adds the entries of a tree: each path, and the bytes.
fn push_tree(out: &mut Vec<u8>, tree: &Tree) -> Result<(), AllocError> {
    out.extend_from_slice(b" /")?;
    for (path, entry) in tree.iter() {
        begin_word(out)?;
        push_pair(out, path.text(), entry.bytes())?;
    }
    Ok(())
}

/// Adds a row's operator and reply, and which row undid it.
fn push_row<O: Operation>(out: &mut Vec<u8>, row: &Row<O>) -> Result<(), AllocError> {
    begin_word(out)?;
    push_pair(out, row.operator.text(), b"")?;
    push_reply(out, &row.reply)?;
    match row.undone_by {
        Some(by) => push_numbered(out, b":undone-by", by),
        None => Ok(()),
    }
}

/// Adds the links that belong to the unit a.
fn push_belonging(alloc: Global, tree: &Tree, out: &mut Vec<u8>) -> Result<(), AllocError> {
    let unit = name(alloc, b"a.service")?;
    for path in tree.belonging(Scope::Etc, &unit) {
        push_pair(out, b" link", path.text())?;
    }
    Ok(())
}

/// The first tree and the last one; each row, with what undid it, which rows looked at what it
/// changed, and which row blocks or hinders it; and the links that belong to the unit a.
pub(crate) fn text_of<O: Operation>(
    alloc: Global,
    history: &History<O>,
) -> Result<Vec<u8>, AllocError> {
    let mut text = Vec::new(alloc);
    push_tree(&mut text, history.first())?;
    push_tree(&mut text, history.tree())?;
    for row in history.rows() {
        push_row(&mut text, row)?;
    }
    text.extend_from_slice(b" / ")?;
    push_index(alloc, history, &mut text)?;
    push_belonging(alloc, history.tree(), &mut text)?;
    Ok(text)
}
