//! Queries of a tree of units.
use crate::rows::texts_of;
use link_tree::Tree;
use load_path::{Cells, End, Found, Trail, find, follow, follow_entry_into};
use sample_rows::{Row, is};
use sample_values::{name, path, tree};
use std::alloc::{AllocError, Global};

/// A word of rows, and the inventory that it names.
pub(crate) type Named = (&'static [u8], &'static [u8]);

/// The inventory that a word names. Any other word has none.
fn inventory_named(trees: &[Named], word: &[u8]) -> &'static [u8] {
    for (other, inventory) in trees {
        if *other == word {
            return inventory;
        }
    }
    b"unknown tree"
}

fn found_in_words(alloc: Global, found: &Found) -> Result<Vec<u8>, AllocError> {
    match found {
        Found::Missing => Vec::from_slice(alloc, b"missing"),
        Found::Masked(place) => Ok(format!(in alloc; "masked in {place:?}")?.into_bytes()),
        Found::Dangling(link) => [b"dangling at ", link.text()].concat(alloc),
        Found::Unit { real, file, place } => {
            let end = format!(in alloc; ", from {place:?}")?;
            [real.text(), b" in ", file.text(), end.as_bytes()].concat(alloc)
        }
    }
}

/// What is found under a name.
fn found_for(alloc: Global, tree: &Tree, unit: &[u8]) -> Result<Vec<u8>, AllocError> {
    let unit = name(alloc, unit)?;
    let look = find(alloc, tree, &unit)?;
    found_in_words(alloc, &look.found)
}

/// The paths that are looked at for a name.
fn looked_at(alloc: Global, tree: &Tree, unit: &[u8]) -> Result<Cells, AllocError> {
    let unit = name(alloc, unit)?;
    Ok(find(alloc, tree, &unit)?.cells)
}

fn looks_at(alloc: Global, tree: &Tree, unit: &[u8]) -> Result<Vec<u8>, AllocError> {
    let cells = looked_at(alloc, tree, unit)?;
    texts_of(alloc, cells.as_slice())
}

/// How many paths are looked at for a name.
fn count_looked_at(alloc: Global, tree: &Tree, unit: &[u8]) -> Result<Vec<u8>, AllocError> {
    let count = looked_at(alloc, tree, unit)?.as_slice().len();
    Ok(format!(in alloc; "{count}")?.into_bytes())
}

fn end_in_words(alloc: Global, end: &End) -> Result<Vec<u8>, AllocError> {
    match end {
        End::Missing => Vec::from_slice(alloc, b"missing"),
        End::Null => Vec::from_slice(alloc, b"/dev/null"),
        End::File(path) => [b"file ", path.text()].concat(alloc),
        End::Dangling(path) => [b"dangling at ", path.text()].concat(alloc),
    }
}

/// Where a path leads, and how many paths are looked at, of which it is the first.
fn trail_in_words(alloc: Global, trail: &Trail, at: &[u8]) -> Result<Vec<u8>, AllocError> {
    let cells = trail.cells.as_slice();
    match cells.first() {
        Some(first) if first.text() == at => {
            let count = cells.len();
            let mut words = end_in_words(alloc, &trail.end)?;
            words.extend_from_slice(format!(in alloc; ", {count} looked at")?.as_bytes())?;
            Ok(words)
        }
        _ => Vec::from_slice(alloc, b"another path first"),
    }
}

fn followed(alloc: Global, tree: &Tree, at: &[u8]) -> Result<Vec<u8>, AllocError> {
    let path = path(alloc, at)?;
    let trail = follow(alloc, tree, &path)?;
    trail_in_words(alloc, &trail, at)
}

/// The paths to which the entry at a path leads, if it leads to a file.
fn entry_followed(alloc: Global, tree: &Tree, at: &[u8]) -> Result<Vec<u8>, AllocError> {
    let path = path(alloc, at)?;
    let Some(entry) = tree.get(&path) else {
        return Vec::from_slice(alloc, b"no entry");
    };
    let mut cells = Cells::new(alloc);
    match follow_entry_into(alloc, tree, &path, entry, &mut cells)? {
        End::File(_) => texts_of(alloc, cells.as_slice()),
        End::Missing | End::Null | End::Dangling(_) => Vec::from_slice(alloc, b"no file"),
    }
}

/// What a row looks up in a tree for a name or a path.
pub(crate) fn answer_of(
    alloc: Global,
    tree: &Tree,
    row: &Row,
    about: &[u8],
) -> Result<Vec<u8>, AllocError> {
    if is(row, b"find") {
        found_for(alloc, tree, about)
    } else if is(row, b"look at") {
        looks_at(alloc, tree, about)
    } else if is(row, b"count") {
        count_looked_at(alloc, tree, about)
    } else if is(row, b"follow") {
        followed(alloc, tree, about)
    } else if is(row, b"follow entry") {
        entry_followed(alloc, tree, about)
    } else {
        Vec::from_slice(alloc, b"unknown kind")
    }
}

/// What a row looks up in one of these trees.
pub(crate) fn answer_in(alloc: Global, row: &Row, trees: &[Named]) -> Result<Vec<u8>, AllocError> {
    let tree = tree(alloc, inventory_named(trees, &row.one))?;
    answer_of(alloc, &tree, row, &row.two)
}
