//! Texts of readings.
use crate::keys::reading;
use footprint::{Key, Observation, Reading, Seen};
use link_tree::{Entry, Scope, ToWrite, Tree, TreePart, write_inventory};
use std::alloc::{AllocError, Global};

pub(crate) fn push_key(text: &mut Vec<u8>, key: &Key) -> Result<(), AllocError> {
    match key {
        Key::Cell(path) => text.extend_from_slice(path.text()),
        Key::Marked(scope, name) => {
            text.extend_from_slice(match scope {
                Scope::Etc => b"etc:",
                Scope::Run => b"run:",
            })?;
            text.extend_from_slice(name.text())
        }
        Key::Presets => text.extend_from_slice(b"presets"),
        Key::Links => text.extend_from_slice(b"links"),
    }
}

fn push_entry(text: &mut Vec<u8>, entry: &Entry) -> Result<(), AllocError> {
    text.push(b' ')?;
    text.extend_from_slice(entry.bytes())?;
    text.extend_from_slice(b"\n")
}

fn push_inventory(alloc: Global, text: &mut Vec<u8>, tree: &Tree) -> Result<(), AllocError> {
    match write_inventory(alloc, tree, &mut ToWrite::new(text)) {
        Ok(()) => Ok(()),
        Err(_) => Err(AllocError),
    }
}

/// The inventory of a tree.
pub(crate) fn inventory_of(alloc: Global, tree: &Tree) -> Result<Vec<u8>, AllocError> {
    let mut text = Vec::new(alloc);
    push_inventory(alloc, &mut text, tree)?;
    Ok(text)
}

fn push_entries(alloc: Global, text: &mut Vec<u8>, entries: &TreePart) -> Result<(), AllocError> {
    text.push(b'\n')?;
    let tree = Tree::of(alloc, entries.share()?)?;
    push_inventory(alloc, text, &tree)
}

fn push_seen(alloc: Global, text: &mut Vec<u8>, seen: &Seen) -> Result<(), AllocError> {
    match seen {
        Seen::Entry(None) => text.extend_from_slice(b" absent\n"),
        Seen::Entry(Some(entry)) => push_entry(text, entry),
        Seen::Entries(entries) => push_entries(alloc, text, entries),
    }
}

fn push_observation(
    alloc: Global,
    text: &mut Vec<u8>,
    observation: &Observation,
) -> Result<(), AllocError> {
    push_key(text, &observation.key)?;
    push_seen(alloc, text, &observation.seen)
}

fn told(alloc: Global, reading: &Reading) -> Result<Vec<u8>, AllocError> {
    let mut text = Vec::new(alloc);
    for observation in reading.as_slice() {
        push_observation(alloc, &mut text, observation)?;
    }
    Ok(text)
}

/// What keys, separated by spaces, read in a tree: a line for each key, followed by `absent` or the
/// bytes of the entry if it is a cell, and otherwise by the inventory of what it saw.
pub(crate) fn read_as(alloc: Global, inventory: &[u8], keys: &[u8]) -> Result<Vec<u8>, AllocError> {
    let reading = reading(alloc, inventory, keys)?;
    told(alloc, &reading)
}
