//! What a disk holds, in words.
use super::memory_disk::MemoryDisk;
use super::names::Text;
use super::trees::Trees;
use link_tree::{Change, Entry, Tree};
use std::alloc::{AllocError, Global};
use tree_steps::are_same;

/// Adds the events of a disk, its files and its tree, and how many of its calls failed.
pub(crate) fn push_state(
    alloc: Global,
    disk: &MemoryDisk,
    trees: &Trees,
    text: &mut Vec<u8>,
) -> Result<(), AllocError> {
    text.extend_from_slice(b"; ")?;
    text.extend_from_slice(&disk.events)?;
    let names = disk.files.now.names;
    let history = Text::word(names.history);
    let next = Text::word(names.next);
    let tree = trees.word(&disk.files.now.tree);
    let failures = disk.failures;
    let left = if disk.files.now.leftovers == 0 {
        ""
    } else {
        ", leftovers"
    };
    let state = format!(in alloc;
        "; history {history}, next {next}, tree {tree}{left}; failed {failures}"
    )?;
    text.extend_from_slice(state.as_bytes())
}

fn letter(entry: &Option<Entry>) -> u8 {
    match entry {
        Some(Entry::File(_)) => b'F',
        Some(Entry::Link(_)) => b'L',
        None => b'-',
    }
}

fn push_step(text: &mut Vec<u8>, step: &Change) -> Result<(), AllocError> {
    text.push(b' ')?;
    text.extend_from_slice(step.path.file_name().get(..1).unwrap_or(b"?"))?;
    text.push(letter(&step.before))?;
    text.push(letter(&step.after))?;
    Ok(())
}

/// Adds the first letter of each step's name, with what is there before and after.
pub(crate) fn push_steps(text: &mut Vec<u8>, steps: &[Change]) -> Result<(), AllocError> {
    for step in steps {
        push_step(text, step)?;
    }
    Ok(())
}

/// How a history and its root ended.
#[derive(Clone, Copy, PartialEq, Eq)]
pub(crate) enum End {
    Old,
    New,
    Half,
}

/// Whether a disk is at rest, with the old history and the tree of before or with the new history
/// and its tree.
pub(crate) fn end_of(disk: &MemoryDisk, before: &Tree, trees: &Trees) -> End {
    let names = disk.files.now.names;
    if names.next.is_some() || names.new.is_some() {
        return End::Half;
    }
    match names.history {
        Some(Text::Old) if are_same(&disk.files.now.tree, before) => End::Old,
        Some(Text::New) if are_same(&disk.files.now.tree, &*trees.new) => End::New,
        _ => End::Half,
    }
}
