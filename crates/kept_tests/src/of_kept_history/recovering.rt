//! What a program does first: it removes `history.new`, and finishes a run that is promised.
use super::memory_disk::MemoryDisk;
use super::names::{Naming, Text};
use super::trees::Trees;
use kept_history::{FinishError, KeptDisk, finish};
use link_tree::Change;
use std::alloc::Global;

/// Recovers a disk whose histories have these trees. Returns the steps that were not made, since
/// somebody else has changed what is at their paths.
pub(crate) fn recover(
    alloc: Global,
    disk: &mut MemoryDisk,
    trees: &Trees,
) -> Result<Vec<Change>, FinishError> {
    if disk.files.now.names.new.is_some() {
        disk.files.name(Naming::Discard)?;
    }
    match disk.files.now.names.next {
        Some(_) => {
            let old = match disk.files.now.names.history {
                Some(Text::New) => &trees.new,
                _ => &trees.old,
            };
            finish(alloc, disk, old, &trees.new)
        }
        None => {
            disk.sync_history()?;
            Ok(Vec::new(alloc))
        }
    }
}
