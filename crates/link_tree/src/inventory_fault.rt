//! What is wrong with inventories.
ghost use Rattle.std.specs.Prelude.{◌≡◌};

use std::alloc::AllocError;
use thiserror::Error;

/// What is wrong with an inventory: within one entry, the first of these that applies.
#[derive(Clone, Copy, Debug, PartialEq, Eq, Hash, Error)]
pub enum InventoryFault {
    /// It doesn't begin with the header.
    #[error("bad header")]
    BadHeader,
    /// A line is neither an entry nor `end`, or has over 16,384 bytes; or no line end follows a
    /// file's bytes.
    #[error("bad line")]
    BadLine,
    /// A path or a target is invalid.
    #[error("bad path")]
    BadPath,
    /// A file's stated length is over 1,048,576 bytes.
    #[error("file too large")]
    TooLarge,
    /// There are already 65,536 entries before it.
    #[error("too many entries")]
    TooMany,
    /// The input ends before the line `end`.
    #[error("truncated")]
    Truncated,
    /// There is already an entry at the path.
    #[error("duplicate")]
    Duplicate,
    /// There is already an entry above or beneath the path.
    #[error("under another entry")]
    UnderEntry,
    /// The path is beneath a slot, is a directory of slots or is above one.
    #[error("bad shape")]
    BadShape,
}

/// Why an inventory was not read: the first fault with the number of its entry. Entries count from
/// 1, the header is 0, and the last line counts as the next entry.
#[derive(Clone, Copy, Debug, PartialEq, Eq, Hash, Error)]
pub enum InventoryError {
    #[error("inventory entry {1}: {0}")]
    Fault(InventoryFault, u32),
    #[error("inventory entry {0}: read fault")]
    ReadFault(u32),
    #[error("out of memory")]
    OutOfMemory,
}

impl From<AllocError> for InventoryError {
    ghost use Rattle.link_tree.specs.declared.inventory_fault.InventoryError.TheVariants.{OutOfMemory};

    ghost from_gives = { λ _ e. e ≡ OutOfMemory };

    fn from(_e: AllocError) -> InventoryError {
        InventoryError::OutOfMemory
    }
}
