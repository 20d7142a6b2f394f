//! Entries at slots that were read and aren't in the tree yet: they are put there many at a time,
//! sorted, so that neighbours are close together in memory.
ghost use Rattle.std.specs.Prelude.{◌≡◌, ◌/◌, All, IfOk, max, min};
ghost use Rattle.link_tree.specs.Pending.{AreRising, IsAtSlot, IsInserted, earlier, place_all, shifted, sort_key, with_bytes};
ghost use Rattle.link_tree.specs.declared.pending.TheConstants.{LEAST_PENDING, MOST_PENDING};

use crate::entry::Entry;
use crate::tree_part::TreePart;
use std::alloc::AllocError;
use unit_paths::TreePath;

/// The largest number of pending entries if the tree is small.
const LEAST_PENDING: usize = 16;

/// The largest number of pending entries if the tree is large.
const MOST_PENDING: usize = 4096;

/// An entry that was read, with its number.
#[derive(Debug, Drop)]
pub(crate) struct PendingEntry {
    pub path: TreePath,
    pub entry: Entry,
    pub number: u32,
}

/// The number of bytes of a name in the sort key of pending entries.
const SORTED_BYTES: usize = 15;

/// The sort key of pending entries: the length of the directory, and the first bytes of the name.
/// It is the same for equal paths, mostly rises with the path, and comparing it needs no text to be
/// fetched from memory.
fn sort_key(pending: &PendingEntry) -> u128
    ensures { result ≡ sort_key pending.now.path }
{
    let name = pending.path.file_name();
    let first = &name[..name.len().min(SORTED_BYTES)];
    with_bytes(pending.path.directory().len() as u128, first)
}

/// The key with these bytes appended.
fn with_bytes(mut key: u128, bytes: &[u8]) -> u128
    ensures { result ≡ with_bytes key bytes.now }
{
    for byte in bytes {
        key = shifted(key, *byte);
    }
    key
}

/// The key with a byte appended.
#[inline]
fn shifted(key: u128, byte: u8) -> u128
    ensures { result ≡ shifted key byte }
{
    key.wrapping_mul(256).wrapping_add(u128::from(byte))
}

/// The largest number of pending entries for a tree with this number of entries: few enough that
/// they take little memory compared with the tree.
pub(crate) fn most_pending(entries: usize) -> usize
    ensures { result ≡ min MOST_PENDING (max LEAST_PENDING (entries / 8)) }
{
    (entries / 8).clamp(LEAST_PENDING, MOST_PENDING)
}

/// Puts the pending entries into the tree, and returns the number of the first entry whose path was
/// already taken when it was inserted.
pub(crate) fn insert_all(
    tree: &mut TreePart,
    mut pending: Vec<PendingEntry>,
) -> Result<Option<u32>, AllocError>
    requires slots { All IsAtSlot pending.items }
    requires rising { AreRising pending.items }
    ensures { IfOk result (λ taken. IsInserted taken tree.new (place_all tree.old pending.items)) }
{
    tree.shape();
    pending.sort_by_cached_key(sort_key)?;
    let mut taken = None;
    for PendingEntry {
        path,
        entry,
        number,
    } in pending {
        tree.shape();
        if tree.insert(path, entry)? {
            taken = Some(earlier(taken, number));
        }
    }
    Ok(taken)
}

/// The smaller of two numbers, or the second if there is no first.
fn earlier(taken: Option<u32>, number: u32) -> u32
    ensures { result ≡ earlier taken number }
{
    match taken {
        Some(other) => other.min(number),
        None => number,
    }
}
