//! Files and links.
ghost use Rattle.std.specs.Prelude.{◌≡◌, IfOk, IsTrue, ◌↔◌, true, false};
ghost use Rattle.unit_paths.specs.Paths.{is_target};
ghost use Rattle.link_tree.specs.Files.{is_contents};
ghost use Rattle.link_tree.specs.Links.{is_null_link};
ghost use Rattle.link_tree.specs.declared.entry.Entry.TheVariants.{File, Link};

use crate::contents::{Contents, FileError};
use std::alloc::{AllocError, Global};
use unit_paths::{Target, TargetError, TreePath, is_null_target};

/// The entry at a path.
#[derive(Debug, Drop)]
pub enum Entry {
    File(Contents),
    Link(Target),
}

impl Entry {
    ghost use Rattle.link_tree.specs.Values.{is_entry, bytes_of, same_entry};

    /// A file with these bytes: at most 1,048,576.
    ///
    /// # Errors
    ///
    /// `TooLarge` if there are more; out of memory.
    pub fn file(alloc: Global, bytes: &[u8]) -> Result<Entry, FileError>
        ensures file { IfOk result (λ entry. (entry ≡ File bytes.now) × (is_contents bytes.now ≡ true)) }
        ensures large { result ≡ Err FileError.TooLarge → is_contents bytes.now ≡ false }
    {
        Ok(Entry::File(Contents::copied(alloc, bytes)?))
    }

    /// A link with this target, exactly as written: 1 to 4,095 bytes without NUL, TAB and LF.
    ///
    /// # Errors
    ///
    /// `BadTarget` for any other text; out of memory.
    pub fn link(alloc: Global, target: &[u8]) -> Result<Entry, TargetError>
        ensures link { IfOk result (λ entry. (entry ≡ Link target.now) × (is_target target.now ≡ true)) }
        ensures bad { result ≡ Err TargetError.BadTarget → is_target target.now ≡ false }
    {
        Ok(Entry::Link(Target::parse(alloc, target)?))
    }

    /// The bytes of the file, or the text of the link's target.
    pub fn bytes(&self) -> &[u8]
        ensures bytes { result.now ≡ bytes_of self.now }
        ensures entry { is_entry self.now ≡ true }
    {
        match self {
            Entry::File(contents) => contents.bytes(),
            Entry::Link(target) => target.text(),
        }
    }

    /// Whether the entries are equal: both files, or both links, with the same bytes.
    #[tactic(auto, using(crate::proofs::Same::same_entries))]
    pub fn same(&self, other: &Entry) -> bool
        ensures test { result ≡ same_entry self.now other.now }
        ensures same { IsTrue result ↔ (self.now ≡ other.now) }
    {
        match (self, other) {
            (Entry::File(one), Entry::File(other)) => one.bytes() == other.bytes(),
            (Entry::Link(one), Entry::Link(other)) => one.text() == other.text(),
            _ => false,
        }
    }

    /// An equal entry.
    pub fn copy(&self) -> Result<Entry, AllocError>
        ensures { IfOk result (λ entry. entry ≡ self.now) }
    {
        match self {
            Entry::File(contents) => Ok(Entry::File(contents.copy()?)),
            Entry::Link(target) => Ok(Entry::Link(target.copy()?)),
        }
    }
}

impl Clone for Entry {
    ghost is_clone = { λ entry copy. copy ≡ entry };

    fn clone(&self) -> Result<Entry, AllocError> {
        self.copy()
    }
}

/// Whether a link leads to `/dev/null`, which masks a unit: systemctl(1), `mask`. False for every
/// file. Allocates no memory.
pub fn is_null_link(link: &TreePath, entry: &Entry) -> bool
    ensures { result ≡ is_null_link link.now entry.now }
{
    match entry {
        Entry::File(_) => false,
        Entry::Link(target) => is_null_target(link, target),
    }
}
