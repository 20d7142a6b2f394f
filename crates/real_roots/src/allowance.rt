//! How much a run may read from a root.
ghost use Rattle.std.specs.Prelude.{◌≡◌, ◌*◌, true, false, OnOk, OnErr, IfErr};
ghost use Rattle.real_roots.specs.Allowances.{is_allowed, left_after};
ghost use Rattle.real_roots.specs.Errors.{IsTooMuch};

use crate::trouble::{Trouble, too_much};
use std::alloc::Global;

/// The number of bytes of a MiB.
const MIB: u64 = 1_048_576;

/// How many bytes of files, of links' targets and of paths in directories a run may still read from
/// a root. What is read may all be kept in memory, so this bounds what a hostile root can take.
#[derive(Clone, Copy, Debug, PartialEq, Eq)]
pub(crate) struct Allowance {
    /// What was allowed in all, for the message.
    mib: u32,
    left: u64,
    /// What is read only to be compared isn't counted, since it is dropped at once.
    is_counted: bool,
}

impl Allowance {
    /// This number of MiB.
    pub fn of(mib: u32) -> Allowance
        ensures in_all { result.mib ≡ mib }
        ensures left { result.left ≡ mib * 1048576 }
        ensures counted { result.is_counted ≡ true }
    {
        Allowance {
            mib,
            left: u64::from(mib) * MIB,
            is_counted: true,
        }
    }

    /// Whether what is read from now on is counted.
    pub fn count(&mut self, is_counted: bool)
        ensures counted { self.new.is_counted ≡ is_counted }
        ensures left { self.new.left ≡ self.old.left }
        ensures in_all { self.new.mib ≡ self.old.mib }
    {
        self.is_counted = is_counted;
    }

    /// Counts bytes, and returns whether they are allowed. After the first ones that aren't, only
    /// empty files are.
    fn allows(&mut self, bytes: u64) -> bool
        ensures allowed { result ≡ is_allowed self.old.is_counted self.old.left bytes }
        ensures left { self.new.left ≡ left_after self.old.is_counted self.old.left bytes }
        ensures counted { self.new.is_counted ≡ self.old.is_counted }
        ensures in_all { self.new.mib ≡ self.old.mib }
    {
        if !self.is_counted {
            return true;
        }
        let is_allowed = bytes <= self.left;
        self.left = self.left.saturating_sub(bytes);
        is_allowed
    }

    /// Counts bytes that were read at a path.
    ///
    /// Error: `TooMuch`; out of memory for its path.
    pub fn take(&mut self, alloc: Global, path: &str, bytes: usize) -> Result<(), Trouble>
        ensures left { self.new.left ≡ left_after self.old.is_counted self.old.left bytes }
        ensures counted { self.new.is_counted ≡ self.old.is_counted }
        ensures in_all { self.new.mib ≡ self.old.mib }
        ensures allowed { OnOk result (is_allowed self.old.is_counted self.old.left bytes ≡ true) }
        ensures refused { OnErr result (is_allowed self.old.is_counted self.old.left bytes ≡ false) }
        ensures error { IfErr result (IsTooMuch path.now self.old.mib) }
    {
        if self.allows(bytes as u64) {
            Ok(())
        } else {
            Err(too_much(alloc, path, self.mib))
        }
    }
}
