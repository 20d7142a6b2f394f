ghost use Rattle.std.specs.Prelude.{◌≡◌, IfOk, true, false};
ghost use Rattle.unit_paths.specs.Paths.{is_target};

use crate::fault::TargetError;
use crate::part::is_target;
use std::alloc::{AllocError, Global};
use std::marker::Model;

/// The target of a link as it was written: an absolute path, or one relative to the link's
/// directory, of 1 to 4,095 bytes without NUL, TAB and LF. symlink(7). Contracts see its text.
#[derive(Debug, Drop)]
pub struct Target {
    text: Vec<u8>,
}

impl Model for Target {
    ghost use Rattle.std.specs.Prelude.{List, ℕ, IsTrue};
    ghost use Rattle.unit_paths.specs.Paths.{is_target};

    ghost Value = { List ℕ };

    ghost view = { λ target. target.text.items };

    ghost invariant = { λ target. IsTrue (is_target target.text.items) };
}

impl Target {
    /// Reads a target, and copies the text.
    ///
    /// - `BadTarget`: the text is empty, has over 4,095 bytes, or has a NUL, TAB or LF.
    /// - `OutOfMemory`: memory runs out. The text is checked first, so a bad one is always
    ///   `BadTarget`.
    pub fn parse(alloc: Global, text: &[u8]) -> Result<Target, TargetError>
        ensures target { IfOk result (λ target. (target ≡ text.now) × (is_target text.now ≡ true)) }
        ensures bad { result ≡ Err TargetError.BadTarget → is_target text.now ≡ false }
    {
        if !is_target(text) {
            return Err(TargetError::BadTarget);
        }
        let text = Vec::from_slice(alloc, text)?;
        Ok(Target { text })
    }

    /// The text of the target, which is always one that `parse` reads.
    pub fn text(&self) -> &[u8]
        ensures text { result.now ≡ self.now }
        ensures target { is_target self.now ≡ true }
    {
        &self.text
    }

    /// An equal target. Fails only if memory runs out.
    pub fn copy(&self) -> Result<Target, AllocError>
        ensures { IfOk result (λ target. target ≡ self.now) }
    {
        Ok(Target {
            text: self.text.clone()?,
        })
    }
}
