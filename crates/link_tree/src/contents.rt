//! The contents of files.
ghost use Rattle.std.specs.Prelude.{◌≡◌, IfOk, true, false};
ghost use Rattle.link_tree.specs.Files.{is_contents};
ghost use Rattle.link_tree.specs.declared.contents.FileError.TheVariants as files;

use std::alloc::{AllocError, Global};
use std::marker::Model;
use std::sync::ArcSlice;
use thiserror::Error;

/// The size of the largest file, in bytes.
pub const MAX_FILE: usize = 1_048_576;

/// Why some bytes cannot be the contents of a file.
#[derive(Clone, Copy, Debug, PartialEq, Eq, Hash, Error)]
pub enum FileError {
    /// There are more than 1,048,576 of them.
    #[error("file too large")]
    TooLarge,
    #[error("out of memory")]
    OutOfMemory,
}

impl From<AllocError> for FileError {
    ghost from_gives = { λ _ e. e ≡ files.OutOfMemory };

    fn from(_e: AllocError) -> FileError {
        FileError::OutOfMemory
    }
}

/// The contents of a file: at most 1,048,576 bytes, which its copies share. Contracts see the
/// bytes.
#[derive(Debug, Drop)]
pub struct Contents {
    bytes: ArcSlice<u8>,
}

impl Model for Contents {
    ghost use Rattle.std.specs.Prelude.{List, ℕ, IsTrue};
    ghost use Rattle.std.specs.Arc.{arc_slice_items};
    ghost use Rattle.link_tree.specs.Files.{is_contents};

    ghost Value = { List ℕ };

    ghost view = { λ contents. arc_slice_items contents.bytes };

    ghost invariant = { λ contents. IsTrue (is_contents (arc_slice_items contents.bytes)) };
}

impl Contents {
    /// Copies the bytes of a file: at most 1,048,576.
    ///
    /// # Errors
    ///
    /// `TooLarge` if there are more; out of memory.
    #[tactic(auto, unfolding(crate::specs::Files::is_contents))]
    pub fn copied(alloc: Global, bytes: &[u8]) -> Result<Contents, FileError>
        ensures contents { IfOk result (λ contents. (contents ≡ bytes.now) × (is_contents bytes.now ≡ true)) }
        ensures large { result ≡ Err FileError.TooLarge → is_contents bytes.now ≡ false }
    {
        if bytes.len() > MAX_FILE {
            return Err(FileError::TooLarge);
        }
        let bytes = ArcSlice::from_slice(alloc, bytes)?;
        Ok(Contents { bytes })
    }

    /// Takes ownership of the bytes of a file.
    pub(crate) fn new(bytes: Vec<u8>) -> Result<Contents, AllocError>
        requires { is_contents bytes.items ≡ true }
        ensures { IfOk result (λ contents. contents ≡ bytes.items) }
    {
        Ok(Contents {
            bytes: ArcSlice::from_vec(bytes)?,
        })
    }

    /// The bytes, all of them.
    pub fn bytes(&self) -> &[u8]
        ensures bytes { result.now ≡ self.now }
        ensures contents { is_contents self.now ≡ true }
    {
        &self.bytes
    }

    /// Equal contents, without copying the bytes.
    pub fn copy(&self) -> Result<Contents, AllocError>
        ensures { IfOk result (λ contents. contents ≡ self.now) }
    {
        Ok(Contents {
            bytes: self.bytes.clone()?,
        })
    }
}
