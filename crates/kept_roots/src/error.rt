//! Errors of the directory of a history.
ghost use Rattle.std.specs.Prelude.{◌≡◌};
ghost use Rattle.real_roots.specs.declared.trouble.Trouble.TheVariants as troubles;
ghost use Rattle.kept_roots.specs.declared.error.HistoryError.TheVariants as histories;
ghost use Rattle.kept_roots.specs.Errors.{IsRefused, IsIfThere};

use real_roots::Trouble;
use std::alloc::{AllocError, AllocFailed, Global};
use std::io;
use thiserror::Error;

/// Why the directory of a history could not be used.
#[derive(Debug, Drop, Error)]
pub enum HistoryError {
    /// Something about the directory keeps it from being used.
    #[error("{0}: {1}")]
    At(String, DirectoryFault),
    #[error("{0}: not a file, but the history belongs there")]
    NoFile(String),
    /// `history.1` to `history.999999` all exist.
    #[error("too many earlier histories")]
    TooMany,
    /// The file is larger than allowed.
    #[error("{0}: larger than {1} bytes")]
    TooLarge(String, u64),
    /// All was done, but it could not be synced.
    #[error("{0}: all was done, and may not last")]
    MayNotLast(Trouble),
    /// Another run has locked the history.
    #[error("another run holds the history")]
    Busy,
    /// The system refused something, or something has changed meanwhile.
    #[error("{0}")]
    Trouble(Trouble),
}

/// Why a directory can't be that of a history.
#[derive(Clone, Copy, Debug, PartialEq, Eq, Error)]
pub enum DirectoryFault {
    #[error("a link instead of the directory of a history")]
    Link,
    #[error("no directory, but a history belongs into it")]
    NoDirectory,
    /// Another user could change the history.
    #[error("belongs to another user than the one who runs unitroot")]
    Foreign,
    /// Others could read or change the history.
    #[error("its mode is not 700")]
    Mode,
    /// It was given as a directory outside of the root.
    #[error("within the root, but given as a directory outside of it")]
    WithinRoot,
}

impl From<Trouble> for HistoryError {
    ghost from_gives = { λ trouble e. e ≡ histories.Trouble trouble };

    fn from(trouble: Trouble) -> HistoryError {
        HistoryError::Trouble(trouble)
    }
}

impl From<AllocError> for HistoryError {
    ghost from_gives = { λ _ e. e ≡ histories.Trouble troubles.OutOfMemory };

    fn from(_e: AllocError) -> HistoryError {
        HistoryError::Trouble(Trouble::OutOfMemory)
    }
}

impl<T: Drop> From<AllocFailed<T>> for HistoryError {
    ghost from_gives = { λ _ e. e ≡ histories.Trouble troubles.OutOfMemory };

    fn from(_e: AllocFailed<T>) -> HistoryError {
        HistoryError::Trouble(Trouble::OutOfMemory)
    }
}

/// What is wrong with a directory.
pub(crate) fn refused(alloc: Global, path: &str, fault: DirectoryFault) -> HistoryError
    ensures { IsRefused path.now fault result }
{
    match String::from_str(alloc, path) {
        Ok(path) => HistoryError::At(path, fault),
        Err(_) => HistoryError::Trouble(Trouble::OutOfMemory),
    }
}

/// A system call's result; `None` if there is no such file.
pub(crate) fn if_there<T>(answer: io::Result<T>) -> io::Result<Option<T>>
    ensures { IsIfThere answer result }
{
    match answer {
        Ok(given) => Ok(Some(given)),
        Err(e) if e.kind() == io::ErrorKind::NotFound => Ok(None),
        Err(e) => Err(e),
    }
}
