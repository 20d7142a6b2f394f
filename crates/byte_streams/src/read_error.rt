//! Why something was not read.
ghost use Rattle.std.specs.Prelude.{◌≡◌};
ghost use Rattle.byte_streams.specs.declared.read_error.ReadError.TheVariants as errors;

use std::alloc::{AllocError, AllocFailed};
use std::fmt::Display;
use thiserror::Error;

/// The source failed, or was interrupted 1,000 times in a row.
#[derive(Clone, Copy, Debug, PartialEq, Eq, Hash, Error)]
#[error("read fault")]
pub struct ReadFault;

/// Why something was not read: `F` is an error in the bytes; the other two don't depend on the
/// bytes.
#[derive(Clone, Copy, Debug, PartialEq, Eq, Hash, Error)]
#[error_bound(F: Display)]
pub enum ReadError<F> {
    /// The bytes are invalid.
    #[error("{0}")]
    Fault(F),
    /// The source failed, or was interrupted 1,000 times in a row.
    #[error("read fault")]
    ReadFault,
    #[error("out of memory")]
    OutOfMemory,
}

impl<F> From<ReadFault> for ReadError<F> {
    ghost from_gives = { λ _ e. e ≡ errors.ReadFault };

    fn from(_e: ReadFault) -> ReadError<F> {
        ReadError::ReadFault
    }
}

impl<F> From<AllocError> for ReadError<F> {
    ghost from_gives = { λ _ e. e ≡ errors.OutOfMemory };

    fn from(_e: AllocError) -> ReadError<F> {
        ReadError::OutOfMemory
    }
}

impl<T: Drop, F> From<AllocFailed<T>> for ReadError<F> {
    ghost from_gives = { λ _ e. e ≡ errors.OutOfMemory };

    fn from(_e: AllocFailed<T>) -> ReadError<F> {
        ReadError::OutOfMemory
    }
}
