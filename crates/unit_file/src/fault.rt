ghost use Rattle.std.specs.Prelude.{◌≡◌};
ghost use Rattle.unit_file.specs.declared.fault.InstallError.TheVariants as errors;

use std::alloc::AllocError;
use thiserror::Error;

/// The most bytes that a logical line may have, as it is joined and before it is stripped:
/// systemd.syntax(7), "currently 1 MB".
pub const MAX_LINE: usize = 1_048_576;

/// What is wrong with the bytes of a unit file.
#[derive(Clone, Copy, Debug, PartialEq, Eq, Hash, Error)]
pub enum InstallFault {
    /// A logical line, as it is joined, has over 1,048,576 bytes.
    #[error("line too long")]
    LineTooLong,
}

/// Why a unit file can't be read.
#[derive(Clone, Copy, Debug, PartialEq, Eq, Hash, Error)]
pub enum InstallError {
    #[error("{0}")]
    Bad(InstallFault),
    #[error("out of memory")]
    OutOfMemory,
}

impl From<AllocError> for InstallError {
    ghost from_gives = { λ _ e. e ≡ errors.OutOfMemory };

    fn from(_e: AllocError) -> InstallError {
        InstallError::OutOfMemory
    }
}
