ghost use Rattle.std.specs.Prelude.{◌≡◌};
ghost use Rattle.unit_paths.specs.declared.fault.PathError.TheVariants as paths;
ghost use Rattle.unit_paths.specs.declared.fault.TargetError.TheVariants as targets;

use std::alloc::AllocError;
use thiserror::Error;

/// The longest path or target, in bytes: `PATH_MAX` of limits.h without the NUL at the end.
pub const MAX_PATH: usize = 4095;

/// Why a text isn't a path.
#[derive(Clone, Copy, Debug, PartialEq, Eq, Hash, Error)]
pub enum PathError {
    /// It isn't absolute, is the root, has an empty part, a part `.` or `..`, a NUL, TAB or LF, or
    /// over 4,095 bytes.
    #[error("bad path")]
    BadPath,
    /// Memory ran out.
    #[error("out of memory")]
    OutOfMemory,
}

impl From<AllocError> for PathError {
    ghost from_gives = { λ _ e. e ≡ paths.OutOfMemory };

    fn from(_e: AllocError) -> PathError {
        PathError::OutOfMemory
    }
}

/// Why a text isn't a target.
#[derive(Clone, Copy, Debug, PartialEq, Eq, Hash, Error)]
pub enum TargetError {
    /// It is empty, has a NUL, TAB or LF, or over 4,095 bytes.
    #[error("bad target")]
    BadTarget,
    /// Memory ran out.
    #[error("out of memory")]
    OutOfMemory,
}

impl From<AllocError> for TargetError {
    ghost from_gives = { λ _ e. e ≡ targets.OutOfMemory };

    fn from(_e: AllocError) -> TargetError {
        TargetError::OutOfMemory
    }
}
