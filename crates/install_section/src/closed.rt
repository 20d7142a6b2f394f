//! The result of a closure.
ghost use Rattle.std.specs.Prelude.{◌≡◌};
ghost use Rattle.install_section.specs.declared.closed.ClosureError.TheVariants as errors;

use crate::members::Members;
use load_path::Cells;
use std::alloc::AllocError;
use thiserror::Error;
use unit_file::Notices;

/// Units that are enabled and disabled together, and the notices about words that were skipped.
#[derive(Debug, Drop)]
pub struct Closed {
    /// The given units and then those that their files name, in the order in which they are found.
    pub units: Members,
    /// A notice for each word of `Also=` that names no unit found under its own name.
    pub notices: Notices,
}

/// Why units can't be enabled together.
#[derive(Clone, Copy, Debug, PartialEq, Eq, Hash, Error)]
pub enum ClosureFault {
    /// There are over 1,024 of them.
    #[error("too many units")]
    TooMany,
}

/// The units that are enabled and disabled together, by `closure`.
#[derive(Debug, Drop)]
pub struct Closure {
    /// The given units and then those that their files name, in the order in which they are found.
    pub units: Members,
    /// Each path that was looked at, once, in the order in which they were looked at.
    pub cells: Cells,
    /// A notice for each word of `Also=` that names no unit found under its own name.
    pub notices: Notices,
}

/// Why `closure` returns no units.
#[derive(Debug, Drop)]
pub enum ClosureError {
    /// There are over 1,024 of them. Holds the paths that were looked at until then, each once.
    TooMany(Cells),
    /// Memory ran out.
    OutOfMemory,
}

impl From<AllocError> for ClosureError {
    ghost from_gives = { λ _ e. e ≡ errors.OutOfMemory };

    fn from(_e: AllocError) -> ClosureError {
        ClosureError::OutOfMemory
    }
}
