//! Why a command stops before its end.
ghost use Rattle.transaction.specs.declared.stop.Stop.TheVariants.{OutOfMemory};

use footprint::Refusal;
use std::alloc::AllocError;

/// The error of functions that are given a transaction: the command is refused, or memory ran out.
/// `?` makes an `OutOfMemory` of an `AllocError`.
#[derive(Debug, Drop)]
pub enum Stop {
    /// The command is refused for this reason, and must change nothing.
    Refused(Refusal),
    /// Memory ran out, so the command has no outcome.
    OutOfMemory,
}

impl From<AllocError> for Stop {
    ghost use Rattle.std.specs.Prelude.{◌≡◌};

    ghost from_gives = { λ _ stop. stop ≡ OutOfMemory };

    fn from(_error: AllocError) -> Stop {
        Stop::OutOfMemory
    }
}
