//! Why a run of sessions isn't closed.
ghost use Rattle.std.specs.Prelude.{◌≡◌, Ok, IfOk, IfErr};
ghost use Rattle.sessions.specs.Faults.{of_open, of_call, of_worker, told, IsFaultOf};
ghost use Rattle.sessions.specs.declared.faults.RunError.TheVariants as errors;
ghost use Rattle.sessions.specs.declared.faults.WorkFault.TheVariants as at_work;

use history::CallError;
use shared_admin::{OpenError, Unclosed};
use std::alloc::{AllocError, AllocFailed};

/// Why sessions didn't complete and close a run, in the order in which the reasons are reported:
/// the first two before anything is done.
#[derive(Debug, Drop)]
pub enum RunError<H, L> {
    /// There are more than sixteen operators.
    TooManySessions,
    /// An operator is in the list twice.
    SameOperator,
    /// A worker could not be started, perhaps because memory ran out. Those that were started have
    /// ended.
    NoWorker,
    /// The history has as many rows as it may have, and a request was left.
    Full,
    OutOfMemory,
    /// The logs don't match the rows. History and logs are returned.
    Close(Unclosed<H, L>),
}

impl<H, L> From<OpenError> for RunError<H, L> {
    ghost from_gives = { λ why e. e ≡ of_open why };

    fn from(why: OpenError) -> RunError<H, L> {
        match why {
            OpenError::TooManySessions => RunError::TooManySessions,
            OpenError::SameOperator => RunError::SameOperator,
            OpenError::OutOfMemory => RunError::OutOfMemory,
        }
    }
}

impl<H, L> From<WorkFault> for RunError<H, L> {
    ghost from_gives = { λ fault e. e ≡ of_worker fault };

    fn from(fault: WorkFault) -> RunError<H, L> {
        match fault {
            WorkFault::NoWorker => RunError::NoWorker,
            WorkFault::Full => RunError::Full,
            WorkFault::OutOfMemory => RunError::OutOfMemory,
        }
    }
}

impl<H, L> From<AllocError> for RunError<H, L> {
    ghost from_gives = { λ _ e. e ≡ errors.OutOfMemory };

    fn from(_e: AllocError) -> RunError<H, L> {
        RunError::OutOfMemory
    }
}

/// Why workers didn't serve all their requests, in the order in which the reasons are reported.
#[derive(Clone, Copy, Debug)]
pub(crate) enum WorkFault {
    NoWorker,
    Full,
    OutOfMemory,
}

impl From<CallError> for WorkFault {
    ghost from_gives = { λ why fault. fault ≡ of_call why };

    fn from(why: CallError) -> WorkFault {
        match why {
            CallError::Full => WorkFault::Full,
            CallError::OutOfMemory => WorkFault::OutOfMemory,
        }
    }
}

impl From<AllocError> for WorkFault {
    ghost from_gives = { λ _ fault. fault ≡ at_work.OutOfMemory };

    fn from(_e: AllocError) -> WorkFault {
        WorkFault::OutOfMemory
    }
}

impl<T: Drop> From<AllocFailed<T>> for WorkFault {
    ghost from_gives = { λ _ fault. fault ≡ at_work.OutOfMemory };

    fn from(_e: AllocFailed<T>) -> WorkFault {
        WorkFault::OutOfMemory
    }
}

/// Which of two errors is reported.
fn told(fault: WorkFault, why: CallError) -> WorkFault
    ensures { result ≡ told fault why }
{
    match fault {
        WorkFault::NoWorker | WorkFault::Full => fault,
        WorkFault::OutOfMemory => WorkFault::from(why),
    }
}

/// The results of the first workers and of the last one, or the error that is reported.
pub(crate) fn both<A: Drop, B: Drop>(
    first: Result<A, WorkFault>,
    last: Result<B, CallError>,
) -> Result<(A, B), WorkFault>
    ensures ok { IfOk result (λ pair. (first ≡ Ok pair.0) × (last ≡ Ok pair.1)) }
    ensures fault { IfErr result (IsFaultOf first last) }
{
    match (first, last) {
        (Ok(first), Ok(last)) => Ok((first, last)),
        (Ok(_), Err(why)) => Err(WorkFault::from(why)),
        (Err(fault), Ok(_)) => Err(fault),
        (Err(fault), Err(why)) => Err(told(fault, why)),
    }
}
