//! What an operator asks for by the calls of a command.
ghost use Rattle.std.specs.Prelude.{◌≡◌, IfOk, map};
ghost use Rattle.byte_streams.specs.Reads.{Gives};
ghost use Rattle.unit_script.specs.Script.{call_of_words};
ghost use Rattle.root_runs.specs.Script.{calls_of, MakesCalls};

use crate::words::CallWords;
use byte_streams::ReadError;
use std::alloc::{AllocError, AllocFailed, Global};
use thiserror::Error;
use unit_script::{Call, Reason, call_of_words};

/// A call that is refused: its place among the calls, from 0, and why.
#[derive(Clone, Copy, Debug, PartialEq, Eq, Error)]
#[error("call {place}: {reason}")]
pub struct CallFault {
    pub place: usize,
    pub reason: Reason,
}

/// Why the words of calls were not read.
#[derive(Clone, Copy, Debug, PartialEq, Eq, Error)]
pub enum CallError {
    /// The first call that is refused.
    #[error("{0}")]
    Fault(CallFault),
    #[error("out of memory")]
    OutOfMemory,
}

impl From<AllocError> for CallError {
    ghost use Rattle.root_runs.specs.declared.calls.CallError.TheVariants.{OutOfMemory};

    ghost from_gives = { λ _ e. e ≡ OutOfMemory };

    fn from(_e: AllocError) -> CallError {
        CallError::OutOfMemory
    }
}

impl<T: Drop> From<AllocFailed<T>> for CallError {
    ghost use Rattle.root_runs.specs.declared.calls.CallError.TheVariants.{OutOfMemory};

    ghost from_gives = { λ _ e. e ≡ OutOfMemory };

    fn from(_e: AllocFailed<T>) -> CallError {
        CallError::OutOfMemory
    }
}

/// The call of words.
fn call_of(alloc: Global, operator: &[u8], words: &CallWords) -> Result<Call, ReadError<Reason>>
    ensures { Gives (λ x. x) result (call_of_words operator.now words.now) }
{
    let mut texts = Vec::new(alloc);
    for word in words.as_slice() {
        texts.push(word.bytes())?;
    }
    call_of_words(alloc, operator, &texts)
}

/// What an operator asks for by the words of calls, or the first call that is refused, with the
/// reason. Words are taken as they are, and never split: so a path may have blanks in it.
///
/// # Errors
///
/// - `Fault`: the operator is no operator, or the call at this place is refused.
/// - `OutOfMemory`.
pub fn calls_of(
    alloc: Global,
    operator: &[u8],
    script: &[CallWords],
) -> Result<Vec<Call>, CallError>
    ensures { MakesCalls (λ calls. calls.items) result (calls_of operator.now script.now) }
{
    let mut calls = Vec::new(alloc);
    for (place, words) in script.iter().enumerate() {
        match call_of(alloc, operator, words) {
            Ok(call) => calls.push(call)?,
            Err(ReadError::Fault(reason)) => {
                return Err(CallError::Fault(CallFault { place, reason }));
            }
            Err(ReadError::ReadFault) => unreachable!(),
            Err(ReadError::OutOfMemory) => return Err(CallError::OutOfMemory),
        }
    }
    Ok(calls)
}
