//! Errors of kept histories.
ghost use Rattle.std.specs.Prelude.{◌≡◌};

use history::CallError;
use kept_texts::{LineFault, TextError};
use link_tree::TreePath;
use std::alloc::{AllocError, AllocFailed};
use thiserror::Error;
use unit_script::{InputError, InputFault, Reason};

/// Why the text of a history isn't used.
#[derive(Clone, Copy, Debug, PartialEq, Eq, Error)]
pub enum KeptError {
    /// A line, counted from 1 at the beginning of the whole text.
    #[error("history: line {0}: {1}")]
    Text(usize, LineFault),
    /// It is no input of `unitadm`.
    #[error("history: {0}")]
    Input(InputFault),
    /// This run, counted from 1, was made by other rules.
    #[error("history: run {run} was made by rules {rules}")]
    RulesDiffer { run: usize, rules: u32 },
    /// Up to this row, the calls don't lead to the tree that the last run left.
    #[error("history: row {row} has another result under these rules")]
    TreeDiffers { row: usize },
    /// It has over 1,000,000 calls.
    #[error("history: over 1000000 rows")]
    Full,
    #[error("out of memory")]
    OutOfMemory,
}

impl From<AllocError> for KeptError {
    ghost use Rattle.kept_runs.specs.declared.errors.KeptError.TheVariants as keeps;

    ghost from_gives = { λ _ e. e ≡ keeps.OutOfMemory };

    fn from(_e: AllocError) -> KeptError {
        KeptError::OutOfMemory
    }
}

impl From<TextError> for KeptError {
    ghost use Rattle.kept_runs.specs.Faults.{of_text};

    ghost from_gives = { λ error e. e ≡ of_text error };

    fn from(error: TextError) -> KeptError {
        match error {
            TextError::Fault(line, fault) => KeptError::Text(line, fault),
            TextError::OutOfMemory => KeptError::OutOfMemory,
        }
    }
}

impl From<InputError> for KeptError {
    ghost use Rattle.kept_runs.specs.Faults.{of_input};

    ghost from_gives = { λ error e. e ≡ of_input error };

    fn from(error: InputError) -> KeptError {
        match error {
            InputError::Fault(fault) => KeptError::Input(fault),
            // A text in memory never fails to be read.
            InputError::InventoryRead(_) | InputError::ReadFault | InputError::OutOfMemory => {
                KeptError::OutOfMemory
            }
        }
    }
}

/// Why what others did isn't taken in.
#[derive(Debug, Drop)]
pub enum OthersError {
    /// No line can say what others did at this path: `kept_rows::can_be_written`.
    NotWritable(TreePath),
    /// The text would have over 2,000,000 lines.
    TooManyLines,
    /// The history would have over 1,000,000 rows.
    Full,
    OutOfMemory,
}

impl From<AllocError> for OthersError {
    ghost use Rattle.kept_runs.specs.declared.errors.OthersError.TheVariants as others;

    ghost from_gives = { λ _ e. e ≡ others.OutOfMemory };

    fn from(_e: AllocError) -> OthersError {
        OthersError::OutOfMemory
    }
}

impl<T: Drop> From<AllocFailed<T>> for OthersError {
    ghost use Rattle.kept_runs.specs.declared.errors.OthersError.TheVariants as others;

    ghost from_gives = { λ _ e. e ≡ others.OutOfMemory };

    fn from(_e: AllocFailed<T>) -> OthersError {
        OthersError::OutOfMemory
    }
}

impl From<MakeError> for OthersError {
    ghost use Rattle.kept_runs.specs.Faults.{others_of};

    ghost from_gives = { λ error e. e ≡ others_of error };

    fn from(error: MakeError) -> OthersError {
        match error {
            MakeError::TooManyLines => OthersError::TooManyLines,
            MakeError::Full => OthersError::Full,
            MakeError::OutOfMemory => OthersError::OutOfMemory,
        }
    }
}

/// Why the calls of lines aren't made.
#[derive(Clone, Copy, Debug, PartialEq, Eq, Error)]
pub enum LinesError {
    /// This line is refused, counted from 1. No call was made.
    #[error("line {0}: {1}")]
    Bad(usize, Reason),
    /// The text would have over 2,000,000 lines.
    #[error("the history would have over 2000000 lines")]
    TooManyLines,
    /// The history would have over 1,000,000 rows.
    #[error("history is full")]
    Full,
    #[error("out of memory")]
    OutOfMemory,
}

impl From<AllocError> for LinesError {
    ghost use Rattle.kept_runs.specs.declared.errors.LinesError.TheVariants as lines;

    ghost from_gives = { λ _ e. e ≡ lines.OutOfMemory };

    fn from(_e: AllocError) -> LinesError {
        LinesError::OutOfMemory
    }
}

impl From<MakeError> for LinesError {
    ghost use Rattle.kept_runs.specs.Faults.{lines_of};

    ghost from_gives = { λ error e. e ≡ lines_of error };

    fn from(error: MakeError) -> LinesError {
        match error {
            MakeError::TooManyLines => LinesError::TooManyLines,
            MakeError::Full => LinesError::Full,
            MakeError::OutOfMemory => LinesError::OutOfMemory,
        }
    }
}

/// Why calls aren't made, or their run isn't appended.
#[derive(Clone, Copy, Debug, PartialEq, Eq)]
pub(crate) enum MakeError {
    TooManyLines,
    Full,
    OutOfMemory,
}

impl From<AllocError> for MakeError {
    ghost use Rattle.kept_runs.specs.declared.errors.MakeError.TheVariants as makes;

    ghost from_gives = { λ _ e. e ≡ makes.OutOfMemory };

    fn from(_e: AllocError) -> MakeError {
        MakeError::OutOfMemory
    }
}

impl From<CallError> for MakeError {
    ghost use Rattle.kept_runs.specs.Faults.{of_call};

    ghost from_gives = { λ error e. e ≡ of_call error };

    fn from(error: CallError) -> MakeError {
        match error {
            CallError::Full => MakeError::Full,
            CallError::OutOfMemory => MakeError::OutOfMemory,
        }
    }
}
