//! What is wrong with the text of a history, and why a run was not appended.
ghost use Rattle.std.specs.Prelude.{◌≡◌};

use std::alloc::{AllocError, AllocFailed};
use thiserror::Error;

/// What is wrong with a line of the text of a history.
#[derive(Clone, Copy, Debug, PartialEq, Eq, Hash, Error)]
pub enum LineFault {
    /// The text doesn't begin with the inventory of a tree, as it is written, and the line
    /// `== calls`.
    #[error("no inventory and no line `== calls` at the beginning")]
    BadBeginning,
    /// The text ends before the end of the header or of a run, or within a line.
    #[error("cut short")]
    CutShort,
    /// The line after `== calls` doesn't begin with `# unitroot-history `.
    #[error("no header")]
    NoHeader,
    /// The number after `# unitroot-history ` isn't 1.
    #[error("written by another format")]
    OtherFormat,
    #[error("bad header")]
    BadHeader,
    /// The line begins with `# run `.
    #[error("bad run")]
    BadRun,
    /// The line begins with `# end `.
    #[error("bad end")]
    BadEnd,
    /// A run begins before the end of the one before it.
    #[error("the run before it has no end")]
    NoEnd,
    #[error("a line outside of a run")]
    OutsideOfRun,
    #[error("a comment that is neither the beginning nor the end of a run")]
    BadComment,
    #[error("changed by others: its sum differs")]
    SumDiffers,
    /// It is one of over 2,000,000 lines after `== calls`.
    #[error("over 2,000,000 lines")]
    TooManyLines,
}

/// Why the text of a history was not read.
#[derive(Clone, Copy, Debug, PartialEq, Eq, Hash, Error)]
pub enum TextError {
    /// The first line with a fault. Lines count from 1 from the beginning of the text.
    #[error("line {0}: {1}")]
    Fault(usize, LineFault),
    #[error("out of memory")]
    OutOfMemory,
}

impl From<AllocError> for TextError {
    ghost use Rattle.kept_texts.specs.declared.faults.TextError.TheVariants as texts;

    ghost from_gives = { λ _ e. e ≡ texts.OutOfMemory };

    fn from(_e: AllocError) -> TextError {
        TextError::OutOfMemory
    }
}

/// Why a run was not appended to the text of a history.
#[derive(Clone, Copy, Debug, PartialEq, Eq, Hash, Error)]
pub enum PushError {
    /// A line of a call has no end, or begins with `#`.
    #[error("a line that is no call's")]
    BadLines,
    /// There would be over 2,000,000 lines after `== calls`.
    #[error("over 2,000,000 lines")]
    TooManyLines,
    #[error("out of memory")]
    OutOfMemory,
}

impl From<AllocError> for PushError {
    ghost use Rattle.kept_texts.specs.declared.faults.PushError.TheVariants as pushes;

    ghost from_gives = { λ _ e. e ≡ pushes.OutOfMemory };

    fn from(_e: AllocError) -> PushError {
        PushError::OutOfMemory
    }
}

/// Why a line was not read.
#[derive(Clone, Copy, Debug)]
pub(crate) enum LineError {
    Fault(LineFault),
    OutOfMemory,
}

impl From<AllocError> for LineError {
    ghost use Rattle.kept_texts.specs.declared.faults.LineError.TheVariants as lines;

    ghost from_gives = { λ _ e. e ≡ lines.OutOfMemory };

    fn from(_e: AllocError) -> LineError {
        LineError::OutOfMemory
    }
}
