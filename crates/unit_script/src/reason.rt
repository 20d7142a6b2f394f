//! What is wrong with scripts.
ghost use Rattle.std.specs.Prelude.{◌≡◌};
ghost use Rattle.unit_script.specs.ScriptReads.{script_error_of};

use byte_streams::ReadError;
use thiserror::Error;

/// Why a line of a script is refused: the first of these that applies. Among the last five, the
/// first bad word from the left decides.
#[derive(Clone, Copy, Debug, PartialEq, Eq, Error)]
pub enum Reason {
    /// It is the 2,000,001st after `== calls`, including skipped ones.
    #[error("too many lines")]
    TooManyLines,
    /// It has over 65,536 bytes before its line end, even if it would be skipped.
    #[error("line too long")]
    LineTooLong,
    /// The first word isn't 1 to 32 of `a` to `z`, `0` to `9` and `-`.
    #[error("bad operator")]
    BadOperator,
    /// The second word isn't a verb, or is missing.
    #[error("unknown verb")]
    UnknownVerb,
    /// The verb takes more or fewer words, or the kind of entry to place is neither `link` nor
    /// `file`.
    #[error("wrong arguments")]
    WrongArguments,
    /// A word that must name a unit isn't a unit's name. systemd.unit(5).
    #[error("bad name")]
    BadName,
    /// A word that must be a path isn't one.
    #[error("bad path")]
    BadPath,
    /// A word that must be a link's target isn't one.
    #[error("bad target")]
    BadTarget,
    /// A backslash in a file's text is followed by none of `n`, `t`, `s` and `\`.
    #[error("bad text")]
    BadText,
    /// A word that must be a row's number isn't decimal digits, or is 2^32 or more.
    #[error("bad number")]
    BadNumber,
}

/// The first fault of a script.
#[derive(Clone, Copy, Debug, PartialEq, Eq, Error)]
pub enum ScriptFault {
    /// It doesn't begin with the line `== calls`.
    #[error("no calls line")]
    NoCalls,
    /// The line of this number, from 1 after `== calls`, is refused.
    #[error("line {0}: {1}")]
    Bad(u32, Reason),
}

/// The error of a script whose line of this number could not be read.
pub(crate) fn in_line(number: u32, e: ReadError<Reason>) -> ReadError<ScriptFault>
    ensures { result ≡ script_error_of number e }
{
    match e {
        ReadError::Fault(reason) => ReadError::Fault(ScriptFault::Bad(number, reason)),
        ReadError::ReadFault => ReadError::ReadFault,
        ReadError::OutOfMemory => ReadError::OutOfMemory,
    }
}
