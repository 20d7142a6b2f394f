ghost use Rattle.std.specs.Prelude.{◌≡◌};
ghost use Rattle.unit_name.specs.declared.fault.NameError.TheVariants as names;
ghost use Rattle.unit_name.specs.declared.fault.InstanceError.TheVariants as instances;
ghost use Rattle.unit_name.specs.declared.fault.ExpandError.TheVariants as words;

use std::alloc::{AllocError, AllocFailed};
use thiserror::Error;

/// The longest name, in bytes.
pub const MAX_NAME: usize = 255;

/// What is wrong with a text that isn't a unit name: the first of these that applies.
#[derive(Clone, Copy, Debug, PartialEq, Eq, Hash, Error)]
pub enum NameFault {
    /// It has over 255 bytes.
    #[error("name too long")]
    TooLong,
    /// A byte is neither an ASCII letter or digit nor one of `:-_.\` and `@`.
    #[error("bad character in name")]
    BadCharacter,
    /// Nothing is before the first `@`, or before the last dot.
    #[error("name without prefix")]
    NoPrefix,
    /// The text after the last dot isn't a type, or there is no dot.
    #[error("bad type of name")]
    BadType,
}

/// Why a text couldn't be made a unit name.
#[derive(Clone, Copy, Debug, PartialEq, Eq, Hash, Error)]
pub enum NameError {
    #[error("{0}")]
    Bad(NameFault),
    #[error("out of memory")]
    OutOfMemory,
}

impl From<AllocError> for NameError {
    ghost from_gives = { λ _ e. e ≡ names.OutOfMemory };

    fn from(_e: AllocError) -> NameError {
        NameError::OutOfMemory
    }
}

/// What is wrong with the text of an instance: the first of these that applies.
#[derive(Clone, Copy, Debug, PartialEq, Eq, Hash, Error)]
pub enum InstanceFault {
    /// The name with this instance would have over 255 bytes.
    #[error("name too long")]
    TooLong,
    /// A byte isn't allowed in a name.
    #[error("bad character in name")]
    BadCharacter,
}

/// Why a name can't be given an instance.
#[derive(Clone, Copy, Debug, PartialEq, Eq, Hash, Error)]
pub enum InstanceError {
    #[error("{0}")]
    Bad(InstanceFault),
    #[error("out of memory")]
    OutOfMemory,
}

impl From<AllocError> for InstanceError {
    ghost from_gives = { λ _ e. e ≡ instances.OutOfMemory };

    fn from(_e: AllocError) -> InstanceError {
        InstanceError::OutOfMemory
    }
}

/// Why a word can't be expanded.
#[derive(Clone, Copy, Debug, PartialEq, Eq, Hash, Error)]
pub enum ExpandError {
    /// A `%` isn't followed by a specifier, or is the last byte.
    #[error("unknown specifier")]
    UnknownSpecifier,
    #[error("out of memory")]
    OutOfMemory,
}

impl From<AllocError> for ExpandError {
    ghost from_gives = { λ _ e. e ≡ words.OutOfMemory };

    fn from(_e: AllocError) -> ExpandError {
        ExpandError::OutOfMemory
    }
}

impl<T: Drop> From<AllocFailed<T>> for ExpandError {
    ghost from_gives = { λ _ e. e ≡ words.OutOfMemory };

    fn from(_e: AllocFailed<T>) -> ExpandError {
        ExpandError::OutOfMemory
    }
}
