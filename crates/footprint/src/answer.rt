//! The answers of operations.
ghost use Rattle.std.specs.Prelude.{◌≡◌, IfOk};

use crate::units::Units;
use std::alloc::AllocError;
use tree_access::Refusal;
use unit_file::Notices;
use unit_name::UnitName;

/// Whether a unit is enabled: systemctl(1), `is-enabled`.
#[derive(Clone, Copy, Debug, PartialEq, Eq)]
pub enum StateWord {
    NotFound,
    Masked,
    MaskedRuntime,
    Alias,
    Enabled,
    EnabledRuntime,
    Linked,
    LinkedRuntime,
    Static,
    Indirect,
    Disabled,
}

/// The answer of an operation.
#[derive(Debug, Drop)]
pub enum Answer {
    /// A command was carried out, except for the arguments that the notices name.
    Done(Notices),
    /// `is-enabled`.
    State(StateWord),
    /// `get-default`.
    Name(UnitName),
    /// `list-dependencies`.
    Names(Units),
    /// Nothing was done.
    Refused(Refusal),
}

impl Answer {
    /// A copy of the answer. Fails only if memory runs out.
    pub fn copy(&self) -> Result<Answer, AllocError>
        ensures { IfOk result (λ answer. answer ≡ self.now) }
    {
        match self {
            Answer::Done(notices) => Ok(Answer::Done(notices.copy()?)),
            Answer::State(word) => Ok(Answer::State(*word)),
            Answer::Name(name) => Ok(Answer::Name(name.copy()?)),
            Answer::Names(names) => Ok(Answer::Names(names.copy()?)),
            Answer::Refused(refusal) => Ok(Answer::Refused(refusal.copy()?)),
        }
    }
}
