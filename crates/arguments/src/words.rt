//! What the command-line arguments request.
ghost use Rattle.std.specs.Prelude.{◌≡◌, IfOk, IsErrOf, None, Some, map};
ghost use Rattle.std.specs.String.{string_bytes};
ghost use Rattle.clap.specs.Words.{app_of};
ghost use Rattle.arguments.specs.Asked.{sessions_of};
ghost use Rattle.arguments.specs.Commands.{unitadm_app};
ghost use Rattle.arguments.specs.declared.words.ArgumentError.TheVariants.{OutOfMemory};
ghost use Rattle.arguments.specs.Statuses.{status_of};

use clap::error::ErrorKind;
use clap::{Arg, ArgAction, Command};
use std::alloc::{AllocError, AllocFailed, Global};
use thiserror::Error;

/// What the command-line arguments request.
#[derive(Clone, Copy, Debug, PartialEq, Eq)]
pub struct Arguments {
    /// Whether each operator has a worker.
    pub sessions: bool,
}

/// Why the arguments could not be read.
#[derive(Clone, Copy, Debug, PartialEq, Eq, Error)]
pub enum ArgumentError {
    #[error("bad arguments")]
    BadArguments,
    #[error("out of memory")]
    OutOfMemory,
}

impl From<AllocError> for ArgumentError {
    ghost from_gives = { λ _ e. e ≡ OutOfMemory };

    fn from(_e: AllocError) -> ArgumentError {
        ArgumentError::OutOfMemory
    }
}

impl<T: Drop> From<AllocFailed<T>> for ArgumentError {
    ghost from_gives = { λ _ e. e ≡ OutOfMemory };

    fn from(_e: AllocFailed<T>) -> ArgumentError {
        ArgumentError::OutOfMemory
    }
}

impl ArgumentError {
    /// The exit status of the program.
    pub fn status(self) -> u8
        ensures { result ≡ status_of self }
    {
        match self {
            ArgumentError::BadArguments => 2,
            ArgumentError::OutOfMemory => 1,
        }
    }
}

/// The program's command: one flag, `--sessions`, without help and version.
fn command<'a>(alloc: Global) -> Result<Command<'a>, AllocError>
    ensures { IfOk result (λ built. app_of built ≡ unitadm_app) }
{
    let sessions = Arg::new(alloc, "sessions")
        .long("sessions")
        .action(ArgAction::SetTrue);
    Command::new(alloc, "unitadm")
        .disable_help_flag(true)
        .disable_version_flag(true)
        .arg(sessions)
}

/// Whether the arguments, of which the first is the program's own name, request sessions.
pub fn arguments_of(alloc: Global, words: &[String]) -> Result<Arguments, ArgumentError>
    ensures asked { IfOk result (λ given. sessions_of (map string_bytes words.now) ≡ Some given.sessions) }
    ensures refused { IsErrOf result ArgumentError.BadArguments → sessions_of (map string_bytes words.now) ≡ None }
{
    match command(alloc)?.try_get_matches_from(words) {
        Ok(matches) => Ok(Arguments {
            sessions: matches.get_flag("sessions"),
        }),
        Err(e) => match e.kind() {
            ErrorKind::OutOfMemory => Err(ArgumentError::OutOfMemory),
            _ => Err(ArgumentError::BadArguments),
        },
    }
}
