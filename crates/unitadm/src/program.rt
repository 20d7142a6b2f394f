//! The program: its command-line arguments, and a run from standard input to standard output.
ghost use Rattle.std.specs.Prelude.{◌≡◌};
ghost use Rattle.unitadm.specs.Statuses.{failure_status};

use arguments::{ArgumentError, Arguments, arguments_of};
use byte_streams::{FromRead, ToWrite};
use session_script::{SessionsFault, run_with_sessions};
use std::env::Env;
use std::io::{BufReader, Input, Print};
use std::sync::Wait;
use std::thread::Threads;
use std::{env, io};
use thiserror::Error;
use unit_script::{RunFault, run};

/// Why the program failed.
#[derive(Clone, Copy, Debug, Error)]
pub(crate) enum Failure {
    #[error("{0}")]
    Arguments(ArgumentError),
    #[error("{0}")]
    Run(RunFault),
    #[error("{0}")]
    Sessions(SessionsFault),
}

impl Failure {
    /// The exit status of the program.
    pub fn status(self) -> u8
        ensures { result ≡ failure_status self }
    {
        match self {
            Failure::Arguments(e) => e.status(),
            Failure::Run(_) => 1,
            Failure::Sessions(_) => 1,
        }
    }
}

fn read_arguments<R: Env + AllocGlobal>(rt: &R) -> Result<Arguments, ArgumentError> {
    let given = match env::args(rt) {
        Ok(given) => given,
        Err(e) if e.kind() == io::ErrorKind::OutOfMemory => return Err(ArgumentError::OutOfMemory),
        Err(_) => return Err(ArgumentError::BadArguments),
    };
    let mut words = Vec::new(rt.alloc());
    for word in given {
        words.push(word)?;
    }
    arguments_of(rt.alloc(), &words)
}

/// How many bytes of standard input are requested at a time.
const READ_ROOM: usize = 32768;

/// Runs the script on standard input, and writes to standard output.
fn run_standard<R: Input + Print + AllocGlobal + Threads + Wait + Sync>(
    rt: &R,
    sessions: bool,
) -> Result<(), Failure> {
    let Ok(reader) = BufReader::with_capacity(rt.alloc(), READ_ROOM, rt.reader()) else {
        return Err(Failure::Run(RunFault::OutOfMemory));
    };
    let mut source = FromRead::new(reader);
    // No buffer around the writer: the output is written in one piece, and an error must report how
    // much of it was written.
    let mut sink = ToWrite::new(io::writer(rt));
    if sessions {
        match run_with_sessions(rt, rt.alloc(), &mut source, &mut sink) {
            Ok(()) => Ok(()),
            Err(fault) => Err(Failure::Sessions(fault)),
        }
    } else {
        run(rt.alloc(), &mut source, &mut sink).map_err(Failure::Run)
    }
}

pub(crate) fn run_program<R: Env + Input + Print + AllocGlobal + Threads + Wait + Sync>(
    rt: &R,
) -> Result<(), Failure> {
    let arguments = read_arguments(rt).map_err(Failure::Arguments)?;
    run_standard(rt, arguments.sessions)
}
