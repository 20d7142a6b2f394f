//! Runs unit-file commands from a script on an inventory.
#![tactic(auto)]

mod program;

use program::run_program;
use std::process::ExitCode;

fn main(rt: HostRuntime) -> ExitCode {
    match run_program(&rt) {
        Ok(()) => ExitCode::SUCCESS,
        Err(failure) => {
            // The exit status reports the error, even if no message can be written.
            let _said = eprintln!(rt; "unitadm: {failure}");
            ExitCode::from(failure.status())
        }
    }
}
