//! The time that what a run makes gets.

use crate::trouble::{Hindrance, Trouble, hindered};
use std::env::VarError;
use std::fs::File;
use std::time::{Duration, SystemTime};
use std::{env, io};

/// The variable in which builds are given a time, in seconds since 1970:
/// https://reproducible-builds.org/specs/source-date-epoch/.
const VARIABLE: &str = "SOURCE_DATE_EPOCH";

/// EPERM: only its owner may set the time of a file.
const NOT_PERMITTED: i32 = 1;

/// The time of the last change that what a run makes gets, so that two builds are equal. Without
/// one, the system gives everything the time at which it is made.
#[derive(Clone, Copy, Debug)]
pub struct GivenTime {
    time: Option<SystemTime>,
}

impl GivenTime {
    /// The time that the environment variable SOURCE_DATE_EPOCH gives. If it isn't set or is empty,
    /// there is none.
    ///
    /// Errors: `NoTime`: it is anything but digits, or 2^63 or more; out of memory.
    pub fn of_environment(rt: &HostRuntime) -> Result<GivenTime, Trouble> {
        let time = match env::var(rt, VARIABLE) {
            Ok(text) if text.is_empty() => None,
            Ok(text) => match parsed(text.as_str()) {
                Some(time) => Some(time),
                None => return Err(hindered(rt.alloc(), VARIABLE, Hindrance::NoTime)),
            },
            Err(VarError::NotPresent) => None,
            Err(VarError::NotUnicode) => {
                return Err(hindered(rt.alloc(), VARIABLE, Hindrance::NoTime));
            }
            Err(VarError::OutOfMemory) => return Err(Trouble::OutOfMemory),
        };
        Ok(GivenTime { time })
    }

    /// Gives an open file or directory the time, if there is one and this user may set it:
    /// futimens(2).
    ///
    /// Error: the system's own.
    pub fn set_on(self, file: &File) -> io::Result<()> {
        let Some(time) = self.time else {
            return Ok(());
        };
        match file.set_modified(time) {
            Err(e) if e.raw_os_error() == Some(NOT_PERMITTED) => Ok(()),
            answer => answer,
        }
    }
}

/// The time that is this number of seconds after 1970 began.
fn parsed(text: &str) -> Option<SystemTime> {
    if !text.as_bytes().iter().all(|it| it.is_ascii_digit()) {
        return None;
    }
    let seconds = text.parse::<u64>().ok()?;
    SystemTime::UNIX_EPOCH.checked_add(Duration::from_secs(seconds))
}
