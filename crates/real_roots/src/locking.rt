//! Locking a root: flock(2).

use crate::trouble::{Trouble, at};
use std::fs::{File, TryLockError};
use std::thread;
use std::time::{Duration, Instant};

/// If another run has locked the root, the lock is tried again after this number of milliseconds.
const PAUSE: u64 = 50;

/// The kind of lock on a root.
#[derive(Clone, Copy, Debug, PartialEq, Eq)]
pub enum Hold {
    /// Shared with other runs that only read it.
    Shared,
    /// Exclusively, since this run changes the root.
    Alone,
}

/// How long to wait if another run has locked the root.
#[derive(Clone, Copy, Debug, PartialEq, Eq)]
pub enum Patience {
    None,
    AtMost(Duration),
    Endless,
}

fn try_hold(lock: &File, hold: Hold) -> Result<(), TryLockError> {
    match hold {
        Hold::Shared => lock.try_lock_shared(),
        Hold::Alone => lock.try_lock(),
    }
}

fn hold_endlessly(rt: &HostRuntime, path: &str, lock: &File, hold: Hold) -> Result<(), Trouble> {
    match hold {
        Hold::Shared => at(rt.alloc(), path, lock.lock_shared()),
        Hold::Alone => at(rt.alloc(), path, lock.lock()),
    }
}

/// Tries again and again, until this time is over.
fn hold_within(
    rt: &HostRuntime,
    path: &str,
    lock: &File,
    hold: Hold,
    limit: Duration,
) -> Result<(), Trouble> {
    let start = at(rt.alloc(), path, Instant::now(rt))?;
    for _ in 0..u64::MAX {
        match try_hold(lock, hold) {
            Ok(()) => return Ok(()),
            Err(TryLockError::Error(e)) => return at(rt.alloc(), path, Err(e)),
            Err(TryLockError::WouldBlock) => {}
        }
        let waited = at(rt.alloc(), path, start.elapsed(rt))?;
        if waited >= limit {
            return Err(Trouble::Busy);
        }
        thread::sleep(
            rt,
            Duration::from_millis(PAUSE).min(limit.saturating_sub(waited)),
        );
    }
    Err(Trouble::Busy)
}

/// Locks a root, which is open as this file, until the file is dropped.
///
/// Errors: the system's own, with the path; `Busy`: another run held the root until the time was
/// over.
pub fn hold_root(
    rt: &HostRuntime,
    path: &str,
    lock: &File,
    hold: Hold,
    patience: Patience,
) -> Result<(), Trouble> {
    match patience {
        Patience::None => hold_within(rt, path, lock, hold, Duration::ZERO),
        Patience::AtMost(limit) => hold_within(rt, path, lock, hold, limit),
        Patience::Endless => hold_endlessly(rt, path, lock, hold),
    }
}
