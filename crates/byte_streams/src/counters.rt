//! The counters of a stream.
ghost use Rattle.std.specs.Prelude.{◌≡◌, ◌↔◌, ℕ, Ok, Err};
ghost use Rattle.std.specs.IoError.{error_kind};
ghost use Rattle.byte_streams.specs.Streams.{counters_after};

use crate::stream::Stop;
use std::io::{Error, ErrorKind};

/// How often a stream has failed, how often it was interrupted since the last call that wasn't, and
/// the longest row of interruptions. Each counter saturates at the largest value of its type.
#[derive(Clone, Copy, Debug, Default, PartialEq, Eq)]
pub struct Counters {
    pub failures: u64,
    pub interruptions: u64,
    pub longest_row: u64,
}

impl Counters {
    /// Counts a successful call.
    pub(crate) fn count_success(&mut self)
        ensures { self.new ≡ counters_after {T = ℕ} self.old (Ok 0) }
    {
        self.interruptions = 0;
    }

    /// Counts a failure.
    pub(crate) fn count_failure(&mut self)
        ensures { self.new ≡ counters_after {T = ℕ} self.old (Err Stop.Failed) }
    {
        self.failures = self.failures.saturating_add(1);
        self.interruptions = 0;
    }

    /// Counts an error, and returns its kind: an interrupted call may be made again.
    pub(crate) fn count_error(&mut self, e: Error) -> Stop
        ensures counted { self.new ≡ counters_after {T = ℕ} self.old (Err result) }
        ensures stop { (result ≡ Stop.Interrupted) ↔ (error_kind e ≡ ErrorKind.Interrupted) }
    {
        if e.kind() == ErrorKind::Interrupted {
            self.interruptions = self.interruptions.saturating_add(1);
            self.longest_row = self.longest_row.max(self.interruptions);
            Stop::Interrupted
        } else {
            self.count_failure();
            Stop::Failed
        }
    }
}
