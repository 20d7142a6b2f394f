//! A std writer as a sink.
ghost use Rattle.std.specs.Prelude.{◌≡◌};

use crate::counters::Counters;
use crate::stream::{Sink, Stop};
use std::io::Write;

/// A writer as a sink.
#[derive(Drop)]
pub struct ToWrite<W> {
    inner: W,
    counters: Counters,
    flushed: bool,
}

impl<W: Write> ToWrite<W> {
    /// A sink that appends to what the writer has already accepted.
    pub fn new(inner: W) -> ToWrite<W>
        ensures written { ⟦<ToWrite<W> as Sink>⟧.written result ≡ W.contents inner }
        ensures counters { ⟦<ToWrite<W> as Sink>⟧.counters result ≡ record { failures = 0; interruptions = 0; longest_row = 0 } }
    {
        ToWrite {
            inner,
            counters: Counters::default(),
            flushed: false,
        }
    }
}

impl<W: Write> Sink for ToWrite<W> {
    ghost written = { λ sink. W.contents sink.inner };

    ghost counters = { λ sink. sink.counters };

    ghost flushed = { λ sink. sink.flushed };

    fn write(&mut self, bytes: &[u8]) -> Result<usize, Stop> {
        self.flushed = false;
        match self.inner.write(bytes) {
            Ok(0) => {
                self.counters.count_failure();
                Ok(0)
            }
            Ok(count) => {
                self.counters.count_success();
                Ok(count)
            }
            Err(e) => Err(self.counters.count_error(e)),
        }
    }

    fn flush(&mut self) -> Result<(), Stop> {
        match self.inner.flush() {
            Ok(()) => {
                self.counters.count_success();
                self.flushed = true;
                Ok(())
            }
            Err(e) => Err(self.counters.count_error(e)),
        }
    }
}
