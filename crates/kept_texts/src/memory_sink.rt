//! A sink in memory.
ghost use Rattle.std.specs.Prelude.{◌≡◌, [], ℕ, Err, Some, false};
ghost use Rattle.byte_streams.specs.Streams.{counters_after};

use byte_streams::{Counters, Sink, Stop};
use std::alloc::Global;

/// The bytes that were written. A write fails only if memory runs out, and then appends nothing.
#[derive(Drop)]
pub(crate) struct MemorySink {
    pub(crate) bytes: Vec<u8>,
    counters: Counters,
    flushed: bool,
}

impl MemorySink {
    pub(crate) fn new(alloc: Global) -> MemorySink
        ensures { result.bytes.items ≡ [] }
    {
        MemorySink {
            bytes: Vec::new(alloc),
            counters: Counters::default(),
            flushed: false,
        }
    }
}

fn count_failure(counters: &mut Counters)
    ensures { counters.new ≡ counters_after {T = ℕ} counters.old (Err Stop.Failed) }
{
    counters.failures = counters.failures.saturating_add(1);
    counters.interruptions = 0;
}

impl Sink for MemorySink {
    ghost use Rattle.std.specs.Prelude.{Some};

    ghost written = { λ sink. Some sink.bytes.items };

    ghost counters = { λ sink. sink.counters };

    ghost flushed = { λ sink. sink.flushed };

    fn write(&mut self, bytes: &[u8]) -> Result<usize, Stop> {
        self.flushed = false;
        if bytes.is_empty() || self.bytes.extend_from_slice(bytes).is_err() {
            count_failure(&mut self.counters);
            return Err(Stop::Failed);
        }
        self.counters.interruptions = 0;
        Ok(bytes.len())
    }

    fn flush(&mut self) -> Result<(), Stop> {
        self.counters.interruptions = 0;
        self.flushed = true;
        Ok(())
    }
}
