//! A source and a sink that fail at a given point.
ghost use Rattle.std.specs.Prelude.{None};

use byte_streams::{Counters, Sink, Source, Stop};

/// Gives these bytes, each after this number of interruptions, and fails after some of them.
#[derive(Drop)]
pub(crate) struct Faulty<'a> {
    left: &'a [u8],
    until_failure: usize,
    interruptions: u64,
    counters: Counters,
}

impl<'a> Faulty<'a> {
    pub(crate) fn new(left: &'a [u8], until_failure: usize, interruptions: u64) -> Faulty<'a> {
        Faulty {
            left,
            until_failure,
            interruptions,
            counters: Counters::default(),
        }
    }

    pub(crate) fn left(&self) -> &'a [u8] {
        self.left
    }
}

impl<'a> Source for Faulty<'a> {
    ghost left = { λ _. None };

    ghost counters = { λ source. source.counters };

    fn byte(&mut self) -> Result<Option<u8>, Stop> {
        if self.counters.interruptions < self.interruptions {
            self.counters.interruptions = self.counters.interruptions.saturating_add(1);
            self.counters.longest_row = self.counters.longest_row.max(self.counters.interruptions);
            return Err(Stop::Interrupted);
        }
        self.counters.interruptions = 0;
        if self.until_failure == 0 {
            self.counters.failures = self.counters.failures.saturating_add(1);
            return Err(Stop::Failed);
        }
        self.until_failure -= 1;
        match self.left {
            [byte, rest @ ..] => {
                self.left = rest;
                Ok(Some(*byte))
            }
            [] => Ok(None),
        }
    }
}

/// Takes this number of bytes, some at a time, and fails; or takes none, or fails only at the end.
#[derive(Drop)]
pub(crate) struct Narrow {
    taken: [u8; 512],
    len: usize,
    room: usize,
    at_once: usize,
    flushes: bool,
    flushed: bool,
    counters: Counters,
}

impl Narrow {
    pub(crate) fn new(room: usize, at_once: usize, flushes: bool) -> Narrow {
        Narrow {
            taken: [0; 512],
            len: 0,
            room,
            at_once,
            flushes,
            flushed: false,
            counters: Counters::default(),
        }
    }

    pub(crate) fn taken(&self) -> &[u8] {
        self.taken.get(..self.len).unwrap_or(&[])
    }
}

/// Puts the bytes after the first `len`, and returns how many there are then.
fn store(taken: &mut [u8; 512], len: usize, bytes: &[u8]) -> usize {
    let mut len = len;
    for byte in bytes {
        if let Some(place) = taken.get_mut(len) {
            *place = *byte;
        }
        len = len.saturating_add(1);
    }
    len
}

impl Sink for Narrow {
    ghost written = { λ _. None };

    ghost counters = { λ sink. sink.counters };

    ghost flushed = { λ sink. sink.flushed };

    fn write(&mut self, bytes: &[u8]) -> Result<usize, Stop> {
        self.counters.interruptions = 0;
        if self.room == 0 {
            self.counters.failures = self.counters.failures.saturating_add(1);
            return Err(Stop::Failed);
        }
        let count = bytes.len().min(self.at_once).min(self.room);
        if count == 0 {
            self.counters.failures = self.counters.failures.saturating_add(1);
            self.flushed = false;
            return Ok(0);
        }
        self.len = store(&mut self.taken, self.len, &bytes[..count]);
        self.room = self.room.saturating_sub(count);
        self.flushed = false;
        Ok(count)
    }

    fn flush(&mut self) -> Result<(), Stop> {
        self.counters.interruptions = 0;
        if self.flushes {
            self.flushed = true;
            return Ok(());
        }
        self.counters.failures = self.counters.failures.saturating_add(1);
        Err(Stop::Failed)
    }
}
