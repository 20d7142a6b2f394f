//! A std reader as a source.
ghost use Rattle.std.specs.Prelude.{◌≡◌, ◌-◌, ◌<◌, ◌≤◌, ℕ, IfOk, OnOk, OnErr, length, take};
ghost use Rattle.std.specs.Io.KnownBytes.{Keeps};
ghost use Rattle.byte_streams.specs.Streams.{GivesSome, HasNoLineEnd, counters_after};

use crate::counters::Counters;
use crate::stream::{Source, Stop};
use memchr::memchr;
use std::io;
use std::io::BufRead;

/// A reader as a source: a `BufReader` over a file or standard input, or some bytes. A caller that
/// lends the reader loses nothing: bytes that aren't returned stay in it.
#[derive(Drop)]
pub struct FromRead<R> {
    inner: R,
    counters: Counters,
}

impl<R: BufRead> FromRead<R> {
    /// A source of the reader's remaining bytes.
    pub fn new(inner: R) -> FromRead<R>
        ensures left { ⟦<FromRead<R> as Source>⟧.left result ≡ R.remaining inner }
        ensures counters { ⟦<FromRead<R> as Source>⟧.counters result ≡ record { failures = 0; interruptions = 0; longest_row = 0 } }
    {
        FromRead {
            inner,
            counters: Counters::default(),
        }
    }
}

/// How many bytes there are up to and including the first line end, among at most the first N.
#[inline]
fn line_len(bytes: &[u8], most: usize) -> usize
    ensures count { result ≤ length bytes.now }
    ensures within { result ≤ most }
    ensures some { 0 < most → 0 < length bytes.now → 0 < result }
    ensures line { HasNoLineEnd (take (result - 1) bytes.now) }
{
    let most = most.min(bytes.len());
    match memchr(b'\n', &bytes[..most]) {
        Some(end) => end + 1,
        None => most,
    }
}

/// Reads the next bytes into the front of `room`, at most through the next line end, and returns
/// how many.
fn read_line_bytes<R: BufRead>(reader: &mut R, room: &mut [u8]) -> io::Result<usize>
    requires { 0 < length room.old }
    ensures count { IfOk result (λ n. n ≤ length room.new) }
    ensures given { IfOk result (λ n. GivesSome (R.remaining reader.old) (R.remaining reader.new) (take n room.new)) }
    ensures line { IfOk result (λ n. HasNoLineEnd (take (n - 1) room.new)) }
    ensures kept { OnErr result (Keeps (R.remaining reader.old) (R.remaining reader.new)) }
{
    let count = match reader.fill_buf() {
        Ok(available) => {
            let count = line_len(available, room.len());
            room[..count].copy_from_slice(&available[..count]);
            count
        }
        Err(e) => return Err(e),
    };
    reader.consume(count);
    Ok(count)
}

impl<R: BufRead> Source for FromRead<R> {
    ghost left = { λ source. R.remaining source.inner };

    ghost counters = { λ source. source.counters };

    fn byte(&mut self) -> Result<Option<u8>, Stop> {
        let mut room = [0];
        match self.bytes(&mut room)? {
            0 => Ok(None),
            _ => Ok(Some(room[0])),
        }
    }

    fn bytes(&mut self, room: &mut [u8]) -> Result<usize, Stop> {
        match self.inner.read(room) {
            Ok(count) => {
                self.counters.count_success();
                Ok(count)
            }
            Err(e) => Err(self.counters.count_error(e)),
        }
    }

    fn line_bytes(&mut self, room: &mut [u8]) -> Result<usize, Stop> {
        match read_line_bytes(&mut self.inner, room) {
            Ok(count) => {
                self.counters.count_success();
                Ok(count)
            }
            Err(e) => Err(self.counters.count_error(e)),
        }
    }
}
