//! Sources and sinks of bytes.
ghost use Rattle.std.specs.Prelude.{ℕ, ◌≡◌, ◌-◌, ◌<◌, ◌≤◌, length, take, Bool, true, false, List, Option, IfOk, OnOk, OnErr};
ghost use Rattle.std.specs.Io.KnownBytes.{Keeps};
ghost use Rattle.byte_streams.specs.Streams.{GivesNext, GivesSome, HasNoLineEnd, counters_after, counters_after_write, TakesBytes};
ghost use Rattle.byte_streams.specs.declared.counters.Counters.{Counters};

use thiserror::Error;

/// After this number of interruptions in a row, a stream counts as failed.
pub const MAX_INTERRUPTIONS: u32 = 1000;

/// Why a stream read or wrote nothing: read(2) and write(2).
#[derive(Clone, Copy, Debug, PartialEq, Eq, Error)]
pub enum Stop {
    /// The call was interrupted by a signal: it may be made again.
    #[error("interrupted")]
    Interrupted,
    #[error("failed")]
    Failed,
}

/// Bytes, one after another.
pub trait Source {
    /// The remaining bytes, if they are known.
    ghost left: { Self → Option (List ℕ) };

    /// How often it has failed and been interrupted.
    ghost counters: { Self → Counters };

    /// The next byte, or `None` at the end.
    fn byte(&mut self) -> Result<Option<u8>, Stop>
        ensures next { IfOk result (GivesNext (left self.old) (left self.new)) }
        ensures kept { OnErr result (Keeps (left self.old) (left self.new)) }
        ensures counters { counters self.new ≡ counters_after (counters self.old) result };

    /// Reads some of the next bytes into the front of `room`, and returns how many: 0 only at the
    /// end. A source that has several bytes available returns them at once.
    fn bytes(&mut self, room: &mut [u8]) -> Result<usize, Stop>
        requires { 0 < length room.old }
        ensures count { IfOk result (λ n. n ≤ length room.new) }
        ensures given { IfOk result (λ n. GivesSome (left self.old) (left self.new) (take n room.new)) }
        ensures kept { OnErr result (Keeps (left self.old) (left self.new)) }
        ensures counters { counters self.new ≡ counters_after (counters self.old) result }
    {
        match self.byte()? {
            Some(byte) => {
                room[0] = byte;
                Ok(1)
            }
            None => Ok(0),
        }
    }

    /// Reads some of the next bytes into the front of `room`, at most through the next line end,
    /// and returns how many: 0 only at the end. A source that has several bytes available returns
    /// them at once.
    fn line_bytes(&mut self, room: &mut [u8]) -> Result<usize, Stop>
        requires { 0 < length room.old }
        ensures count { IfOk result (λ n. n ≤ length room.new) }
        ensures given { IfOk result (λ n. GivesSome (left self.old) (left self.new) (take n room.new)) }
        ensures line { IfOk result (λ n. HasNoLineEnd (take (n - 1) room.new)) }
        ensures kept { OnErr result (Keeps (left self.old) (left self.new)) }
        ensures counters { counters self.new ≡ counters_after (counters self.old) result }
    {
        let Some(byte) = self.byte()? else {
            return Ok(0);
        };
        room[0] = byte;
        Ok(1)
    }
}

/// A destination of bytes.
pub trait Sink {
    /// The bytes that it has accepted, if they are known.
    ghost written: { Self → Option (List ℕ) };

    /// How often it has failed and been interrupted.
    ghost counters: { Self → Counters };

    /// Whether all accepted bytes have been flushed.
    ghost flushed: { Self → Bool };

    /// Writes some bytes from the front, and returns how many: writing 0 of a nonempty list counts
    /// as a failure.
    fn write(&mut self, bytes: &[u8]) -> Result<usize, Stop>
        ensures bytes { TakesBytes (written self.old) (written self.new) result bytes.now }
        ensures held { OnOk result (flushed self.new ≡ false) }
        ensures counters { counters self.new ≡ counters_after_write (counters self.old) result };

    /// Flushes its buffer.
    fn flush(&mut self) -> Result<(), Stop>
        ensures bytes { Keeps (written self.old) (written self.new) }
        ensures counters { counters self.new ≡ counters_after (counters self.old) result }
        ensures flushed { OnOk result (flushed self.new ≡ true) };
}
