//! Writing all of some bytes, with retries after interruptions.
#![tactic(auto, using(crate::proofs::Known::known))]

ghost use Rattle.std.specs.Prelude.{◌≡◌, ◌<◌, true, length, OnOk, IfErr};
ghost use Rattle.std.specs.Io.KnownBytes.{Appends, Keeps};
ghost use Rattle.byte_streams.specs.Streams.{Accounts, StopsIn, WritesSome};

use crate::stream::{MAX_INTERRUPTIONS, Sink, Stop};
use thiserror::Error;

/// The sink failed, or was interrupted 1,000 times in a row, after this number of bytes had been
/// written.
#[derive(Clone, Copy, Debug, PartialEq, Eq, Error)]
#[error("write fault after {0} bytes")]
pub struct WriteFault(pub usize);

/// Writes some of the bytes, at least one. On a write fault, which then reports 0 bytes, none was
/// written.
fn write_some<K: Sink>(bytes: &[u8], sink: &mut K) -> Result<usize, WriteFault>
    requires { 0 < length bytes.now }
    ensures bytes { WritesSome (K.written sink.old) (K.written sink.new) result bytes.now }
    ensures counters { Accounts result (K.counters sink.old) (K.counters sink.new) }
{
    for _tried in 0..MAX_INTERRUPTIONS {
        match sink.write(bytes) {
            Ok(0) => return Err(WriteFault(0)),
            Ok(count) => return Ok(count),
            Err(Stop::Failed) => return Err(WriteFault(0)),
            Err(Stop::Interrupted) => {}
        }
    }
    Err(WriteFault(0))
}

/// Flushes the sink, after this number of bytes has been written.
pub(crate) fn flush<K: Sink>(sent: usize, sink: &mut K) -> Result<(), WriteFault>
    ensures bytes { Keeps (K.written sink.old) (K.written sink.new) }
    ensures fault { IfErr result (λ fault. fault.0 ≡ sent) }
    ensures flushed { OnOk result (K.flushed sink.new ≡ true) }
    ensures counters { Accounts result (K.counters sink.old) (K.counters sink.new) }
{
    for _tried in 0..MAX_INTERRUPTIONS {
        match sink.flush() {
            Ok(()) => return Ok(()),
            Err(Stop::Failed) => return Err(WriteFault(sent)),
            Err(Stop::Interrupted) => {}
        }
    }
    Err(WriteFault(sent))
}

/// Writes all of the bytes.
pub(crate) fn write_all<K: Sink>(bytes: &[u8], sink: &mut K) -> Result<(), WriteFault>
    ensures ok { OnOk result (Appends (K.written sink.old) (K.written sink.new) bytes.now) }
    ensures fault { IfErr result (λ fault. StopsIn (K.written sink.old) (K.written sink.new) bytes.now fault.0) }
    ensures counters { Accounts result (K.counters sink.old) (K.counters sink.new) }
{
    let mut sent = 0;
    while sent < bytes.len() {
        match write_some(&bytes[sent..], sink) {
            Ok(count) => sent += count,
            Err(_) => return Err(WriteFault(sent)),
        }
    }
    Ok(())
}
