//! Writing a text piece by piece, through a buffer.
#![tactic(auto, using(crate::proofs::Known::known))]

ghost use Rattle.std.specs.Prelude.{◌≡◌, ◌<◌, ◌^◌, ℕ, List, [], true, length, Option, IfOk, OnOk};
ghost use Rattle.std.specs.List.{flat_map};
ghost use Rattle.std.specs.Io.KnownBytes.{Appends};
ghost use Rattle.byte_streams.specs.Streams.{Accounts};
ghost use Rattle.byte_streams.specs.Writes.{Counts, HasWritten, OrStops, Writes, WritesBuffer};
ghost use Rattle.byte_streams.specs.declared.write_buffer.TheConstants.{BUFFER_ROOM};

use crate::stream::Sink;
use crate::write_buffer::{BUFFER_ROOM, WriteBuffer};
use crate::writing::{WriteFault, flush, write_all};
use std::alloc::{AllocError, Global};

/// Writes a text through a buffer of 65,536 bytes, and counts the bytes written to the sink. It
/// allocates all its memory when it is created, so that only the sink can fail while the text is
/// written.
#[derive(Drop)]
pub struct BufferedWriter {
    /// The end of the text, which has not been written to the sink yet.
    pub buffer: WriteBuffer,
    /// How many bytes were written to the sink before it.
    pub sent: usize,
}

/// Writes all of the bytes directly to the sink, and counts them.
fn write_counted<K: Sink>(bytes: &[u8], sent: &mut usize, sink: &mut K) -> Result<(), WriteFault>
    ensures counts { Counts (K.written sink.old) (K.written sink.new) sent.old sent.new result bytes.now }
    ensures counters { Accounts result (K.counters sink.old) (K.counters sink.new) }
{
    match write_all(bytes, sink) {
        Ok(()) => {
            *sent = sent.saturating_add(bytes.len());
            Ok(())
        }
        Err(WriteFault(some)) => Err(WriteFault(sent.saturating_add(some))),
    }
}

impl BufferedWriter {
    /// A writer that has written nothing.
    pub fn new(alloc: Global) -> Result<BufferedWriter, AllocError>
        ensures buffer { IfOk result (λ writer. writer.buffer ≡ []) }
        ensures sent { IfOk result (λ writer. writer.sent ≡ 0) }
    {
        Ok(BufferedWriter {
            buffer: WriteBuffer::new(alloc)?,
            sent: 0,
        })
    }

    /// Writes what is in the buffer.
    fn write_buffer<K: Sink>(&mut self, sink: &mut K) -> Result<(), WriteFault>
        ensures writes { WritesBuffer (K.written sink.old) (K.written sink.new) self.old self.new result }
        ensures buffer { OnOk result (self.new.buffer ≡ []) }
        ensures counters { Accounts result (K.counters sink.old) (K.counters sink.new) }
    {
        write_counted(self.buffer.bytes(), &mut self.sent, sink)?;
        self.buffer.clear();
        Ok(())
    }

    /// Appends these bytes to the text. Some may stay in the buffer until `finish`.
    ///
    /// # Errors
    ///
    /// A write fault, with the number of bytes of the text that were written; then the writer must
    /// not be used again.
    pub fn write<K: Sink>(&mut self, bytes: &[u8], sink: &mut K) -> Result<(), WriteFault>
        ensures writes { Writes (K.written sink.old) (K.written sink.new) self.old self.new result bytes.now }
        ensures counters { Accounts result (K.counters sink.old) (K.counters sink.new) }
    {
        if bytes.len() > self.buffer.room() {
            self.write_buffer(sink)?;
            if bytes.len() > BUFFER_ROOM {
                return write_counted(bytes, &mut self.sent, sink);
            }
        }
        self.buffer.push(bytes);
        Ok(())
    }

    /// Appends these pieces to the text, one after another.
    ///
    /// # Errors
    ///
    /// The same as for `write`.
    pub fn write_pieces<K: Sink>(
        &mut self,
        pieces: &[&[u8]],
        sink: &mut K,
    ) -> Result<(), WriteFault>
        ensures writes { Writes (K.written sink.old) (K.written sink.new) self.old self.new result (flat_map (λ piece. piece.now) pieces.now) }
        ensures counters { Accounts result (K.counters sink.old) (K.counters sink.new) }
    {
        for piece in pieces {
            self.write(piece, sink)?;
        }
        Ok(())
    }

    /// Writes what is in the buffer, and flushes the sink.
    ///
    /// # Errors
    ///
    /// A write fault, with the number of bytes of the text that were written; that is all of them
    /// if flushing the sink failed.
    pub fn finish<K: Sink>(mut self, sink: &mut K) -> Result<(), WriteFault>
        ensures writes { (before : Option (List ℕ)) (text : List ℕ) → HasWritten before (K.written sink.old) self text → length text < 2 ^ 64 → OrStops (Appends before (K.written sink.new) text) before (K.written sink.new) text result }
        ensures flushed { OnOk result (K.flushed sink.new ≡ true) }
        ensures counters { Accounts result (K.counters sink.old) (K.counters sink.new) }
    {
        self.write_buffer(sink)?;
        flush(self.sent, sink)
    }
}
