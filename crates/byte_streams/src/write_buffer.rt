//! A buffer for bytes that will be written together.
ghost use Rattle.std.specs.Prelude.{◌≡◌, ◌+◌, ◌≤◌, ◌++◌, [], length, IfOk};

use std::alloc::{AllocError, Global};
use std::marker::Model;

/// How many bytes a buffer holds.
pub(crate) const BUFFER_ROOM: usize = 65536;

/// Up to 65,536 bytes, in memory that is allocated once. Contracts see the bytes.
#[derive(Drop)]
pub struct WriteBuffer {
    room: Vec<u8>,
    used: usize,
}

impl Model for WriteBuffer {
    ghost use Rattle.std.specs.Prelude.{List, ℕ, ◌≡◌, ◌≤◌, take, length};
    ghost use Rattle.byte_streams.specs.declared.write_buffer.TheConstants.{BUFFER_ROOM};

    ghost Value = { List ℕ };

    ghost view = { λ buffer. take buffer.used buffer.room.items };

    ghost invariant = { λ buffer. (buffer.used ≤ BUFFER_ROOM) × (length buffer.room.items ≡ BUFFER_ROOM) };
}

impl WriteBuffer {
    /// An empty buffer.
    pub(crate) fn new(alloc: Global) -> Result<WriteBuffer, AllocError>
        ensures { IfOk result (λ buffer. buffer ≡ []) }
    {
        Ok(WriteBuffer {
            room: Vec::from_elem(alloc, 0, BUFFER_ROOM)?,
            used: 0,
        })
    }

    pub(crate) fn bytes(&self) -> &[u8]
        ensures { result.now ≡ self.now }
    {
        &self.room[..self.used]
    }

    /// How many more bytes it can hold.
    pub(crate) fn room(&self) -> usize
        ensures { result + length self.now ≡ BUFFER_ROOM }
    {
        BUFFER_ROOM - self.used
    }

    /// Adds these bytes.
    pub(crate) fn push(&mut self, bytes: &[u8])
        requires { length self.old + length bytes.now ≤ BUFFER_ROOM }
        ensures { self.new ≡ self.old ++ bytes.now }
    {
        let end = self.used + bytes.len();
        self.room[self.used..end].copy_from_slice(bytes);
        self.used = end;
    }

    pub(crate) fn clear(&mut self)
        ensures { self.new ≡ [] }
    {
        self.used = 0;
    }
}
