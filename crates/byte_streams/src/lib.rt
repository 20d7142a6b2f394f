//! Byte streams: sources and sinks, their interruptions, reading lines and blocks, and writing
//! through a buffer.
#![tactic(auto)]

mod buffered_writer;
mod counters;
mod from_read;
mod lines;
mod read_error;
mod reading;
mod stream;
mod to_write;
mod write_buffer;
mod writing;

pub use buffered_writer::BufferedWriter;
pub use counters::Counters;
pub use from_read::FromRead;
pub use lines::{Line, read_line};
pub use read_error::{ReadError, ReadFault};
pub use reading::{read_byte, read_bytes, skip_prefix};
pub use stream::{MAX_INTERRUPTIONS, Sink, Source, Stop};
pub use to_write::ToWrite;
pub use write_buffer::WriteBuffer;
pub use writing::WriteFault;
