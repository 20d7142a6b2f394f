ghost use Rattle.std.specs.Prelude.{None};

use crate::texts::numbers_of;
use byte_streams::{BufferedWriter, ToWrite, WriteFault};
use sample_rows::{Row, assert_rows, is};
use std::alloc::{AllocError, Global};
use std::io;
use std::io::Write;
use std::test::Fail;

const ROWS: &[u8] = b"\
    # Lines of so many bytes: they fit the buffer of 65,536 bytes, fill it, or are larger.\n\
    write\t1 2 3\t\tall whole\n\
    write\t65535 1 0\t\tall whole\n\
    write\t1 65535 65536\t\tall whole\n\
    write\t70000 5 70000\t\tall whole\n\
    \n\
    # A writer is flushed once.\n\
    flush\t\t\t1\n";

/// Writes lines of this number of bytes, and returns why the writing stopped, if it did. The room
/// for all the output is allocated first, since a `Vec` that can't grow is a write fault.
fn write_lines(
    alloc: Global,
    sizes: &[usize],
    room: &mut Vec<u8>,
) -> Result<Result<(), WriteFault>, AllocError> {
    room.reserve(150_000)?;
    let mut writer = BufferedWriter::new(alloc)?;
    let bytes = Vec::from_elem(alloc, b'x', 70000)?;
    let mut sink = ToWrite::new(room);
    for size in sizes {
        let piece = bytes.get(..*size).unwrap_or(&[]);
        if let Err(fault) = writer.write_pieces(&[piece, b"\n"], &mut sink) {
            return Ok(Err(fault));
        }
    }
    Ok(writer.finish(&mut sink))
}

/// Whether a text has lines of this number of bytes, and no byte more.
fn has_lines(text: &[u8], sizes: &[usize]) -> bool {
    let mut rest = text;
    for size in sizes {
        match rest.split_at_checked(*size) {
            Some((_line, [b'\n', behind @ ..])) => rest = behind,
            _ => return false,
        }
    }
    rest.is_empty()
}

fn written(alloc: Global, sizes: &[usize]) -> Result<Vec<u8>, AllocError> {
    let mut out = Vec::new(alloc);
    let told: &[u8] = match write_lines(alloc, sizes, &mut out)? {
        Ok(()) if has_lines(&out, sizes) => b"all whole",
        Ok(()) => b"other lines",
        Err(WriteFault(_)) => b"a fault",
    };
    Vec::from_slice(alloc, told)
}

/// Accepts all bytes, and counts how often it is flushed.
#[derive(Drop)]
struct Flushed {
    times: u32,
}

impl Write for Flushed {
    ghost contents = { λ _. None };

    fn write(&mut self, bytes: &[u8]) -> io::Result<usize> {
        Ok(bytes.len())
    }

    fn flush(&mut self) -> io::Result<()> {
        self.times = self.times.saturating_add(1);
        Ok(())
    }
}

/// How often a writer is flushed that is finished.
fn count_flushed(alloc: Global) -> Result<Vec<u8>, AllocError> {
    let writer = BufferedWriter::new(alloc)?;
    let mut flushed = Flushed { times: 0 };
    match writer.finish(&mut ToWrite::new(&mut flushed)) {
        Ok(()) => {
            let times = flushed.times;
            Ok(format!(in alloc; "{times}")?.into_bytes())
        }
        Err(WriteFault(_)) => Vec::from_slice(alloc, b"a fault"),
    }
}

fn answer(alloc: Global, row: &Row) -> Result<Vec<u8>, AllocError> {
    if is(row, b"write") {
        written(alloc, &numbers_of(alloc, &row.one)?)
    } else if is(row, b"flush") {
        count_flushed(alloc)
    } else {
        Vec::from_slice(alloc, b"unknown kind")
    }
}

#[test]
fn pieces_of_any_size_go_out_whole(rt: HostRuntime) -> Result<(), Fail> {
    assert_rows(rt.alloc(), ROWS, answer)
}
