//! Readers and writers that are interrupted, by std's own kind of error.
ghost use Rattle.std.specs.Prelude.{None};

use byte_streams::{
    BufferedWriter, FromRead, Line, ReadError, ToWrite, WriteFault, read_bytes, read_line,
    skip_prefix,
};
use sample_rows::{Row, assert_rows, is, number_of};
use std::alloc::{AllocError, Global};
use std::io;
use std::io::{BufRead, Error, ErrorKind, Read, Write};
use std::test::Fail;

/// What is read or written if this number of errors of a kind come after 0, 1, 2, 3 bytes.
const ROWS: &[u8] = b"\
    # 999 interruptions in a row are passed over behind any byte, the 1,000th is a fault, and any\n\
    # other error is one at once.\n\
    line\t999\tInterrupted\tabc, abc, abc, abc\n\
    line\t1000\tInterrupted\tfault behind 0, fault behind 1, fault behind 2, fault behind 3\n\
    line\t1\tOther\tfault behind 0, fault behind 1, fault behind 2, fault behind 3\n\
    bytes\t999\tInterrupted\tabc, abc, abc\n\
    bytes\t1000\tInterrupted\tfault behind 0, fault behind 1, fault behind 2\n\
    bytes\t1\tOther\tfault behind 0, fault behind 1, fault behind 2\n\
    prefix\t999\tInterrupted\tabc, abc, abc\n\
    prefix\t1000\tInterrupted\tfault behind 0, fault behind 1, fault behind 2\n\
    prefix\t1\tOther\tfault behind 0, fault behind 1, fault behind 2\n\
    write\t999\tInterrupted\tabc, abc, abc, abc\n\
    write\t1000\tInterrupted\tfault behind 0, fault behind 1, fault behind 2, fault behind 3\n\
    write\t1\tOther\tfault behind 0, fault behind 1, fault behind 2, fault behind 3\n";

/// Gives a byte at a time, and fails this number of times with an error of some kind after `until`
/// bytes are given.
#[derive(Drop)]
struct Halting<'a> {
    left: &'a [u8],
    until: usize,
    times: u32,
    kind: ErrorKind,
}

impl<'a> Halting<'a> {
    /// Whether it fails now.
    fn halts(&mut self) -> bool {
        if self.until > 0 || self.times == 0 {
            return false;
        }
        self.times -= 1;
        true
    }
}

impl<'a> Read for Halting<'a> {
    ghost remaining = { λ _. None };

    fn read(&mut self, room: &mut [u8]) -> io::Result<usize> {
        if self.halts() {
            return Err(Error::from(self.kind));
        }
        match (self.left, room.first_mut()) {
            ([byte, rest @ ..], Some(place)) => {
                *place = *byte;
                self.left = rest;
                self.until = self.until.saturating_sub(1);
                Ok(1)
            }
            _ => Ok(0),
        }
    }
}

impl<'a> BufRead for Halting<'a> {
    fn fill_buf(&mut self) -> io::Result<&[u8]> {
        if self.halts() {
            return Err(Error::from(self.kind));
        }
        let next = self.left.get(..1);
        match next {
            Some(byte) => Ok(byte),
            None => Ok(&[]),
        }
    }

    fn consume(&mut self, amount: usize) {
        self.left = self.left.get(amount..).unwrap_or(&[]);
        self.until = self.until.saturating_sub(amount);
    }
}

const INPUT: &[u8] = b"abc\nrest";

/// Reads the first line of `INPUT`, its three bytes, or the prefix that they are.
fn read(
    alloc: Global,
    reading: &[u8],
    reader: &mut Halting<'_>,
) -> Result<Option<Vec<u8>>, ReadError<u8>> {
    let mut source = FromRead::new(reader);
    if reading == b"line".as_slice() {
        return match read_line(alloc, &mut source, 3, 0)? {
            Line::Whole(text) | Line::Last(text) => Ok(Some(text)),
        };
    }
    if reading == b"bytes".as_slice() {
        return read_bytes(alloc, &mut source, 3);
    }
    if skip_prefix(b"abc", &mut source)? {
        return Ok(Some(Vec::from_slice(alloc, b"abc")?));
    }
    Ok(None)
}

/// What is read, or how many bytes are taken before a fault.
fn push_read(
    alloc: Global,
    reading: &[u8],
    reader: &mut Halting<'_>,
    out: &mut Vec<u8>,
) -> Result<(), AllocError> {
    match read(alloc, reading, reader) {
        Ok(Some(text)) => out.extend_from_slice(&text),
        Ok(None) => out.extend_from_slice(b"nothing"),
        Err(ReadError::Fault(_)) => out.extend_from_slice(b"too long"),
        Err(ReadError::ReadFault) => {
            let taken = INPUT.len().saturating_sub(reader.left.len());
            out.extend_from_slice(format!(in alloc; "fault behind {taken}")?.as_bytes())
        }
        Err(ReadError::OutOfMemory) => Err(AllocError),
    }
}

/// What is read if a reader fails this number of times after no byte, after one, and so on.
fn read_anywhere(
    alloc: Global,
    reading: &[u8],
    times: u32,
    kind: ErrorKind,
) -> Result<Vec<u8>, AllocError> {
    let mut out = Vec::new(alloc);
    let places = if reading == b"line".as_slice() { 4 } else { 3 };
    for until in 0..places {
        if until > 0 {
            out.extend_from_slice(b", ")?;
        }
        let mut reader = Halting {
            left: INPUT,
            until,
            times,
            kind,
        };
        push_read(alloc, reading, &mut reader, &mut out)?;
    }
    Ok(out)
}

/// Takes a byte at a time, and fails this number of times with an error of some kind after `until`
/// bytes are taken. Flushing counts as one more.
#[derive(Drop)]
struct Narrow {
    until: usize,
    times: u32,
    kind: ErrorKind,
}

impl Narrow {
    /// Takes one byte, or fails.
    fn take(&mut self) -> io::Result<()> {
        if self.until == 0 && self.times > 0 {
            self.times -= 1;
            return Err(Error::from(self.kind));
        }
        self.until = self.until.saturating_sub(1);
        Ok(())
    }
}

impl Write for Narrow {
    ghost contents = { λ _. None };

    fn write(&mut self, bytes: &[u8]) -> io::Result<usize> {
        if bytes.is_empty() {
            return Ok(0);
        }
        self.take()?;
        Ok(1)
    }

    fn flush(&mut self) -> io::Result<()> {
        self.take()
    }
}

/// Writes three bytes.
fn write(alloc: Global, out: &mut Narrow) -> Result<Result<(), WriteFault>, AllocError> {
    let mut writer = BufferedWriter::new(alloc)?;
    let mut sink = ToWrite::new(out);
    if let Err(fault) = writer.write(b"abc", &mut sink) {
        return Ok(Err(fault));
    }
    Ok(writer.finish(&mut sink))
}

/// What is written, or how many bytes are written before a fault.
fn push_written(alloc: Global, narrow: &mut Narrow, out: &mut Vec<u8>) -> Result<(), AllocError> {
    match write(alloc, narrow)? {
        Ok(()) => out.extend_from_slice(b"abc"),
        Err(WriteFault(bytes)) => {
            out.extend_from_slice(format!(in alloc; "fault behind {bytes}")?.as_bytes())
        }
    }
}

/// What is written if a writer fails this number of times after no byte, after one, and so on.
fn write_anywhere(alloc: Global, times: u32, kind: ErrorKind) -> Result<Vec<u8>, AllocError> {
    let mut out = Vec::new(alloc);
    for until in 0..4 {
        if until > 0 {
            out.extend_from_slice(b", ")?;
        }
        push_written(alloc, &mut Narrow { until, times, kind }, &mut out)?;
    }
    Ok(out)
}

fn times_of(word: &[u8]) -> u32 {
    u32::try_from(number_of(word)).unwrap_or(0)
}

fn kind_named(word: &[u8]) -> ErrorKind {
    if word == b"Interrupted".as_slice() {
        ErrorKind::Interrupted
    } else {
        ErrorKind::Other
    }
}

fn answer(alloc: Global, row: &Row) -> Result<Vec<u8>, AllocError> {
    let times = times_of(&row.one);
    let kind = kind_named(&row.two);
    if is(row, b"write") {
        write_anywhere(alloc, times, kind)
    } else {
        read_anywhere(alloc, &row.kind, times, kind)
    }
}

#[test]
fn readers_and_writers_may_be_interrupted_anywhere(rt: HostRuntime) -> Result<(), Fail> {
    assert_rows(rt.alloc(), ROWS, answer)
}
