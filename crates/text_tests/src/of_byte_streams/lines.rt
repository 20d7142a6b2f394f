ghost use Rattle.std.specs.Prelude.{None};
ghost use Rattle.byte_streams.specs.declared.counters.Counters.{Counters};

use byte_streams::{
    Counters, FromRead, Line, ReadError, Source, Stop, read_bytes, read_line, skip_prefix,
};
use sample_rows::{Row, assert_rows, is, number_of, yes_or_no};
use std::alloc::{AllocError, Global};
use std::test::Fail;

const ROWS: &[u8] = b"\
    # Lines are read in pieces of 128 bytes: one may end with a piece, or have more than one.\n\
    # A line of so many bytes, read as one of at most so many: with a LF, and as the last.\n\
    line\t0\t127\twhole, last\n\
    line\t0\t128\twhole, last\n\
    line\t0\t129\twhole, last\n\
    line\t0\t300\twhole, last\n\
    line\t127\t127\twhole, last\n\
    line\t127\t128\twhole, last\n\
    line\t127\t129\twhole, last\n\
    line\t127\t300\twhole, last\n\
    line\t128\t127\ttoo long, too long\n\
    line\t128\t128\twhole, last\n\
    line\t128\t129\twhole, last\n\
    line\t128\t300\twhole, last\n\
    line\t129\t127\ttoo long, too long\n\
    line\t129\t128\ttoo long, too long\n\
    line\t129\t129\twhole, last\n\
    line\t129\t300\twhole, last\n\
    line\t300\t127\ttoo long, too long\n\
    line\t300\t128\ttoo long, too long\n\
    line\t300\t129\ttoo long, too long\n\
    line\t300\t300\twhole, last\n\
    \n\
    # Lines follow one another: so many, of so many bytes.\n\
    lines\t12\t3000\tyes\n\
    \n\
    # No byte is taken behind the one that decides: of 400 bytes, in a line of at most so many.\n\
    line of 400\t0\t\ttoo long, 399 left\n\
    line of 400\t3\t\ttoo long, 396 left\n\
    line of 400\t127\t\ttoo long, 272 left\n\
    line of 400\t128\t\ttoo long, 271 left\n\
    line of 400\t129\t\ttoo long, 270 left\n\
    line of 400\t255\t\ttoo long, 144 left\n\
    line of 400\t300\t\ttoo long, 99 left\n\
    prefix\tabx.\tabc\tno, then .\n\
    prefix\tac\tab\tno, then nothing\n\
    \n\
    # A prefix, three bytes and a line, from a reader that is lent: what follows stays in it.\n\
    front\tabxyz12\\nrest\tab\ttrue, 3 and 2 bytes, then rest\n\
    \n\
    # Bytes end with the input.\n\
    three bytes\tab\t\tnone\n";

/// Gives only one byte at a time.
#[derive(Drop)]
struct OneByOne<'a> {
    left: &'a [u8],
}

impl<'a> Source for OneByOne<'a> {
    ghost left = { λ _. None };

    ghost counters = { λ _. record { failures = 0; interruptions = 0; longest_row = 0 } };

    fn byte(&mut self) -> Result<Option<u8>, Stop> {
        match self.left {
            [byte, rest @ ..] => {
                self.left = rest;
                Ok(Some(*byte))
            }
            [] => Ok(None),
        }
    }
}

/// How a line that is too long is reported.
const TOO_LONG: u8 = 7;

/// What was read instead of a line that should have this text.
fn line_in_words(read: &Result<Line, ReadError<u8>>, text: &[u8]) -> &'static [u8] {
    match read {
        Ok(Line::Whole(found)) if found.as_slice() == text => b"whole",
        Ok(Line::Last(found)) if found.as_slice() == text => b"last",
        Ok(_) => b"another text",
        Err(ReadError::Fault(TOO_LONG)) => b"too long",
        Err(_) => b"another fault",
    }
}

/// What a line is that should have this text.
fn line_from<S: Source>(
    alloc: Global,
    source: &mut S,
    limit: usize,
    text: &[u8],
) -> Result<&'static [u8], AllocError> {
    let read = read_line(alloc, source, limit, TOO_LONG);
    if matches!(read, Err(ReadError::OutOfMemory)) {
        return Err(AllocError);
    }
    Ok(line_in_words(&read, text))
}

/// What the first line of an input is, read in pieces and byte by byte.
fn line_in(
    alloc: Global,
    input: &[u8],
    limit: usize,
    text: &[u8],
) -> Result<&'static [u8], AllocError> {
    let in_pieces = line_from(alloc, &mut FromRead::new(input), limit, text)?;
    if line_from(alloc, &mut OneByOne { left: input }, limit, text)? != in_pieces {
        return Ok(b"otherwise byte by byte");
    }
    Ok(in_pieces)
}

/// What a line of this number of bytes is, with a LF and more after it, and as the last.
fn line_of(alloc: Global, len: usize, limit: usize) -> Result<Vec<u8>, AllocError> {
    let mut input = Vec::from_elem(alloc, b'x', 304)?;
    if let Some(end) = input.get_mut(len) {
        *end = b'\n';
    }
    let text = input.get(..len).unwrap_or(b"");
    let whole = line_in(alloc, &input, limit, text)?;
    let last = line_in(alloc, text, limit, text)?;
    [whole, b", ", last].concat(alloc)
}

/// Whether a source has this number of lines of this text, and no byte more.
fn has_lines<S: Source>(
    alloc: Global,
    source: &mut S,
    count: usize,
    text: &[u8],
) -> Result<bool, AllocError> {
    for _line in 0..count {
        if line_from(alloc, source, text.len(), text)? != b"whole".as_slice() {
            return Ok(false);
        }
    }
    Ok(line_from(alloc, source, text.len(), b"")? == b"last".as_slice())
}

/// Whether an input has this number of lines of this text, read in pieces and byte by byte.
fn are_lines(alloc: Global, input: &[u8], count: usize, text: &[u8]) -> Result<bool, AllocError> {
    Ok(
        has_lines(alloc, &mut FromRead::new(input), count, text)?
            && has_lines(alloc, &mut OneByOne { left: input }, count, text)?,
    )
}

/// Whether this number of lines of this number of bytes follow one another.
fn follow_one_another(alloc: Global, count: usize, len: usize) -> Result<Vec<u8>, AllocError> {
    let mut line = Vec::from_elem(alloc, b'x', len)?;
    line.push(b'\n')?;
    let input = line.repeat(alloc, count)?;
    let text = line.get(..len).unwrap_or(b"");
    yes_or_no(alloc, are_lines(alloc, &input, count, text)?)
}

/// Reads a line that is too long: how many of the bytes are left.
fn line_of_400(alloc: Global, limit: usize) -> Result<Vec<u8>, AllocError> {
    let input = Vec::from_elem(alloc, b'x', 400)?;
    let mut left = input.as_slice();
    match read_line(alloc, &mut FromRead::new(&mut left), limit, TOO_LONG) {
        Err(ReadError::Fault(TOO_LONG)) => {
            let count = left.len();
            Ok(format!(in alloc; "too long, {count} left")?.into_bytes())
        }
        Err(ReadError::OutOfMemory) => Err(AllocError),
        _ => Vec::from_slice(alloc, b"another line"),
    }
}

/// Whether an input begins with a prefix, and what is left of it then.
fn prefix_of(alloc: Global, input: &[u8], prefix: &[u8]) -> Result<Vec<u8>, AllocError> {
    let mut left = input;
    let found: &[u8] = match skip_prefix(prefix, &mut FromRead::new(&mut left)) {
        Ok(true) => b"yes",
        Ok(false) => b"no",
        Err(_) => b"a fault",
    };
    let rest = if left.is_empty() { b"nothing" } else { left };
    [found, b", then ", rest].concat(alloc)
}

/// Whether there is a prefix, and how many bytes there are in three bytes and in a line after it.
fn read_front(
    alloc: Global,
    reader: &mut &[u8],
    prefix: &[u8],
) -> Result<(bool, usize, usize), ReadError<u8>> {
    let mut source = FromRead::new(reader);
    let found = skip_prefix(prefix, &mut source)?;
    let bytes: Option<Vec<u8>> = read_bytes::<_, u8>(alloc, &mut source, 3)?;
    let line = match read_line(alloc, &mut source, 9, TOO_LONG)? {
        Line::Whole(text) | Line::Last(text) => text.len(),
    };
    Ok((found, bytes.map_or(0, |bytes| bytes.len()), line))
}

/// What is read from a borrowed reader, and what is left in it.
fn front_of(alloc: Global, input: &[u8], prefix: &[u8]) -> Result<Vec<u8>, AllocError> {
    let mut left = input;
    let (found, bytes, line) = match read_front(alloc, &mut left, prefix) {
        Ok(front) => front,
        Err(ReadError::OutOfMemory) => return Err(AllocError),
        Err(_) => return Vec::from_slice(alloc, b"a fault"),
    };
    let mut out = format!(in alloc; "{found}, {bytes} and {line} bytes, then ")?.into_bytes();
    out.extend_from_slice(left)?;
    Ok(out)
}

fn three_bytes(alloc: Global, input: &[u8]) -> Result<Vec<u8>, AllocError> {
    match read_bytes::<_, u8>(alloc, &mut FromRead::new(input), 3) {
        Ok(Some(bytes)) => Ok(bytes),
        Ok(None) => Vec::from_slice(alloc, b"none"),
        Err(ReadError::OutOfMemory) => Err(AllocError),
        Err(_) => Vec::from_slice(alloc, b"a fault"),
    }
}

fn answer(alloc: Global, row: &Row) -> Result<Vec<u8>, AllocError> {
    let number = number_of(&row.one);
    if is(row, b"line") {
        line_of(alloc, number, number_of(&row.two))
    } else if is(row, b"lines") {
        follow_one_another(alloc, number, number_of(&row.two))
    } else if is(row, b"line of 400") {
        line_of_400(alloc, number)
    } else if is(row, b"prefix") {
        prefix_of(alloc, &row.one, &row.two)
    } else if is(row, b"front") {
        front_of(alloc, &row.one, &row.two)
    } else if is(row, b"three bytes") {
        three_bytes(alloc, &row.one)
    } else {
        Vec::from_slice(alloc, b"unknown kind")
    }
}

#[test]
fn lines_and_bytes_are_read_as_far_as_they_go(rt: HostRuntime) -> Result<(), Fail> {
    assert_rows(rt.alloc(), ROWS, answer)
}
