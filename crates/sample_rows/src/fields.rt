//! The fields of a row.
use std::alloc::{AllocError, Global};

/// A row, with its fields as the bytes that they represent.
#[derive(Drop)]
pub struct Row {
    pub kind: Vec<u8>,
    pub one: Vec<u8>,
    pub two: Vec<u8>,
    pub answer: Vec<u8>,
}

impl Row {
    /// The row of a line.
    pub(crate) fn of(alloc: Global, line: &[u8]) -> Result<Row, AllocError> {
        let mut fields = line.split(|b| *b == b'\t');
        Ok(Row {
            kind: bytes_of(alloc, fields.next().unwrap_or(b""))?,
            one: bytes_of(alloc, fields.next().unwrap_or(b""))?,
            two: bytes_of(alloc, fields.next().unwrap_or(b""))?,
            answer: bytes_of(alloc, fields.next().unwrap_or(b""))?,
        })
    }
}

/// The value of a hexadecimal digit in lower case.
fn digit(letter: u8) -> u8 {
    if letter.is_ascii_digit() {
        letter - b'0'
    } else {
        letter.wrapping_sub(b'a').wrapping_add(10)
    }
}

/// The byte that a field begins with, and what follows it.
fn first_of(field: &[u8]) -> Option<(u8, &[u8])> {
    match field {
        [b'\\', b'x', high, low, rest @ ..] => {
            let byte = digit(*high).wrapping_mul(16).wrapping_add(digit(*low));
            Some((byte, rest))
        }
        [b'\\', b'n', rest @ ..] => Some((b'\n', rest)),
        [b'\\', b'r', rest @ ..] => Some((b'\r', rest)),
        [b'\\', b't', rest @ ..] => Some((b'\t', rest)),
        [b'\\', byte, rest @ ..] => Some((*byte, rest)),
        [byte, rest @ ..] => Some((*byte, rest)),
        [] => None,
    }
}

/// The bytes that a field represents.
fn bytes_of(alloc: Global, field: &[u8]) -> Result<Vec<u8>, AllocError> {
    let mut bytes = Vec::new(alloc);
    let mut rest = field;
    for _byte in 0..field.len() {
        let Some((byte, more)) = first_of(rest) else {
            break;
        };
        bytes.push(byte)?;
        rest = more;
    }
    Ok(bytes)
}
