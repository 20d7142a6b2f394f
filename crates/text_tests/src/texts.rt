//! Texts that rows are given, and texts of their answers.
use std::alloc::{AllocError, Global};

/// A text, or how long it is if it has over a hundred bytes.
pub(crate) fn in_short(alloc: Global, text: &[u8]) -> Result<Vec<u8>, AllocError> {
    let len = text.len();
    if len > 100 {
        return Ok(format!(in alloc; "{len} bytes")?.into_bytes());
    }
    Vec::from_slice(alloc, text)
}

/// The number that a text begins with, and what follows it.
fn first_number(text: &[u8]) -> (usize, &[u8]) {
    let mut number = 0usize;
    let mut rest = text;
    for byte in text {
        if !byte.is_ascii_digit() {
            break;
        }
        let digit = usize::from(*byte - b'0');
        number = number.saturating_mul(10).saturating_add(digit);
        rest = rest.get(1..).unwrap_or(b"");
    }
    (number, rest)
}

/// The numbers of a text, separated by spaces.
pub(crate) fn numbers_of(alloc: Global, text: &[u8]) -> Result<Vec<usize>, AllocError> {
    let mut numbers = Vec::new(alloc);
    let mut rest = text;
    for _number in 0..text.len() {
        if rest.is_empty() {
            break;
        }
        let (number, behind) = first_number(rest);
        numbers.push(number)?;
        rest = behind.get(1..).unwrap_or(b"");
    }
    Ok(numbers)
}

/// The byte that a text begins with, how often it is there, and what follows it.
fn first_run(text: &[u8]) -> Option<(u8, usize, &[u8])> {
    match text {
        [byte, b'*', rest @ ..] => {
            let (times, rest) = first_number(rest);
            Some((*byte, times, rest))
        }
        [byte, rest @ ..] => Some((*byte, 1, rest)),
        [] => None,
    }
}

/// A text written in full: `x*30` is the letter x thirty times, and other bytes are themselves.
pub(crate) fn in_full(alloc: Global, text: &[u8]) -> Result<Vec<u8>, AllocError> {
    let mut out = Vec::new(alloc);
    let mut rest = text;
    for _run in 0..text.len() {
        let Some((byte, times, more)) = first_run(rest) else {
            break;
        };
        let run = Vec::from_elem(alloc, byte, times)?;
        out.extend_from_slice(&run)?;
        rest = more;
    }
    Ok(out)
}
