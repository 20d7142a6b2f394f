//! What rows ask for, and parts of their answers.
use crate::fields::Row;
use std::alloc::{AllocError, Global};

/// Whether a row is of this kind.
pub fn is(row: &Row, kind: &[u8]) -> bool {
    row.kind.as_slice() == kind
}

/// The number that a text begins with.
pub fn number_of(text: &[u8]) -> usize {
    let mut number = 0usize;
    for byte in text {
        if !byte.is_ascii_digit() {
            break;
        }
        let digit = usize::from(*byte - b'0');
        number = number.saturating_mul(10).saturating_add(digit);
    }
    number
}

pub fn yes_or_no(alloc: Global, is_so: bool) -> Result<Vec<u8>, AllocError> {
    Vec::from_slice(alloc, if is_so { b"yes" } else { b"no".as_slice() })
}
