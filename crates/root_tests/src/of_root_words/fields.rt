//! The words and the answer of a row.

use std::alloc::{AllocError, Global};

/// The value of a hexadecimal digit in lower case.
fn digit(letter: u8) -> u8 {
    if letter.is_ascii_digit() {
        letter - b'0'
    } else {
        letter.wrapping_sub(b'a').wrapping_add(10)
    }
}

/// The byte that a text begins with, and what follows it.
fn first_of(text: &[u8]) -> Option<(u8, &[u8])> {
    match text {
        [b'\\', b'x', high, low, rest @ ..] => {
            let byte = digit(*high).wrapping_mul(16).wrapping_add(digit(*low));
            Some((byte, rest))
        }
        [b'\\', b'n', rest @ ..] => Some((b'\n', rest)),
        [b'\\', b'r', rest @ ..] => Some((b'\r', rest)),
        [b'\\', b't', rest @ ..] => Some((b'\t', rest)),
        [b'\\', byte, rest @ ..] => Some((*byte, rest)),
        [byte, rest @ ..] => Some((*byte, rest)),
        [] => None,
    }
}

/// What a word or an answer is that is written with the escapes of `ROWS`.
pub(super) fn unescaped(alloc: Global, text: &str) -> Result<String, AllocError> {
    let mut bytes = Vec::new(alloc);
    let mut rest = text.as_bytes();
    for _byte in 0..text.len() {
        let Some((byte, more)) = first_of(rest) else {
            break;
        };
        bytes.push(byte)?;
        rest = more;
    }
    String::from_utf8_lossy(alloc, bytes.as_slice())
}

/// The program's own word, and the words of a row after it.
pub(super) fn row_words(alloc: Global, text: &str) -> Result<Vec<String>, AllocError> {
    let mut words = Vec::new(alloc);
    words.push(String::from_str(alloc, "unitroot")?)?;
    if text.is_empty() {
        return Ok(words);
    }
    for word in text.split(" | ") {
        let shown = if word == "<>" { "" } else { word };
        words.push(unescaped(alloc, shown)?)?;
    }
    Ok(words)
}
