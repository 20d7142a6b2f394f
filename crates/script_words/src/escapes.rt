//! Any bytes as one word, and the bytes that a word represents.
ghost use Rattle.std.specs.Prelude.{◌≡◌, ◌++◌, OnOk, IfOk};
ghost use Rattle.std.specs.Option.{option_map};
ghost use Rattle.script_words.specs.Escapes.{escaped, spelled, is_backslash, meant, text_of};

use std::alloc::{AllocError, Global};

fn push_escaped_byte(text: &mut Vec<u8>, b: u8) -> Result<(), AllocError>
    ensures { OnOk result (text.new.items ≡ text.old.items ++ escaped b) }
{
    if b == b'\n' {
        text.extend_from_slice(b"\\n")
    } else if b == b'\t' {
        text.extend_from_slice(b"\\t")
    } else if b == b' ' {
        text.extend_from_slice(b"\\s")
    } else if b == b'\\' {
        text.extend_from_slice(b"\\\\")
    } else {
        Ok(text.push(b)?)
    }
}

/// Appends bytes to a text as one word: each LF, TAB, space and backslash is written as `\n`, `\t`,
/// `\s` or `\\`, and every other byte as it is. If there are none, nothing is appended, and that is
/// no word. Fails only if memory runs out; then the word may have been appended in part.
pub fn push_escaped(text: &mut Vec<u8>, bytes: &[u8]) -> Result<(), AllocError>
    ensures { OnOk result (text.new.items ≡ text.old.items ++ spelled bytes.now) }
{
    for b in bytes {
        push_escaped_byte(text, *b)?;
    }
    Ok(())
}

fn is_backslash(b: u8) -> bool
    ensures { result ≡ is_backslash b }
{
    b == b'\\'
}

fn meant(b: u8) -> Option<u8>
    ensures { result ≡ meant b }
{
    if b == b'n' {
        Some(b'\n')
    } else if b == b't' {
        Some(b'\t')
    } else if b == b's' {
        Some(b' ')
    } else if is_backslash(b) {
        Some(b)
    } else {
        None
    }
}

/// The bytes that a word represents: `\n`, `\t`, `\s` and `\\` in it represent LF, TAB, a space and
/// a backslash. Any other use of a backslash is invalid, and the result is none. Fails only if
/// memory runs out.
pub fn unescaped(alloc: Global, word: &[u8]) -> Result<Option<Vec<u8>>, AllocError>
    ensures { IfOk result (λ text. option_map (λ bytes. bytes.items) text ≡ text_of word.now) }
{
    let mut bytes = Vec::new(alloc);
    let mut behind_backslash = false;
    for b in word {
        if behind_backslash {
            match meant(*b) {
                Some(c) => bytes.push(c)?,
                None => return Ok(None),
            }
            behind_backslash = false;
        } else if is_backslash(*b) {
            behind_backslash = true;
        } else {
            bytes.push(*b)?;
        }
    }
    if behind_backslash {
        return Ok(None);
    }
    Ok(Some(bytes))
}
