//! Bytes of any kind as they are shown to people.
ghost use Rattle.std.specs.Prelude.{◌≡◌, ◌<◌, ◌++◌, ℕ, List, drop, IfOk, OnOk, OnErr};
ghost use Rattle.root_runs.specs.Escapes.{hex_digit, hex_text, is_control, kept_len, kept_first, before_rest, shown_after, shown};

use bstr::decode_utf8;
use std::alloc::AllocError;

fn hex_digit(d: u8) -> u8
    requires { d < 16 }
    ensures { result ≡ hex_digit d }
{
    if d < 10 { d + b'0' } else { d - 10 + b'a' }
}

/// Appends a byte as `\xNN`.
pub(crate) fn push_hex(out: &mut Vec<u8>, b: u8) -> Result<(), AllocError>
    ensures { OnOk result (out.new.items ≡ out.old.items ++ hex_text b) }
{
    out.extend_from_slice(&[b'\\', b'x', hex_digit(b / 16), hex_digit(b % 16)])
}

fn is_control(c: char) -> bool
    ensures { result ≡ is_control c }
{
    let c = u32::from(c);
    c < 32 || (127 <= c && c < 160)
}

/// How many bytes at the front are one character that is shown as it is.
fn kept_len(bytes: &[u8]) -> usize
    ensures { result ≡ kept_len bytes.now }
{
    let (character, size) = decode_utf8(bytes);
    match character {
        Some(c) if is_control(c) => 0,
        Some(_) => size,
        None => 0,
    }
}

/// The same, if this many of the first bytes are the rest of such a character.
fn kept_first(kept: usize, bytes: &[u8]) -> usize
    ensures { result ≡ kept_first kept bytes.now }
{
    if kept == 0 { kept_len(bytes) } else { kept }
}

/// Appends a byte as it is shown, if this many bytes from it on belong to a character that is shown
/// as it is. Returns how many of the bytes after it do.
fn push_byte(out: &mut Vec<u8>, kept: usize, b: u8) -> Result<usize, AllocError>
    ensures { IfOk result (λ left. (rest : ℕ → List ℕ) → out.new.items ++ rest left ≡ out.old.items ++ before_rest kept b rest) }
{
    if kept == 0 {
        push_hex(out, b)?;
        return Ok(0);
    }
    out.push(b)?;
    Ok(kept - 1)
}

/// Appends the first byte as it is shown, if this many of the bytes are the rest of a character
/// that is shown as it is. Returns how many of the bytes after it are.
#[tactic(auto, unfolding(crate::specs::Escapes::shown_after))]
fn push_first(out: &mut Vec<u8>, kept: usize, bytes: &[u8]) -> Result<usize, AllocError>
    ensures { IfOk result (λ left. out.new.items ++ shown_after left (drop 1 bytes.now) ≡ out.old.items ++ shown_after kept bytes.now) }
{
    match bytes {
        [] => Ok(0),
        [b, ..] => push_byte(out, kept_first(kept, bytes), *b),
    }
}

/// Appends bytes as they are shown to people: a character in UTF-8 that is no control character
/// stays as it is, and each other byte is written `\xNN`, with two digits in lower case. So no
/// terminal takes them for an order. A backslash stays too, since the names of units have them. If
/// memory runs out, nothing has been appended.
///
/// Control characters are those below 32, 127, and U+0080 to U+009F.
pub fn push_shown(out: &mut Vec<u8>, bytes: &[u8]) -> Result<(), AllocError>
    ensures ok { OnOk result (out.new.items ≡ out.old.items ++ shown bytes.now) }
    ensures err { OnErr result (out.new.items ≡ out.old.items) }
{
    let mut text = Vec::new(*out.allocator());
    push_each_shown(&mut text, bytes)?;
    out.extend_from_slice(&text)
}

/// The same, but if memory runs out, a part of the text may have been appended.
#[tactic(auto, unfolding(crate::specs::Escapes::shown_after))]
pub(crate) fn push_each_shown(out: &mut Vec<u8>, bytes: &[u8]) -> Result<(), AllocError>
    ensures { OnOk result (out.new.items ≡ out.old.items ++ shown bytes.now) }
{
    let mut kept = 0;
    let mut rest = bytes;
    'bytes: while !rest.is_empty() {
        kept = push_first(out, kept, rest)?;
        rest = &rest[1..];
    }
    Ok(())
}
