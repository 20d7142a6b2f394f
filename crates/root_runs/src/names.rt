//! How words that name units are completed.
ghost use Rattle.std.specs.Prelude.{◌≡◌, ◌++◌, map, codes, IfOk, OnOk};
ghost use Rattle.std.specs.List.{flat_map, list_any, slice_split};
ghost use Rattle.unit_name.specs.Parts.{is_name_byte};
ghost use Rattle.unit_paths.specs.Paths.{is_slash};
ghost use Rattle.root_runs.specs.Names.{suffix_text, name_byte_text, escaped_word, with_suffix, is_path_byte, path_byte_text, part_text, first_part_text, parts_text, is_kept, parts_of, is_upward, begins_with_slash, is_plain_path, path_suffix, unit_of_parts, named};

use crate::escapes::push_hex;
use std::alloc::{AllocError, Global};
use unit_name::is_unit_name;

/// The type that is added to a word without one.
#[derive(Clone, Copy, Debug, PartialEq, Eq)]
pub enum Suffix {
    /// `.service`, for most words.
    Service,
    /// `.target`, for a word that names a target.
    Target,
}

impl Suffix {
    /// The suffix, with its dot.
    pub fn text(self) -> &'static str
        ensures { result.now ≡ suffix_text self }
    {
        match self {
            Suffix::Service => ".service",
            Suffix::Target => ".target",
        }
    }
}

fn is_slash(b: u8) -> bool
    ensures { result ≡ is_slash b }
{
    b == b'/'
}

fn is_name_byte(b: u8) -> bool
    ensures { result ≡ is_name_byte b }
{
    b.is_ascii_alphanumeric() || b":-_.\\@".contains(&b)
}

fn push_name_byte(out: &mut Vec<u8>, b: u8) -> Result<(), AllocError>
    ensures { OnOk result (out.new.items ≡ out.old.items ++ name_byte_text b) }
{
    if is_slash(b) {
        out.extend_from_slice(b"-")
    } else if is_name_byte(b) {
        Ok(out.push(b)?)
    } else {
        push_hex(out, b)
    }
}

/// Appends a word, with each byte that names may not have escaped.
fn push_escaped(out: &mut Vec<u8>, word: &[u8]) -> Result<(), AllocError>
    ensures { OnOk result (out.new.items ≡ out.old.items ++ escaped_word word.now) }
{
    for b in word {
        push_name_byte(out, *b)?;
    }
    Ok(())
}

/// The name of a word that is neither a name nor a path.
fn escaped_name(alloc: Global, word: &[u8], suffix: Suffix) -> Result<Vec<u8>, AllocError>
    ensures { IfOk result (λ name. name.items ≡ with_suffix suffix (escaped_word word.now)) }
{
    let mut name = Vec::new(alloc);
    push_escaped(&mut name, word)?;
    if !is_unit_name(&name) {
        name.extend_from_slice(suffix.text().as_bytes())?;
    }
    Ok(name)
}

fn is_path_byte(b: u8) -> bool
    ensures { result ≡ is_path_byte b }
{
    is_name_byte(b) && !(b == b'-' || b == b'\\' || b == b'@')
}

fn push_path_byte(out: &mut Vec<u8>, b: u8) -> Result<(), AllocError>
    ensures { OnOk result (out.new.items ≡ out.old.items ++ path_byte_text b) }
{
    if is_path_byte(b) {
        Ok(out.push(b)?)
    } else {
        push_hex(out, b)
    }
}

fn push_part(out: &mut Vec<u8>, part: &[u8]) -> Result<(), AllocError>
    ensures { OnOk result (out.new.items ≡ out.old.items ++ part_text part.now) }
{
    for b in part {
        push_path_byte(out, *b)?;
    }
    Ok(())
}

/// Appends the first part of a path, of which a dot at the front is escaped.
fn push_first_part(out: &mut Vec<u8>, part: &[u8]) -> Result<(), AllocError>
    ensures { OnOk result (out.new.items ≡ out.old.items ++ first_part_text part.now) }
{
    match part {
        [] => Ok(()),
        [b'.', rest @ ..] => {
            push_hex(out, b'.')?;
            push_part(out, rest)
        }
        [b, rest @ ..] => {
            push_path_byte(out, *b)?;
            push_part(out, rest)
        }
    }
}

fn push_other_parts(out: &mut Vec<u8>, parts: &[&[u8]]) -> Result<(), AllocError>
    ensures { OnOk result (out.new.items ≡ out.old.items ++ flat_map (λ part. codes "-" ++ part_text part) (map (λ part. part.now) parts.now)) }
{
    for part in parts {
        out.extend_from_slice(b"-")?;
        push_part(out, part)?;
    }
    Ok(())
}

fn push_parts(out: &mut Vec<u8>, parts: &[&[u8]]) -> Result<(), AllocError>
    ensures { OnOk result (out.new.items ≡ out.old.items ++ parts_text (map (λ part. part.now) parts.now)) }
{
    match parts {
        [] => out.extend_from_slice(b"-"),
        [part, parts @ ..] => {
            push_first_part(out, part)?;
            push_other_parts(out, parts)
        }
    }
}

fn is_upward(part: &[u8]) -> bool
    ensures { result ≡ is_upward part.now }
{
    part == b"..".as_slice()
}

fn begins_with_slash(word: &[u8]) -> bool
    ensures { result ≡ begins_with_slash word.now }
{
    match word {
        [] => false,
        [first, ..] => is_slash(*first),
    }
}

fn has_upward(word: &[u8]) -> bool
    ensures { result ≡ list_any is_upward (slice_split is_slash word.now) }
{
    word.split(|b| *b == b'/').any(|part| is_upward(part))
}

/// Whether a word is an absolute path without `..`.
fn is_plain_path(word: &[u8]) -> bool
    ensures { result ≡ is_plain_path word.now }
{
    begins_with_slash(word) && !has_upward(word)
}

/// Whether a part of a path is neither empty nor `.`.
fn is_kept(part: &[u8]) -> bool
    ensures { result ≡ is_kept part.now }
{
    !part.is_empty() && part != b".".as_slice()
}

/// The parts of a path, but for empty ones and `.`.
fn parts_of<'a>(alloc: Global, path: &'a [u8]) -> Result<Vec<&'a [u8]>, AllocError>
    ensures { IfOk result (λ parts. map (λ part. part.now) parts.items ≡ parts_of path.now) }
{
    path.split(|b| *b == b'/')
        .filter(|part| is_kept(part))
        .collect(alloc)
}

fn path_suffix(parts: &[&[u8]]) -> &'static str
    ensures { result.now ≡ path_suffix (map (λ part. part.now) parts.now) }
{
    match parts {
        [] | [_] => ".mount",
        [part, _, ..] => {
            if *part == b"dev".as_slice() || *part == b"sys".as_slice() {
                ".device"
            } else {
                ".mount"
            }
        }
    }
}

/// The name of the unit of a path.
fn path_name(alloc: Global, path: &[u8]) -> Result<Vec<u8>, AllocError>
    ensures { IfOk result (λ name. name.items ≡ unit_of_parts (parts_of path.now)) }
{
    let parts = parts_of(alloc, path)?;
    let mut name = Vec::new(alloc);
    push_parts(&mut name, &parts)?;
    name.extend_from_slice(path_suffix(&parts).as_bytes())?;
    Ok(name)
}

/// The name that a word stands for, as systemctl completes it.
///
/// - A valid name is itself.
/// - An absolute path without `..` is the unit of that path, as `systemd-escape --path` writes it:
///   a device beneath `/dev` and `/sys`, else a mount point.
/// - Any other word has `-` for each `/`, and `\xNN` for each byte that names may not have. The
///   suffix is added, unless the result is a valid name without it.
///
/// The result is no valid name if there is none: for the empty word, for one that begins with `@`,
/// and for one that gets too long. (systemctl gives such a long path a name with a hash.)
///
/// systemctl(1), "Parameter Syntax".
#[tactic(auto, unfolding(crate::specs::Names::named))]
pub fn named(alloc: Global, word: &[u8], suffix: Suffix) -> Result<Vec<u8>, AllocError>
    ensures { IfOk result (λ name. name.items ≡ named suffix word.now) }
{
    if is_unit_name(word) {
        Vec::from_slice(alloc, word)
    } else if is_plain_path(word) {
        path_name(alloc, word)
    } else {
        escaped_name(alloc, word, suffix)
    }
}
