//! The lines of an inventory, one for each entry.
ghost use Rattle.std.specs.Prelude.{◌≡◌, ◌<◌, ◌+◌, min, true, length, Option, IfOk, IfSome, Some};
ghost use Rattle.std.specs.Option.{option_map};
ghost use Rattle.std.specs.List.{list_all, position};
ghost use Rattle.std.specs.Char.{is_ascii_digit};
ghost use Rattle.std.specs.Str.Parse.{digits_value};
ghost use Rattle.link_tree.specs.EntryLines.{is_tab, cut_at_tab, two_fields, fields_of, is_length, length_of, path_of, target_of, file_line, link_line, line_of, IsSized};
ghost use Rattle.byte_streams.specs.Reads.{Gives};
ghost use Rattle.link_tree.specs.Reads.{path_error_seen, target_error_seen};

use crate::contents::MAX_FILE;
use crate::inventory_fault::InventoryFault;
use byte_streams::ReadError;
use memchr::memchr;
use std::alloc::Global;
use unit_paths::{PathError, Target, TargetError, TreePath};

/// The meaning of a line of an inventory.
#[derive(Debug, Drop)]
pub(crate) enum EntryLine {
    /// A file of this number of bytes is at the path; its bytes follow.
    File(TreePath, usize),
    /// A link is at the path.
    Link(TreePath, Target),
    /// There are no more entries.
    End,
}

/// Parses a line.
#[tactic(auto, unfolding(crate::specs::EntryLines::line_of))]
pub(crate) fn line_of(alloc: Global, line: &[u8]) -> Result<EntryLine, ReadError<InventoryFault>>
    ensures line { Gives (λ x. x) result (line_of line.now) }
    ensures sized { IfOk result IsSized }
{
    if line == b"end".as_slice() {
        return Ok(EntryLine::End);
    }
    match (fields_of(b'F', line), fields_of(b'L', line)) {
        (Some((length, path)), _) => file_line(alloc, length, path),
        (None, Some((path, target))) => link_line(alloc, path, target),
        (None, None) => Err(ReadError::Fault(InventoryFault::BadLine)),
    }
}

fn file_line(
    alloc: Global,
    length: &[u8],
    path: &[u8],
) -> Result<EntryLine, ReadError<InventoryFault>>
    ensures line { Gives (λ x. x) result (file_line (length_of length.now) path.now) }
    ensures sized { IfOk result IsSized }
{
    let Some(length) = length_of(length) else {
        return Err(ReadError::Fault(InventoryFault::BadLine));
    };
    let path = path_of(alloc, path)?;
    if length > MAX_FILE {
        return Err(ReadError::Fault(InventoryFault::TooLarge));
    }
    Ok(EntryLine::File(path, length))
}

fn link_line(
    alloc: Global,
    path: &[u8],
    target: &[u8],
) -> Result<EntryLine, ReadError<InventoryFault>>
    ensures line { Gives (λ x. x) result (link_line path.now target.now) }
    ensures sized { IfOk result IsSized }
{
    Ok(EntryLine::Link(path_of(alloc, path)?, target_of(alloc, target)?))
}

fn path_of(alloc: Global, text: &[u8]) -> Result<TreePath, ReadError<InventoryFault>>
    ensures { Gives (λ path. path) result (path_of text.now) }
{
    TreePath::parse(alloc, text).map_err(path_error)
}

fn target_of(alloc: Global, text: &[u8]) -> Result<Target, ReadError<InventoryFault>>
    ensures { Gives (λ target. target) result (target_of text.now) }
{
    Target::parse(alloc, text).map_err(target_error)
}

/// The number of a file's bytes, or the maximum plus one if it exceeds the maximum.
fn length_of(text: &[u8]) -> Option<usize>
    ensures { result ≡ option_map (min (MAX_FILE + 1)) (length_of text.now) }
{
    if is_length(text) {
        Some(value_of(text))
    } else {
        None
    }
}

#[tactic(auto, unfolding(crate::specs::EntryLines::is_length))]
fn is_length(text: &[u8]) -> bool
    ensures { result ≡ is_length text.now }
{
    match text {
        [] => false,
        [first, rest @ ..] => is_number(text) && (rest.is_empty() || *first != b'0'),
    }
}

fn is_number(text: &[u8]) -> bool
    ensures { result ≡ list_all is_ascii_digit text.now }
{
    text.iter().all(|b| b.is_ascii_digit())
}

/// The number that the digits represent, or one more than the largest file size if it exceeds that.
fn value_of(digits: &[u8]) -> usize
    requires { list_all is_ascii_digit digits.now ≡ true }
    ensures { result ≡ min (MAX_FILE + 1) (digits_value 10 digits.now) }
{
    let mut value = 0;
    for digit in digits {
        value = (value * 10 + usize::from(*digit - b'0')).min(MAX_FILE + 1);
    }
    value
}

fn find_tab(text: &[u8]) -> Option<usize>
    ensures place { result ≡ position is_tab text.now }
    ensures within { IfSome result (λ i. i < length text.now) }
{
    memchr(b'\t', text)
}

fn cut_at_tab(text: &[u8]) -> Option<(&[u8], &[u8])>
    ensures { option_map (λ x. (x.0.now, x.1.now)) result ≡ cut_at_tab text.now }
{
    match find_tab(text) {
        Some(tab) => Some((&text[..tab], &text[tab + 1..])),
        None => None,
    }
}

/// The two fields after a letter, with a tab before each.
fn fields_of(letter: u8, line: &[u8]) -> Option<(&[u8], &[u8])>
    ensures { option_map (λ x. (x.0.now, x.1.now)) result ≡ fields_of letter line.now }
{
    match line {
        [first, b'\t', rest @ ..] if *first == letter => two_fields(rest),
        _ => None,
    }
}

fn two_fields(text: &[u8]) -> Option<(&[u8], &[u8])>
    ensures { option_map (λ x. (x.0.now, x.1.now)) result ≡ two_fields (cut_at_tab text.now) }
{
    match cut_at_tab(text) {
        Some((first, second)) if !second.contains(&b'\t') => Some((first, second)),
        _ => None,
    }
}

fn path_error(e: PathError) -> ReadError<InventoryFault>
    ensures { result ≡ path_error_seen e }
{
    match e {
        PathError::BadPath => ReadError::Fault(InventoryFault::BadPath),
        PathError::OutOfMemory => ReadError::OutOfMemory,
    }
}

fn target_error(e: TargetError) -> ReadError<InventoryFault>
    ensures { result ≡ target_error_seen e }
{
    match e {
        TargetError::BadTarget => ReadError::Fault(InventoryFault::BadPath),
        TargetError::OutOfMemory => ReadError::OutOfMemory,
    }
}
