//! A whole file.
ghost use Rattle.std.specs.Prelude.{◌≡◌, ◌≤◌, ◌++◌, false, length, OnOk, IfOk, codes};
ghost use Rattle.unit_file.specs.Reading.{text_of, has_long_line, Reads};

use crate::fault::{InstallError, InstallFault, MAX_LINE};
use crate::install::InstallText;
use crate::line::{before_backslash, is_comment};
use bstr::ByteSlice;
use std::alloc::{AllocError, Global};

/// Reads what the [Install] section of a unit file asks for. Any bytes are a valid unit file,
/// unless a line has over `MAX_LINE` bytes; a line that has no meaning is skipped.
///
/// Errors:
/// - `Bad(LineTooLong)`: a logical line that isn't a comment has over `MAX_LINE` bytes after it is
///   joined and before it is stripped. The whole file is searched for such a line first, before
///   any memory is allocated.
/// - `OutOfMemory`: memory runs out for the words, or for a line that is joined.
///
/// systemd.syntax(7), "Introduction"; systemd.unit(5), "[Install] Section Options".
pub fn install_of(alloc: Global, bytes: &[u8]) -> Result<InstallText, InstallError>
    ensures read { Reads bytes.now result }
    // A file with at most this number of bytes has no such line.
    ensures small { length bytes.now ≤ 1048576 → has_long_line bytes.now ≡ false }
{
    if has_long_line(bytes) {
        return Err(InstallError::Bad(InstallFault::LineTooLong));
    }
    Ok(read_lines(alloc, bytes)?)
}

/// Whether a logical line has over `MAX_LINE` bytes.
fn has_long_line(bytes: &[u8]) -> bool
    ensures { result ≡ has_long_line bytes.now }
{
    // The number of bytes that the lines before this one add to its logical line, because they end
    // in a backslash.
    let mut carried = 0;
    for line in bytes.lines() {
        if !is_comment(line) {
            if line.len() > MAX_LINE - carried {
                return true;
            }
            carried = match before_backslash(line) {
                Some(_) => carried + line.len(),
                None => 0,
            };
        }
    }
    false
}

/// What the [Install] section asks for, however long the lines are.
fn read_lines(alloc: Global, bytes: &[u8]) -> Result<InstallText, AllocError>
    ensures { IfOk result (λ text. text ≡ text_of bytes.now) }
{
    let mut text = InstallText::new(alloc);
    let mut inside = false;
    // The text that the lines before this one add to its logical line, because they end in a
    // backslash.
    let mut carried = Vec::new(alloc);
    for line in bytes.lines() {
        if is_comment(line) {
            continue;
        }
        match before_backslash(line) {
            Some(front) => carry(&mut carried, front)?,
            None => {
                carried.extend_from_slice(line)?;
                inside = text.take_line(alloc, inside, &carried)?;
                carried.clear();
            }
        }
    }
    text.take_line(alloc, inside, &carried)?;
    Ok(text)
}

/// Appends a line that continues on the next one: what is before its backslash, and a space instead
/// of the backslash.
fn carry(carried: &mut Vec<u8>, front: &[u8]) -> Result<(), AllocError>
    ensures { OnOk result (carried.new.items ≡ (carried.old.items ++ front.now) ++ codes " ") }
{
    carried.extend_from_slice(front)?;
    carried.push(b' ')?;
    Ok(())
}
