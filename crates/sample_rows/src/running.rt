//! All rows of a text.
ghost use Rattle.std.specs.Prelude.{◌≡◌};

use crate::fields::Row;
use std::alloc::{AllocError, Global};
use std::str::from_utf8;
use std::test::Fail;
use unit_name::ample;

/// Adds a row, and its result, each with a line end: both, or nothing if memory runs out.
fn push_report(
    alloc: Global,
    line: &[u8],
    answer: &[u8],
    out: &mut Vec<u8>,
) -> Result<(), AllocError> {
    let report = [line, b"\n", answer, b"\n"].concat(alloc)?;
    out.extend_from_slice(&report)
}

/// Adds a row whose result isn't its ANSWER, and the result.
fn push_unlike<F>(
    alloc: Global,
    line: &[u8],
    answer: &F,
    out: &mut Vec<u8>,
) -> Result<(), AllocError>
where
    F: Fn(Global, &Row) -> Result<Vec<u8>, AllocError>,
    requires { F.IsAlwaysCallable answer.now }
{
    let row = Row::of(alloc, line)?;
    let answer = answer(alloc, &row)?;
    if answer == row.answer {
        return Ok(());
    }
    push_report(alloc, line, &answer, out)
}

/// The rows of a text whose result isn't their ANSWER, each on a line, and the result on the next
/// line. A row is run again if a growth was refused.
pub fn unlike<F>(alloc: Global, rows: &[u8], answer: F) -> Result<Vec<u8>, AllocError>
where
    F: Fn(Global, &Row) -> Result<Vec<u8>, AllocError>,
    requires { F.IsAlwaysCallable answer }
{
    let mut out = Vec::new(alloc);
    for line in rows.split(|b| *b == b'\n') {
        if !line.is_empty() && !line.starts_with(b"#") {
            ample!(push_unlike(alloc, line, &answer, &mut out), AllocError)?;
        }
    }
    Ok(out)
}

/// Each row of a text has the result that it states. Else the test fails, and says which don't.
pub fn assert_rows<F>(alloc: Global, rows: &[u8], answer: F) -> Result<(), Fail>
where
    F: Fn(Global, &Row) -> Result<Vec<u8>, AllocError>,
    requires { F.IsAlwaysCallable answer }
{
    let found = unlike(alloc, rows, answer)?;
    if found.is_empty() {
        return Ok(());
    }
    Err(Fail::new(from_utf8(&found).unwrap_or("no text")))
}
