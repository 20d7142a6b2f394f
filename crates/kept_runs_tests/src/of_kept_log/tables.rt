//! Tables of logs.

use history::Operator;
use kept_log::{LogLine, push_log};
use sample_rows::{Row, assert_rows, is};
use std::alloc::{AllocError, Global};
use std::str;
use std::test::Fail;

/// A table of one or two rows: the columns (0 for any), the call of the first row, and the table.
const ROWS: &[u8] = b"\
    heads\t80\tmask x\t\
        \x20ROW TIME OPERATOR CALL   CHANGES UNDONE BY\\n\
        \x20  7 now  anna     mask x       1     12345\\n\
        1234 now  anna     undo 7       0\\n\n\
    none\t80\tmask x\t\
        \x20  7 now  anna     mask x       1     12345\\n\
        1234 now  anna     undo 7       0\\n\n\
    # a call is cut to what is left for it, but not to less than 12 columns\n\
    none\t55\tmask abcdefghijklmn\t\
        \x20  7 now  anna     mask abcdefghij...       1     12345\\n\
        1234 now  anna     undo 7                   0\\n\n\
    none\t10\tmask abcdefghijklmn\t\
        \x20  7 now  anna     mask abcd...       1     12345\\n\
        1234 now  anna     undo 7             0\\n\n\
    none\t0\tmask abcdefghijklmn\t\
        \x20  7 now  anna     mask abcdefghijklmn       1     12345\\n\
        1234 now  anna     undo 7                    0\\n\n\
    # characters are counted, not bytes\n\
    none\t10\t\\xc3\\xa9\\xc3\\xa9\\xc3\\xa9\\xc3\\xa9\\xc3\\xa9\\xc3\\xa9\\xc3\\xa9\\xc3\\xa9\\xc3\\xa9\\xc3\\xa9\\xc3\\xa9\\xc3\\xa9\\xc3\\xa9\t\
        \x20  7 now  anna     \\xc3\\xa9\\xc3\\xa9\\xc3\\xa9\\xc3\\xa9\\xc3\\xa9\\xc3\\xa9\\xc3\\xa9\\xc3\\xa9\\xc3\\xa9...       1     12345\\n\
        1234 now  anna     undo 7             0\\n\n\
    ";

/// Appends the line of a row.
fn push_line(
    alloc: Global,
    lines: &mut Vec<LogLine>,
    number: u32,
    call: &[u8],
    undone_by: Option<u32>,
) -> Result<(), AllocError> {
    let Ok(operator) = Operator::parse(b"anna") else {
        return Err(AllocError);
    };
    let changes = if undone_by.is_some() { 1 } else { 0 };
    let time = Vec::from_slice(alloc, b"now")?;
    Ok(lines.push(LogLine {
        number,
        time,
        operator,
        call: Vec::from_slice(alloc, call)?,
        changes,
        undone_by,
    })?)
}

/// The number that a word is, if it isn't 0.
fn columns_of(word: &[u8]) -> Option<usize> {
    let text = str::from_utf8(word).ok()?;
    match text.parse::<usize>() {
        Ok(0) | Err(_) => None,
        Ok(columns) => Some(columns),
    }
}

fn answer(alloc: Global, row: &Row) -> Result<Vec<u8>, AllocError> {
    let mut lines = Vec::new(alloc);
    push_line(alloc, &mut lines, 7, &row.two, Some(12_345))?;
    push_line(alloc, &mut lines, 1_234, b"undo 7", None)?;
    let legend = is(row, b"heads");
    let mut out = Vec::new(alloc);
    if push_log(&mut out, columns_of(&row.one), legend, &lines).is_err() {
        if !out.is_empty() {
            return Vec::from_slice(alloc, b"a part was left");
        }
        push_log(&mut out, columns_of(&row.one), legend, &lines)?;
    }
    Ok(out)
}

#[test]
fn tables_have_their_columns(rt: HostRuntime) -> Result<(), Fail> {
    assert_rows(rt.alloc(), ROWS, answer)
}
