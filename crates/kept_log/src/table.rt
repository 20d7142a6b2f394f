//! The table of a log.
ghost use Rattle.std.specs.Prelude.{◌≡◌, ◌++◌, max, IfOk, OnOk, OnErr};
ghost use Rattle.std.specs.Fmt.{decimal};
ghost use Rattle.std.specs.List.{flat_map};
ghost use Rattle.kept_log.specs.Tables.{begins_char, width, front, cut, blanks, left, right, number_width, time_width, operator_width, call_width, room, fitted, widths_of, undone_text, line_text, last_heads, heads_text, head_text, legend_text, table};

use history::Operator;
use link_tree::push_decimal;
use std::alloc::{AllocError, Global};

/// A row of the table.
#[derive(Debug, Drop)]
pub struct LogLine {
    /// The number of the row.
    pub number: u32,
    /// The time of its run, as it is shown.
    pub time: Vec<u8>,
    pub operator: Operator,
    /// The words of its call, as they are shown.
    pub call: Vec<u8>,
    /// How many changes it made.
    pub changes: usize,
    pub undone_by: Option<u32>,
}

/// How wide the first columns are.
#[derive(Clone, Copy)]
struct Widths {
    number: usize,
    time: usize,
    operator: usize,
    call: usize,
}

/// Whether a byte of UTF-8 begins a character.
fn begins_char(b: u8) -> bool
    ensures { result ≡ begins_char b }
{
    b < 128 || b >= 192
}

/// How many characters a text has.
fn width(text: &[u8]) -> usize
    ensures { result ≡ width text.now }
{
    text.iter().filter(|b| begins_char(**b)).count()
}

/// A width, or that of a text, if that is more.
fn wider(wide: usize, text: &[u8]) -> usize
    ensures { result ≡ max wide (width text.now) }
{
    let other = width(text);
    if wide < other { other } else { wide }
}

fn decimal_of(alloc: Global, number: usize) -> Result<Vec<u8>, AllocError>
    ensures { IfOk result (λ text. text.items ≡ decimal number) }
{
    let mut text = Vec::new(alloc);
    push_decimal(&mut text, number)?;
    Ok(text)
}

/// A width, or that of a number, if that is more.
fn wider_number(alloc: Global, wide: usize, number: u32) -> Result<usize, AllocError>
    ensures { IfOk result (λ other. other ≡ max wide (width (decimal number))) }
{
    let text = decimal_of(alloc, number as usize)?;
    Ok(wider(wide, &text))
}

fn number_width(alloc: Global, least: usize, lines: &[LogLine]) -> Result<usize, AllocError>
    ensures { IfOk result (λ wide. wide ≡ number_width least lines.now) }
{
    let mut wide = least;
    for line in lines {
        wide = wider_number(alloc, wide, line.number)?;
    }
    Ok(wide)
}

fn time_width(least: usize, lines: &[LogLine]) -> usize
    ensures { result ≡ time_width least lines.now }
{
    lines
        .iter()
        .fold(least, |wide, line| wider(wide, &line.time))
}

fn operator_width(least: usize, lines: &[LogLine]) -> usize
    ensures { result ≡ operator_width least lines.now }
{
    lines
        .iter()
        .fold(least, |wide, line| wider(wide, line.operator.text()))
}

fn call_width(least: usize, lines: &[LogLine]) -> usize
    ensures { result ≡ call_width least lines.now }
{
    lines
        .iter()
        .fold(least, |wide, line| wider(wide, &line.call))
}

/// What a table of N columns leaves for calls, but at least 12.
fn room(columns: usize, number: usize, time: usize, operator: usize) -> usize
    ensures { result ≡ room columns number time operator }
{
    let left = columns.saturating_sub(number).saturating_sub(time);
    let left = left.saturating_sub(operator).saturating_sub(21);
    if left < 12 { 12 } else { left }
}

/// The width of calls: that of the widest, or what is left for them, if that is less.
fn fitted(columns: Option<usize>, number: usize, time: usize, operator: usize, call: usize) -> usize
    ensures { result ≡ fitted columns number time operator call }
{
    match columns {
        Some(columns) => {
            let left = room(columns, number, time, operator);
            if call <= left { call } else { left }
        }
        None => call,
    }
}

/// Columns are at least as wide as their heads.
fn widths_of(alloc: Global, columns: Option<usize>, lines: &[LogLine]) -> Result<Widths, AllocError>
    ensures { IfOk result (λ widths. widths ≡ widths_of columns lines.now) }
{
    let number = number_width(alloc, 3, lines)?;
    let time = time_width(4, lines);
    let operator = operator_width(8, lines);
    let call = call_width(4, lines);
    Ok(Widths {
        number,
        time,
        operator,
        call: fitted(columns, number, time, operator, call),
    })
}

fn push_blanks(out: &mut Vec<u8>, count: usize) -> Result<(), AllocError>
    ensures { OnOk result (out.new.items ≡ out.old.items ++ blanks count) }
{
    let alloc = *out.allocator();
    let blanks = vec![in alloc; b' '; count]?;
    out.extend_from_slice(&blanks)
}

/// Appends a text at the left of its column, and a blank.
fn push_left(out: &mut Vec<u8>, wide: usize, text: &[u8]) -> Result<(), AllocError>
    ensures { OnOk result (out.new.items ≡ out.old.items ++ left wide text.now) }
{
    out.extend_from_slice(text)?;
    push_blanks(out, wide.saturating_sub(width(text)))?;
    out.extend_from_slice(b" ")
}

/// Appends a text at the right of its column.
fn push_right(out: &mut Vec<u8>, wide: usize, text: &[u8]) -> Result<(), AllocError>
    ensures { OnOk result (out.new.items ≡ out.old.items ++ right wide text.now) }
{
    push_blanks(out, wide.saturating_sub(width(text)))?;
    out.extend_from_slice(text)
}

fn push_number(out: &mut Vec<u8>, wide: usize, number: usize) -> Result<(), AllocError>
    ensures { OnOk result (out.new.items ≡ out.old.items ++ right wide (decimal number)) }
{
    let text = decimal_of(*out.allocator(), number)?;
    push_right(out, wide, &text)
}

/// Appends the first characters of a text, at most this many.
fn push_front(out: &mut Vec<u8>, count: usize, text: &[u8]) -> Result<(), AllocError>
    ensures { OnOk result (out.new.items ≡ out.old.items ++ front count text.now) }
{
    let mut left = count;
    for b in text {
        if begins_char(*b) {
            if left == 0 {
                return Ok(());
            }
            left -= 1;
        }
        out.push(*b)?;
    }
    Ok(())
}

/// A text of at most this width: one that is wider is cut, and ends in `...`.
fn cut(alloc: Global, wide: usize, text: &[u8]) -> Result<Vec<u8>, AllocError>
    ensures { IfOk result (λ short. short.items ≡ cut wide text.now) }
{
    if width(text) <= wide {
        return Vec::from_slice(alloc, text);
    }
    let mut short = Vec::new(alloc);
    push_front(&mut short, wide.saturating_sub(3), text)?;
    short.extend_from_slice(b"...")?;
    Ok(short)
}

fn push_call(out: &mut Vec<u8>, wide: usize, call: &[u8]) -> Result<(), AllocError>
    ensures { OnOk result (out.new.items ≡ out.old.items ++ left wide (cut wide call.now)) }
{
    let short = cut(*out.allocator(), wide, call)?;
    push_left(out, wide, &short)
}

fn push_undone(out: &mut Vec<u8>, undone_by: Option<u32>) -> Result<(), AllocError>
    ensures { OnOk result (out.new.items ≡ out.old.items ++ undone_text undone_by) }
{
    match undone_by {
        Some(by) => {
            out.extend_from_slice(b" ")?;
            push_number(out, 9, by as usize)
        }
        None => Ok(()),
    }
}

fn push_line(out: &mut Vec<u8>, widths: Widths, line: &LogLine) -> Result<(), AllocError>
    ensures { OnOk result (out.new.items ≡ out.old.items ++ line_text widths line.now) }
{
    push_number(out, widths.number, line.number as usize)?;
    out.extend_from_slice(b" ")?;
    push_left(out, widths.time, &line.time)?;
    push_left(out, widths.operator, line.operator.text())?;
    push_call(out, widths.call, &line.call)?;
    push_number(out, 7, line.changes)?;
    push_undone(out, line.undone_by)?;
    out.extend_from_slice(b"\n")
}

fn push_lines(out: &mut Vec<u8>, widths: Widths, lines: &[LogLine]) -> Result<(), AllocError>
    ensures { OnOk result (out.new.items ≡ out.old.items ++ flat_map (line_text widths) lines.now) }
{
    for line in lines {
        push_line(out, widths, line)?;
    }
    Ok(())
}

fn last_heads() -> &'static str
    ensures { result.now ≡ last_heads }
{
    "CHANGES UNDONE BY\n"
}

/// Appends these heads.
fn push_heads(
    out: &mut Vec<u8>,
    widths: Widths,
    number: &[u8],
    time: &[u8],
    operator: &[u8],
    call: &[u8],
) -> Result<(), AllocError>
    ensures { OnOk result (out.new.items ≡ out.old.items ++ heads_text widths number.now time.now operator.now call.now) }
{
    push_right(out, widths.number, number)?;
    out.extend_from_slice(b" ")?;
    push_left(out, widths.time, time)?;
    push_left(out, widths.operator, operator)?;
    push_left(out, widths.call, call)?;
    out.extend_from_slice(last_heads().as_bytes())
}

fn push_head(out: &mut Vec<u8>, widths: Widths) -> Result<(), AllocError>
    ensures { OnOk result (out.new.items ≡ out.old.items ++ head_text widths) }
{
    push_heads(out, widths, b"ROW", b"TIME", b"OPERATOR", b"CALL")
}

fn push_legend(out: &mut Vec<u8>, legend: bool, widths: Widths) -> Result<(), AllocError>
    ensures { OnOk result (out.new.items ≡ out.old.items ++ legend_text legend widths) }
{
    if legend {
        push_head(out, widths)
    } else {
        Ok(())
    }
}

fn push_all(
    out: &mut Vec<u8>,
    columns: Option<usize>,
    legend: bool,
    lines: &[LogLine],
) -> Result<(), AllocError>
    ensures { OnOk result (out.new.items ≡ out.old.items ++ table columns legend lines.now) }
{
    let widths = widths_of(*out.allocator(), columns, lines)?;
    push_legend(out, legend, widths)?;
    push_lines(out, widths, lines)
}

/// Appends the table of a log: a line for each row, with its number, the time, the operator, the
/// call, how many changes it made, and the row that undid it, if it is undone. One blank is between
/// two columns. If the columns of the terminal are given, a call that doesn't fit is cut and ends in
/// `...`; at least 12 columns are left for calls. With the legend, there is a line of heads first. If
/// memory runs out, nothing has been appended.
pub fn push_log(
    out: &mut Vec<u8>,
    columns: Option<usize>,
    legend: bool,
    lines: &[LogLine],
) -> Result<(), AllocError>
    ensures ok { OnOk result (out.new.items ≡ out.old.items ++ table columns legend lines.now) }
    ensures err { OnErr result (out.new.items ≡ out.old.items) }
{
    let mut text = Vec::new(*out.allocator());
    push_all(&mut text, columns, legend, lines)?;
    out.extend_from_slice(&text)
}
