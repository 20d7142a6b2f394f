//! The table of unit files: systemctl(1), `list-unit-files`.
ghost use Rattle.std.specs.Prelude.{◌≡◌, ◌++◌, OnOk, OnErr, max, length};
ghost use Rattle.std.specs.List.{flat_map};
ghost use Rattle.unit_lists.specs.Tables.{name_width, state_width, least_widths, widths_of, padded, preset_column, row, head, foot, table};

use crate::unit_line::{PresetWord, UnitLine, listed_state_text};
use link_tree::push_decimal;
use std::alloc::AllocError;

/// How wide the columns are but for the last, which is as wide as its texts.
#[derive(Clone, Copy)]
struct Widths {
    name: usize,
    state: usize,
}

/// At least those of the heads, if there are any.
fn least_widths(legend: bool) -> Widths
    ensures { result ≡ least_widths legend }
{
    if legend {
        Widths { name: 9, state: 5 }
    } else {
        Widths { name: 0, state: 0 }
    }
}

/// A width, or the length of a text, if that is more.
fn wider(width: usize, text: &[u8]) -> usize
    ensures { result ≡ max width (length text.now) }
{
    if width < text.len() {
        text.len()
    } else {
        width
    }
}

fn name_width(least: usize, lines: &[UnitLine]) -> usize
    ensures { result ≡ name_width least lines.now }
{
    lines
        .iter()
        .fold(least, |width, line| wider(width, line.name.text()))
}

fn state_width(least: usize, lines: &[UnitLine]) -> usize
    ensures { result ≡ state_width least lines.now }
{
    lines.iter().fold(least, |width, line| {
        wider(width, listed_state_text(line.state).as_bytes())
    })
}

fn widths_of(lines: &[UnitLine], legend: bool) -> Widths
    ensures { result ≡ widths_of lines.now legend }
{
    let least = least_widths(legend);
    Widths {
        name: name_width(least.name, lines),
        state: state_width(least.state, lines),
    }
}

/// Appends a text, spaces up to a width, and one more.
fn push_padded(out: &mut Vec<u8>, text: &[u8], width: usize) -> Result<(), AllocError>
    ensures { OnOk result (out.new.items ≡ out.old.items ++ padded width text.now) }
{
    let alloc = *out.allocator();
    let blanks = vec![in alloc; b' '; width.saturating_sub(text.len())]?;
    out.extend_from_slice(text)?;
    out.extend_from_slice(&blanks)?;
    out.extend_from_slice(b" ")
}

fn preset_column(preset: Option<PresetWord>) -> &'static str
    ensures { result.now ≡ preset_column preset }
{
    match preset {
        Some(word) => word.text(),
        None => "-",
    }
}

fn push_row(out: &mut Vec<u8>, widths: Widths, line: &UnitLine) -> Result<(), AllocError>
    ensures { OnOk result (out.new.items ≡ out.old.items ++ row widths line.now) }
{
    push_padded(out, line.name.text(), widths.name)?;
    push_padded(out, listed_state_text(line.state).as_bytes(), widths.state)?;
    out.extend_from_slice(preset_column(line.preset).as_bytes())?;
    out.extend_from_slice(b"\n")
}

fn push_rows(out: &mut Vec<u8>, widths: Widths, lines: &[UnitLine]) -> Result<(), AllocError>
    ensures { OnOk result (out.new.items ≡ out.old.items ++ flat_map (row widths) lines.now) }
{
    for line in lines {
        push_row(out, widths, line)?;
    }
    Ok(())
}

fn push_head(out: &mut Vec<u8>, widths: Widths) -> Result<(), AllocError>
    ensures { OnOk result (out.new.items ≡ out.old.items ++ head widths) }
{
    push_padded(out, b"UNIT FILE", widths.name)?;
    push_padded(out, b"STATE", widths.state)?;
    out.extend_from_slice(b"PRESET\n")
}

fn push_foot(out: &mut Vec<u8>, count: usize) -> Result<(), AllocError>
    ensures { OnOk result (out.new.items ≡ out.old.items ++ foot count) }
{
    out.extend_from_slice(b"\n")?;
    push_decimal(out, count)?;
    out.extend_from_slice(b" unit files listed.\n")
}

fn push_all(out: &mut Vec<u8>, lines: &[UnitLine], legend: bool) -> Result<(), AllocError>
    ensures { OnOk result (out.new.items ≡ out.old.items ++ table lines.now legend) }
{
    let widths = widths_of(lines, legend);
    if legend {
        push_head(out, widths)?;
        push_rows(out, widths, lines)?;
        return push_foot(out, lines.len());
    }
    push_rows(out, widths, lines)
}

/// Appends the table of the lines as systemctl(1), `list-unit-files`, prints it: a row for each,
/// with the name, the state and what the preset files say (`-` if that isn't shown). The first two
/// columns are as wide as their longest text, and one space is between two columns. With the legend
/// there is a row of heads first, and an empty line and the number of unit files last. If memory
/// runs out, nothing has been appended.
pub fn push_table(out: &mut Vec<u8>, lines: &[UnitLine], legend: bool) -> Result<(), AllocError>
    ensures ok { OnOk result (out.new.items ≡ out.old.items ++ table lines.now legend) }
    ensures err { OnErr result (out.new.items ≡ out.old.items) }
{
    let mut text = Vec::new(*out.allocator());
    push_all(&mut text, lines, legend)?;
    out.extend_from_slice(&text)
}
