//! The lines of calls in the text of a history.
ghost use Rattle.std.specs.Prelude.{◌≡◌, map, drop, IfOk};
ghost use Rattle.std.specs.List.{filter, list_any, slice_split};
ghost use Rattle.kept_texts.specs.Readings.{is_line_end, is_no_space, is_call};
ghost use Rattle.kept_log.specs.Lines.{call_lines};

use std::alloc::{AllocError, Global};

fn has_word(line: &[u8]) -> bool
    ensures { result ≡ list_any is_no_space line.now }
{
    line.iter().any(|b| *b != b' ')
}

/// Whether a line is that of a call.
fn is_call(line: &[u8]) -> bool
    ensures { result ≡ is_call line.now }
{
    !line.starts_with(b"#") && has_word(line)
}

fn split_lines<'a>(alloc: Global, text: &'a [u8]) -> Result<Vec<&'a [u8]>, AllocError>
    ensures { IfOk result (λ lines. map (λ line. line.now) lines.items ≡ slice_split is_line_end text.now) }
{
    text.split(|b| *b == b'\n').collect(alloc)
}

/// The lines after the first N.
#[tactic(auto, using(std::proofs::lemmas::List::drop_all))]
fn lines_after<'a, 'l>(lines: &'l [&'a [u8]], count: usize) -> &'l [&'a [u8]]
    ensures { result.now ≡ drop count lines.now }
{
    if count >= lines.len() {
        return &[];
    }
    &lines[count..]
}

/// Those of the lines that are calls.
fn calls_in<'a>(alloc: Global, lines: &[&'a [u8]]) -> Result<Vec<&'a [u8]>, AllocError>
    ensures { IfOk result (λ calls. map (λ line. line.now) calls.items ≡ filter is_call (map (λ line. line.now) lines.now)) }
{
    let mut calls = Vec::new(alloc);
    for line in lines {
        if is_call(line) {
            calls.push(*line)?;
        }
    }
    Ok(calls)
}

/// The lines of calls in the text of a history, from the line of this number on, which is that of
/// its first run. Lines count from 1. The first of them is the call of row 1. Fails only if memory
/// runs out.
pub fn call_lines<'a>(
    alloc: Global,
    text: &'a [u8],
    first: usize,
) -> Result<Vec<&'a [u8]>, AllocError>
    ensures { IfOk result (λ lines. map (λ line. line.now) lines.items ≡ call_lines text.now first) }
{
    let lines = split_lines(alloc, text)?;
    let after = lines_after(&lines, first.saturating_sub(1));
    calls_in(alloc, after)
}
