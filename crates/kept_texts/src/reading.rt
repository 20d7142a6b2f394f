//! Reading the text of a history, line by line.
ghost use Rattle.std.specs.Prelude.{◌≡◌, ◌≤◌, ◌<◌, ◌+◌, ◌^◌, length, map as list_map, IfOk};
ghost use Rattle.std.specs.List.{slice_split};
ghost use Rattle.std.specs.Option.{option_map};
ghost use Rattle.kept_texts.specs.Readings.{is_line_end, count_lines, error_at, begin_run, close_run, end_run, add_call, read_line, read_lines, header_words, read_header, lines_of, read_all_lines, read_split, read_counted, read_rest, read_text, ReadsLine, ReadsText, IsCounted};

use crate::faults::{LineError, LineFault, TextError};
use crate::inventories::front_of;
use crate::line_words::{EndLine, HeaderLine, after_key, end_said, header_said, run_said};
use crate::lines::push_header;
use crate::runs::{Run, RunList, RunText, Runs};
use crate::sums::{is_same, sum_of_both};
use crate::words::{Header, RunWords};
use std::alloc::{AllocError, Global};

/// The most lines after `== calls`.
pub const MAX_LINES: usize = 2_000_000;

/// More bytes than fit in memory, yet few enough that lines can be counted.
pub(crate) const MOST_BYTES: usize = 0x4000_0000_0000_0000;

/// A run of which not all lines have been read.
#[derive(Debug, Drop)]
pub(crate) struct OpenRun {
    words: RunWords,
    line: usize,
    text: RunText,
}

/// The runs that have been read, and one that has begun, if one has.
#[derive(Debug, Drop)]
pub(crate) struct Reading {
    runs: Runs,
    begun: Option<OpenRun>,
}

/// What a text says apart from its bytes.
#[derive(Debug, Drop)]
pub(crate) struct Parts {
    pub(crate) header: Header,
    pub(crate) runs: Runs,
    /// How many lines there are up to `== calls`.
    pub(crate) before: usize,
    /// How many lines there are after it.
    pub(crate) lines: usize,
}

pub(crate) fn count_lines(bytes: &[u8]) -> usize
    ensures count { result ≡ count_lines bytes.now }
    ensures within { result ≤ length bytes.now }
{
    bytes.iter().filter(|b| **b == b'\n').count()
}

fn begin_run(
    alloc: Global,
    reading: &mut Reading,
    number: usize,
    line: &[u8],
) -> Result<(), LineError>
    ensures { ReadsLine (λ _. reading.new) result (begin_run reading.old number line.now) }
{
    if reading.begun.is_some() {
        return Err(LineError::Fault(LineFault::NoEnd));
    }
    let Some(words) = run_said(alloc, line)? else {
        return Err(LineError::Fault(LineFault::BadRun));
    };
    let text = RunText::begin(alloc, &words)?;
    reading.begun = Some(OpenRun {
        words,
        line: number,
        text,
    });
    Ok(())
}

fn close_run(runs: &mut Runs, begun: OpenRun, end: EndLine) -> Result<(), LineError>
    ensures { ReadsLine (λ _. runs.new) result (close_run runs.old begun end) }
{
    let OpenRun {
        words,
        line,
        mut text,
    } = begun;
    text.push_end(&end.tree)?;
    if !is_same(&runs.next_sum(&text), &end.sum) {
        return Err(LineError::Fault(LineFault::SumDiffers));
    }
    let run = Run {
        words,
        line,
        calls: text.count_calls(),
        tree: end.tree,
        text,
    };
    Ok(runs.push(run, end.sum)?)
}

fn end_run(alloc: Global, reading: &mut Reading, line: &[u8]) -> Result<(), LineError>
    ensures { ReadsLine (λ _. reading.new) result (end_run reading.old line.now) }
{
    let Some(begun) = reading.begun.take() else {
        return Err(LineError::Fault(LineFault::OutsideOfRun));
    };
    match end_said(alloc, line)? {
        Some(end) => close_run(&mut reading.runs, begun, end),
        None => Err(LineError::Fault(LineFault::BadEnd)),
    }
}

fn add_call(reading: &mut Reading, line: &[u8]) -> Result<(), LineError>
    ensures { ReadsLine (λ _. reading.new) result (add_call reading.old line.now) }
{
    match &mut reading.begun {
        Some(begun) => Ok(begun.text.push_line(line)?),
        None => Err(LineError::Fault(LineFault::OutsideOfRun)),
    }
}

/// Reads the line of this number, which comes after the header.
#[tactic(auto, unfolding(crate::specs::Readings::read_line))]
fn read_line(
    alloc: Global,
    reading: &mut Reading,
    number: usize,
    line: &[u8],
) -> Result<(), LineError>
    ensures { ReadsLine (λ _. reading.new) result (read_line reading.old number line.now) }
{
    if line.starts_with(b"# run ") {
        begin_run(alloc, reading, number, line)
    } else if line.starts_with(b"# end ") {
        end_run(alloc, reading, line)
    } else if line.starts_with(b"#") {
        Err(LineError::Fault(LineFault::BadComment))
    } else {
        add_call(reading, line)
    }
}

fn at_line(number: usize, error: LineError) -> TextError
    ensures { result ≡ error_at number error }
{
    match error {
        LineError::Fault(fault) => TextError::Fault(number, fault),
        LineError::OutOfMemory => TextError::OutOfMemory,
    }
}

/// Reads the lines from this number on.
fn read_lines(
    alloc: Global,
    reading: &mut Reading,
    first: usize,
    lines: &[&[u8]],
) -> Result<(), TextError>
    requires { first + length lines.now < 2 ^ 64 }
    ensures { ReadsText (λ _. reading.new.runs) result (read_lines reading.old first (list_map (λ line. line.now) lines.now)) }
{
    let mut number = first;
    for line in lines {
        match read_line(alloc, reading, number, line) {
            Ok(()) => {}
            Err(error) => return Err(at_line(number, error)),
        }
        number += 1;
    }
    if reading.begun.is_some() {
        return Err(TextError::Fault(number, LineFault::CutShort));
    }
    Ok(())
}

/// The words of the header line, if it has its format.
fn header_words(alloc: Global, line: &[u8]) -> Result<HeaderLine, LineError>
    ensures { ReadsLine (λ words. words) result (header_words line.now) }
{
    if !line.starts_with(b"# unitroot-history ") {
        return Err(LineError::Fault(LineFault::NoHeader));
    }
    if !line.starts_with(b"# unitroot-history 1 ") {
        return Err(LineError::Fault(LineFault::OtherFormat));
    }
    match header_said(alloc, line)? {
        Some(words) => Ok(words),
        None => Err(LineError::Fault(LineFault::BadHeader)),
    }
}

/// Reads the header, of which the sum is also that of the lines before it.
#[tactic(auto, unfolding(crate::specs::Readings::read_header))]
fn read_header(alloc: Global, front: &[u8], line: &[u8]) -> Result<HeaderLine, LineError>
    ensures { ReadsLine (λ words. words) result (read_header front.now line.now) }
{
    let words = header_words(alloc, line)?;
    let mut written = Vec::new(alloc);
    push_header(&mut written, &words.header)?;
    if is_same(&sum_of_both(front, &written), &words.sum) {
        Ok(words)
    } else {
        Err(LineError::Fault(LineFault::SumDiffers))
    }
}

fn split_lines<'a>(alloc: Global, text: &'a [u8]) -> Result<Vec<&'a [u8]>, AllocError>
    ensures { IfOk result (λ lines. list_map (λ line. line.now) lines.items ≡ slice_split is_line_end text.now) }
{
    text.split(|b| *b == b'\n').collect(alloc)
}

/// The lines of a text without their ends, if the last one has its end.
#[tactic(auto, unfolding(crate::specs::Readings::lines_of))]
fn lines_of<'a>(alloc: Global, text: &'a [u8]) -> Result<Option<Vec<&'a [u8]>>, AllocError>
    ensures { IfOk result (λ lines. option_map (λ lines. list_map (λ line. line.now) lines.items) lines ≡ lines_of text.now) }
{
    if text.ends_with(b"\n") {
        Ok(Some(split_lines(alloc, &text[..text.len() - 1])?))
    } else {
        Ok(None)
    }
}

/// Reads the header and the lines after it.
#[tactic(auto, using(crate::proofs::LineReadings::failed, crate::proofs::LineReadings::fails_first))]
fn read_all_lines(
    alloc: Global,
    front: &[u8],
    header: &[u8],
    lines: &[&[u8]],
) -> Result<Parts, TextError>
    requires front { length front.now ≤ 2 ^ 62 }
    requires lines { length lines.now < 2000000 }
    ensures parts { ReadsText (λ parts. parts) result (read_all_lines front.now header.now (list_map (λ line. line.now) lines.now)) }
    ensures counted { IfOk result IsCounted }
{
    let before = count_lines(front);
    let words = match read_header(alloc, front, header) {
        Ok(words) => words,
        Err(error) => return Err(at_line(before + 1, error)),
    };
    let mut reading = Reading {
        runs: Runs {
            all: RunList::none(alloc),
            sum: words.sum,
        },
        begun: None,
    };
    read_lines(alloc, &mut reading, before + 2, lines)?;
    Ok(Parts {
        header: words.header,
        runs: reading.runs,
        before,
        lines: lines.len() + 1,
    })
}

fn read_split(alloc: Global, front: &[u8], lines: &[&[u8]]) -> Result<Parts, TextError>
    requires front { length front.now ≤ 2 ^ 62 }
    requires lines { length lines.now ≤ 2000000 }
    ensures parts { ReadsText (λ parts. parts) result (read_split front.now (list_map (λ line. line.now) lines.now)) }
    ensures counted { IfOk result IsCounted }
{
    match lines {
        [] => Err(TextError::Fault(count_lines(front) + 1, LineFault::CutShort)),
        [header, lines @ ..] => read_all_lines(alloc, front, header, lines),
    }
}

fn read_counted(alloc: Global, front: &[u8], lines: &[&[u8]]) -> Result<Parts, TextError>
    requires { length front.now ≤ 2 ^ 62 }
    ensures parts { ReadsText (λ parts. parts) result (read_counted front.now (list_map (λ line. line.now) lines.now)) }
    ensures counted { IfOk result IsCounted }
{
    if lines.len() > MAX_LINES {
        let number = count_lines(front) + MAX_LINES + 1;
        return Err(TextError::Fault(number, LineFault::TooManyLines));
    }
    read_split(alloc, front, lines)
}

/// Reads what comes after the line `== calls`.
#[tactic(auto, unfolding(crate::specs::Readings::read_rest))]
fn read_rest(alloc: Global, front: &[u8], rest: &[u8]) -> Result<Parts, TextError>
    requires front { length front.now ≤ 2 ^ 62 }
    requires rest { length rest.now ≤ 2 ^ 62 }
    ensures parts { ReadsText (λ parts. parts) result (read_rest front.now rest.now) }
    ensures counted { IfOk result IsCounted }
{
    match lines_of(alloc, rest)? {
        Some(lines) => read_counted(alloc, front, &lines),
        None => {
            let number = count_lines(front) + count_lines(rest) + 1;
            Err(TextError::Fault(number, LineFault::CutShort))
        }
    }
}

/// Reads a whole text.
#[tactic(auto, unfolding(crate::specs::Readings::read_text))]
pub(crate) fn read_text(alloc: Global, bytes: &[u8]) -> Result<Parts, TextError>
    ensures parts { ReadsText (λ parts. parts) result (read_text bytes.now) }
    ensures counted { IfOk result IsCounted }
{
    if bytes.len() > MOST_BYTES {
        return Err(TextError::OutOfMemory);
    }
    let Some(front) = front_of(alloc, bytes)? else {
        return Err(TextError::Fault(1, LineFault::BadBeginning));
    };
    match after_key(&front, bytes) {
        Some(rest) => read_rest(alloc, &front, rest),
        None => Err(TextError::Fault(1, LineFault::BadBeginning)),
    }
}
