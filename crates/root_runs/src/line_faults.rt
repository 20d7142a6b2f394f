//! The lines of a script one by one: which are refused and why, and which have a call.
ghost use Rattle.std.specs.Prelude.{◌≡◌, ◌++◌, IfOk, OnOk, OnErr, map};
ghost use Rattle.root_runs.specs.BadLines.{lines_of, line_fault, bad_line, bad_lines_from, bad_lines, call_line, call_lines_from, call_lines, reason_text, quoted, operator_in, place_text, fault_text, shown_part, line_fault_text};
ghost use Rattle.root_runs.specs.BadWords.{hint_of, hint_text};
ghost use Rattle.unit_script.specs.Script.{call_of_line};

use crate::bad_words::{Hint, first_at_fault};
use crate::escapes::push_each_shown;
use byte_streams::ReadError;
use std::alloc::{AllocError, Global};
use unit_script::{MAX_LINE, Reason, call_of_line, words_of};

/// How many bytes of a bad line are shown.
const SHOWN: usize = 200;

/// A line of a script that is refused.
#[derive(Clone, Copy, Debug, PartialEq, Eq)]
pub struct BadLine {
    /// Its number, from 1.
    pub number: usize,
    /// Why it is refused.
    pub reason: Reason,
}

#[tactic(auto, unfolding(crate::specs::BadLines::lines_of))]
fn lines_of<'a>(alloc: Global, script: &'a [u8]) -> Result<Vec<&'a [u8]>, AllocError>
    ensures { IfOk result (λ lines. map (λ line. line.now) lines.items ≡ lines_of script.now) }
{
    script.split(|b| *b == b'\n').collect(alloc)
}

/// Why a line is refused, if it is.
fn line_fault(alloc: Global, line: &[u8]) -> Result<Option<Reason>, AllocError>
    ensures { IfOk result (λ fault. fault ≡ line_fault line.now) }
{
    if line.len() > MAX_LINE {
        return Ok(Some(Reason::LineTooLong));
    }
    match call_of_line(alloc, line) {
        Ok(_) => Ok(None),
        Err(ReadError::Fault(reason)) => Ok(Some(reason)),
        Err(ReadError::ReadFault) => unreachable!(),
        Err(ReadError::OutOfMemory) => Err(AllocError),
    }
}

fn push_if_bad(
    bad: &mut Vec<BadLine>,
    number: usize,
    fault: Option<Reason>,
) -> Result<(), AllocError>
    ensures { OnOk result (bad.new.items ≡ bad.old.items ++ bad_line number fault) }
{
    match fault {
        Some(reason) => Ok(bad.push(BadLine { number, reason })?),
        None => Ok(()),
    }
}

fn push_bad(alloc: Global, bad: &mut Vec<BadLine>, lines: &[&[u8]]) -> Result<(), AllocError>
    ensures { OnOk result (bad.new.items ≡ bad.old.items ++ bad_lines_from 1 (map (λ line. line.now) lines.now)) }
{
    let mut number = 1;
    for line in lines {
        let fault = line_fault(alloc, line)?;
        push_if_bad(bad, number, fault)?;
        number += 1;
    }
    Ok(())
}

/// The bad lines of a script (of what comes after `== calls` in the input of `unitadm`), in order. A
/// line is bad if it has over 65,536 bytes, or its words make no call. It fails only if memory runs
/// out. That a script has too many lines is no fault of a line.
pub fn bad_lines(alloc: Global, script: &[u8]) -> Result<Vec<BadLine>, AllocError>
    ensures { IfOk result (λ bad. bad.items ≡ bad_lines script.now) }
{
    let lines = lines_of(alloc, script)?;
    let mut bad = Vec::new(alloc);
    push_bad(alloc, &mut bad, &lines)?;
    Ok(bad)
}

fn push_if_call(
    alloc: Global,
    numbers: &mut Vec<usize>,
    number: usize,
    line: &[u8],
) -> Result<(), AllocError>
    ensures { OnOk result (numbers.new.items ≡ numbers.old.items ++ call_line number (call_of_line line.now)) }
{
    match call_of_line(alloc, line) {
        Ok(Some(_)) => Ok(numbers.push(number)?),
        Ok(None) => Ok(()),
        Err(ReadError::Fault(_)) => Ok(()),
        Err(ReadError::ReadFault) => unreachable!(),
        Err(ReadError::OutOfMemory) => Err(AllocError),
    }
}

fn push_call_lines(
    alloc: Global,
    numbers: &mut Vec<usize>,
    lines: &[&[u8]],
) -> Result<(), AllocError>
    ensures { OnOk result (numbers.new.items ≡ numbers.old.items ++ call_lines_from 1 (map (λ line. line.now) lines.now)) }
{
    let mut number = 1;
    for line in lines {
        push_if_call(alloc, numbers, number, line)?;
        number += 1;
    }
    Ok(())
}

/// The numbers, from 1, of the lines of a script that have a call, in order. It fails only if memory
/// runs out.
pub fn call_lines(alloc: Global, script: &[u8]) -> Result<Vec<usize>, AllocError>
    ensures { IfOk result (λ numbers. numbers.items ≡ call_lines script.now) }
{
    let lines = lines_of(alloc, script)?;
    let mut numbers = Vec::new(alloc);
    push_call_lines(alloc, &mut numbers, &lines)?;
    Ok(numbers)
}

fn reason_text(reason: Reason) -> &'static str
    ensures { result.now ≡ reason_text reason }
{
    match reason {
        Reason::TooManyLines => "too many lines",
        Reason::LineTooLong => "line too long",
        Reason::BadOperator => "bad operator",
        Reason::UnknownVerb => "unknown verb",
        Reason::WrongArguments => "wrong arguments",
        Reason::BadName => "bad name",
        Reason::BadPath => "bad path",
        Reason::BadTarget => "bad target",
        Reason::BadText => "bad text",
        Reason::BadNumber => "bad number",
    }
}

/// A text between back quotes.
fn push_quoted(out: &mut Vec<u8>, text: &[u8]) -> Result<(), AllocError>
    ensures { OnOk result (out.new.items ≡ out.old.items ++ quoted text.now) }
{
    out.extend_from_slice(b"`")?;
    push_each_shown(out, text)?;
    out.extend_from_slice(b"`")
}

fn operator_in<'a>(words: &[&'a [u8]]) -> &'a [u8]
    ensures { result.now ≡ operator_in (map (λ word. word.now) words.now) }
{
    match words {
        [] => b"",
        [operator, ..] => operator,
    }
}

fn push_hint(
    out: &mut Vec<u8>,
    reason: Reason,
    operator: &[u8],
    word: &[u8],
) -> Result<(), AllocError>
    ensures { OnOk result (out.new.items ≡ out.old.items ++ hint_text (hint_of reason operator.now word.now) operator.now word.now) }
{
    let hint = Hint::of(*out.allocator(), reason, operator, word)?;
    hint.push(out, operator, word)
}

/// The word at fault, if there is one, the line, and what would be right.
fn push_place(
    out: &mut Vec<u8>,
    reason: Reason,
    words: &[&[u8]],
    line: &[u8],
    place: Option<usize>,
) -> Result<(), AllocError>
    ensures { OnOk result (out.new.items ≡ out.old.items ++ place_text reason (map (λ word. word.now) words.now) line.now place) }
{
    match place {
        Some(place) => {
            let word = words.get(place).copied().unwrap_or(b"");
            push_quoted(out, word)?;
            out.extend_from_slice(b" in ")?;
            push_quoted(out, line)?;
            push_hint(out, reason, operator_in(words), word)
        }
        None => push_quoted(out, line),
    }
}

fn push_each_fault(
    out: &mut Vec<u8>,
    reason: Reason,
    words: &[&[u8]],
    line: &[u8],
) -> Result<(), AllocError>
    ensures { OnOk result (out.new.items ≡ out.old.items ++ fault_text reason (map (λ word. word.now) words.now) line.now) }
{
    out.extend_from_slice(reason_text(reason).as_bytes())?;
    out.extend_from_slice(b": ")?;
    let place = first_at_fault(*out.allocator(), words, reason)?;
    push_place(out, reason, words, line, place)
}

/// Appends why the words of a call are refused, of which the operator is the first: the reason, the
/// word at fault and the line that the words are of, both between back quotes and with control bytes
/// as `\xNN`, and what would be right, if that is known:
/// ``bad name: `ssh` in `anna mask ssh`: names have a suffix, ssh.service?``. If memory runs out,
/// nothing has been appended.
pub fn push_fault(
    out: &mut Vec<u8>,
    reason: Reason,
    words: &[&[u8]],
    line: &[u8],
) -> Result<(), AllocError>
    ensures ok { OnOk result (out.new.items ≡ out.old.items ++ fault_text reason (map (λ word. word.now) words.now) line.now) }
    ensures err { OnErr result (out.new.items ≡ out.old.items) }
{
    let mut text = Vec::new(*out.allocator());
    push_each_fault(&mut text, reason, words, line)?;
    out.extend_from_slice(&text)
}

/// As much of a line as is shown.
fn shown_part(line: &[u8]) -> &[u8]
    ensures { result.now ≡ shown_part line.now }
{
    if SHOWN < line.len() {
        &line[..SHOWN]
    } else {
        line
    }
}

/// Appends why a line of a script is refused: what `push_fault` appends for its words, with the line
/// cut after 200 bytes. If memory runs out, nothing has been appended.
pub fn push_line_fault(out: &mut Vec<u8>, reason: Reason, line: &[u8]) -> Result<(), AllocError>
    ensures ok { OnOk result (out.new.items ≡ out.old.items ++ line_fault_text reason line.now) }
    ensures err { OnErr result (out.new.items ≡ out.old.items) }
{
    let words = words_of(*out.allocator(), line)?;
    push_fault(out, reason, &words, shown_part(line))
}
