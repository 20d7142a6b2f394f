//! What the program prints.

use crate::bad_words::BadWords;
use crate::failure::Failure;
use crate::passing_over::Warnings;
use root_json::{ErrorPlace, push_error};
use root_runs::{Word, push_shown};
use std::alloc::{AllocError, Global};
use std::io;
use std::io::Write;

/// What a run has done to the root when it prints.
#[derive(Clone, Copy, Debug, PartialEq, Eq)]
pub enum Done {
    Nothing,
    Changes,
}

/// Writes a text to standard output.
pub fn print(rt: &HostRuntime, text: &[u8], done: Done) -> Result<(), Failure> {
    match (io::writer(rt).write_all(text), done) {
        (Ok(()), _) => Ok(()),
        (Err(_), Done::Nothing) => Err(Failure::Output),
        (Err(_), Done::Changes) => Err(Failure::OutputAfter),
    }
}

/// Writes messages to standard error. The status says how the run ended, also if nothing can be
/// written there.
pub fn print_messages(rt: &HostRuntime, text: &[u8]) {
    let _written = rt.stderr().write_all(text);
}

/// The lines of a text, with each byte escaped that a terminal could take for an order.
pub fn shown_lines(alloc: Global, text: &[u8]) -> Result<Vec<u8>, AllocError> {
    let mut out = Vec::new(alloc);
    for line in text.split_inclusive(|b| *b == b'\n') {
        match line.split_last() {
            Some((b'\n', line)) => {
                push_shown(&mut out, line)?;
                out.push(b'\n')?;
            }
            _ => push_shown(&mut out, line)?,
        }
    }
    Ok(out)
}

/// Appends words that are refused: a line, or an object with their place.
fn push_bad_words(
    alloc: Global,
    out: &mut Vec<u8>,
    bad: &BadWords,
    status: u8,
    json: bool,
) -> Result<(), AllocError> {
    if json {
        let place = ErrorPlace {
            status,
            line: bad.line,
            word: bad.word.as_ref().map(Word::bytes),
        };
        return push_error(out, &bad.text, &place);
    }
    out.extend_from_slice(b"unitroot: ")?;
    if let Some(number) = bad.line {
        let head = format!(in alloc; "line {number}: ")?;
        out.extend_from_slice(head.as_str().as_bytes())?;
    }
    out.extend_from_slice(&bad.text)?;
    Ok(out.push(b'\n')?)
}

/// Appends a message about the whole run: a line, or an object with a status. Each byte of it is
/// escaped that a terminal could take for an order, and line feeds too.
pub fn push_message(
    alloc: Global,
    out: &mut Vec<u8>,
    text: &[u8],
    status: u8,
    json: bool,
) -> Result<(), AllocError> {
    let mut shown = Vec::new(alloc);
    push_shown(&mut shown, text)?;
    if json {
        let place = ErrorPlace {
            status,
            line: None,
            word: None,
        };
        return push_error(out, &shown, &place);
    }
    out.extend_from_slice(b"unitroot: ")?;
    out.extend_from_slice(&shown)?;
    Ok(out.push(b'\n')?)
}

/// Appends what any other failure is.
fn push_failure(
    alloc: Global,
    out: &mut Vec<u8>,
    failure: &Failure,
    json: bool,
) -> Result<(), AllocError> {
    let text = format!(in alloc; "{failure}")?;
    push_message(alloc, out, text.as_str().as_bytes(), failure.status(), json)
}

/// Writes to standard error which entries are passed over.
pub fn print_passed_over(
    rt: &HostRuntime,
    warnings: &Warnings,
    json: bool,
) -> Result<(), AllocError> {
    let mut text = Vec::new(rt.alloc());
    for warning in warnings {
        let line = format!(in rt.alloc(); "{warning}: passed over")?;
        push_message(rt.alloc(), &mut text, line.as_str().as_bytes(), 0, json)?;
    }
    print_messages(rt, &text);
    Ok(())
}

fn failure_text(alloc: Global, failure: &Failure, json: bool) -> Result<Vec<u8>, AllocError> {
    let mut out = Vec::new(alloc);
    let status = failure.status();
    match failure {
        Failure::BadWords(bad) => push_bad_words(alloc, &mut out, bad, status, json)?,
        Failure::BadLines(lines) => {
            for bad in lines {
                push_bad_words(alloc, &mut out, bad, status, json)?;
            }
        }
        _ => push_failure(alloc, &mut out, failure, json)?,
    }
    Ok(out)
}

/// Writes to standard error why the program failed.
pub fn print_failure(rt: &HostRuntime, failure: &Failure, json: bool) {
    match failure_text(rt.alloc(), failure, json) {
        Ok(text) => print_messages(rt, &text),
        Err(AllocError) => print_messages(rt, b"unitroot: out of memory\n"),
    }
}
