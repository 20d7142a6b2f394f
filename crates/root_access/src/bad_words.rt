//! Words and lines that are no calls, as they are reported.

use root_runs::{
    CallFault, CallWords, Word, bad_lines, bad_word_at, push_fault, push_line_fault, push_shown,
};
use std::alloc::{AllocError, Global};
use unit_script::{Reason, ScriptFault, words_of};

/// Words that are refused.
#[derive(Debug, Drop)]
pub struct BadWords {
    /// The number of their line, if they are of a script.
    pub line: Option<u32>,
    /// The word at fault, if it is known.
    pub word: Option<Word>,
    /// Why, as it is shown.
    pub text: Vec<u8>,
}

/// A word that is refused for this reason.
pub fn refused_word(
    alloc: Global,
    line: Option<u32>,
    reason: &str,
    word: &[u8],
) -> Result<BadWords, AllocError> {
    let mut text = Vec::from_slice(alloc, reason.as_bytes())?;
    text.extend_from_slice(b": `")?;
    push_shown(&mut text, word)?;
    text.push(b'`')?;
    Ok(BadWords {
        line,
        word: Some(Word::from_slice(alloc, word)?),
        text,
    })
}

/// The word at fault, if it is known.
fn bad_word(alloc: Global, words: &[&[u8]], reason: Reason) -> Result<Option<Word>, AllocError> {
    match bad_word_at(alloc, words, reason)? {
        Some(place) => match words.get(place) {
            Some(word) => Ok(Some(Word::from_slice(alloc, word)?)),
            None => Ok(None),
        },
        None => Ok(None),
    }
}

/// The words with a space between each two.
fn joined(alloc: Global, words: &[&[u8]]) -> Result<Vec<u8>, AllocError> {
    let mut line = Vec::new(alloc);
    for word in words {
        if !line.is_empty() {
            line.push(b' ')?;
        }
        line.extend_from_slice(word)?;
    }
    Ok(line)
}

/// Why the words of one of the calls are refused.
pub fn bad_call<'a>(
    alloc: Global,
    operator: &'a [u8],
    script: &'a [CallWords],
    fault: CallFault,
) -> Result<BadWords, AllocError> {
    let mut words: Vec<&'a [u8]> = Vec::new(alloc);
    words.push(operator)?;
    if let Some(call) = script.get(fault.place) {
        for word in call.as_slice() {
            words.push(word.bytes())?;
        }
    }
    let line = joined(alloc, words.get(1..).unwrap_or(&[]))?;
    let mut text = Vec::new(alloc);
    push_fault(&mut text, fault.reason, &words, &line)?;
    Ok(BadWords {
        line: None,
        word: bad_word(alloc, &words, fault.reason)?,
        text,
    })
}

fn bad_line(
    alloc: Global,
    number: usize,
    reason: Reason,
    line: &[u8],
) -> Result<BadWords, AllocError> {
    let words = words_of(alloc, line)?;
    let mut text = Vec::new(alloc);
    push_line_fault(&mut text, reason, line)?;
    Ok(BadWords {
        line: u32::try_from(number).ok(),
        word: bad_word(alloc, &words, reason)?,
        text,
    })
}

/// The line that is one too many.
fn line_too_many(alloc: Global, number: u32) -> Result<BadWords, AllocError> {
    Ok(BadWords {
        line: Some(number),
        word: None,
        text: Vec::from_slice(alloc, b"more than 2,000,000 lines")?,
    })
}

/// All bad lines of a script, of which this is the first fault.
pub fn bad_lines_of(
    alloc: Global,
    script: &[u8],
    fault: ScriptFault,
) -> Result<Vec<BadWords>, AllocError> {
    let bad = bad_lines(alloc, script)?;
    let mut left = bad.as_slice();
    let mut all = Vec::new(alloc);
    let mut number: usize = 0;
    for line in script.split(|b| *b == b'\n') {
        number = number.saturating_add(1);
        if let Some((first, rest)) = left.split_first()
            && first.number == number
        {
            left = rest;
            all.push(bad_line(alloc, number, first.reason, line)?)?;
        }
    }
    // No bad line comes before it: else that line would be the first fault.
    if let ScriptFault::Bad(number, Reason::TooManyLines) = fault {
        all.push(line_too_many(alloc, number)?)?;
    }
    Ok(all)
}
