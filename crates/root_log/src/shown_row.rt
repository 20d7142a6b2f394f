//! A row of a history as it is shown: its run, and the words of its call.

use crate::zone::LocalZone;
use history::Row;
use kept_log::call_lines;
use kept_texts::Run;
use root_histories::Kept;
use root_json::KeptCall;
use root_runs::push_shown;
use std::alloc::{AllocError, Global};
use unit_script::{Action, words_of};

/// What is shown of a row that no run has.
const UNKNOWN: &[u8] = b"-";

/// The lines of the calls of a history, one for each row.
pub fn lines_of_rows<'k>(alloc: Global, kept: &'k Kept) -> Result<Vec<&'k [u8]>, AllocError> {
    let text = kept.text();
    match text.runs().first() {
        Some(run) => call_lines(alloc, text.bytes(), run.line),
        None => Ok(Vec::new(alloc)),
    }
}

/// The words of a call after its operator.
pub fn words_of_call<'k>(alloc: Global, line: &'k [u8]) -> Result<Vec<&'k [u8]>, AllocError> {
    let mut words = Vec::new(alloc);
    for word in words_of(alloc, line)?.iter().skip(1) {
        words.push(*word)?;
    }
    Ok(words)
}

/// A row of a history that is shown.
#[derive(Clone, Copy)]
pub struct ShownRow<'k> {
    pub number: u32,
    pub row: &'k Row<Action>,
    pub run: Option<&'k Run>,
    /// The line of its call.
    pub line: &'k [u8],
}

impl<'k> ShownRow<'k> {
    /// What JSON has of its run, and the words of its call.
    pub fn kept_call<'w>(&self, words: &'w [&'w [u8]]) -> KeptCall<'w>
    where
        'k: 'w,
    {
        match self.run {
            Some(run) => KeptCall {
                time: run.words.time.text(),
                login: run.words.login.text(),
                program: run.words.program.text(),
                words,
            },
            None => KeptCall {
                time: UNKNOWN,
                login: UNKNOWN,
                program: UNKNOWN,
                words,
            },
        }
    }

    /// The time of its run.
    pub fn time(&self, alloc: Global, zone: &LocalZone) -> Result<Vec<u8>, AllocError> {
        match self.run {
            Some(run) => zone.shown(alloc, &run.words.time),
            None => Vec::from_slice(alloc, UNKNOWN),
        }
    }

    /// The words of its call after the operator, with a blank between each two.
    pub fn call(&self, alloc: Global) -> Result<Vec<u8>, AllocError> {
        let words = words_of_call(alloc, self.line)?;
        let mut text = Vec::new(alloc);
        for word in &words {
            if !text.is_empty() {
                text.push(b' ')?;
            }
            push_shown(&mut text, *word)?;
        }
        Ok(text)
    }
}
