//! What the first line of a run says.
use kept_texts::{Label, RunWords, Time};
use std::alloc::{AllocError, Global};

/// When a run begins.
pub(crate) const TIME: &[u8] = b"2026-12-01T08:30:05Z";

pub(crate) fn label(alloc: Global, text: &[u8]) -> Result<Label, AllocError> {
    match Label::of_text(Vec::from_slice(alloc, text)?) {
        Some(label) => Ok(label),
        None => Err(AllocError),
    }
}

/// The words of the run of a login that begins at a time.
pub(crate) fn words(alloc: Global, time: &[u8], login: &[u8]) -> Result<RunWords, AllocError> {
    let Some(time) = Time::parse(time) else {
        return Err(AllocError);
    };
    Ok(RunWords {
        time,
        login: label(alloc, login)?,
        program: label(alloc, b"unitroot-0.9")?,
        rules: 1,
        outside: false,
    })
}
