//! Tests of `root_runs`.

mod lines;
mod names;
mod runs;
mod scripts;

/// Whether a word is this one.
pub(crate) fn is(word: &[u8], other: &[u8]) -> bool {
    word == other
}
