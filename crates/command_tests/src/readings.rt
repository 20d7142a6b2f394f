//! What operations look at.
use crate::lines::{push_line, without_last_end};
use footprint::{Key, Outcome, Reading};
use link_tree::Scope;
use std::alloc::{AllocError, Global};

/// A key, with a line end.
pub(crate) fn push_key(out: &mut Vec<u8>, key: &Key) -> Result<(), AllocError> {
    match key {
        Key::Cell(path) => push_line(out, b"", path.text()),
        Key::Marked(Scope::Etc, name) => push_line(out, b"etc ", name.text()),
        Key::Marked(Scope::Run, name) => push_line(out, b"run ", name.text()),
        Key::Presets => push_line(out, b"", b"presets"),
        Key::Links => push_line(out, b"", b"links"),
    }
}

/// The keys of a reading, each on a line.
fn push_keys(out: &mut Vec<u8>, reading: &Reading) -> Result<(), AllocError> {
    for observation in reading.as_slice() {
        push_key(out, &observation.key)?;
    }
    Ok(())
}

/// The keys that an operation looked at, each on a line.
pub(crate) fn keys_text(alloc: Global, outcome: &Outcome) -> Result<Vec<u8>, AllocError> {
    let mut out = Vec::new(alloc);
    push_keys(&mut out, &outcome.reading)?;
    without_last_end(out)
}
