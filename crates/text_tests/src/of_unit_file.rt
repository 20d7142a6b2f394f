//! [Install] sections, read from files.
mod files;
mod identities;
mod lines;
mod long_lines;
mod notices;

use std::alloc::{AllocError, Global};
use unit_file::{InstallText, Words, install_of};

/// The section of a file.
pub(crate) fn read(alloc: Global, bytes: &[u8]) -> Result<Box<InstallText>, AllocError> {
    match install_of(alloc, bytes) {
        Ok(text) => Ok(Box::new(alloc, text)?),
        Err(_) => Err(AllocError),
    }
}

fn push_words(lines: &mut Vec<u8>, key: &[u8], words: &Words) -> Result<(), AllocError> {
    let mut before = key;
    for word in words.as_slice() {
        lines.extend_from_slice(before)?;
        lines.extend_from_slice(word.bytes())?;
        before = b" ";
    }
    if !words.is_empty() {
        lines.push(b'\n')?;
    }
    Ok(())
}

/// Adds a section as lines `KEY=WORD WORD..`, one for each key that has a value.
pub(crate) fn push_lines(lines: &mut Vec<u8>, text: &InstallText) -> Result<(), AllocError> {
    push_words(lines, b"WantedBy=", &text.wanted_by)?;
    push_words(lines, b"RequiredBy=", &text.required_by)?;
    push_words(lines, b"UpheldBy=", &text.upheld_by)?;
    push_words(lines, b"Alias=", &text.alias)?;
    push_words(lines, b"Also=", &text.also)?;
    if let Some(instance) = &text.default_instance {
        lines.extend_from_slice(b"DefaultInstance=")?;
        lines.extend_from_slice(instance.bytes())?;
        lines.push(b'\n')?;
    }
    Ok(())
}

/// The lines of a section.
fn lines_of(alloc: Global, text: &InstallText) -> Result<Vec<u8>, AllocError> {
    let mut lines = Vec::new(alloc);
    push_lines(&mut lines, text)?;
    Ok(lines)
}
