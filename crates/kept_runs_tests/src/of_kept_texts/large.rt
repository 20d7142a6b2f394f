//! Many changes, and many lines.
use super::sample::{SECOND, TEXT, begun};
use crate::words::{TIME, words};
use kept_texts::{KeptText, PushError, TextError};
use sample_values::tree;
use std::alloc::{AllocError, Global};
use std::test::Fail;

/// The next of the numbers that are used as random ones.
fn next(state: u64) -> u64 {
    state
        .wrapping_mul(6_364_136_223_846_793_005)
        .wrapping_add(1_442_695_040_888_963_407)
}

/// The text with one byte changed, at a place and to a value by this number.
fn changed(alloc: Global, state: u64) -> Result<Vec<u8>, AllocError> {
    let mut text = Vec::from_slice(alloc, TEXT)?;
    let at = (state >> 33) as usize % TEXT.len();
    if let Some(byte) = text.get_mut(at) {
        *byte ^= (state >> 16 & 254) as u8 + 1;
    }
    Ok(text)
}

fn is_refused(alloc: Global, text: Vec<u8>) -> bool {
    matches!(KeptText::read(alloc, text), Err(TextError::Fault(..)))
}

/// How many of the texts with one byte changed are refused.
fn count_refused(alloc: Global, count: u32) -> Result<u32, AllocError> {
    let mut state = 1;
    let mut refused: u32 = 0;
    for _turn in 0..count {
        state = next(state);
        if is_refused(alloc, changed(alloc, state)?) {
            refused = refused.saturating_add(1);
        }
    }
    Ok(refused)
}

#[test]
fn changes_of_single_bytes_are_refused(rt: HostRuntime) -> Result<(), Fail> {
    assert_eq!(rt; count_refused(rt.alloc(), 300)?, 300);
    Ok(())
}

/// The lines of a run, all of them empty.
fn lines(alloc: Global, count: usize) -> Result<Vec<u8>, AllocError> {
    vec![in alloc; b'\n'; count]
}

fn push_lines(alloc: Global, count: usize) -> Result<Option<PushError>, AllocError> {
    let mut text = begun(alloc)?;
    let left = tree(alloc, SECOND)?;
    let words = words(alloc, TIME, b"anna")?;
    let lines = lines(alloc, count)?;
    Ok(text.push_run(&words, &lines, &left).err())
}

#[test]
fn lines_are_not_too_many(rt: HostRuntime) -> Result<(), Fail> {
    let alloc = rt.alloc();
    assert_eq!(rt; push_lines(alloc, 1_999_997)?, None);
    assert_eq!(rt;
        push_lines(alloc, 1_999_998)?,
        Some(PushError::TooManyLines)
    );
    Ok(())
}
