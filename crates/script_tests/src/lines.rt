//! Calls by their texts.

use crate::streams::Faulty;
use byte_streams::ReadError;
use history::Request;
use std::alloc::{AllocError, Global};
use unit_script::{Action, Call, ScriptFault, read_script};

/// More bytes than any of these texts has.
pub(crate) const ALL: usize = 2000;

/// Whether a word is this one. (A `match` on words is expensive: it compares them byte by byte.)
pub(crate) fn is(word: &[u8], wanted: &[u8]) -> bool {
    word == wanted
}

/// The script of one line.
fn script_of(alloc: Global, line: &[u8]) -> Result<Vec<u8>, AllocError> {
    let mut script = Vec::new(alloc);
    script.extend_from_slice(b"== calls\n")?;
    script.extend_from_slice(line)?;
    Ok(script)
}

/// The call of a line, if it isn't skipped.
pub(crate) fn call(
    alloc: Global,
    line: &[u8],
) -> Result<Box<Option<Call>>, ReadError<ScriptFault>> {
    let script = script_of(alloc, line)?;
    let mut calls = read_script(alloc, &mut Faulty::new(&script, ALL, 0))?;
    Ok(Box::new(alloc, calls.pop())?)
}

/// The call of a line that is one.
pub(crate) fn whole_call(alloc: Global, line: &[u8]) -> Result<Box<Call>, AllocError> {
    let Ok(call) = call(alloc, line) else {
        return Err(AllocError);
    };
    match Box::into_inner(call) {
        Some(call) => Ok(Box::new(alloc, call)?),
        None => Err(AllocError),
    }
}

/// The command or the question of a line.
pub(crate) fn action(alloc: Global, line: &[u8]) -> Result<Box<Action>, AllocError> {
    match Box::into_inner(whole_call(alloc, line)?).request {
        Request::Do(action) => Ok(Box::new(alloc, action)?),
        Request::Undo(_) | Request::Redo(_) => Err(AllocError),
    }
}
