//! The words of scripts.
//!
//! | Word | What it asks for |
//! |---|---|
//! | `put:a` | the step that puts an empty file at the slot of a, `/etc/systemd/system/a.service` |
//! | `remove:a` | the step that removes the file there |
//! | `look:a` | the step that only looks there, and changes nothing |
//! | `ask:a` | the question that looks there |
//! | `undo:1` | the undo of row 1 |
//! | `redo:1` | the redo of row 1 |
//!
//! The units are a, b and c. Operators are called by their names. Other words of tests are made of
//! these, with colons between the parts: `alice:put:a`.

use crate::operation::Step;
use history::{Operator, Request};
use link_tree::TreePath;
use std::alloc::{AllocError, Global};

/// The first part of a word, and the parts after it.
pub fn parts(word: &[u8]) -> (&[u8], &[u8]) {
    let mut parts = word.splitn(2, |b| *b == b':');
    let first = parts.next().unwrap_or(b"");
    (first, parts.next().unwrap_or(b""))
}

/// Whether a word is this one. (A `match` on words is expensive: it compares them byte by byte.)
pub fn is(word: &[u8], wanted: &[u8]) -> bool {
    word == wanted
}

/// The number that these digits write.
pub fn number(digits: &[u8]) -> u32 {
    let mut number = 0u32;
    for digit in digits {
        let value = u32::from(digit.wrapping_sub(b'0'));
        number = number.wrapping_mul(10).wrapping_add(value);
    }
    number
}

/// The slot of a unit: of a, of b, and of c for all others.
pub fn slot_of(unit: &[u8]) -> &'static [u8] {
    if is(unit, b"a") {
        return b"/etc/systemd/system/a.service";
    }
    if is(unit, b"b") {
        return b"/etc/systemd/system/b.service";
    }
    b"/etc/systemd/system/c.service"
}

/// The path of a unit's slot. Fails only if memory runs out.
pub(crate) fn slot_path(alloc: Global, unit: &[u8]) -> Result<TreePath, AllocError> {
    match TreePath::parse(alloc, slot_of(unit)) {
        Ok(path) => Ok(path),
        Err(_) => Err(AllocError),
    }
}

/// What a verb puts at the slot, and whether it is only a question.
fn meaning_of(verb: &[u8]) -> Option<(Option<bool>, bool)> {
    if is(verb, b"put") {
        return Some((Some(true), false));
    }
    if is(verb, b"remove") {
        return Some((Some(false), false));
    }
    if is(verb, b"look") {
        return Some((None, false));
    }
    is(verb, b"ask").then_some((None, true))
}

/// The step of a word. Fails if the word isn't a step, or if memory runs out.
pub fn step(alloc: Global, word: &[u8]) -> Result<Step, AllocError> {
    let (verb, unit) = parts(word);
    let Some((puts, asks)) = meaning_of(verb) else {
        return Err(AllocError);
    };
    Ok(Step {
        slot: slot_path(alloc, unit)?,
        puts,
        asks,
    })
}

/// The request of a word: a step, an undo or a redo. Fails if the word is none of these, or if
/// memory runs out.
pub fn request(alloc: Global, word: &[u8]) -> Result<Request<Step>, AllocError> {
    let (first, rest) = parts(word);
    if is(first, b"undo") {
        return Ok(Request::Undo(number(rest)));
    }
    if is(first, b"redo") {
        return Ok(Request::Redo(number(rest)));
    }
    Ok(Request::Do(step(alloc, word)?))
}

/// The operator of this name. Fails if the name is invalid.
pub fn operator(name: &[u8]) -> Result<Operator, AllocError> {
    match Operator::parse(name) {
        Ok(operator) => Ok(operator),
        Err(_) => Err(AllocError),
    }
}
