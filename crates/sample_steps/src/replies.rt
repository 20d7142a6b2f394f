//! The words of replies.
//!
//! | Word | What it says |
//! |---|---|
//! | `ok` | a command was carried out |
//! | `exists:a` | a command was refused, since something is at the slot of a |
//! | `absent:a` | a command was refused, since nothing is there |
//! | `static` | a question was answered |
//! | `undid:1` | row 1 was undone |
//! | `no-such-row` | an undo was refused, since there is no such row |
//! | `not-a-command` | an undo was refused, since the row isn't an accepted command |
//! | `already-undone:2` | an undo was refused, since row 2 undid the row before |
//! | `blocked:2` | an undo was refused, since row 2 looked at what the row changed |
//! | `redid:1` | row 1 was redone |
//! | `no-row-to-redo` | a redo was refused, since there is no such row |
//! | `no-command-to-redo` | a redo was refused, since the row isn't an accepted command |
//! | `not-undone` | a redo was refused, since the row is not undone |
//! | `hindered:2` | a redo was refused, since row 2 hinders it |
//!
//! With the operator of a row: `alice:ok`.

use crate::operation::Step;
use crate::words::{is, number, parts, slot_of, slot_path};
use footprint::{Answer, Key, Notices, Refusal, StateWord};
use history::{RedoRefusal, Row, RowReply, UndoRefusal};
use link_tree::{TreePath, push_decimal};
use std::alloc::{AllocError, Global};

/// Adds a space, if there are words before.
pub fn begin_word(out: &mut Vec<u8>) -> Result<(), AllocError> {
    if out.is_empty() {
        return Ok(());
    }
    out.extend_from_slice(b" ")
}

/// Adds a word and its part: `stale:a`.
pub fn push_pair(out: &mut Vec<u8>, word: &[u8], part: &[u8]) -> Result<(), AllocError> {
    out.extend_from_slice(word)?;
    out.extend_from_slice(b":")?;
    out.extend_from_slice(part)
}

/// Adds a word and a number: `row:1`.
pub fn push_numbered(out: &mut Vec<u8>, word: &[u8], n: u32) -> Result<(), AllocError> {
    push_pair(out, word, b"")?;
    push_decimal(out, n as usize)
}

/// The unit whose slot a path is.
fn unit_of(path: &TreePath) -> &'static [u8] {
    if path.text() == slot_of(b"a") {
        return b"a";
    }
    if path.text() == slot_of(b"b") {
        return b"b";
    }
    b"c"
}

/// The unit at whose slot a key looks.
pub fn unit_at(key: &Key) -> &'static [u8] {
    match key {
        Key::Cell(path) => unit_of(path),
        _ => b"?",
    }
}

fn push_answer(out: &mut Vec<u8>, answer: &Answer) -> Result<(), AllocError> {
    match answer {
        Answer::Done(_) => out.extend_from_slice(b"ok"),
        Answer::State(StateWord::Static) => out.extend_from_slice(b"static"),
        Answer::Refused(Refusal::Exists(path)) => push_pair(out, b"exists", unit_of(path)),
        Answer::Refused(Refusal::Absent(path)) => push_pair(out, b"absent", unit_of(path)),
        _ => out.extend_from_slice(b"another-answer"),
    }
}

fn push_undo_refusal(out: &mut Vec<u8>, refusal: UndoRefusal) -> Result<(), AllocError> {
    match refusal {
        UndoRefusal::NoSuchRow => out.extend_from_slice(b"no-such-row"),
        UndoRefusal::NotACommand => out.extend_from_slice(b"not-a-command"),
        UndoRefusal::AlreadyUndone(n) => push_numbered(out, b"already-undone", n),
        UndoRefusal::Blocked(n) => push_numbered(out, b"blocked", n),
    }
}

fn push_redo_refusal(out: &mut Vec<u8>, refusal: RedoRefusal) -> Result<(), AllocError> {
    match refusal {
        RedoRefusal::NoSuchRow => out.extend_from_slice(b"no-row-to-redo"),
        RedoRefusal::NotACommand => out.extend_from_slice(b"no-command-to-redo"),
        RedoRefusal::NotUndone => out.extend_from_slice(b"not-undone"),
        RedoRefusal::Hindered(n) => push_numbered(out, b"hindered", n),
    }
}

/// Adds the word of a reply.
pub fn push_reply(out: &mut Vec<u8>, reply: &RowReply) -> Result<(), AllocError> {
    match reply {
        RowReply::Answered(answer) => push_answer(out, answer),
        RowReply::Undid(n) => push_numbered(out, b"undid", *n),
        RowReply::UndoRefused(refusal) => push_undo_refusal(out, *refusal),
        RowReply::Redid(n) => push_numbered(out, b"redid", *n),
        RowReply::RedoRefused(refusal) => push_redo_refusal(out, *refusal),
    }
}

/// Adds a row's operator and reply.
pub fn push_row(out: &mut Vec<u8>, row: &Row<Step>) -> Result<(), AllocError> {
    push_pair(out, row.operator.text(), b"")?;
    push_reply(out, &row.reply)
}

/// The refusal of an undo that a word says, if it is such a word.
fn undo_refusal(word: &[u8]) -> Option<UndoRefusal> {
    let (first, n) = parts(word);
    if is(first, b"no-such-row") {
        return Some(UndoRefusal::NoSuchRow);
    }
    if is(first, b"not-a-command") {
        return Some(UndoRefusal::NotACommand);
    }
    if is(first, b"already-undone") {
        return Some(UndoRefusal::AlreadyUndone(number(n)));
    }
    is(first, b"blocked").then_some(UndoRefusal::Blocked(number(n)))
}

/// The refusal of a redo that a word says, if it is such a word.
fn redo_refusal(word: &[u8]) -> Option<RedoRefusal> {
    let (first, n) = parts(word);
    if is(first, b"no-row-to-redo") {
        return Some(RedoRefusal::NoSuchRow);
    }
    if is(first, b"no-command-to-redo") {
        return Some(RedoRefusal::NotACommand);
    }
    if is(first, b"not-undone") {
        return Some(RedoRefusal::NotUndone);
    }
    is(first, b"hindered").then_some(RedoRefusal::Hindered(number(n)))
}

/// The refusal that a word says. Fails if it says none.
fn refusal(word: &[u8]) -> Result<RowReply, AllocError> {
    match (undo_refusal(word), redo_refusal(word)) {
        (Some(refusal), _) => Ok(RowReply::UndoRefused(refusal)),
        (None, Some(refusal)) => Ok(RowReply::RedoRefused(refusal)),
        (None, None) => Err(AllocError),
    }
}

/// The answer of a word.
fn answer(alloc: Global, word: &[u8]) -> Result<Option<Answer>, AllocError> {
    let (first, unit) = parts(word);
    if is(first, b"ok") {
        return Ok(Some(Answer::Done(Notices::none(alloc))));
    }
    if is(first, b"static") {
        return Ok(Some(Answer::State(StateWord::Static)));
    }
    if is(first, b"exists") {
        let refusal = Refusal::Exists(slot_path(alloc, unit)?);
        return Ok(Some(Answer::Refused(refusal)));
    }
    if is(first, b"absent") {
        let refusal = Refusal::Absent(slot_path(alloc, unit)?);
        return Ok(Some(Answer::Refused(refusal)));
    }
    Ok(None)
}

/// The reply of a word. Fails if the word isn't a reply, or if memory runs out.
pub fn reply(alloc: Global, word: &[u8]) -> Result<RowReply, AllocError> {
    let (first, n) = parts(word);
    if is(first, b"undid") {
        return Ok(RowReply::Undid(number(n)));
    }
    if is(first, b"redid") {
        return Ok(RowReply::Redid(number(n)));
    }
    match answer(alloc, word)? {
        Some(answer) => Ok(RowReply::Answered(answer)),
        None => refusal(word),
    }
}
