//! Two operations in one; and copies of replies, requests and operations.

use crate::watching::{Watch, telling};
use footprint::{Answer, Operation, Outcome};
use history::{Request, RowReply};
use link_tree::{Tree, push_decimal};
use sample_rows::{Row, assert_rows};
use sample_steps::{Step, is, parts, push_reply, reply, request, step};
use std::alloc::{AllocError, Global};
use std::test::Fail;
use two_operations::Then;

/// Two operations `UNIT:SLOT`, each of which gives a notice of a unit and links a slot, and the
/// outcome of both as one: how many keys it looked at, and the lines of its notices. Two steps as
/// one, and whether they are only questions. What is copied, and what the copy is.
const ROWS: &[u8] = b"\
    # both give their notices, each once\n\
    both\tb.service:/etc/systemd/system/a.service\t\
        a.service:/etc/systemd/system/m.target.wants/a.service\t\
        3 keys\\n  \
        ! a.service: Also a.service: not found\\n  \
        ! b.service: Also b.service: not found\\n\n\
    both\ta.service:/etc/systemd/system/a.service\t\
        a.service:/etc/systemd/system/m.target.wants/a.service\t\
        3 keys\\n  \
        ! a.service: Also a.service: not found\\n\n\
    # if the second is refused, there are no notices\n\
    both\ta.service:/etc/systemd/system/a.service\tb.service:/opt/a\t2 keys\\nrefused\n\
    \n\
    # two that only ask are one that only asks\n\
    only asks\task:a\task:a\tyes\n\
    only asks\task:a\tput:a\tno\n\
    only asks\tput:a\task:a\tno\n\
    only asks\tput:a\tput:a\tno\n\
    \n\
    copied reply\tstatic\t\tstatic\n\
    copied reply\tundid:1\t\tundid:1\n\
    copied reply\tno-such-row\t\tno-such-row\n\
    copied reply\tnot-a-command\t\tnot-a-command\n\
    copied reply\talready-undone:2\t\talready-undone:2\n\
    copied reply\tblocked:3\t\tblocked:3\n\
    copied reply\tredid:1\t\tredid:1\n\
    copied reply\tno-row-to-redo\t\tno-row-to-redo\n\
    copied reply\tno-command-to-redo\t\tno-command-to-redo\n\
    copied reply\tnot-undone\t\tnot-undone\n\
    copied reply\thindered:3\t\thindered:3\n\
    copied request\tput:a\tremove:a\tthe same\n\
    copied request\tundo:3\tundo:4\tthe same\n\
    copied request\tredo:3\tredo:4\tthe same\n\
    copied request\tredo:3\tundo:3\tthe same\n\
    copied operation\ta.service:/etc/systemd/system/a.service\t\tthe same\n\
    ";

/// What an outcome says: how many keys were looked at, and the lines of its notices, or that it is
/// refused and changes nothing.
fn text_of(alloc: Global, outcome: &Outcome) -> Result<Vec<u8>, AllocError> {
    let mut out = Vec::new(alloc);
    push_decimal(&mut out, outcome.reading.as_slice().len())?;
    out.extend_from_slice(b" keys\n")?;
    match &outcome.answer {
        Answer::Done(notices) => notices.push_lines(&mut out)?,
        Answer::Refused(_) if outcome.changes.as_slice().is_empty() => {
            out.extend_from_slice(b"refused")?;
        }
        _ => out.extend_from_slice(b"another answer")?,
    }
    Ok(out)
}

/// The operation of `UNIT:SLOT`.
fn watch(alloc: Global, word: &[u8]) -> Result<Box<Watch>, AllocError> {
    let (unit, slot) = parts(word);
    telling(alloc, slot, unit)
}

/// Two operations in one.
fn both(alloc: Global, first: &[u8], second: &[u8]) -> Result<Box<Then<Watch, Watch>>, AllocError> {
    let first = watch(alloc, first)?;
    let second = watch(alloc, second)?;
    let both = Then {
        first: Box::into_inner(first),
        second: Box::into_inner(second),
    };
    Ok(Box::new(alloc, both)?)
}

/// The outcome of an operation on the empty tree.
fn outcome<O: Operation>(alloc: Global, operation: &O) -> Result<Box<Outcome>, AllocError> {
    let tree = Box::new(alloc, Tree::empty(alloc)?)?;
    Ok(Box::new(alloc, operation.run(alloc, &tree)?)?)
}

fn said_by_both(alloc: Global, first: &[u8], second: &[u8]) -> Result<Vec<u8>, AllocError> {
    let both = both(alloc, first, second)?;
    let outcome = outcome(alloc, &*both)?;
    text_of(alloc, &outcome)
}

/// Whether two steps in one are only questions.
fn only_ask(alloc: Global, first: &[u8], second: &[u8]) -> Result<&'static [u8], AllocError> {
    let both = Then {
        first: step(alloc, first)?,
        second: step(alloc, second)?,
    };
    Ok(if both.asks_only() { b"yes" } else { b"no" })
}

fn boxed_reply(alloc: Global, word: &[u8]) -> Result<Box<RowReply>, AllocError> {
    Ok(Box::new(alloc, reply(alloc, word)?)?)
}

/// A copy of a reply. If memory runs out, the reply is the same as another of its word, and is
/// copied again; if it isn't, there is none.
fn reply_copied(
    alloc: Global,
    reply: &RowReply,
    same: &RowReply,
) -> Result<Option<Box<RowReply>>, AllocError> {
    if let Ok(copy) = reply.copy() {
        return Ok(Some(Box::new(alloc, copy)?));
    }
    if !reply.same(same) {
        return Ok(None);
    }
    Ok(Some(Box::new(alloc, reply.copy()?)?))
}

/// The word of a reply's copy, if that is the same.
fn copied_reply(alloc: Global, word: &[u8]) -> Result<Vec<u8>, AllocError> {
    let reply = boxed_reply(alloc, word)?;
    let same = boxed_reply(alloc, word)?;
    let copy = reply_copied(alloc, &reply, &same)?;
    let mut out = Vec::new(alloc);
    match &copy {
        Some(copy) if copy.same(&same) => push_reply(&mut out, copy)?,
        _ => out.extend_from_slice(b"another")?,
    }
    Ok(out)
}

fn boxed_request(alloc: Global, word: &[u8]) -> Result<Box<Request<Step>>, AllocError> {
    Ok(Box::new(alloc, request(alloc, word)?)?)
}

/// A copy of a request. If memory runs out, the request is the same as another of its word, and is
/// copied again; if it isn't, there is none.
fn request_copied(
    alloc: Global,
    request: &Request<Step>,
    same: &Request<Step>,
) -> Result<Option<Box<Request<Step>>>, AllocError> {
    if let Ok(copy) = request.copy() {
        return Ok(Some(Box::new(alloc, copy)?));
    }
    if !request.same(same) {
        return Ok(None);
    }
    Ok(Some(Box::new(alloc, request.copy()?)?))
}

/// Whether a request's copy is the same, and not another.
fn copied_request(alloc: Global, word: &[u8], other: &[u8]) -> Result<&'static [u8], AllocError> {
    let request = boxed_request(alloc, word)?;
    let same = boxed_request(alloc, word)?;
    let other = boxed_request(alloc, other)?;
    match &request_copied(alloc, &request, &same)? {
        Some(copy) if copy.same(&same) && !copy.same(&other) => Ok(b"the same"),
        _ => Ok(b"not the same"),
    }
}

/// A copy of a watch. If memory runs out, the watch is the same as another of its word, and is
/// copied again; if it isn't, there is none.
fn watch_copied(
    alloc: Global,
    watch: &Watch,
    same: &Watch,
) -> Result<Option<Box<Watch>>, AllocError> {
    if let Ok(copy) = watch.copy() {
        return Ok(Some(Box::new(alloc, copy)?));
    }
    if !watch.same(same) {
        return Ok(None);
    }
    Ok(Some(Box::new(alloc, watch.copy()?)?))
}

/// Whether an operation's copy is the same, and no question.
fn copied_operation(alloc: Global, word: &[u8]) -> Result<&'static [u8], AllocError> {
    let original = watch(alloc, word)?;
    let same = watch(alloc, word)?;
    match &watch_copied(alloc, &original, &same)? {
        Some(copy) if copy.same(&same) && !copy.asks_only() => Ok(b"the same"),
        _ => Ok(b"not the same"),
    }
}

/// Whether two operations as one are only questions, or a copy is the same.
fn said_of(alloc: Global, row: &Row) -> Result<&'static [u8], AllocError> {
    if is(&row.kind, b"only asks") {
        return only_ask(alloc, &row.one, &row.two);
    }
    if is(&row.kind, b"copied request") {
        return copied_request(alloc, &row.one, &row.two);
    }
    if is(&row.kind, b"copied operation") {
        return copied_operation(alloc, &row.one);
    }
    Ok(b"unknown kind")
}

fn answer(alloc: Global, row: &Row) -> Result<Vec<u8>, AllocError> {
    if is(&row.kind, b"both") {
        return said_by_both(alloc, &row.one, &row.two);
    }
    if is(&row.kind, b"copied reply") {
        return copied_reply(alloc, &row.one);
    }
    Vec::from_slice(alloc, said_of(alloc, row)?)
}

#[test]
fn operations_are_joined_and_copied(rt: HostRuntime) -> Result<(), Fail> {
    assert_rows(rt.alloc(), ROWS, answer)
}
