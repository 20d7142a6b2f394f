//! A desk, and the answers that it takes.
//!
//! | Word | What is done | What the desk says |
//! |---|---|---|
//! | `issue:bob` | a job is issued to bob | `job:1`; `closed` |
//! | `answer:1:bob` | bob answers job 1 | `taken`, `unknown`, `double` |
//! | `open` | the jobs without an answer are counted | `open:2` |
//! | `shut` | the desk is shut | `shut` |

use history::{Request, RowReply};
use sample_steps::{begin_word, is, number, operator, parts, push_numbered};
use sessions::{AcceptError, Answered, Desk, IssueError, Job, Unissued};
use std::alloc::{AllocError, Global};

fn push_count(out: &mut Vec<u8>, word: &[u8], n: u64) -> Result<(), AllocError> {
    push_numbered(out, word, u32::try_from(n).unwrap_or(u32::MAX))
}

/// Issues a job to an operator.
fn issue(desk: &mut Desk, name: &[u8], out: &mut Vec<u8>) -> Result<(), AllocError> {
    let issued: Result<Job<u8>, Unissued<u8>> = desk.issue(operator(name)?, Request::Undo(7));
    match issued {
        Ok(job) => push_count(out, b"job", job.number),
        Err(left) => match left.why {
            IssueError::Closed => out.extend_from_slice(b"closed"),
            IssueError::OutOfMemory => Err(AllocError),
        },
    }
}

/// The answer of `1:bob`, which is bob's to job 1.
fn answer_of(alloc: Global, word: &[u8]) -> Result<Box<Answered>, AllocError> {
    let (job, name) = parts(word);
    let answer = Answered {
        number: u64::from(number(job)),
        operator: operator(name)?,
        reply: RowReply::Undid(7),
    };
    Ok(Box::new(alloc, answer)?)
}

/// Adds the answer of such a word to others.
pub(crate) fn push_answer(
    alloc: Global,
    word: &[u8],
    answers: &mut Vec<Answered>,
) -> Result<(), AllocError> {
    let answer = answer_of(alloc, word)?;
    Ok(answers.push(Box::into_inner(answer))?)
}

pub(crate) fn text_of(accepted: Result<(), AcceptError>) -> &'static [u8] {
    match accepted {
        Ok(()) => b"taken",
        Err(AcceptError::UnknownJob) => b"unknown",
        Err(AcceptError::Double) => b"double",
    }
}

fn accept(
    alloc: Global,
    desk: &mut Desk,
    word: &[u8],
    out: &mut Vec<u8>,
) -> Result<(), AllocError> {
    let answer = answer_of(alloc, word)?;
    out.extend_from_slice(text_of(desk.accept(&answer)))
}

/// Adds what the desk says to a word.
fn push_one(
    alloc: Global,
    desk: &mut Desk,
    word: &[u8],
    out: &mut Vec<u8>,
) -> Result<(), AllocError> {
    let (first, rest) = parts(word);
    if is(first, b"issue") {
        return issue(desk, rest, out);
    }
    if is(first, b"answer") {
        return accept(alloc, desk, rest, out);
    }
    if is(first, b"open") {
        return push_count(out, b"open", desk.outstanding());
    }
    if is(first, b"shut") {
        desk.shut();
        return out.extend_from_slice(b"shut");
    }
    Err(AllocError)
}

/// Adds what a desk says to the words of a script.
pub(crate) fn push_said(alloc: Global, script: &[u8], out: &mut Vec<u8>) -> Result<(), AllocError> {
    let mut desk = Desk::new(alloc);
    for word in script.split(|b| *b == b' ') {
        begin_word(out)?;
        push_one(alloc, &mut desk, word, out)?;
    }
    Ok(())
}
