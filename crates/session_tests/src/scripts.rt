//! Requests by their words, and what results from runs in words.
//!
//! Works are those of `alice put:a undo:1 / bob put:b`: alice puts a file and undoes that, side by
//! side with bob. Asks are those of `alice:put:a bob:put:b`, one after another.
//!
//! | Words | What they say |
//! |---|---|
//! | `logs:1 alice:ok alice:undid:1` | how many logs a run gave, and its rows |
//! | `an-operator-twice`, `too-many-sessions`, `full` | why a run didn't end |
//! | `no-log:alice`, `stranger:bob`, `mismatch:alice:1`, `another-tree` | why it wasn't closed |

use history::{History, Operator};
use link_tree::push_decimal;
use sample_steps::{
    Step, begin_word, operator, parts, push_numbered, push_pair, push_row, request,
};
use sessions::{Ask, Asks, Gate, Requests, RunError, Work, Works};
use shared_admin::{CloseFault, Operators, SessionLogs};
use std::alloc::{AllocError, Global};

/// A gate that holds nothing up.
pub(crate) struct Open;

impl Gate for Open {
    fn between(&self, _operator: Operator, _call: u64, _attempt: u8) {}
}

/// The operators of these names.
pub(crate) fn operators(alloc: Global, names: &[u8]) -> Result<Operators, AllocError> {
    let mut operators = Operators::none(alloc);
    for name in names.split(|b| *b == b' ') {
        operators.push(operator(name)?)?;
    }
    Ok(operators)
}

/// Adds the work of a text: the operator's name, then a word for each request.
fn push_work(alloc: Global, text: &[u8], works: &mut Works<Step>) -> Result<(), AllocError> {
    let mut words = text.split(|b| *b == b' ');
    let operator = operator(words.next().unwrap_or(b""))?;
    let mut requests = Requests::none(alloc);
    for word in words {
        requests.push(request(alloc, word)?)?;
    }
    works.push(Work { operator, requests })
}

/// The works of a script, with `/` between them.
pub(crate) fn works(alloc: Global, script: &[u8]) -> Result<Works<Step>, AllocError> {
    let mut works = Works::none(alloc);
    for text in script.split(|b| *b == b'/') {
        push_work(alloc, text.trim_ascii(), &mut works)?;
    }
    Ok(works)
}

/// Adds the ask of a word: the operator's name, then the request.
fn push_ask(alloc: Global, word: &[u8], asks: &mut Asks<Step>) -> Result<(), AllocError> {
    let (name, rest) = parts(word);
    asks.push(Ask {
        operator: operator(name)?,
        request: request(alloc, rest)?,
    })
}

/// The asks of a script of words, this many times; there may be none.
pub(crate) fn asks(alloc: Global, script: &[u8], times: usize) -> Result<Asks<Step>, AllocError> {
    let mut asks = Asks::none(alloc);
    for _ in 0..times {
        for word in script.split(|b| *b == b' ') {
            if !word.is_empty() {
                push_ask(alloc, word, &mut asks)?;
            }
        }
    }
    Ok(asks)
}

/// Adds how many logs there are, and the rows.
fn push_rows(
    out: &mut Vec<u8>,
    history: &History<Step>,
    logs: &SessionLogs<Step>,
) -> Result<(), AllocError> {
    out.extend_from_slice(b"logs:")?;
    push_decimal(out, logs.as_slice().len())?;
    for row in history.rows() {
        begin_word(out)?;
        push_row(out, row)?;
    }
    Ok(())
}

/// What results from a run.
pub(crate) type Ran = Result<
    (History<Step>, SessionLogs<Step>),
    RunError<History<Step>, SessionLogs<Step>>,
>;

/// Adds why a run didn't end. A worker may be missing because memory ran out, too.
pub(crate) fn push_error<H, L>(out: &mut Vec<u8>, why: &RunError<H, L>) -> Result<(), AllocError> {
    match why {
        RunError::NoWorker | RunError::OutOfMemory => Err(AllocError),
        RunError::TooManySessions => out.extend_from_slice(b"too-many-sessions"),
        RunError::SameOperator => out.extend_from_slice(b"an-operator-twice"),
        RunError::Full => out.extend_from_slice(b"full"),
        RunError::Close(left) => push_fault(out, &left.fault),
    }
}

/// Adds why a run isn't closed.
pub(crate) fn push_fault(out: &mut Vec<u8>, fault: &CloseFault) -> Result<(), AllocError> {
    match fault {
        CloseFault::Missing(operator) => push_pair(out, b"no-log", operator.text()),
        CloseFault::Stranger(operator) => push_pair(out, b"stranger", operator.text()),
        CloseFault::Mismatch(operator, place) => {
            out.extend_from_slice(b"mismatch:")?;
            push_numbered(out, operator.text(), *place)
        }
        CloseFault::OtherTree => out.extend_from_slice(b"another-tree"),
    }
}

/// Adds what results from a run.
pub(crate) fn push_run(out: &mut Vec<u8>, ran: &Ran) -> Result<(), AllocError> {
    match ran {
        Ok((history, logs)) => push_rows(out, history, logs),
        Err(why) => push_error(out, why),
    }
}
