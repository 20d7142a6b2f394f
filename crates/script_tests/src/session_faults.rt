//! The texts of faults of runs with sessions.

use crate::lines::is;
use history::Operator;
use sample_rows::{Row, assert_rows};
use session_script::SessionsFault;
use shared_admin::CloseFault;
use std::alloc::{AllocError, Global};
use std::test::Fail;
use unit_script::RunFault;

/// A fault, the operator whom it names, if it does, and its text.
const ROWS: &[u8] = b"\
    # the four faults of closing\n\
    missing\talice\t\tlog of alice is missing\n\
    stranger\tbob\t\tlog of bob is strange\n\
    mismatch\talice\t\tlog of alice differs at 17\n\
    other tree\t\t\tfirst tree differs\n\
    # the others\n\
    no worker\t\t\ta worker could not be started\n\
    too many\t\t\tmore than 16 operators\n\
    full\t\t\thistory is full\n\
    out of memory\t\t\tout of memory\n\
    ";

/// The fault of closing that a word names, of this operator.
fn close_fault(word: &[u8], name: &[u8]) -> Result<CloseFault, AllocError> {
    let Ok(operator) = Operator::parse(name) else {
        return Err(AllocError);
    };
    if is(word, b"missing") {
        return Ok(CloseFault::Missing(operator));
    }
    if is(word, b"stranger") {
        return Ok(CloseFault::Stranger(operator));
    }
    if is(word, b"mismatch") {
        return Ok(CloseFault::Mismatch(operator, 17));
    }
    Err(AllocError)
}

fn fault(word: &[u8], name: &[u8]) -> Result<SessionsFault, AllocError> {
    if is(word, b"other tree") {
        return Ok(SessionsFault::Close(CloseFault::OtherTree));
    }
    if is(word, b"no worker") {
        return Ok(SessionsFault::NoWorker);
    }
    if is(word, b"too many") {
        return Ok(SessionsFault::TooManySessions);
    }
    if is(word, b"full") {
        return Ok(SessionsFault::Run(RunFault::Full));
    }
    if is(word, b"out of memory") {
        return Ok(SessionsFault::Run(RunFault::OutOfMemory));
    }
    Ok(SessionsFault::Close(close_fault(word, name)?))
}

fn text_of(alloc: Global, fault: &SessionsFault) -> Result<Vec<u8>, AllocError> {
    Ok(format!(in alloc; "{fault}")?.into_bytes())
}

fn answer(alloc: Global, row: &Row) -> Result<Vec<u8>, AllocError> {
    match fault(&row.kind, &row.one) {
        Ok(fault) => text_of(alloc, &fault),
        Err(AllocError) => Err(AllocError),
    }
}

#[test]
fn faults_of_sessions_have_their_texts(rt: HostRuntime) -> Result<(), Fail> {
    assert_rows(rt.alloc(), ROWS, answer)
}
