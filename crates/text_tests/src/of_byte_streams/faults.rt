//! The texts of faults of streams.
use byte_streams::{ReadError, Stop, WriteFault};
use sample_rows::{Row, assert_rows, is};
use std::alloc::{AllocError, Global};
use std::test::Fail;

const ROWS: &[u8] = b"\
    stop\tinterrupted\t\tinterrupted\n\
    stop\tfailed\t\tfailed\n\
    write\t\t\twrite fault after 7 bytes\n\
    # A fault of the bytes has a text of its own.\n\
    read\tbytes\t\tfailed\n\
    read\tsource\t\tread fault\n\
    read\tmemory\t\tout of memory\n";

fn stop_of(word: &[u8]) -> Stop {
    if word == b"interrupted".as_slice() {
        Stop::Interrupted
    } else {
        Stop::Failed
    }
}

fn read_error_of(word: &[u8]) -> ReadError<Stop> {
    if word == b"bytes".as_slice() {
        ReadError::Fault(Stop::Failed)
    } else if word == b"source".as_slice() {
        ReadError::ReadFault
    } else {
        ReadError::OutOfMemory
    }
}

fn answer(alloc: Global, row: &Row) -> Result<Vec<u8>, AllocError> {
    if is(row, b"stop") {
        let stop = stop_of(&row.one);
        return Ok(format!(in alloc; "{stop}")?.into_bytes());
    }
    if is(row, b"write") {
        let fault = WriteFault(7);
        return Ok(format!(in alloc; "{fault}")?.into_bytes());
    }
    let error = read_error_of(&row.one);
    Ok(format!(in alloc; "{error}")?.into_bytes())
}

#[test]
fn faults_have_texts(rt: HostRuntime) -> Result<(), Fail> {
    assert_rows(rt.alloc(), ROWS, answer)
}
