//! The rows of all other tests: a row whose result isn't its ANSWER is reported.
use sample_rows::{Row, unlike};
use std::alloc::{AllocError, Global};
use std::test::Fail;

/// The first row has another result than it states, the second has the one that it states.
const ROWS: &[u8] = b"\
    # Two texts, one behind the other.\n\
    joined\ta\\tb\tc\ta\\tc\n\
    joined\ta\\tb\tc\ta\\tbc\n\
    \n";

/// The first row as it is written, and its result.
const REPORT: &[u8] = b"joined\ta\\tb\tc\ta\\tc\na\tbc\n";

fn answer(alloc: Global, row: &Row) -> Result<Vec<u8>, AllocError> {
    [row.one.as_slice(), row.two.as_slice()].concat(alloc)
}

/// If memory runs out in the report, it is made again, and each row is in it once.
#[test]
fn a_row_that_answers_otherwise_is_reported(rt: HostRuntime) -> Result<(), Fail> {
    let found = unlike(rt.alloc(), ROWS, answer)?;
    assert_eq!(rt; found.as_slice(), REPORT);
    Ok(())
}
