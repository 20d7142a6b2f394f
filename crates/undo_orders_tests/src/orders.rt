//! Which rows must be undone, and why none can be.
use crate::histories::{order, played};
use link_tree::push_decimal;
use sample_rows::{Row, assert_rows};
use std::alloc::{AllocError, Global};
use std::test::Fail;
use undo_orders::ToUndoError;

/// A script, the number of a row, and the rows that must be undone so that this row is, in their
/// order; or why none can be.
const ROWS: &[u8] = b"\
    # No row has the number.\n\
    alice mask a.service\t0\t\tno such row\n\
    alice mask a.service\t2\t\tno such row\n\
    alice mask a.service\t4294967295\t\tno such row\n\
    # It is a question, a refused call, an undo or a redo, accepted or not.\n\
    alice is-enabled a.service\t1\t\tnot a command\n\
    alice mask a.service; bob enable a.service\t2\t\tnot a command\n\
    alice mask a.service; bob undo 1\t2\t\tnot a command\n\
    alice mask a.service; bob undo 7\t2\t\tnot a command\n\
    alice mask a.service; bob undo 1; alice redo 1\t3\t\tnot a command\n\
    alice mask a.service; bob redo 1\t2\t\tnot a command\n\
    # It is undone already: by the last undo that undid it.\n\
    alice mask a.service; alice mask b.service; bob undo 1\t1\t\tundone by 3\n\
    alice mask a.service; bob undo 1; alice undo 1\t1\t\tundone by 2\n\
    alice mask a.service; bob undo 1; alice redo 1; bob undo 1\t1\t\tundone by 4\n\
    # Itself alone: it is the last one, or no later row looked at what it changed.\n\
    alice mask a.service\t1\t\t1\n\
    alice mask a.service; bob mask b.service\t1\t\t1\n\
    alice mask a.service; bob mask b.service\t2\t\t2\n\
    alice mask a.service; bob undo 1; alice redo 1\t1\t\t1\n\
    # A chain: each looked at what the one before it changed.\n\
    alice mask a.service; bob unmask a.service; alice mask a.service\t1\t\t3 2 1\n\
    alice mask a.service; bob unmask a.service; alice mask a.service\t2\t\t3 2\n\
    alice mask a.service; bob unmask a.service; alice mask a.service\t3\t\t3\n\
    # The last one looked only at what the second one changed, and not at what the first one did.\n\
    alice mask b.service; bob mask a.service; alice unmask a.service b.service; \
        bob mask b.service\t2\t\t4 3 2\n\
    alice mask b.service; bob mask a.service; alice unmask a.service b.service; \
        bob mask b.service\t1\t\t4 3 1\n\
    # Three steps from the first one, and rows between that have nothing to do with it.\n\
    alice mask b.service c.service; bob mask a.service; alice set-default m.target; \
        bob unmask a.service b.service; alice add-wants m.target d.service; \
        bob mask b.service; alice unmask b.service c.service; bob mask c.service\t\
        2\t\t8 7 6 4 2\n\
    # A diamond: two that are independent of one another, and one that looked at both.\n\
    alice mask a.service b.service; bob unmask a.service; alice unmask b.service; \
        bob mask a.service b.service\t1\t\t4 3 2 1\n\
    alice mask a.service b.service; bob unmask a.service; alice unmask b.service; \
        bob mask a.service b.service\t2\t\t4 2\n\
    alice mask a.service b.service; bob unmask a.service; alice unmask b.service; \
        bob mask a.service b.service\t3\t\t4 3\n\
    # A command that looks and changes nothing blocks; a question and a refused call don't.\n\
    alice mask a.service; bob mask a.service\t1\t\t2 1\n\
    alice mask a.service; bob is-enabled a.service; alice mask b.service\t1\t\t1\n\
    alice mask a.service; bob enable a.service\t1\t\t1\n\
    # Rows that are undone block nothing, and lead to no others; once they are redone, they do.\n\
    alice mask a.service; bob unmask a.service; alice undo 2\t1\t\t1\n\
    alice mask a.service; bob unmask a.service; alice mask a.service; bob undo 3\t1\t\t2 1\n\
    alice mask a.service; bob mask a.service b.service; alice unmask b.service; \
        bob undo 3; alice undo 2; bob unmask b.service\t1\t\t1\n\
    alice mask a.service; bob unmask a.service; alice undo 2; bob redo 2\t1\t\t2 1\n\
    # A disable looks at the links of the units that it names, and of those that go with them.\n\
    alice mask c.service; bob enable b.service; alice disable a.service\t1\t\t1\n\
    alice enable b.service; bob enable a.service; alice disable a.service\t1\t\t3 2 1\n\
    alice enable b.service; bob mask c.service; alice unmask c.service\t1\t\t1\n\
    ";

/// The number that these digits write.
fn number(digits: &[u8]) -> u32 {
    let mut number = 0u32;
    for digit in digits {
        let value = u32::from(digit.wrapping_sub(b'0'));
        number = number.wrapping_mul(10).wrapping_add(value);
    }
    number
}

fn push_numbers(out: &mut Vec<u8>, numbers: &[u32]) -> Result<(), AllocError> {
    for number in numbers {
        if !out.is_empty() {
            out.extend_from_slice(b" ")?;
        }
        push_decimal(out, *number as usize)?;
    }
    Ok(())
}

fn push_error(out: &mut Vec<u8>, error: ToUndoError) -> Result<(), AllocError> {
    match error {
        ToUndoError::NoSuchRow => out.extend_from_slice(b"no such row"),
        ToUndoError::NotACommand => out.extend_from_slice(b"not a command"),
        ToUndoError::AlreadyUndone(by) => {
            out.extend_from_slice(b"undone by ")?;
            push_decimal(out, by as usize)
        }
        ToUndoError::OutOfMemory => out.extend_from_slice(b"out of memory"),
    }
}

fn answer(alloc: Global, row: &Row) -> Result<Vec<u8>, AllocError> {
    let history = played(alloc, &row.kind)?;
    let mut out = Vec::new(alloc);
    match order(alloc, &history, number(&row.one))? {
        Ok(numbers) => push_numbers(&mut out, &numbers)?,
        Err(error) => push_error(&mut out, error)?,
    }
    Ok(out)
}

#[test]
fn these_rows_must_be_undone(rt: HostRuntime) -> Result<(), Fail> {
    assert_rows(rt.alloc(), ROWS, answer)
}
