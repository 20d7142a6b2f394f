//! What rows check about operations.
//!
//! A row is KIND, LINE, TREE and ANSWER. LINE is an operation as users write it, or two separated
//! by a comma, which are run one after the other (`Then`). TREE names one of the inventories given
//! with the rows; it is empty for the first of them.
//!
//! - `run`: what a command results in, with `- ` before an entry that is removed and `+ ` before
//!   one that is placed
//! - `ask`: the answer to a question
//! - `reads`: the keys that the operation looks at, each on a line
//! - `same`: whether LINE is the same operation as another line, which is there instead of TREE
//!
//! An answer has no line end after its last line.
use crate::lines::two_lines;
use crate::outcomes::outcome_text;
use crate::readings::keys_text;
use footprint::{Operation, Outcome};
use link_tree::{ToWrite, Tree, write_inventory};
use sample_rows::{Row, is};
use sample_values::tree;
use std::alloc::{AllocError, Global};
use two_operations::Then;

/// An operation that has a line.
pub(crate) trait OfLine: Operation {
    fn of_line(alloc: Global, line: &[u8]) -> Result<Self, AllocError>;
}

impl<A: OfLine, B: OfLine> OfLine for Then<A, B> {
    fn of_line(alloc: Global, line: &[u8]) -> Result<Then<A, B>, AllocError> {
        let (first, second) = two_lines(line);
        let first = A::of_line(alloc, first)?;
        let second = B::of_line(alloc, second)?;
        Ok(Then { first, second })
    }
}

/// What an operation results in, in a tree.
pub(crate) fn outcome<O: Operation>(
    alloc: Global,
    operation: &O,
    tree: &Tree,
) -> Result<Box<Outcome>, AllocError> {
    Ok(Box::new(alloc, operation.run(alloc, tree)?)?)
}

/// The inventory of a tree.
fn inventory_of(alloc: Global, tree: &Tree) -> Result<Vec<u8>, AllocError> {
    let mut text = Vec::new(alloc);
    match write_inventory(alloc, tree, &mut ToWrite::new(&mut text)) {
        Ok(()) => Ok(text),
        Err(_) => Err(AllocError),
    }
}

/// What an operation results in. If memory runs out, the operation and the tree are as they were,
/// and the operation is run again.
fn result_text<O: Operation>(
    alloc: Global,
    operation: &O,
    tree: &Tree,
) -> Result<Vec<u8>, AllocError> {
    let copy = operation.copy()?;
    let before = inventory_of(alloc, tree)?;
    if let Ok(outcome) = outcome(alloc, operation, tree) {
        return outcome_text(alloc, &outcome);
    }
    if !operation.same(&copy) || inventory_of(alloc, tree)? != before {
        return Vec::from_slice(alloc, b"what was given is changed");
    }
    let outcome = outcome(alloc, operation, tree)?;
    outcome_text(alloc, &outcome)
}

fn keys_read<O: Operation>(
    alloc: Global,
    operation: &O,
    tree: &Tree,
) -> Result<Vec<u8>, AllocError> {
    let outcome = outcome(alloc, operation, tree)?;
    keys_text(alloc, &outcome)
}

/// A copy of an operation. If memory runs out, the operation is the same as another of its line,
/// and is copied again; there is no copy if it isn't.
fn copy_of<O: Operation>(operation: &O, same: &O) -> Result<Option<O>, AllocError> {
    if let Ok(copy) = operation.copy() {
        return Ok(Some(copy));
    }
    if !operation.same(same) {
        return Ok(None);
    }
    Ok(Some(operation.copy()?))
}

/// Whether a copy of an operation is the same as another of its line, and is a question or not, as
/// `asks_only` says.
fn is_copied<O: Operation>(operation: &O, same: &O, asks_only: bool) -> Result<bool, AllocError> {
    match copy_of(operation, same)? {
        Some(copy) => Ok(copy.same(same) && copy.asks_only() == asks_only),
        None => Ok(false),
    }
}

/// What an operation results in, if it is copied and is a question or not, as `asks_only` says.
/// There is another operation of the same line.
pub(crate) fn checked_result<O: Operation>(
    alloc: Global,
    operation: &O,
    same: &O,
    tree: &Tree,
    asks_only: bool,
) -> Result<Vec<u8>, AllocError> {
    if is_copied(operation, same, asks_only)? {
        result_text(alloc, operation, tree)
    } else {
        Vec::from_slice(alloc, b"another copy")
    }
}

fn answered<O: Operation>(
    alloc: Global,
    kind: &[u8],
    operation: &O,
    same: &O,
    tree: &Tree,
) -> Result<Vec<u8>, AllocError> {
    if kind == b"run".as_slice() {
        checked_result(alloc, operation, same, tree, false)
    } else if kind == b"ask".as_slice() {
        checked_result(alloc, operation, same, tree, true)
    } else if kind == b"reads".as_slice() {
        keys_read(alloc, operation, tree)
    } else {
        Vec::from_slice(alloc, b"no such kind of row")
    }
}

/// Whether two operations are the same, either way, and so is the copy of the first.
fn same_text<O: Operation>(one: &O, other: &O, copy: &O) -> &'static [u8] {
    let same = one.same(other);
    if !copy.same(one) {
        b"another copy"
    } else if other.same(one) != same || copy.same(other) != same {
        b"one way"
    } else if same {
        b"yes"
    } else {
        b"no"
    }
}

/// The same, for the copy of an operation of which there is another of the same line.
fn compared<O: Operation>(
    alloc: Global,
    one: &O,
    same: &O,
    other: &O,
) -> Result<Vec<u8>, AllocError> {
    match copy_of(one, same)? {
        Some(copy) => Vec::from_slice(alloc, same_text(one, other, &copy)),
        None => Vec::from_slice(alloc, b"what was given is changed"),
    }
}

fn compared_lines<O: OfLine>(
    alloc: Global,
    line: &[u8],
    other: &[u8],
) -> Result<Vec<u8>, AllocError> {
    let one = O::of_line(alloc, line)?;
    let same = O::of_line(alloc, line)?;
    let other = O::of_line(alloc, other)?;
    compared(alloc, &one, &same, &other)
}

fn asked_in<O: OfLine>(alloc: Global, row: &Row, tree: &Tree) -> Result<Vec<u8>, AllocError> {
    let operation = O::of_line(alloc, &row.one)?;
    let same = O::of_line(alloc, &row.one)?;
    answered(alloc, &row.kind, &operation, &same, tree)
}

/// The answer to a row about an operation and the tree of an inventory.
pub(crate) fn asked<O: OfLine>(
    alloc: Global,
    row: &Row,
    inventory: &[u8],
) -> Result<Vec<u8>, AllocError> {
    if is(row, b"same") {
        return compared_lines::<O>(alloc, &row.one, &row.two);
    }
    let tree = tree(alloc, inventory)?;
    asked_in::<O>(alloc, row, &tree)
}

/// The answer to a row whose line has none of the verbs.
pub(crate) fn no_such_verb(alloc: Global) -> Result<Vec<u8>, AllocError> {
    Vec::from_slice(alloc, b"no such verb here")
}
