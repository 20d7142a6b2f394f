//! The outcome of an operation.

use crate::answer::Answer;
use crate::changes::Changes;
use tree_access::Reading;

/// The outcome of an operation on a tree: its answer, what it would change there, and what it
/// looked at. The tree itself stays as it is.
#[derive(Debug, Drop)]
pub struct Outcome {
    pub answer: Answer,
    pub changes: Changes,
    pub reading: Reading,
}
