//! Calls.

use crate::action::Action;
use history::{Operator, Request};

/// One line of a script: the operator, and the command, the question, or the undo or redo of a row
/// that the operator requests.
#[derive(Debug, Drop)]
pub struct Call {
    pub operator: Operator,
    pub request: Request<Action>,
}
