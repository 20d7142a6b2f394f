//! The rows of all calls on a tree, plans that are made on one tree and committed to another, undo
//! of any row that no later one blocks, and redo of any undone row that no row hinders.
#![tactic(auto)]

mod history;
mod laws;
mod operator;
mod plan;
mod row;
mod toggles;

pub use history::{CallError, History, MAX_ROWS, Unrun};
pub use laws::{agreed_plans_are_new, survivors_alone_remain};
pub use operator::{BadOperator, Operator};
pub use plan::{Commit, Plan, Uncommitted};
pub use row::{RedoRefusal, Request, Row, RowReply, UndoRefusal};
