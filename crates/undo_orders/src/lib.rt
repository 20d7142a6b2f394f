//! Which rows of a history must be undone so that one of them can be, and in which order.
#![tactic(auto)]

mod laws;
mod orders;

pub use laws::{each_is_necessary, order_is_accepted};
pub use orders::{ToUndoError, rows_to_undo};
