//! What rows that come later do to the undo and the redo of a row, and rows on another first tree.
#![tactic(auto)]

mod laws;

pub use laws::{
    later_readers_block, later_readers_hinder, other_rows_leave_free, rows_hold_on_another_tree,
};
