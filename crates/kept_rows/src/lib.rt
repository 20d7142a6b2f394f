//! The rows of a history that is kept with a root: what others did to the root since the last run,
//! the lines by which a run is written, and the text of the history, which is an input of
//! `unitadm`.
#![tactic(auto)]

mod kinds;
mod laws;
mod lines;
mod lines_of_others;
mod others;

pub use kinds::{LineKind, line_kind};
pub use laws::{
    a_history_is_an_input, comments_are_skipped, first_tree_may_change, lines_are_read,
    lines_of_undo_and_redo_are_read, others_are_written, others_block, others_hinder, others_lead,
    others_leave_free, redos_are_appended,
};
pub use lines::{can_be_word, push_line};
pub use lines_of_others::{can_be_written, push_lines_of_others};
pub use others::calls_of_others;
