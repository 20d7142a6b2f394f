//! Scripts of unit-file commands: from an inventory and a script to a reply for each call and the
//! resulting inventory.
#![tactic(auto)]

mod action;
mod call;
mod laws;
mod lines;
mod reason;
mod reply;
mod requests;
mod run_fault;
mod running;
mod script;
mod words;

pub use action::Action;
pub use call::Call;
pub use laws::a_script_is_its_lines;
pub use lines::{call_of_line, call_of_words, words_of};
pub use reason::{Reason, ScriptFault};
pub use reply::{
    changes_at, is_success, number_asked, push_changes, push_refusal, push_row, push_rows,
    state_text,
};
pub use run_fault::{InputError, InputFault, RunFault};
pub use running::{Input, history_of, read_input, run, write_history};
pub use script::{MAX_LINE, MAX_LINES, read_script};
