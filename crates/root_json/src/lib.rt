//! Rows, changes and answers as JSON, one object a line.
#![tactic(auto)]

mod answers;
mod changes;
mod lines;
mod logs;
mod notices;
mod objects;
mod refusals;
mod rows;
mod texts;
mod units;

pub use lines::{
    ErrorPlace, Summary, push_change, push_error, push_row, push_state, push_summary, push_unit,
    push_unit_file,
};
pub use logs::{KeptCall, push_log_row, push_shown_row};
pub use rows::CallPlace;
pub use units::{push_maker, push_unit_status, push_warning};
