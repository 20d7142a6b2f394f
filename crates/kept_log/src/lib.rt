//! The log of a history: which of its rows are shown, the run of each, the lines of their calls, and
//! the table of them.
#![tactic(auto)]

mod filter;
mod lines;
mod of_units;
mod runs;
mod selection;
mod table;

pub use filter::Filter;
pub use lines::call_lines;
pub use of_units::{changes_of, concerns};
pub use runs::{RunPlace, next_run, run_of_row};
pub use selection::rows_of_log;
pub use table::{LogLine, push_log};
