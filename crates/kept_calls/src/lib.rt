//! Calls on a root with a history, which are remembered there.
#![tactic(auto)]

mod committing;
mod fitting;
mod lines;
mod paths;
mod rounds;
mod running;
mod with_later;

pub use lines::{Wanted, check_operator, check_script, line_of_file, lines_of_calls, wanted_lines};
pub use running::run_on_kept;
