//! Runs on a root with a kept history: the history's text with its rows, what others did since the
//! last run, the calls of a run, and how these reach a disk.
#![tactic(auto)]

mod committing;
mod errors;
mod keeping;
mod kept;
mod laws;
mod lines;
mod making;
mod others;
mod reading;
mod rebasing;
mod rows;
mod saying;

pub use committing::{commit, commit_others, recover};
pub use errors::{KeptError, LinesError, OthersError};
pub use keeping::KeepIf;
pub use kept::Kept;
pub use laws::runs_on_kept_roots_are_whole;
