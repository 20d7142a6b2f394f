//! Questions about the history of a root: its log, and one row.
#![tactic(auto)]

mod log;
mod show;
mod shown_row;
mod zone;

pub use log::show_log;
pub use show::show_row;
