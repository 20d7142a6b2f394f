//! Calls on a root without a history, and what a run of calls prints.
#![tactic(auto)]

mod json;
mod made;
mod missing;
mod placing;
mod plain;
mod preset_calls;
mod presets;
mod report;
mod statics;

pub use made::Made;
pub use placing::{call_for_input, path_for_input, path_of};
pub use plain::{run_all_in_mode, run_calls, run_in_mode};
pub use presets::{choose_all, left_out_text, mode_of, units_in_mode};
pub use report::{Report, is_question, print_report, report_of};
